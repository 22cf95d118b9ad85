//! The page of the office: its periods, the open one first, and what each centre costs in each.

ghost use Rattle.std.specs.Prelude.{◌≡◌, ◌++◌, All, IfOk, map, string_bytes};
ghost use Rattle.std.specs.Option.{ForSome};
ghost use Rattle.book_model.specs.Words.{IsDay, letterhead_shown};
ghost use Rattle.report_texts.specs.Periods.{head_text};
ghost use Rattle.page_texts.specs.Bars.{greatest};
ghost use Rattle.page_texts.specs.Figures.{figures_seen, owed_text};
ghost use Rattle.page_texts.specs.Markup.{bill_link, cell};
ghost use Rattle.page_texts.specs.OfficePage as spec;

use crate::amounts::push_head;
use crate::bars::{PICTURE_START, push_centre_bars};
use crate::centres::all_centres;
use crate::closes::close_of;
use crate::figures::{PeriodFigures, push_owed};
use crate::frame::{push_page_start, push_table_end};
use crate::legend::push_legend;
use crate::letterheads::{push_currency_figure, push_office_name};
use crate::markup::{push_money_cell, push_number_cell, push_period_cell};
use smf_text::Name;
use std::alloc::{AllocError, Global};
use tariff_rules::Letterhead;
use text_drafts::Draft;

/// What stands above the rows of periods.
const PERIODS_HEAD: &str = "\
    <div class='scroll'>\n<table class='office'>\n<caption>Periods</caption>\n<thead><tr>\
    <th scope='col'>Period</th><th scope='col'>State</th><th scope='col'>Records</th>\
    <th scope='col'>Charged</th><th scope='col'>Added</th><th scope='col'>Reversed</th>\
    <th scope='col'>Owed</th></tr></thead>\n<tbody>";

/// What stands above the pictures.
const COST_HEAD: &str = "\
    <div class='scroll'>\n<table class='bars'>\n<caption>Cost by centre</caption>\n<thead><tr>\
    <th scope='col'>Period</th><th scope='col'>Cost</th><th scope='col'>Charged</th>\
    </tr></thead>\n<tbody>";

/// The links to what is said of all periods, and the end of the page.
const OFFICE_FOOT: &str = "\
    <nav aria-label='Texts'>\n<a href='/periods'>periods</a>\n<a href='/rulings'>rulings</a>\n\
    <a href='/disputes'>disputes</a>\n<a href='/disputes-csv'>disputes-csv</a>\n</nav>\n\
    </main>\n</body>\n</html>\n";

/// Appends a cell that says whether a period is open.
#[tactic(auto, unfolding(crate::specs::Markup::cell))]
fn push_state_cell(out: &mut Draft, through: Option<i32>)
    requires { ForSome through IsDay }
    ensures { out.new ≡ out.old ++ cell (head_text through) }
{
    out.push_str("<td>");
    push_head(out, through);
    out.push_str("</td>");
}

/// Appends what is owed, which leads to the bill.
#[tactic(auto, unfolding(crate::specs::Markup::bill_link))]
fn push_bill_link(out: &mut Draft, period: u64, figures: &PeriodFigures)
    ensures { out.new ≡ out.old ++ bill_link period (owed_text (figures_seen figures.now)) }
{
    out.push_str("<a href='/bill/");
    out.push_number(period);
    out.push_str("'>");
    push_owed(out, figures);
    out.push_str("</a>");
}

/// Appends a cell of that.
#[tactic(auto, unfolding(crate::specs::Markup::cell))]
fn push_owed_cell(out: &mut Draft, period: u64, figures: &PeriodFigures)
    ensures { out.new
        ≡ out.old ++ cell (bill_link period (owed_text (figures_seen figures.now))) }
{
    out.push_str("<td>");
    push_bill_link(out, period, figures);
    out.push_str("</td>");
}

/// Appends the row of a period: its number, whether it is open, how many records it counts, and its
/// amounts.
#[tactic(auto, unfolding(crate::specs::OfficePage::office_row, crate::specs::Markup::table_row))]
fn push_office_row(out: &mut Draft, period: u64, through: Option<i32>, figures: &PeriodFigures)
    requires { ForSome through IsDay }
    ensures { out.new ≡ out.old ++ spec.office_row period through (figures_seen figures.now) }
{
    out.push_str("<tr>");
    push_period_cell(out, period);
    push_state_cell(out, through);
    push_number_cell(out, figures.records);
    push_money_cell(out, figures.charged);
    push_money_cell(out, figures.added);
    push_money_cell(out, figures.reversed);
    push_owed_cell(out, period, figures);
    out.push_str("</tr>\n");
}

/// Appends the rows of periods, the last one first.
fn push_office_rows(out: &mut Draft, closes: &[i32], periods: &[PeriodFigures])
    requires { All IsDay closes.now }
    ensures { out.new
        ≡ out.old ++ spec.office_rows closes.now (map figures_seen periods.now) }
{
    let mut left = periods.len();
    while left > 0 {
        let through = close_of(closes, left);
        let figures = &periods[left - 1];
        push_office_row(out, left as u64, through, figures);
        left -= 1;
    }
}

/// Appends the picture of a period: what each of these centres costs in it.
fn push_cost_picture(
    out: &mut Draft,
    most: u64,
    centres: &[Name],
    period: u64,
    figures: &PeriodFigures,
)
    ensures { out.new ≡ out.old
        ++ spec.cost_picture (spec.cost_label period) most centres.now (figures_seen figures.now) }
{
    out.push_str(PICTURE_START);
    out.push_str("Period ");
    out.push_number(period);
    out.push_str(" by centre'>");
    push_centre_bars(out, most, &figures.costs, centres);
    out.push_str("</svg>");
}

/// Appends the row of a period: its number, its picture, and what its statement comes to.
#[tactic(auto, unfolding(crate::specs::OfficePage::cost_row, crate::specs::Markup::table_row, crate::specs::Markup::cell))]
fn push_cost_row(out: &mut Draft, most: u64, centres: &[Name], period: u64, figures: &PeriodFigures)
    ensures { out.new
        ≡ out.old ++ spec.cost_row most centres.now period (figures_seen figures.now) }
{
    out.push_str("<tr>");
    push_period_cell(out, period);
    out.push_str("<td>");
    push_cost_picture(out, most, centres, period, figures);
    out.push_str("</td>");
    push_money_cell(out, figures.charged);
    out.push_str("</tr>\n");
}

/// Appends the rows of periods, the last one first.
fn push_cost_rows(out: &mut Draft, most: u64, centres: &[Name], periods: &[PeriodFigures])
    ensures { out.new
        ≡ out.old ++ spec.cost_rows most centres.now (map figures_seen periods.now) }
{
    let mut left = periods.len();
    while left > 0 {
        let figures = &periods[left - 1];
        push_cost_row(out, most, centres, left as u64, figures);
        left -= 1;
    }
}

/// What the period that costs most is charged.
fn greatest_charged(periods: &[PeriodFigures]) -> u64
    ensures { result ≡ greatest (λ figures. figures.charged) (map figures_seen periods.now) }
{
    let mut most = 0;
    for figures in periods {
        most = if most < figures.charged {
            figures.charged
        } else {
            most
        };
    }
    most
}

/// Appends what stands above the tables: the office's name, the currency, and how many disputes are
/// open.
fn push_office_head(out: &mut Draft, letterhead: &Letterhead, disputes: u64)
    ensures { out.new
        ≡ out.old ++ spec.office_head (letterhead_shown letterhead.now) disputes }
{
    out.push_str("<header>\n<p>");
    push_office_name(out, "Chargeback", &letterhead.office);
    out.push_str("</p>\n<h1>Office</h1>\n</header>\n<dl>\n");
    push_currency_figure(out, &letterhead.currency);
    out.push_str("<div><dt>Disputes</dt><dd>");
    out.push_number(disputes);
    out.push_str("</dd></div>\n</dl>\n");
}

/// Appends what stands above the rows of periods.
#[tactic(auto, unfolding(crate::specs::OfficePage::periods_head))]
fn push_periods_head(out: &mut Draft)
    ensures { out.new ≡ out.old ++ spec.periods_head }
{
    out.push_str(PERIODS_HEAD);
}

/// Appends what stands above the pictures.
#[tactic(auto, unfolding(crate::specs::OfficePage::cost_head))]
fn push_cost_head(out: &mut Draft)
    ensures { out.new ≡ out.old ++ spec.cost_head }
{
    out.push_str(COST_HEAD);
}

/// Appends the links to what is said of all periods, and the end of the page.
#[tactic(auto, unfolding(crate::specs::OfficePage::office_foot))]
fn push_office_foot(out: &mut Draft)
    ensures { out.new ≡ out.old ++ spec.office_foot }
{
    out.push_str(OFFICE_FOOT);
}

/// Appends the pictures of all periods, of these centres, and their legend.
#[tactic(auto, unfolding(crate::specs::OfficePage::cost_table))]
fn push_cost_table(out: &mut Draft, centres: &[Name], periods: &[PeriodFigures])
    ensures { out.new
        ≡ out.old ++ spec.cost_table centres.now (map figures_seen periods.now) }
{
    push_cost_head(out);
    push_cost_rows(out, greatest_charged(periods), centres, periods);
    push_table_end(out);
    push_legend(out, centres);
}

/// The page of the office: by what the last tariff of the open period says of the office, how many
/// disputes are open, the days through which periods were closed, in order, and the figures of all
/// periods from 1 on, the open one last.
#[tactic(auto, unfolding(crate::specs::OfficePage::cost_part))]
pub fn office_page(
    alloc: Global,
    letterhead: &Letterhead,
    disputes: u64,
    closes: &[i32],
    periods: &[PeriodFigures],
) -> Result<String, AllocError>
    requires { All IsDay closes.now }
    ensures { IfOk result (λ page. string_bytes page
        ≡ spec.office_page_text (letterhead_shown letterhead.now) disputes closes.now
        (map figures_seen periods.now)) }
{
    let centres = all_centres(alloc, periods)?;
    let mut title = Draft::new(alloc);
    title.push_str("Office");
    let mut page = Draft::new(alloc);
    push_page_start(&mut page, &title);
    push_office_head(&mut page, letterhead, disputes);
    push_periods_head(&mut page);
    push_office_rows(&mut page, closes, periods);
    push_table_end(&mut page);
    push_cost_table(&mut page, &centres, periods);
    push_office_foot(&mut page);
    page.finish()
}
