//! The pictures of a period's page: its cost by day, and by centre.

ghost use Rattle.std.specs.Prelude.{◌≡◌, ◌++◌, All, IfOk, map};
ghost use Rattle.book_model.specs.Words.{AreLines, AreRows, IsDay, credit_shown};
ghost use Rattle.report_texts.specs.Charges as charged;
ghost use Rattle.report_texts.specs.Charges.{owed_text};
ghost use Rattle.page_texts.specs.Bars.{greatest};
ghost use Rattle.page_texts.specs.Markup.{cell};
ghost use Rattle.page_texts.specs.PeriodPictures as spec;

use crate::amounts::push_signed;
use crate::bars::{push_bar_cells, push_bar_row};
use crate::frame::push_table_end;
use crate::markup::push_money_cell;
use book_model::{ChargeRow, Credit, Line};
use html_text::push_escaped;
use report_texts::{CentreCharges, Charges, each_charges, plain_credits, push_credits};
use std::alloc::{AllocError, Global};
use text_drafts::Draft;

/// The other headings of days, and where their rows begin.
const DAY_COLUMNS: &str = "</tr></thead>\n<tbody>";

/// Those of centres, before one of credits and behind it.
const CENTRE_COLUMNS: &str = "<th scope='col'>Late</th><th scope='col'>Reversed</th>";

const OWED_COLUMN: &str = "<th scope='col'>Owed</th></tr></thead>\n<tbody>";

/// Appends what stands above the bars, under a caption and the heading of the first column.
fn push_bars_head(out: &mut Draft, caption: &str, heading: &str)
    ensures { out.new ≡ out.old ++ spec.bars_head caption.now heading.now }
{
    out.push_str("<div class='scroll'>\n<table class='bars'>\n<caption>");
    out.push_str(caption);
    out.push_str("</caption>\n<thead><tr><th scope='col'>");
    out.push_str(heading);
    out.push_str("</th><th scope='col'>Cost</th><th scope='col'>Charged</th>");
}

/// Appends the other headings of days.
#[tactic(auto, unfolding(crate::specs::PeriodPictures::day_columns))]
fn push_day_columns(out: &mut Draft)
    ensures { out.new ≡ out.old ++ spec.day_columns }
{
    out.push_str(DAY_COLUMNS);
}

/// Appends that of credits, where there is one.
#[tactic(auto, unfolding(crate::specs::PeriodPictures::credits_column))]
fn push_credits_column(out: &mut Draft, credited: bool)
    ensures { out.new ≡ out.old ++ spec.credits_column credited }
{
    if credited {
        out.push_str("<th scope='col'>Credits</th>");
    }
}

/// Appends those of centres.
fn push_centre_columns(out: &mut Draft, credited: bool)
    ensures { out.new ≡ out.old ++ spec.centre_columns credited }
{
    out.push_str(CENTRE_COLUMNS);
    push_credits_column(out, credited);
    out.push_str(OWED_COLUMN);
}

/// What the day that costs most is charged.
fn greatest_day(costs: &[(i32, u64)]) -> u64
    ensures { result ≡ greatest (λ cost. cost.1) costs.now }
{
    let mut most = 0;
    for cost in costs {
        most = if most < cost.1 { cost.1 } else { most };
    }
    most
}

/// Appends the rows of days, by what each costs.
#[tactic(auto, using(std::proofs::lemmas::List::flat_map_more))]
fn push_day_rows(out: &mut Draft, costs: &[(i32, u64)])
    requires { All (λ cost. IsDay cost.0) costs.now }
    ensures { out.new ≡ out.old ++ spec.day_rows costs.now }
{
    let most = greatest_day(costs);
    for cost in costs {
        let mut label = Draft::new(out.alloc());
        label.push_day(cost.0);
        push_bar_row(out, most, &label, cost.1);
    }
}

/// What each centre is charged that has rows, lines or credits. Rows are not told apart here: all of
/// them stand as those of steps do on a bill.
pub(crate) fn centre_costs(
    alloc: Global,
    rows: &[ChargeRow],
    lines: &[Line],
    credits: &[Credit],
) -> Result<Vec<CentreCharges>, AllocError>
    requires rows { AreRows rows.now }
    requires lines { AreLines lines.now }
    requires credits { charged.FitCredits (charged.plain_credits (map credit_shown credits.now)) }
    ensures { IfOk result (λ costs. costs.items
        ≡ spec.charges_by_centre rows.now lines.now (map credit_shown credits.now)) }
{
    let plain = plain_credits(alloc, credits)?;
    each_charges(alloc, rows, &[], lines, &plain)
}

/// What the centre that costs most is charged.
fn greatest_centre(costs: &[CentreCharges]) -> u64
    ensures { result ≡ greatest (λ cost. cost.charges.steps) costs.now }
{
    let mut most = 0;
    for cost in costs {
        let charged = cost.charges.steps;
        most = if most < charged { charged } else { most };
    }
    most
}

/// Appends a cell of what is credited, where there is a column of that.
#[tactic(auto, unfolding(crate::specs::Markup::cell, crate::specs::PeriodPictures::credits_cell))]
fn push_credits_cell(out: &mut Draft, credited: bool, charges: &Charges)
    ensures { out.new ≡ out.old ++ spec.credits_cell credited charges.now }
{
    if credited {
        out.push_str("<td>");
        push_credits(out, charges);
        out.push_str("</td>");
    }
}

/// Appends a cell of what is owed.
#[tactic(auto, unfolding(crate::specs::Markup::cell, report_texts::specs::Charges::owed_text))]
fn push_owed_cell(out: &mut Draft, charges: &Charges)
    ensures { out.new ≡ out.old ++ cell (owed_text charges.now) }
{
    let work = u128::from(charges.steps) + u128::from(charges.jobs);
    let charged = work + u128::from(charges.late) + u128::from(charges.debited);
    let taken = u128::from(charges.reversed) + u128::from(charges.credited);
    out.push_str("<td>");
    push_signed(out, charged, taken);
    out.push_str("</td>");
}

/// Appends the row of a centre, whose bar has the whole width where it is charged the most.
#[tactic(auto, unfolding(crate::specs::PeriodPictures::centre_row))]
fn push_centre_row(out: &mut Draft, credited: bool, most: u64, cost: &CentreCharges)
    ensures { out.new ≡ out.old ++ spec.centre_row credited most cost.now }
{
    let mut label = Draft::new(out.alloc());
    push_escaped(&mut label, cost.centre.text());
    out.push_str("<tr>");
    push_bar_cells(out, most, &label, cost.charges.steps);
    push_money_cell(out, cost.charges.late);
    push_money_cell(out, cost.charges.reversed);
    push_credits_cell(out, credited, &cost.charges);
    push_owed_cell(out, &cost.charges);
    out.push_str("</tr>\n");
}

/// Appends the rows of centres, by what each is charged.
#[tactic(auto, using(std::proofs::lemmas::List::flat_map_more))]
fn push_centre_rows(out: &mut Draft, credited: bool, costs: &[CentreCharges])
    ensures { out.new ≡ out.old ++ spec.centre_rows credited costs.now }
{
    let most = greatest_centre(costs);
    for cost in costs {
        push_centre_row(out, credited, most, cost);
    }
}

/// Appends the picture of what days cost.
#[tactic(auto, unfolding(crate::specs::PeriodPictures::day_table))]
pub(crate) fn push_day_table(out: &mut Draft, costs: &[(i32, u64)])
    requires { All (λ cost. IsDay cost.0) costs.now }
    ensures { out.new ≡ out.old ++ spec.day_table costs.now }
{
    push_bars_head(out, "Cost by day", "Day");
    push_day_columns(out);
    push_day_rows(out, costs);
    push_table_end(out);
}

/// Appends the picture of what centres cost, with a column of credits or without.
pub(crate) fn push_centre_table(out: &mut Draft, credited: bool, costs: &[CentreCharges])
    ensures { out.new ≡ out.old ++ spec.centre_table credited costs.now }
{
    push_bars_head(out, "Cost by centre", "Centre");
    push_centre_columns(out, credited);
    push_centre_rows(out, credited, costs);
    push_table_end(out);
}
