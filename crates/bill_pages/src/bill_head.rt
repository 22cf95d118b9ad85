//! What stands above the tables of a bill's page: whose bill it is, of which days, and what is
//! owed.

ghost use Rattle.std.specs.Prelude.{◌≡◌, ◌++◌, flat_map, option_map, string_bytes};
ghost use Rattle.std.specs.Fmt.{decimal};
ghost use Rattle.std.specs.Option.{ForSome};
ghost use Rattle.csv.specs.Records.{fields_of};
ghost use Rattle.book_model.specs.Words.{IsDay};
ghost use Rattle.bill_texts.specs.Sheets.{part_shown};
ghost use Rattle.report_texts.specs.Columns.{amount_text};
ghost use Rattle.bill_pages.specs.BillPages as spec;
ghost use Rattle.bill_pages.specs.Grouped.{grouped};

use crate::grouped::{push_figure, push_made_figure};
use crate::page_style::{push_bill_style, push_credit_style};
use bill_texts::{Layout, Part, text_at};
use book_model::HeldBack;
use csv::StringRecord;
use html_text::push_escaped;
use page_texts::{push_head_start, push_office_name};
use report_texts::push_amount;
use smf_text::Name;
use tariff_rules::Letterhead;
use text_drafts::{Draft, RowDraft};

/// Whose bill it is, and of which days.
#[derive(Clone, Copy)]
pub struct PageHead<'a> {
    /// The number of the period.
    pub period: u16,
    /// The centre, `None` for the whole office.
    pub centre: Option<Name>,
    /// The first day of the period, `None` where it has none yet.
    pub first: Option<i32>,
    /// The day that it was closed through, `None` if it is open.
    pub through: Option<i32>,
    /// What is held back in dispute, while it is open.
    pub held: Option<HeldBack>,
    /// What the last tariff says of the office.
    pub letterhead: &'a Letterhead,
}

/// Appends a centre after a mark, where one is named.
fn push_centre_after(out: &mut Draft, mark: &str, centre: Option<Name>)
    ensures { out.new ≡ out.old ++ spec.centre_after mark.now centre }
{
    match centre {
        None => {}
        Some(centre) => {
            out.push_str(mark);
            push_escaped(out, centre.text());
        }
    }
}

/// Appends the word for a bill, by the day that its period was closed through.
fn push_bill_word(out: &mut Draft, through: Option<i32>)
    ensures { out.new ≡ out.old ++ spec.bill_word through }
{
    match through {
        None => out.push_str("Draft of bill "),
        Some(_) => out.push_str("Bill "),
    }
}

/// Appends what a bill is called.
#[tactic(auto, unfolding(crate::specs::BillPages::bill_name))]
pub(crate) fn push_bill_name(out: &mut Draft, head: &PageHead<'_>)
    ensures { out.new ≡ out.old ++ spec.bill_name (spec.head_shown head.now) }
{
    push_bill_word(out, head.through);
    out.push_number(u64::from(head.period));
    push_centre_after(out, "-", head.centre);
}

/// Appends what the paths of its texts end with.
#[tactic(auto, unfolding(crate::specs::BillPages::bill_path))]
pub(crate) fn push_bill_path(out: &mut Draft, head: &PageHead<'_>)
    ensures { out.new ≡ out.old ++ spec.bill_path (spec.head_shown head.now) }
{
    out.push_number(u64::from(head.period));
    push_centre_after(out, "/", head.centre);
}

/// Appends what stands above the page's own text.
#[tactic(auto, unfolding(crate::specs::BillPages::page_start))]
pub(crate) fn push_page_start(out: &mut Draft, name: &Draft, sums: Layout)
    ensures { out.new ≡ out.old ++ spec.page_start name.now sums }
{
    push_head_start(out);
    out.push_draft(name);
    out.push_str("</title>\n<style>\n");
    push_bill_style(out);
    push_credit_style(out, sums);
    out.push_str("@page{@bottom-left{content:'");
    out.push_draft(name);
    out.push_str("'}}\n</style>\n</head>\n<body>\n<main>\n");
}

/// Appends whose bill it is.
#[tactic(auto, unfolding(crate::specs::BillPages::centre_page))]
fn push_centre(out: &mut Draft, centre: Option<Name>)
    ensures { out.new ≡ out.old ++ spec.centre_page centre }
{
    match centre {
        None => out.push_str("All centres"),
        Some(centre) => push_escaped(out, centre.text()),
    }
}

/// Appends the first day, if the period has begun.
#[tactic(auto, unfolding(crate::specs::BillPages::first_page))]
fn push_first(out: &mut Draft, first: Option<i32>)
    requires { ForSome first IsDay }
    ensures { out.new ≡ out.old ++ spec.first_page first }
{
    let Some(day) = first else {
        return;
    };
    out.push_str(" from ");
    out.push_day(day);
}

/// Appends the last day, or that the period is open.
#[tactic(auto, unfolding(crate::specs::BillPages::state_page))]
fn push_state(out: &mut Draft, through: Option<i32>)
    requires { ForSome through IsDay }
    ensures { out.new ≡ out.old ++ spec.state_page through }
{
    let Some(day) = through else {
        out.push_str("<b>open: this draft may still change</b>");
        return;
    };
    out.push_str("closed through ");
    out.push_day(day);
}

/// Appends all of these.
#[tactic(auto, unfolding(crate::specs::BillPages::head_page))]
pub(crate) fn push_head(out: &mut Draft, name: &Draft, head: &PageHead<'_>)
    requires first { ForSome head.now.first IsDay }
    requires through { ForSome head.now.through IsDay }
    ensures { out.new ≡ out.old ++ spec.head_page name.now (spec.head_shown head.now) }
{
    out.push_str("<header>\n<p>");
    push_office_name(out, "Chargeback", &head.letterhead.office);
    out.push_str("</p>\n<p>");
    out.push_draft(name);
    out.push_str("</p>\n</header>\n<h1>");
    push_centre(out, head.centre);
    out.push_str("</h1>\n<p>Period ");
    out.push_number(u64::from(head.period));
    push_first(out, head.first);
    out.push_str(", ");
    push_state(out, head.through);
    out.push_str("</p>\n");
}

/// Appends the currency, if there is one.
#[tactic(auto, unfolding(crate::specs::BillPages::currency_page))]
fn push_currency(out: &mut Draft, currency: &Option<String>)
    ensures { out.new ≡ out.old
        ++ spec.currency_page (option_map (λ text. string_bytes text) currency.now) }
{
    match currency {
        None => {}
        Some(currency) => {
            out.push_str(" <small>");
            push_escaped(out, currency.as_str());
            out.push_str("</small>");
        }
    }
}

/// Appends a sum with its currency.
#[tactic(auto, unfolding(crate::specs::BillPages::main_sum))]
fn push_main_sum(out: &mut Draft, word: &str, figure: &str, currency: &Option<String>)
    ensures { out.new ≡ out.old ++ spec.main_sum word.now figure.now
        (option_map (λ text. string_bytes text) currency.now) }
{
    out.push_str("<div class='sum'><dt>");
    out.push_str(word);
    out.push_str("</dt><dd>");
    push_figure(out, figure);
    push_currency(out, currency);
    out.push_str("</dd></div>\n");
}

/// Appends one of the other sums.
#[tactic(auto, unfolding(crate::specs::BillPages::other_sum))]
fn push_other_sum(out: &mut Draft, word: &str, figure: &str)
    ensures { out.new ≡ out.old ++ spec.other_sum word.now figure.now }
{
    out.push_str("<div><dt>");
    out.push_str(word);
    out.push_str("</dt><dd>");
    push_figure(out, figure);
    out.push_str("</dd></div>\n");
}

/// Appends what is credited, where the sums have a column of it.
#[tactic(auto, unfolding(crate::specs::BillPages::credits_sum))]
fn push_credits_sum(out: &mut Draft, layout: Layout, row: &StringRecord)
    ensures { out.new ≡ out.old ++ spec.credits_sum layout (fields_of row.now) }
{
    match layout {
        Layout::CreditedSums => push_other_sum(out, "Credits", text_at(row, 6)),
        _ => {}
    }
}

/// Appends what is owed and booked, and of what.
#[tactic(auto, unfolding(crate::specs::BillPages::box_start))]
fn push_sums(out: &mut Draft, currency: &Option<String>, row: &StringRecord)
    ensures { out.new ≡ out.old
        ++ spec.box_start (option_map (λ text. string_bytes text) currency.now)
        (fields_of row.now) }
{
    out.push_str("<dl>\n");
    push_main_sum(out, "Owed", text_at(row, 4), currency);
    push_main_sum(out, "Booked", text_at(row, 5), currency);
    push_other_sum(out, "Charged", text_at(row, 1));
    push_other_sum(out, "Late", text_at(row, 2));
    push_other_sum(out, "Reversed", text_at(row, 3));
}

/// Appends these, if there was memory to make them.
fn push_made_sums(out: &mut Draft, currency: &Option<String>, row: &RowDraft)
    ensures { out.new ≡ out.old
        ++ spec.box_start (option_map (λ text. string_bytes text) currency.now) row.now }
{
    match row.whole() {
        Some(fields) => push_sums(out, currency, fields),
        None => out.leave_out(&(currency, row)),
    }
}

/// Appends what is credited, if there was memory to make it.
fn push_made_credits(out: &mut Draft, layout: Layout, row: &RowDraft)
    ensures { out.new ≡ out.old ++ spec.credits_sum layout row.now }
{
    match row.whole() {
        Some(fields) => push_credits_sum(out, layout, fields),
        None => out.leave_out(&(layout, row)),
    }
}

/// Appends the box of sums.
#[tactic(auto, unfolding(crate::specs::BillPages::sums_box))]
fn push_box(out: &mut Draft, currency: &Option<String>, layout: Layout, row: &RowDraft)
    ensures { out.new ≡ out.old
        ++ spec.sums_box (option_map (λ text. string_bytes text) currency.now) layout row.now }
{
    push_made_sums(out, currency, row);
    push_made_credits(out, layout, row);
    out.push_str("</dl>\n");
}

/// Appends that of each row.
#[tactic(auto, using(std::proofs::lemmas::List::flat_map_more))]
fn push_boxes(out: &mut Draft, currency: &Option<String>, layout: Layout, rows: &[RowDraft])
    ensures { out.new ≡ out.old ++ flat_map
        (spec.sums_box (option_map (λ text. string_bytes text) currency.now) layout) rows.now }
{
    for row in rows {
        push_box(out, currency, layout, row);
    }
}

/// Appends the box of the sums of all centres, or of the one.
pub(crate) fn push_box_of(out: &mut Draft, currency: &Option<String>, sums: &Part)
    ensures { out.new ≡ out.old
        ++ spec.box_of (option_map (λ text. string_bytes text) currency.now)
        (part_shown sums.now).layout (part_shown sums.now).rows (part_shown sums.now).total }
{
    match &sums.total {
        None => push_boxes(out, currency, sums.layout, &sums.rows),
        Some(row) => push_box(out, currency, sums.layout, row),
    }
}

/// Appends a number in thousands.
fn push_count(out: &mut Draft, number: u64)
    ensures { out.new ≡ out.old ++ grouped (decimal number) }
{
    let mut figure = Draft::new(out.alloc());
    figure.push_number(number);
    push_made_figure(out, &figure);
}

/// Appends an amount in thousands.
fn push_money(out: &mut Draft, amount: u64)
    ensures { out.new ≡ out.old ++ grouped (amount_text amount) }
{
    let mut figure = Draft::new(out.alloc());
    push_amount(&mut figure, amount);
    push_made_figure(out, &figure);
}

/// Appends what is held back in dispute.
#[tactic(auto, unfolding(crate::specs::BillPages::held_page))]
pub(crate) fn push_held(out: &mut Draft, held: Option<HeldBack>)
    ensures { out.new ≡ out.old ++ spec.held_page held }
{
    let Some(held) = held else {
        return;
    };
    out.push_str("<p class='note'>Disputes: ");
    push_count(out, held.disputes);
    out.push_str(". They hold back at least ");
    push_money(out, held.least);
    out.push_str(" and at most ");
    push_money(out, held.greatest);
    out.push_str(".</p>\n");
}
