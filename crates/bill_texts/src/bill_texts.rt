//! Bills as texts.

ghost use Rattle.std.specs.Prelude.{◌≡◌, ◌++◌, All, IfOk, None, Some, option_map, slice_get};
ghost use Rattle.std.specs.Prelude.{string_bytes};
ghost use Rattle.std.specs.Option.{ForSome};
ghost use Rattle.book_model.specs.Words.{IsDay, bill_shown};
ghost use Rattle.report_texts.specs.Charges.{IsBill};
ghost use Rattle.bill_texts.specs.BillTexts as spec;
ghost use Rattle.bill_texts.specs.Sheets.{sheet_shown};

use crate::bill_sheets::{centre_parts, centre_sheet, office_sheet};
use crate::part::Sheet;
use crate::sheet_texts::{push_parts, push_sums, push_terms};
use book_model::{Bill, BilledTariff, HeldBack};
use report_texts::{push_amount, push_centre_title, push_title};
use smf_text::{LAST_DAY, Name};
use std::alloc::{AllocError, Global};
use text_drafts::Draft;

/// Appends the number of a bill.
#[tactic(auto, unfolding(crate::specs::BillTexts::bill_number))]
pub fn push_bill_number(out: &mut Draft, period: u16, centre: &Option<Name>)
    ensures { out.new ≡ out.old ++ spec.bill_number period centre.now }
{
    out.push_number(u64::from(period));
    match *centre {
        None => {}
        Some(centre) => {
            out.push('-');
            out.push_str(centre.text());
        }
    }
}

/// Appends whether the number stands for a bill or for a draft of it.
#[tactic(auto, unfolding(crate::specs::BillTexts::paper))]
fn push_paper(out: &mut Draft, through: Option<i32>)
    ensures { out.new ≡ out.old ++ spec.paper through }
{
    match through {
        None => out.push_str("DRAFT "),
        Some(_) => out.push_str("NUMBER "),
    }
}

/// The first of some tariffs, if there are some.
fn first_tariff(tariffs: &[BilledTariff]) -> Option<BilledTariff>
    ensures { result ≡ slice_get tariffs.now 0 }
{
    tariffs.first().copied()
}

/// The first day of a tariff, if there is one.
fn begun_on(first: Option<BilledTariff>) -> Option<i32>
    requires { ForSome first (λ tariff. IsDay tariff.day) }
    ensures value { result ≡ option_map (λ tariff. tariff.day) first }
    ensures day { ForSome result IsDay }
{
    match first {
        Some(tariff) => Some(tariff.day),
        None => None,
    }
}

/// The first day of the first of some tariffs.
fn first_begun(tariffs: &[BilledTariff]) -> Option<i32>
    requires { All (λ tariff. IsDay tariff.day) tariffs.now }
    ensures value { result ≡ spec.first_begun tariffs.now }
    ensures day { ForSome result IsDay }
{
    begun_on(first_tariff(tariffs))
}

/// The day after a close, if there is one.
fn day_after(close: i32) -> Option<i32>
    requires { IsDay close }
    ensures value { result ≡ spec.day_after close }
    ensures day { ForSome result IsDay }
{
    if close < LAST_DAY {
        Some(close + 1)
    } else {
        None
    }
}

/// The first day of a bill, by the close before its period, or else by its tariffs.
#[tactic(auto, unfolding(crate::specs::BillTexts::first_day))]
pub fn first_day(before: Option<i32>, tariffs: &[BilledTariff]) -> Option<i32>
    requires before { ForSome before IsDay }
    requires tariffs { All (λ tariff. IsDay tariff.day) tariffs.now }
    ensures value { result ≡ spec.first_day before tariffs.now }
    ensures day { ForSome result IsDay }
{
    match before {
        Some(close) => day_after(close),
        None => first_begun(tariffs),
    }
}

/// Appends the first day of a bill, if it has one.
#[tactic(auto, unfolding(crate::specs::BillTexts::from_line))]
fn push_from(out: &mut Draft, first: Option<i32>)
    requires { ForSome first IsDay }
    ensures { out.new ≡ out.old ++ spec.from_line first }
{
    match first {
        None => {}
        Some(day) => {
            out.push_str("FROM ");
            out.push_day(day);
            out.push('\n');
        }
    }
}

/// Appends the line of a word and a text, where the text is there.
#[tactic(auto, unfolding(crate::specs::BillTexts::given_line))]
fn push_given(out: &mut Draft, word: &str, text: &Option<String>)
    ensures { out.new
        ≡ out.old ++ spec.given_line word.now (option_map (λ one. string_bytes one) text.now) }
{
    match text {
        None => {}
        Some(given) => {
            out.push_str(word);
            out.push_str(given.as_str());
            out.push('\n');
        }
    }
}

/// Appends what stands below the title.
#[tactic(auto, unfolding(crate::specs::BillTexts::head_lines))]
fn push_head_lines(
    out: &mut Draft,
    period: u16,
    centre: &Option<Name>,
    through: Option<i32>,
    bill: &Bill,
)
    requires { IsBill (bill_shown bill.now) }
    ensures { out.new
        ≡ out.old ++ spec.head_lines period centre.now through (bill_shown bill.now) }
{
    push_paper(out, through);
    push_bill_number(out, period, centre);
    out.push('\n');
    push_from(out, first_day(bill.before, &bill.tariffs));
    push_given(out, "OFFICE ", &bill.letterhead.office);
    push_given(out, "CURRENCY ", &bill.letterhead.currency);
}

/// Appends what is held back, in the open period.
#[tactic(auto, unfolding(crate::specs::BillTexts::held_back_line))]
fn push_held_back(out: &mut Draft, held_back: Option<HeldBack>)
    ensures { out.new ≡ out.old ++ spec.held_back_line held_back }
{
    match held_back {
        None => {}
        Some(held) => {
            out.push_str("DISPUTES ");
            out.push_number(held.disputes);
            out.push_str(" LEAST ");
            push_amount(out, held.least);
            out.push_str(" GREATEST ");
            push_amount(out, held.greatest);
            out.push('\n');
        }
    }
}

/// Appends the sums, what is held back, and the prices and percents.
#[tactic(auto, unfolding(crate::specs::BillTexts::sheet_lines))]
fn push_sheet(out: &mut Draft, sheet: &Sheet, held_back: Option<HeldBack>)
    ensures { out.new ≡ out.old ++ spec.sheet_lines (sheet_shown sheet.now) held_back }
{
    push_sums(out, sheet);
    push_held_back(out, held_back);
    push_terms(out, sheet);
}

/// The bill of a centre for a period: by the period's number, the day that it was closed through,
/// if it was, and what the centre has in it.
pub fn bill_text(
    alloc: Global,
    centre: Name,
    period: u16,
    through: Option<i32>,
    bill: &Bill,
) -> Result<String, AllocError>
    requires through { ForSome through IsDay }
    requires bill { IsBill (bill_shown bill.now) }
    ensures { IfOk result (λ text.
        string_bytes text ≡ spec.bill_text centre period through (bill_shown bill.now)) }
{
    let sheet = centre_sheet(alloc, centre, bill)?;
    let parts = centre_parts(alloc, bill)?;
    let mut out = Draft::new(alloc);
    push_centre_title(&mut out, "BILL", centre, period, through);
    push_head_lines(&mut out, period, &Some(centre), through, bill);
    push_sheet(&mut out, &sheet, bill.held_back);
    push_parts(&mut out, &parts);
    out.finish()
}

/// The bill of the office for a period: by the period's number, the day that it was closed through,
/// if it was, and what all centres have in it.
pub fn office_bill_text(
    alloc: Global,
    period: u16,
    through: Option<i32>,
    bill: &Bill,
) -> Result<String, AllocError>
    requires through { ForSome through IsDay }
    requires bill { IsBill (bill_shown bill.now) }
    ensures { IfOk result (λ text.
        string_bytes text ≡ spec.office_bill_text period through (bill_shown bill.now)) }
{
    let sheet = office_sheet(alloc, bill)?;
    let mut out = Draft::new(alloc);
    push_title(&mut out, "BILL", period, through);
    push_head_lines(&mut out, period, &None, through, bill);
    push_sheet(&mut out, &sheet, bill.held_back);
    out.finish()
}
