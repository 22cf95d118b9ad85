//! The bill of a period, as a text or a table that a ledger answers by calls that change nothing:
//! it is as one call.

ghost use Rattle.std.specs.Prelude.{◌≡◌, IfOk, Some};
ghost use Rattle.std.specs.Option.{ForSome};
ghost use Rattle.book_model.specs.Words.{IsDay, bill_shown};
ghost use Rattle.book_core.specs.Calls.{IsCall};
ghost use Rattle.report_texts.specs.Charges.{IsBill};
ghost use Rattle.book_reports.specs.Bills as spec;
ghost use Rattle.book_reports.specs.BookTexts.{report_outcome};

use crate::bill_credits::shown_credits;
use crate::bill_lines::billed_lines;
use crate::bill_tariffs::billed_tariffs;
use crate::bill_work::period_work;
use crate::book_texts::made_of;
use crate::held_back::held_back;
use crate::known_centres::known_centre;
use crate::period_days::period_days;
use crate::report::Report;
use crate::what_if::StatementForm;
use bill_texts::{bill_table, bill_text, office_bill_table, office_bill_text};
use book_core::{Ledger, LedgerFault};
use book_model::Bill;
use smf_text::Name;
use std::alloc::{AllocError, Global};

/// A bill.
#[derive(Drop)]
pub(crate) struct PeriodBill {
    /// The day that its period was closed through, `None` if it is open.
    pub(crate) through: Option<i32>,
    pub(crate) bill: Bill,
}

/// The bill of a period, for the centre that is named or for the whole office.
pub(crate) fn gathered<L: Ledger>(
    alloc: Global,
    ledger: &mut L,
    period: u16,
    centre: &Option<Name>,
) -> Result<PeriodBill, LedgerFault>
    ensures bill { IsCall spec.period_bill_shown (L.seen ledger.old) (L.seen ledger.new) result
        (spec.period_bill_outcome (L.seen ledger.old).naming period centre.now) }
    ensures day { IfOk result (λ found. ForSome found.through IsDay) }
    ensures shown { IfOk result (λ found. IsBill (bill_shown found.bill)) }
{
    let work = period_work(alloc, ledger, period, centre)?;
    let lines = billed_lines(alloc, ledger, period, centre)?;
    let held = held_back(alloc, ledger, period, centre)?;
    let days = period_days(ledger, period)?;
    let kept = billed_tariffs(alloc, ledger, period)?;
    let credits = shown_credits(alloc, ledger, period, centre)?;
    Ok(PeriodBill {
        through: work.through,
        bill: Bill {
            work: work.rows,
            lines,
            credits,
            held_back: held,
            before: days.before,
            tariffs: kept.tariffs,
            shifts: kept.shifts,
            letterhead: kept.letterhead,
        },
    })
}

/// The text of a bill of the office or of a centre.
fn text_shown(
    alloc: Global,
    centre: &Option<Name>,
    period: u16,
    through: Option<i32>,
    bill: &Bill,
) -> Result<Vec<u8>, AllocError>
    requires through { ForSome through IsDay }
    requires bill { IsBill (bill_shown bill.now) }
    ensures { IfOk result (λ text. text.items
        ≡ spec.bill_text_in period centre.now (spec.bill_with through (bill_shown bill.now))) }
{
    match *centre {
        None => Ok(office_bill_text(alloc, period, through, bill)?.into_bytes()),
        Some(centre) => Ok(bill_text(alloc, centre, period, through, bill)?.into_bytes()),
    }
}

/// Its table.
fn table_shown(
    alloc: Global,
    centre: &Option<Name>,
    period: u16,
    bill: &Bill,
) -> Result<Vec<u8>, AllocError>
    requires { IsBill (bill_shown bill.now) }
    ensures { IfOk result (λ table. table.items
        ≡ spec.bill_table_in period centre.now (bill_shown bill.now)) }
{
    match *centre {
        None => office_bill_table(alloc, period, bill),
        Some(centre) => bill_table(alloc, centre, period, bill),
    }
}

/// A bill in the form that is asked for.
fn shown(
    alloc: Global,
    form: StatementForm,
    period: u16,
    centre: &Option<Name>,
    found: &PeriodBill,
) -> Result<Vec<u8>, AllocError>
    requires day { ForSome found.now.through IsDay }
    requires bill { IsBill (bill_shown found.now.bill) }
    ensures { IfOk result (λ text. text.items
        ≡ spec.bill_in form period centre.now (spec.period_bill_shown found.now)) }
{
    match form {
        StatementForm::Text => text_shown(alloc, centre, period, found.through, &found.bill),
        StatementForm::Table => table_shown(alloc, centre, period, &found.bill),
    }
}

/// The bill of a period, of one centre, whatever it is, or of the whole office.
fn bill_made<L: Ledger>(
    alloc: Global,
    ledger: &mut L,
    form: StatementForm,
    period: u16,
    centre: Option<Name>,
) -> Result<Vec<u8>, LedgerFault>
    ensures { IsCall (λ text. text.items) (L.seen ledger.old) (L.seen ledger.new) result
        (spec.bill_report (L.seen ledger.old).naming form period centre) }
{
    made_of(
        gathered(alloc, ledger, period, &centre),
        |found| shown(alloc, form, period, &centre, &found),
    )
}

/// That of a centre that is there.
fn centre_bill<L: Ledger>(
    alloc: Global,
    ledger: &mut L,
    form: StatementForm,
    period: u16,
    centre: Name,
) -> Result<Vec<u8>, LedgerFault>
    ensures { IsCall (λ text. text.items) (L.seen ledger.old) (L.seen ledger.new) result
        (report_outcome (L.seen ledger.old).naming (Report.Bill form period (Some centre))) }
{
    known_centre(alloc, ledger, period, centre)?;
    bill_made(alloc, ledger, form, period, Some(centre))
}

/// That of a centre that is there, or of the whole office.
pub(crate) fn bill_report<L: Ledger>(
    alloc: Global,
    ledger: &mut L,
    form: StatementForm,
    period: u16,
    centre: Option<Name>,
) -> Result<Vec<u8>, LedgerFault>
    ensures { IsCall (λ text. text.items) (L.seen ledger.old) (L.seen ledger.new) result
        (report_outcome (L.seen ledger.old).naming (Report.Bill form period centre)) }
{
    match centre {
        Some(centre) => centre_bill(alloc, ledger, form, period, centre),
        None => bill_made(alloc, ledger, form, period, None),
    }
}
