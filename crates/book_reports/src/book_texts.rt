//! The texts that a ledger answers about its books, by calls of the ledger that change nothing: each
//! is as one call.

ghost use Rattle.std.specs.Prelude.{◌≡◌, IfOk, Some};
ghost use Rattle.std.specs.Option.{ForSome};
ghost use Rattle.book_model.specs.Words.{AreLines, AreRows, IsDay};
ghost use Rattle.book_core.specs.Calls.{IsCall};
ghost use Rattle.book_reports.specs.BookTexts as spec;

use crate::bill_page_reports::bill_page_report;
use crate::bills::bill_report;
use crate::coverage::coverage_report;
use crate::focus_reports::focus_report;
use crate::known_centres::known_centre;
use crate::pages::{office_page_report, period_page_report};
use crate::record_reports::record_report;
use crate::replaced_texts::replaced_text;
use crate::report::{PeriodReport, Report};
use crate::ruling_texts::{ruling_list, tariff_text};
use book_core::{ChargeRow, Ledger, LedgerFault, Line};
use page_texts::close_of;
use report_texts::{
    adjustment_list_text, adjustment_table, centre_adjustment_table, centre_adjustments_text,
    centre_statement_table, centre_statement_text, dispute_list_text, dispute_table,
    period_list_text, statement_table, statement_text,
};
use smf_text::Name;
use std::alloc::{AllocError, Global};

/// The day that a period was closed through, `None` if no such period is closed.
pub(crate) fn closed_through<L: Ledger>(
    ledger: &mut L,
    period: u16,
) -> Result<Option<i32>, LedgerFault>
    ensures through { IsCall (λ through. through) (L.seen ledger.old) (L.seen ledger.new) result
        (spec.closed_through_outcome period) }
    ensures shown { IfOk result (λ through. ForSome through IsDay) }
{
    let days = ledger.periods()?;
    Ok(close_of(&days, usize::from(period)))
}

/// What is made of a list that a ledger answered. A refusal stays one, and a lack of memory is one.
pub(crate) fn made_of<V, T, F: FnOnce(V) -> Result<T, AllocError>>(
    answer: Result<V, LedgerFault>,
    make: F,
) -> Result<T, LedgerFault>
    requires { IfOk answer (λ value. F.pre make value) }
    ensures { spec.IsMadeOf (F.post make) answer result }
{
    Ok(make(answer?)?)
}

/// The statement of a period, of the whole office or of one centre.
fn period_statement(
    alloc: Global,
    centre: Option<Name>,
    period: u16,
    through: Option<i32>,
    rows: Vec<ChargeRow>,
) -> Result<Vec<u8>, AllocError>
    requires through { ForSome through IsDay }
    requires rows { AreRows rows.items }
    ensures { IfOk result (λ text.
        text.items ≡ spec.period_statement centre period through rows.items) }
{
    match centre {
        None => Ok(statement_text(alloc, period, through, &rows)?.into_bytes()),
        Some(centre) => {
            Ok(centre_statement_text(alloc, centre, period, through, rows)?.into_bytes())
        }
    }
}

/// The same as a table.
fn period_statement_table(
    alloc: Global,
    centre: Option<Name>,
    period: u16,
    rows: Vec<ChargeRow>,
) -> Result<Vec<u8>, AllocError>
    requires { AreRows rows.items }
    ensures { IfOk result (λ table.
        table.items ≡ spec.period_statement_table centre period rows.items) }
{
    match centre {
        None => statement_table(alloc, period, &rows),
        Some(centre) => centre_statement_table(alloc, centre, period, rows),
    }
}

/// The adjustments of a period, of the whole office or of one centre.
fn period_adjustments(
    alloc: Global,
    centre: Option<Name>,
    period: u16,
    through: Option<i32>,
    lines: Vec<Line>,
) -> Result<Vec<u8>, AllocError>
    requires through { ForSome through IsDay }
    requires lines { AreLines lines.items }
    ensures { IfOk result (λ text.
        text.items ≡ spec.period_adjustments centre period through lines.items) }
{
    match centre {
        None => Ok(adjustment_list_text(alloc, period, through, &lines)?.into_bytes()),
        Some(centre) => {
            Ok(centre_adjustments_text(alloc, centre, period, through, lines)?.into_bytes())
        }
    }
}

/// The same as a table.
fn period_adjustment_table(
    alloc: Global,
    centre: Option<Name>,
    period: u16,
    lines: Vec<Line>,
) -> Result<Vec<u8>, AllocError>
    requires { AreLines lines.items }
    ensures { IfOk result (λ table.
        table.items ≡ spec.period_adjustment_table centre period lines.items) }
{
    match centre {
        None => adjustment_table(alloc, period, &lines),
        Some(centre) => centre_adjustment_table(alloc, centre, period, lines),
    }
}

/// The text of what a period has, whatever the centre is.
fn period_text<L: Ledger>(
    alloc: Global,
    ledger: &mut L,
    report: PeriodReport,
    period: u16,
    centre: Option<Name>,
) -> Result<Vec<u8>, LedgerFault>
    ensures { IsCall (λ text. text.items) (L.seen ledger.old) (L.seen ledger.new) result
        (spec.period_outcome (L.seen ledger.old).naming report period centre) }
{
    match report {
        PeriodReport::Statement => {
            let through = closed_through(ledger, period)?;
            made_of(
                ledger.charges(period),
                |rows| period_statement(alloc, centre, period, through, rows),
            )
        }
        PeriodReport::StatementTable => made_of(
            ledger.charges(period),
            |rows| period_statement_table(alloc, centre, period, rows),
        ),
        PeriodReport::AdjustmentList => {
            let through = closed_through(ledger, period)?;
            made_of(
                ledger.adjustments(period),
                |lines| period_adjustments(alloc, centre, period, through, lines),
            )
        }
        PeriodReport::AdjustmentTable => made_of(
            ledger.adjustments(period),
            |lines| period_adjustment_table(alloc, centre, period, lines),
        ),
    }
}

/// The same of a centre that is there.
fn centre_text<L: Ledger>(
    alloc: Global,
    ledger: &mut L,
    report: PeriodReport,
    period: u16,
    centre: Name,
) -> Result<Vec<u8>, LedgerFault>
    ensures { IsCall (λ text. text.items) (L.seen ledger.old) (L.seen ledger.new) result
        (spec.report_outcome (L.seen ledger.old).naming
        (Report.OfPeriod report period (Some centre))) }
{
    known_centre(alloc, ledger, period, centre)?;
    period_text(alloc, ledger, report, period, Some(centre))
}

/// The same of a centre that is there, or of the whole office.
fn text_of_period<L: Ledger>(
    alloc: Global,
    ledger: &mut L,
    report: PeriodReport,
    period: u16,
    centre: Option<Name>,
) -> Result<Vec<u8>, LedgerFault>
    ensures { IsCall (λ text. text.items) (L.seen ledger.old) (L.seen ledger.new) result
        (spec.report_outcome (L.seen ledger.old).naming (Report.OfPeriod report period centre)) }
{
    match centre {
        Some(centre) => centre_text(alloc, ledger, report, period, centre),
        None => period_text(alloc, ledger, report, period, None),
    }
}

/// The text of a report.
pub fn report_text<L: Ledger>(
    alloc: Global,
    ledger: &mut L,
    report: Report,
) -> Result<Vec<u8>, LedgerFault>
    ensures { IsCall (λ text. text.items) (L.seen ledger.old) (L.seen ledger.new) result
        (spec.report_outcome (L.seen ledger.old).naming report) }
{
    match report {
        Report::OfPeriod {
            report,
            period,
            centre,
        } => text_of_period(alloc, ledger, report, period, centre),
        Report::DisputeList => made_of(
            ledger.disputes(),
            |disputes| Ok(dispute_list_text(alloc, &disputes)?.into_bytes()),
        ),
        Report::DisputeTable => made_of(
            ledger.disputes(),
            |disputes| dispute_table(alloc, &disputes),
        ),
        Report::PeriodList => made_of(
            ledger.periods(),
            |closes| Ok(period_list_text(alloc, &closes)?.into_bytes()),
        ),
        Report::RulingList => ruling_list(alloc, ledger),
        Report::TariffText(day) => tariff_text(ledger, day),
        Report::ReplacedText { day, digest } => replaced_text(alloc, ledger, day, digest),
        Report::Record(name) => record_report(alloc, ledger, name),
        Report::Bill {
            form,
            period,
            centre,
        } => bill_report(alloc, ledger, form, period, centre),
        Report::BillPage { period, centre } => bill_page_report(alloc, ledger, period, centre),
        Report::Focus(period) => focus_report(alloc, ledger, period),
        Report::Coverage { form, period } => coverage_report(alloc, ledger, form, period),
        Report::OfficePage => office_page_report(alloc, ledger),
        Report::PeriodPage(period) => period_page_report(alloc, ledger, period),
    }
}
