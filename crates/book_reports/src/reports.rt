//! Reports, written to any writer. The text is made before its first byte is written: if the
//! books refuse, or memory runs out, nothing is written. `write_report` writes any of them by its
//! name; those of a trial have a call of their own.

ghost use Rattle.std.specs.Prelude.{◌≡◌, ◌∷◌, [], false, IfErr, None};
ghost use Rattle.streams.specs.InputOutput.{output};
ghost use Rattle.streams.specs.Sinks.{writer_of, has_failed};
ghost use Rattle.book_core.specs.Ledgers.{books};
ghost use Rattle.book_lists.specs.Writing.{WritesTexts, is_write_fault};
ghost use Rattle.book_reports.specs.BookTexts.{shown_by};
ghost use Rattle.book_reports.specs.ReceiptLines as lines;
ghost use Rattle.book_reports.specs.Reports.{IsPassedOn, IsReport};

use crate::book_texts::report_text;
use crate::receipt_lines::receipt_line_text;
use crate::report::{PeriodReport, Report};
use book_core::{Ledger, LedgerFault, Sink};
use book_import::Receipt;
use book_lists::{ReportFault, write_bytes, write_text};
use std::alloc::Global;
use streams::Writer;

/// Writes the receipt line.
pub fn receipt_line<W: Writer + Drop>(
    receipt: &Receipt,
    sink: &mut Sink<W>,
) -> Result<(), ReportFault>
    requires { has_failed sink.old ≡ false }
    ensures text { WritesTexts (lines.receipt_line_text receipt.now ∷ [])
        (W.contents (writer_of sink.old)) (W.contents (writer_of sink.new)) result }
    ensures failed { has_failed sink.new ≡ is_write_fault result }
    ensures fault { IfErr result (λ fault. fault ≡ ReportFault.Write) }
{
    write_text(sink, receipt_line_text(receipt).as_str())
}

/// Writes what the books answered.
fn pass_on<W: Writer + Drop>(
    answer: Result<Vec<u8>, LedgerFault>,
    sink: &mut Sink<W>,
) -> Result<(), ReportFault>
    requires { has_failed sink.old ≡ false }
    ensures passed_on { IsPassedOn (shown_by (λ text. text.items) answer)
        (output W.contents sink.old sink.new) result }
    ensures failed { has_failed sink.new ≡ is_write_fault result }
{
    match answer {
        Ok(text) => write_bytes(sink, &text),
        Err(fault) => Err(ReportFault::from(fault)),
    }
}

/// Writes a report.
pub fn write_report<L: Ledger, W: Writer + Drop>(
    alloc: Global,
    ledger: &mut L,
    report: Report,
    sink: &mut Sink<W>,
) -> Result<(), ReportFault>
    requires { has_failed sink.old ≡ false }
    ensures report { IsReport report (books L.seen ledger.old ledger.new)
        (output W.contents sink.old sink.new) result }
    ensures failed { has_failed sink.new ≡ is_write_fault result }
{
    pass_on(report_text(alloc, ledger, report), sink)
}

/// Writes the statement of a period.
pub fn statement<L: Ledger, W: Writer + Drop>(
    alloc: Global,
    ledger: &mut L,
    period: u16,
    sink: &mut Sink<W>,
) -> Result<(), ReportFault>
    requires { has_failed sink.old ≡ false }
    ensures report { IsReport (Report.OfPeriod PeriodReport.Statement period None)
        (books L.seen ledger.old ledger.new) (output W.contents sink.old sink.new) result }
    ensures failed { has_failed sink.new ≡ is_write_fault result }
{
    let asked = Report::OfPeriod {
        report: PeriodReport::Statement,
        period,
        centre: None,
    };
    write_report(alloc, ledger, asked, sink)
}

/// Writes the disputes.
pub fn dispute_list<L: Ledger, W: Writer + Drop>(
    alloc: Global,
    ledger: &mut L,
    sink: &mut Sink<W>,
) -> Result<(), ReportFault>
    requires { has_failed sink.old ≡ false }
    ensures report { IsReport Report.DisputeList (books L.seen ledger.old ledger.new)
        (output W.contents sink.old sink.new) result }
    ensures failed { has_failed sink.new ≡ is_write_fault result }
{
    write_report(alloc, ledger, Report::DisputeList, sink)
}

// Those below are calls that no command uses: they are here for programs that link this crate.

/// Writes the statement of a period as a table of comma-separated values.
pub fn statement_csv<L: Ledger, W: Writer + Drop>(
    alloc: Global,
    ledger: &mut L,
    period: u16,
    sink: &mut Sink<W>,
) -> Result<(), ReportFault>
    requires { has_failed sink.old ≡ false }
    ensures report { IsReport (Report.OfPeriod PeriodReport.StatementTable period None)
        (books L.seen ledger.old ledger.new) (output W.contents sink.old sink.new) result }
    ensures failed { has_failed sink.new ≡ is_write_fault result }
{
    let asked = Report::OfPeriod {
        report: PeriodReport::StatementTable,
        period,
        centre: None,
    };
    write_report(alloc, ledger, asked, sink)
}

/// Writes the adjustments of a period.
pub fn adjustment_list<L: Ledger, W: Writer + Drop>(
    alloc: Global,
    ledger: &mut L,
    period: u16,
    sink: &mut Sink<W>,
) -> Result<(), ReportFault>
    requires { has_failed sink.old ≡ false }
    ensures report { IsReport (Report.OfPeriod PeriodReport.AdjustmentList period None)
        (books L.seen ledger.old ledger.new) (output W.contents sink.old sink.new) result }
    ensures failed { has_failed sink.new ≡ is_write_fault result }
{
    let asked = Report::OfPeriod {
        report: PeriodReport::AdjustmentList,
        period,
        centre: None,
    };
    write_report(alloc, ledger, asked, sink)
}

/// Writes the list of periods.
pub fn period_list<L: Ledger, W: Writer + Drop>(
    alloc: Global,
    ledger: &mut L,
    sink: &mut Sink<W>,
) -> Result<(), ReportFault>
    requires { has_failed sink.old ≡ false }
    ensures report { IsReport Report.PeriodList (books L.seen ledger.old ledger.new)
        (output W.contents sink.old sink.new) result }
    ensures failed { has_failed sink.new ≡ is_write_fault result }
{
    write_report(alloc, ledger, Report::PeriodList, sink)
}
