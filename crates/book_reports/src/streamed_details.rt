//! The details of a period, written as they are read: a list of millions of lines is never made
//! whole. What is held of it is one detail, and the lines that wait to be written.

ghost use Rattle.std.specs.Prelude.{◌≡◌, IfOk, IfSome, None, false};
ghost use Rattle.std.specs.Option.{ForSome};
ghost use Rattle.streams.specs.Sinks.{has_failed, writer_of};
ghost use Rattle.book_model.specs.Words.{IsDay};
ghost use Rattle.book_core.specs.Words.{Reopens, IsTransition};
ghost use Rattle.book_lists.specs.Streamed.{refusal_in};
ghost use Rattle.book_lists.specs.Writing.{is_write_fault};
ghost use Rattle.book_reports.specs.StreamedDetails as spec;

use crate::known_centres::known_through;
use crate::what_if::StatementForm;
use book_core::{Detail, Ledger, LedgerFault, Sink};
use book_lists::{DetailCursor, Lines, ReportFault, Step, write_list};
use report_texts::{detail_head, detail_row, detail_table_head, detail_total, push_detail_line};
use smf_text::Name;
use std::alloc::{AllocError, Global};
use streams::Writer;

/// Which details are asked for, and how they are shown.
#[derive(Clone, Copy)]
pub struct DetailReport {
    /// As a list for people, with sums, or as a table of comma-separated values.
    pub form: StatementForm,
    /// The number of the period.
    pub period: u16,
    /// The centre, `None` for the whole office.
    pub centre: Option<Name>,
}

/// How many details there are, and what they come to.
#[derive(Clone, Copy)]
pub(crate) struct Sums {
    count: u64,
    /// CPU time, in hundredths of a second.
    cpu: u64,
    blocks: u64,
    /// What they cost, in ten-thousandths of the money unit.
    pub(crate) amount: u64,
}

/// The sums of no details.
pub(crate) const NO_SUMS: Sums = Sums {
    count: 0,
    cpu: 0,
    blocks: 0,
    amount: 0,
};

/// The sums with one more detail, if 64 bits hold them. Those of sound books do.
pub(crate) fn with_detail(sums: Sums, detail: &Detail) -> Option<Sums>
    ensures more { IfSome result (λ more. more ≡ spec.with_detail sums detail.now) }
    ensures large { result ≡ None → ¬ spec.FitsDetail sums detail.now }
{
    Some(Sums {
        count: sums.count.checked_add(1)?,
        cpu: sums.cpu.checked_add(detail.priced.cpu)?,
        blocks: sums.blocks.checked_add(detail.priced.excp)?,
        amount: sums.amount.checked_add(detail.priced.amount)?,
    })
}

/// What stands above the details.
pub(crate) fn head_of(
    alloc: Global,
    report: &DetailReport,
    through: Option<i32>,
) -> Result<Vec<u8>, AllocError>
    requires { ForSome through IsDay }
    ensures { IfOk result (λ head. head.items ≡ spec.details_head report.now through) }
{
    match report.form {
        StatementForm::Text => {
            Ok(detail_head(alloc, report.centre, report.period, through)?.into_bytes())
        }
        StatementForm::Table => detail_table_head(alloc),
    }
}

/// The line of a detail.
pub(crate) fn part_of(
    alloc: Global,
    report: &DetailReport,
    detail: &Detail,
) -> Result<Vec<u8>, AllocError>
    requires { IsDay detail.now.priced.day }
    ensures { IfOk result (λ part. part.items ≡ spec.details_part report.now detail.now) }
{
    match report.form {
        StatementForm::Text => {
            let mut line = String::new(alloc);
            push_detail_line(alloc, &mut line, detail)?;
            Ok(line.into_bytes())
        }
        StatementForm::Table => detail_row(alloc, report.period, detail),
    }
}

/// What stands below the details.
pub(crate) fn end_of(
    alloc: Global,
    report: &DetailReport,
    sums: Sums,
) -> Result<Vec<u8>, AllocError>
    ensures { IfOk result (λ end. end.items ≡ spec.details_end report.now sums) }
{
    match report.form {
        StatementForm::Text => {
            let Sums {
                count,
                cpu,
                blocks,
                amount,
            } = sums;
            Ok(detail_total(alloc, count, cpu, blocks, amount)?.into_bytes())
        }
        StatementForm::Table => Ok(Vec::new(alloc)),
    }
}

/// How details are shown, of a period that was closed through a day or is open.
#[derive(Drop)]
pub(crate) struct DetailLines {
    report: DetailReport,
    through: Option<i32>,
    ghost day: { ForSome through IsDay },
}

impl Step<Detail> for DetailLines {
    ghost use Rattle.std.specs.Prelude.{◌≡◌};
    ghost use Rattle.book_model.specs.Words.{IsDay};
    ghost use Rattle.book_reports.specs.StreamedDetails.{sums_of};

    type State = Sums;

    ghost Takes = { λ lines detail. IsDay detail.priced.day };

    ghost Has = { λ lines sums details. sums ≡ sums_of details };

    fn begin(&self, _alloc: Global) -> Result<Sums, AllocError> {
        Ok(NO_SUMS)
    }

    fn add(&self, _alloc: Global, sums: &mut Sums, detail: &Detail) -> Result<(), LedgerFault> {
        let Some(more) = with_detail(*sums, detail) else {
            return Err(LedgerFault::Memory);
        };
        *sums = more;
        Ok(())
    }
}

impl Lines<Detail> for DetailLines {
    ghost use Rattle.book_reports.specs.StreamedDetails.{details_end, details_head, details_part};
    ghost use Rattle.book_reports.specs.StreamedDetails.{some_above_details, sums_of};

    ghost above = { λ lines. details_head lines.report lines.through };

    ghost part = { λ lines number detail. details_part lines.report detail };

    ghost below = { λ lines details. details_end lines.report (sums_of details) };

    fn head(&self, alloc: Global) -> Result<Vec<u8>, AllocError> {
        head_of(alloc, &self.report, self.through)
    }

    fn line(&self, alloc: Global, _number: u64, detail: &Detail) -> Result<Vec<u8>, AllocError> {
        part_of(alloc, &self.report, detail)
    }

    fn end(&self, alloc: Global, sums: &Sums) -> Result<Vec<u8>, AllocError> {
        end_of(alloc, &self.report, *sums)
    }

    ghost some = { λ lines. some_above_details lines.report lines.through };
}

/// Writes the details of a period, of the office or of one centre: all of them, or, before a fault,
/// a prefix of their text that is not the whole. A centre is looked for, and the first detail is
/// asked for, before anything else, so that a centre or a period that is not there is refused
/// before any byte; nobody changes the books meanwhile. Nothing is written after a write that
/// failed.
pub fn write_details<L: Ledger, W: Writer + Drop>(
    alloc: Global,
    ledger: &mut L,
    report: DetailReport,
    sink: &mut Sink<W>,
) -> Result<(), ReportFault>
    ensures written { IsTransition (L.seen ledger.old) (L.seen ledger.new)
        (spec.WritesDetails report (L.seen ledger.old).naming
        (W.contents (writer_of sink.old)) (W.contents (writer_of sink.new)) result) }
    ensures reopens { Reopens (refusal_in result)
        (L.seen ledger.old).must_reopen (L.seen ledger.new).must_reopen }
    ensures some { spec.WritesSomeDetails report
        (W.contents (writer_of sink.old)) (W.contents (writer_of sink.new)) result }
    ensures failed { has_failed sink.old ≡ false → has_failed sink.new ≡ is_write_fault result }
{
    let through = known_through(alloc, ledger, report.period, &report.centre)?;
    let details = DetailCursor {
        period: report.period,
        centre: report.centre,
    };
    write_list(
        alloc,
        ledger,
        &details,
        &DetailLines { report, through },
        sink,
    )
}
