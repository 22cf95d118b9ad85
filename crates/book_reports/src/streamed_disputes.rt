//! The disputes, written as they are read: with a million records in dispute the list has 150 MB, and
//! is never made whole. What is held of it is one dispute, and the lines that wait to be written.

ghost use Rattle.std.specs.Prelude.{◌≡◌, IfOk, false};
ghost use Rattle.streams.specs.Sinks.{has_failed, writer_of};
ghost use Rattle.book_model.specs.Words.{IsDispute, dispute_shown};
ghost use Rattle.book_core.specs.Words.{IsCall, Reopens, IsTransition};
ghost use Rattle.book_lists.specs.Streamed.{refusal_in};
ghost use Rattle.book_lists.specs.Writing.{is_write_fault};
ghost use Rattle.book_reports.specs.StreamedDisputes.{WritesDisputes, WritesSomeDisputes};
ghost use Rattle.book_reports.specs.StreamedDisputes.{dispute_count_outcome, disputes_head};
ghost use Rattle.book_reports.specs.StreamedDisputes.{disputes_part};
ghost use Rattle.book_reports.specs.StreamedDisputes as spec;

use crate::what_if::StatementForm;
use book_core::{Dispute, Ledger, LedgerFault, Sink};
use book_lists::{DisputeCursor, Lines, ReportFault, Step, fold, write_list};
use report_texts::{dispute_list_head, dispute_rows, dispute_table_head, push_dispute};
use std::alloc::{AllocError, Global};
use streams::Writer;

/// What stands above so many disputes.
fn head_of(alloc: Global, form: StatementForm, count: u64) -> Result<Vec<u8>, AllocError>
    ensures { IfOk result (λ head. head.items ≡ disputes_head form count) }
{
    match form {
        StatementForm::Text => Ok(dispute_list_head(alloc, count)?.into_bytes()),
        StatementForm::Table => dispute_table_head(alloc),
    }
}

/// The lines of the dispute of this number.
fn part_of(
    alloc: Global,
    form: StatementForm,
    number: u64,
    dispute: &Dispute,
) -> Result<Vec<u8>, AllocError>
    requires { IsDispute (dispute_shown dispute.now) }
    ensures { IfOk result (λ part.
        part.items ≡ disputes_part form number (dispute_shown dispute.now)) }
{
    match form {
        StatementForm::Text => {
            let mut text = String::new(alloc);
            push_dispute(alloc, &mut text, dispute)?;
            Ok(text.into_bytes())
        }
        StatementForm::Table => dispute_rows(alloc, number, dispute),
    }
}

/// The lines of a dispute after so many others, where so many were counted. Only a ledger that lies
/// has more.
fn counted_part(
    alloc: Global,
    form: StatementForm,
    count: u64,
    number: u64,
    dispute: &Dispute,
) -> Result<Vec<u8>, AllocError>
    requires { IsDispute (dispute_shown dispute.now) }
    ensures { IfOk result (λ part.
        part.items ≡ spec.counted_part form count number (dispute_shown dispute.now)) }
{
    if count <= number {
        return Ok(Vec::new(alloc));
    }
    part_of(alloc, form, number + 1, dispute)
}

/// How disputes are shown, of which so many were counted.
#[derive(Drop)]
struct DisputeLines {
    form: StatementForm,
    count: u64,
}

impl Step<Dispute> for DisputeLines {
    ghost use Rattle.std.specs.Prelude.{◌≡◌, length};
    ghost use Rattle.book_model.specs.Words.{IsDispute, dispute_shown};

    type State = u64;

    ghost Takes = { λ lines dispute. IsDispute (dispute_shown dispute) };

    ghost Has = { λ lines number disputes. number ≡ length disputes };

    fn begin(&self, _alloc: Global) -> Result<u64, AllocError> {
        Ok(0)
    }

    fn add(&self, _alloc: Global, number: &mut u64, _dispute: &Dispute) -> Result<(), LedgerFault> {
        let Some(more) = number.checked_add(1) else {
            return Err(LedgerFault::Memory);
        };
        *number = more;
        Ok(())
    }
}

impl Lines<Dispute> for DisputeLines {
    ghost use Rattle.std.specs.Prelude.{length};
    ghost use Rattle.book_model.specs.Words.{dispute_shown};
    ghost use Rattle.book_reports.specs.StreamedDisputes.{counted_part, disputes_head};
    ghost use Rattle.book_reports.specs.StreamedDisputes.{missing_lines, some_above_disputes};

    ghost above = { λ lines. disputes_head lines.form lines.count };

    ghost part = { λ lines number dispute.
        counted_part lines.form lines.count number (dispute_shown dispute) };

    ghost below = { λ lines disputes. missing_lines lines.form lines.count (length disputes) };

    fn head(&self, alloc: Global) -> Result<Vec<u8>, AllocError> {
        head_of(alloc, self.form, self.count)
    }

    fn line(&self, alloc: Global, number: u64, dispute: &Dispute) -> Result<Vec<u8>, AllocError> {
        counted_part(alloc, self.form, self.count, number, dispute)
    }

    fn end(&self, alloc: Global, written: &u64) -> Result<Vec<u8>, AllocError> {
        let number = *written;
        let count = self.count;
        if number < count {
            // Only a ledger that lies has fewer.
            return Err(AllocError);
        }
        Ok(Vec::new(alloc))
    }

    ghost some = { λ lines. some_above_disputes lines.form lines.count };
}

/// How many disputes there are. Each is read for it, one at a time: they are numbered as they are
/// where they are shown.
pub(crate) fn count_disputes<L: Ledger>(alloc: Global, ledger: &mut L) -> Result<u64, LedgerFault>
    ensures { IsCall (λ count. count) (L.seen ledger.old) (L.seen ledger.new) result
        (dispute_count_outcome (L.seen ledger.old).naming) }
{
    let lines = DisputeLines {
        form: StatementForm::Text,
        count: 0,
    };
    fold(alloc, ledger, &DisputeCursor, &lines)
}

/// Writes the disputes: all of them, or, before a fault, a prefix of their text that is not the
/// whole. They are counted first, since their number stands above the list, so what the ledger
/// refuses comes before any byte; nobody changes the books meanwhile. Nothing is written after a
/// write that failed.
pub fn write_disputes<L: Ledger, W: Writer + Drop>(
    alloc: Global,
    ledger: &mut L,
    form: StatementForm,
    sink: &mut Sink<W>,
) -> Result<(), ReportFault>
    ensures written { IsTransition (L.seen ledger.old) (L.seen ledger.new)
        (WritesDisputes form (L.seen ledger.old).naming
        (W.contents (writer_of sink.old)) (W.contents (writer_of sink.new)) result) }
    ensures reopens { Reopens (refusal_in result)
        (L.seen ledger.old).must_reopen (L.seen ledger.new).must_reopen }
    ensures some { WritesSomeDisputes form
        (W.contents (writer_of sink.old)) (W.contents (writer_of sink.new)) result }
    ensures failed { has_failed sink.old ≡ false → has_failed sink.new ≡ is_write_fault result }
{
    let count = count_disputes(alloc, ledger)?;
    write_list(
        alloc,
        ledger,
        &DisputeCursor,
        &DisputeLines { form, count },
        sink,
    )
}
