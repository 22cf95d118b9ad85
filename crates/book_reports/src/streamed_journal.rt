//! The journal, written as it is read: it may have millions of entries, and is never made whole. What
//! is held of it is one entry, and the lines that wait to be written.

ghost use Rattle.std.specs.Prelude.{◌≡◌, IfOk, false};
ghost use Rattle.streams.specs.Sinks.{has_failed, writer_of};
ghost use Rattle.book_model.specs.Words.{ShowsActDays, entry_shown};
ghost use Rattle.book_core.specs.Words.{IsCall, Reopens, IsTransition};
ghost use Rattle.book_lists.specs.Streamed.{refusal_in};
ghost use Rattle.book_lists.specs.Writing.{is_write_fault};
ghost use Rattle.book_reports.specs.StreamedJournal as spec;

use crate::what_if::StatementForm;
use book_core::{Ledger, LedgerFault, ListedEntry, Sink};
use book_lists::{EntryCursor, Lines, ReportFault, Step, fold, write_list};
use report_texts::{entry_row, journal_table_head, push_entry_lines, push_journal_head};
use std::alloc::{AllocError, Global};
use streams::Writer;

/// What stands above so many entries of the list.
fn list_head(alloc: Global, count: u64) -> Result<Vec<u8>, AllocError>
    ensures { IfOk result (λ head. head.items ≡ spec.journal_above StatementForm.Text count) }
{
    let mut text = String::new(alloc);
    push_journal_head(alloc, &mut text, count)?;
    Ok(text.into_bytes())
}

/// What stands above so many entries.
fn head_of(alloc: Global, form: StatementForm, count: u64) -> Result<Vec<u8>, AllocError>
    ensures { IfOk result (λ head. head.items ≡ spec.journal_above form count) }
{
    match form {
        StatementForm::Text => list_head(alloc, count),
        StatementForm::Table => journal_table_head(alloc),
    }
}

/// The lines of an entry in the list.
fn lines_of(alloc: Global, entry: &ListedEntry) -> Result<Vec<u8>, AllocError>
    requires { ShowsActDays entry.now.act }
    ensures { IfOk result (λ part.
        part.items ≡ spec.entry_part StatementForm.Text (entry_shown entry.now)) }
{
    let mut text = String::new(alloc);
    push_entry_lines(alloc, &mut text, entry)?;
    Ok(text.into_bytes())
}

/// The lines of an entry.
fn part_of(alloc: Global, form: StatementForm, entry: &ListedEntry) -> Result<Vec<u8>, AllocError>
    requires { ShowsActDays entry.now.act }
    ensures { IfOk result (λ part. part.items ≡ spec.entry_part form (entry_shown entry.now)) }
{
    match form {
        StatementForm::Text => lines_of(alloc, entry),
        StatementForm::Table => entry_row(alloc, entry),
    }
}

/// How entries are shown, of which so many were counted.
#[derive(Drop)]
struct EntryLines {
    form: StatementForm,
    count: u64,
}

impl Step<ListedEntry> for EntryLines {
    ghost use Rattle.std.specs.Prelude.{◌≡◌, length};
    ghost use Rattle.book_model.specs.Words.{ShowsActDays};

    type State = u64;

    ghost Takes = { λ lines entry. ShowsActDays entry.act };

    ghost Has = { λ lines number entries. number ≡ length entries };

    fn begin(&self, _alloc: Global) -> Result<u64, AllocError> {
        Ok(0)
    }

    fn add(
        &self,
        _alloc: Global,
        number: &mut u64,
        _entry: &ListedEntry,
    ) -> Result<(), LedgerFault> {
        let Some(more) = number.checked_add(1) else {
            return Err(LedgerFault::Memory);
        };
        *number = more;
        Ok(())
    }
}

impl Lines<ListedEntry> for EntryLines {
    ghost use Rattle.std.specs.Prelude.{[]};
    ghost use Rattle.book_model.specs.Words.{entry_shown};
    ghost use Rattle.book_reports.specs.StreamedJournal.{entry_part, journal_above};
    ghost use Rattle.book_reports.specs.StreamedJournal.{some_above_entries};

    ghost above = { λ lines. journal_above lines.form lines.count };

    ghost part = { λ lines number entry. entry_part lines.form (entry_shown entry) };

    ghost below = { λ lines entries. [] };

    fn head(&self, alloc: Global) -> Result<Vec<u8>, AllocError> {
        head_of(alloc, self.form, self.count)
    }

    fn line(
        &self,
        alloc: Global,
        _number: u64,
        entry: &ListedEntry,
    ) -> Result<Vec<u8>, AllocError> {
        part_of(alloc, self.form, entry)
    }

    fn end(&self, alloc: Global, _written: &u64) -> Result<Vec<u8>, AllocError> {
        Ok(Vec::new(alloc))
    }

    ghost some = { λ lines. some_above_entries lines.form lines.count };
}

/// How many entries the journal has. Each is read for it, one at a time.
fn count_entries<L: Ledger>(alloc: Global, ledger: &mut L) -> Result<u64, LedgerFault>
    ensures { IsCall (λ count. count) (L.seen ledger.old) (L.seen ledger.new) result
        (spec.entry_count_outcome (L.seen ledger.old).naming) }
{
    let lines = EntryLines {
        form: StatementForm::Text,
        count: 0,
    };
    fold(alloc, ledger, &EntryCursor, &lines)
}

/// Writes the journal, the oldest entry first: all of it, or, before a fault, a prefix of its text
/// that is not the whole. Its entries are counted first, since their number stands above the list, so
/// what the ledger refuses comes before any byte; nobody changes the books meanwhile. Nothing is
/// written after a write that failed.
pub fn write_journal<L: Ledger, W: Writer + Drop>(
    alloc: Global,
    ledger: &mut L,
    form: StatementForm,
    sink: &mut Sink<W>,
) -> Result<(), ReportFault>
    ensures written { IsTransition (L.seen ledger.old) (L.seen ledger.new)
        (spec.WritesJournal form (L.seen ledger.old).naming
        (W.contents (writer_of sink.old)) (W.contents (writer_of sink.new)) result) }
    ensures reopens { Reopens (refusal_in result)
        (L.seen ledger.old).must_reopen (L.seen ledger.new).must_reopen }
    ensures some { spec.WritesSomeJournal form
        (W.contents (writer_of sink.old)) (W.contents (writer_of sink.new)) result }
    ensures failed { has_failed sink.old ≡ false → has_failed sink.new ≡ is_write_fault result }
{
    let count = count_entries(alloc, ledger)?;
    write_list(
        alloc,
        ledger,
        &EntryCursor,
        &EntryLines { form, count },
        sink,
    )
}
