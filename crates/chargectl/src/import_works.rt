//! Works withheld by the import that their records came by. Faults are found in this order: the number
//! of the import, the books, what the books say, and then the output. The books are closed before it is
//! written what came of it.

ghost use Rattle.std.specs.Prelude.{◌≡◌};
ghost use Rattle.streams.specs.Failures.{HasFailed};
ghost use Rattle.book_model.specs.Words.{note_given};
ghost use Rattle.office.specs.ImportWorks.{WithholdsImport};
ghost use Rattle.office.proofs.ImportWorkLemmas.{import_answered};
ghost use Rattle.chargectl.specs.ImportWorks as spec;
ghost use Rattle.chargectl.specs.ImportWorks.{ComesOfEntry, ComesOfWorks, IsEntryWithheld};
ghost use Rattle.chargectl.specs.ImportWorks.{WithholdsEntry};

use crate::withheld_works::{WorksAnswered, tell_works};
use book_core::{Ledger, LedgerFault, Note, Stop};
use book_http::decimal_value;
use named_books::{Opened, Repository, RepositoryFault, Visit};
use office::{WorksTold, withhold_import};
use std::alloc::Global;
use streams::Writer;
use without_books::{CommandFault, Ended};

/// The most digits that the number of an entry of the journal is written with.
const MOST_DIGITS: usize = 19;

/// A number, if an entry may have it: the first has number 1.
fn if_entry(number: u64) -> Option<u64>
    ensures { result ≡ spec.if_entry number }
{
    if number == 0 {
        return None;
    }
    Some(number)
}

/// The number of an entry of the journal, by its text.
fn entry_number(text: &str) -> Option<u64>
    ensures { result ≡ spec.entry_number text.now }
{
    match decimal_value(MOST_DIGITS, text.as_bytes()) {
        Some(number) => if_entry(number),
        None => None,
    }
}

/// The works of the records that came by an entry of the journal.
#[derive(Drop)]
struct EntryWorks {
    alloc: Global,
    entry: u64,
    note: Option<Note>,
}

impl Visit for EntryWorks {
    /// What came of them, or why they were not looked up.
    type Answer = Result<WorksTold, LedgerFault>;

    ghost work = { λ naming works _ told.
        WithholdsImport (note_given works.note) naming works.entry told };

    ghost comes = { λ _ _ _. Unit {0} };

    ghost answered = { λ naming works _ told.
        import_answered (note_given works.note) naming works.entry told };

    fn visit<L: Ledger>(&mut self, books: &mut L) -> Result<WorksTold, LedgerFault> {
        withhold_import(self.alloc, books, self.entry, &self.note)
    }
}

/// What came of works, or why the books were not opened, or did not say which these are.
fn told_in(
    told: Result<Result<WorksTold, LedgerFault>, RepositoryFault>,
) -> Result<WorksTold, RepositoryFault>
    ensures { result ≡ spec.told_of told }
{
    match told {
        Ok(Ok(told)) => Ok(told),
        Ok(Err(fault)) => Err(RepositoryFault::Ledger(fault)),
        Err(fault) => Err(fault),
    }
}

/// Opens the books, and withholds the works of the records that came by an entry.
fn withhold_entry<S: Repository>(
    alloc: Global,
    repository: &mut S,
    book: &str,
    entry: u64,
    note: Option<Note>,
) -> WorksAnswered
    ensures { IsEntryWithheld entry book.now (S.shelf repository.old) (S.shelf repository.new)
        result }
{
    let mut works = EntryWorks { alloc, entry, note };
    let Opened { answer, has_log } = repository.open(book, &mut works);
    WorksAnswered {
        told: told_in(answer),
        stop: Stop::End,
        has_log,
    }
}

/// What comes of the works of an entry.
fn ask_works<S: Repository>(
    alloc: Global,
    repository: &mut S,
    book: &str,
    entry: u64,
    note: Option<Note>,
) -> Result<WorksAnswered, CommandFault>
    ensures { ComesOfWorks entry book.now (S.shelf repository.old) (S.shelf repository.new)
        result }
{
    repository.expect(book)?;
    Ok(withhold_entry(alloc, repository, book, entry, note))
}

/// What comes of the works of the entry whose number is a text.
fn ask_entry<S: Repository>(
    alloc: Global,
    repository: &mut S,
    book: &str,
    number: &str,
    note: Option<Note>,
) -> Result<WorksAnswered, CommandFault>
    ensures { ComesOfEntry (spec.entry_number number.now) book.now (S.shelf repository.old)
        (S.shelf repository.new) result }
{
    match entry_number(number) {
        Some(entry) => ask_works(alloc, repository, book, entry, note),
        None => Err(CommandFault::Argument),
    }
}

/// Withholds the works of the records that came by an entry of the journal, and writes how many were
/// withheld.
pub(crate) fn withhold_by_entry<S: Repository, O: Writer + Drop>(
    alloc: Global,
    repository: &mut S,
    book: &str,
    number: &str,
    note: Option<Note>,
    output: O,
) -> (Ended, O)
    ensures { WithholdsEntry (spec.entry_number number.now) book.now (S.shelf repository.old)
        (S.shelf repository.new) (O.contents output) (O.contents result.1)
        (∥ HasFailed O.may_answer result.1 ∥₁) result.0 }
{
    let answered = ask_entry(alloc, repository, book, number, note);
    tell_works(answered, output)
}
