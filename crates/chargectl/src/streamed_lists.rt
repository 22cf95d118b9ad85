//! Lists that are written while the books are open: the details of a period, the rulings, the disputes
//! and the journal. With a million records or choices a list has 90 MB or more, and is never held whole.

ghost use Rattle.std.specs.Prelude.{◌≡◌, Err, IfErr, IsErr, OnErr, OnOk, false};
ghost use Rattle.std.specs.Io.KnownBytes.{Keeps};
ghost use Rattle.streams.specs.Failures.{HasFailed};
ghost use Rattle.streams.specs.Sinks.{has_failed, writer_of};
ghost use Rattle.book_core.specs.Words.{Reopens, IsTransition};
ghost use Rattle.book_lists.specs.Streamed.{WritesAnswerUntil, refusal_in};
ghost use Rattle.book_lists.specs.Writing.{is_write_fault};
ghost use Rattle.chargectl.specs.Commands.{IsFileFault, first_fault};
ghost use Rattle.chargectl.specs.StreamedLists.{ListsAsked, ListsBy, WritesSomeOf, list_answer};
ghost use Rattle.chargectl.specs.StreamedLists as spec;

use crate::report_commands::about_of;
use book_core::{Ledger, Sink};
use book_reports::{
    DetailReport, ReportFault, write_details, write_disputes, write_journal, write_rulings,
};
use command_line::ReportAsked;
use named_books::{Opened, Repository, RepositoryFault, Visit};
use office::StatementForm;
use report_rows::{About, ReportName};
use std::alloc::Global;
use streams::Writer;
use without_books::{CommandFault, Ended, let_out};

/// A list that is written so.
#[derive(Clone, Copy)]
pub(crate) enum StreamedList {
    Details(DetailReport),
    Rulings,
    Disputes(StatementForm),
    Journal(StatementForm),
}

/// The list of this name about that. `None`: there is none.
fn list_about(name: ReportName, form: StatementForm, about: About) -> Option<StreamedList>
    ensures { result ≡ spec.list_about name form about }
{
    match about {
        About::OfCentre { period, centre } => match name {
            ReportName::Details => Some(StreamedList::Details(DetailReport {
                form,
                period,
                centre,
            })),
            _ => None,
        },
        About::OfOffice => match name {
            ReportName::Disputes => Some(StreamedList::Disputes(form)),
            ReportName::Journal => Some(StreamedList::Journal(form)),
            ReportName::Rulings => Some(StreamedList::Rulings),
            _ => None,
        },
        _ => None,
    }
}

/// The list that words ask for. `None`: one of them is not what it has to be.
fn list_of(asked: ReportAsked<'_>) -> Option<StreamedList>
    ensures { result ≡ spec.list_of asked.entry }
{
    match about_of(asked.words) {
        Some(about) => list_about(asked.name, asked.form, about),
        None => None,
    }
}

/// The list on its way to the output.
#[derive(Drop)]
struct Listing<O: Writer + Drop> {
    alloc: Global,
    list: StreamedList,
    sink: Sink<O>,
}

/// Writes the list of any books.
fn write_of<L: Ledger, O: Writer + Drop>(
    alloc: Global,
    books: &mut L,
    list: StreamedList,
    sink: &mut Sink<O>,
) -> Result<(), ReportFault>
    ensures written { IsTransition (L.seen books.old) (L.seen books.new)
        (WritesAnswerUntil (list_answer list) (L.seen books.old).naming
        (O.contents (writer_of sink.old)) (O.contents (writer_of sink.new)) result) }
    ensures reopens { Reopens (refusal_in result)
        (L.seen books.old).must_reopen (L.seen books.new).must_reopen }
    ensures some { WritesSomeOf list
        (O.contents (writer_of sink.old)) (O.contents (writer_of sink.new)) result }
    ensures failed { has_failed sink.old ≡ false → has_failed sink.new ≡ is_write_fault result }
{
    match list {
        StreamedList::Details(report) => write_details(alloc, books, report, sink),
        StreamedList::Rulings => write_rulings(alloc, books, sink),
        StreamedList::Disputes(form) => write_disputes(alloc, books, form, sink),
        StreamedList::Journal(form) => write_journal(alloc, books, form, sink),
    }
}

impl<O: Writer + Drop> Visit for Listing<O> {
    ghost use Rattle.streams.specs.Sinks.{has_failed, writer_of};
    ghost use Rattle.book_lists.specs.Streamed.{WritesAnswerUntil};
    ghost use Rattle.chargectl.specs.StreamedLists.{ListsOpen, list_answer, listing_answered};

    type Answer = Result<(), ReportFault>;

    ghost work = { λ naming it after told. WritesAnswerUntil (list_answer it.list) naming
        (O.contents (writer_of it.sink)) (O.contents (writer_of after.sink)) told };

    ghost comes = { λ it after told. ListsOpen it.list
        (O.contents (writer_of it.sink)) (O.contents (writer_of after.sink))
        (has_failed it.sink) (has_failed after.sink) told };

    ghost answered = { λ naming it after told. listing_answered (list_answer it.list) naming
        (O.contents (writer_of it.sink)) (O.contents (writer_of after.sink)) told };

    /// Rulings are few. Details and the journal go over many pages, and a list of disputes looks their
    /// records up wherever these lie.
    fn is_brief(&self) -> bool {
        matches!(self.list, StreamedList::Rulings)
    }

    fn visit<L: Ledger>(&mut self, books: &mut L) -> Result<(), ReportFault> {
        write_of(self.alloc, books, self.list, &mut self.sink)
    }
}

/// Writes a list of the books of a name.
fn write_list<S: Repository, O: Writer + Drop>(
    rt: &HostRuntime,
    repository: &mut S,
    book: &str,
    list: StreamedList,
    output: O,
) -> (Result<Ended, CommandFault>, O)
    ensures { ListsBy list book.now (S.shelf repository.old) (S.shelf repository.new)
        (O.contents output) (O.contents result.1) (∥ HasFailed O.may_answer result.1 ∥₁) result.0 }
{
    if let Err(fault) = repository.expect(book) {
        return (Err(CommandFault::from(fault)), output);
    }
    let mut listing = Listing {
        alloc: rt.alloc(),
        list,
        sink: Sink::new(output),
    };
    let Opened { answer, has_log } = repository.open(book, &mut listing);
    let Listing { sink, .. } = listing;
    let mut output = sink.into_inner();
    let ended = Ended {
        came: flushed(list_end(answer), &mut output),
        has_log,
        is_change: false,
        notice: None,
    };
    (Ok(ended), output)
}

/// Writes the list that words ask for.
pub(crate) fn list<S: Repository, O: Writer + Drop>(
    rt: &HostRuntime,
    repository: &mut S,
    book: &str,
    asked: ReportAsked<'_>,
    output: O,
) -> (Result<Ended, CommandFault>, O)
    ensures { ListsAsked (spec.list_of asked.entry) book.now
        (S.shelf repository.old) (S.shelf repository.new)
        (O.contents output) (O.contents result.1) (∥ HasFailed O.may_answer result.1 ∥₁) result.0 }
{
    match list_of(asked) {
        Some(list) => write_list(rt, repository, book, list, output),
        None => (Err(CommandFault::Argument), output),
    }
}

/// What came of the list, before the output is flushed.
fn list_end(told: Result<Result<(), ReportFault>, RepositoryFault>) -> Result<(), CommandFault>
    ensures { result ≡ spec.list_end told }
{
    match told {
        Ok(Ok(())) => Ok(()),
        Ok(Err(fault)) => Err(CommandFault::from(fault)),
        Err(fault) => Err(CommandFault::from(fault)),
    }
}

/// Sees to it that what was written has left the program, where all went well so far.
fn flushed<O: Writer>(came: Result<(), CommandFault>, output: &mut O) -> Result<(), CommandFault>
    // An earlier fault comes first.
    ensures ends { result ≡ first_fault came result }

    // Only the output can fail after that.
    ensures output { OnOk came (IfErr result IsFileFault) }
    ensures failed { OnOk came (OnErr result (∥ HasFailed O.may_answer output.new ∥₁)) }
    ensures kept { Keeps (O.contents output.old) (O.contents output.new) }
    ensures same { IsErr came → output.new ≡ output.old }
{
    match came {
        Ok(()) => let_out(output),
        Err(fault) => Err(fault),
    }
}
