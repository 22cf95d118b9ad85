//! Works withheld by the records of a dump. Faults are found in this order: the books, the file,
//! what the books say, or the stop of the dump, and then the output. The dump is read before the
//! books are opened, and they are closed before it is written what came of it.

ghost use Rattle.std.specs.Prelude.{◌≡◌, IfErr, IfOk};
ghost use Rattle.streams.specs.Failures.{HasFailed};
ghost use Rattle.book_model.specs.Words.{note_given};
ghost use Rattle.office.proofs.WithholdingLemmas.{so_answered};
ghost use Rattle.without_books.specs.Faults.{IsFileFault, end_of};
ghost use Rattle.chargectl.specs.Commands.{first_fault};
ghost use Rattle.chargectl.specs.WithheldWorks as spec;
ghost use Rattle.chargectl.specs.WithheldWorks.{ComesOfDump, IsNamedOf, IsWithheld, PrintsWorks};
ghost use Rattle.chargectl.specs.WithheldWorks.{TellsDump, TellsTold, TellsWorks, WithholdsDump};
ghost use Rattle.chargectl.specs.WithheldWorks.{WorksBy};

use book_core::{Ledger, LedgerFault, Note, ShaNames, Source, Stop};
use book_import::{DumpNames, MAX_READS, dump_names};
use book_reports::withheld_line_text;
use named_books::{Opened, Repository, RepositoryFault, Visit};
use office::{WorksTold, withhold_each};
use smf_frames::Layout;
use std::alloc::{AllocError, Global};
use std::io::Read;
use streams::Writer;
use without_books::{CommandFault, Ended, Inputs, end_of, print_text};

/// The works that the records of these names are of.
#[derive(Drop)]
struct NamedWorks {
    names: Vec<[u8; 32]>,
    note: Option<Note>,
}

impl Visit for NamedWorks {
    /// What came of them.
    type Answer = WorksTold;

    ghost work = { λ naming works _ told.
        WorksBy (note_given works.note) naming works.names.items told };

    ghost comes = { λ _ _ _. Unit {0} };

    ghost answered = { λ naming works _ told.
        so_answered (note_given works.note) naming works.names.items told.counts told.refusal };

    fn visit<L: Ledger>(&mut self, books: &mut L) -> WorksTold {
        withhold_each(books, &self.names, &self.note)
    }
}

/// What came of the works of a dump, whose books are closed again.
#[derive(Drop)]
pub(crate) struct WorksAnswered {
    /// How they were answered, or why the books were not opened.
    pub(crate) told: Result<WorksTold, RepositoryFault>,
    /// Why the dump had no more records.
    pub(crate) stop: Stop,
    /// The log beside the books holds a part of them.
    pub(crate) has_log: bool,
}

/// Withholds the works of the records of a dump, with the note, and writes how many were withheld.
pub(crate) fn withhold_dump<S: Repository, F: Inputs, O: Writer + Drop>(
    alloc: Global,
    repository: &mut S,
    inputs: &F,
    book: &str,
    file: &str,
    layout: Layout,
    note: Option<Note>,
    output: O,
) -> (Ended, O)
    ensures { WithholdsDump layout ((F.held inputs.now).holds file.now) book.now
        (S.shelf repository.old) (S.shelf repository.new) (O.contents output) (O.contents result.1)
        (∥ HasFailed O.may_answer result.1 ∥₁) result.0 }
{
    let answered = ask_works(alloc, repository, inputs, book, file, layout, note);
    tell_works(answered, output)
}

/// What comes of a dump.
fn ask_works<S: Repository, F: Inputs>(
    alloc: Global,
    repository: &mut S,
    inputs: &F,
    book: &str,
    file: &str,
    layout: Layout,
    note: Option<Note>,
) -> Result<WorksAnswered, CommandFault>
    ensures { ComesOfDump layout ((F.held inputs.now).holds file.now) book.now
        (S.shelf repository.old) (S.shelf repository.new) result }
{
    repository.expect(book)?;
    let named = read_dump(alloc, inputs, file, layout)?;
    Ok(withhold_named(repository, book, named, note))
}

/// The names of the usage records of a dump in a file.
fn read_dump<F: Inputs>(
    alloc: Global,
    inputs: &F,
    file: &str,
    layout: Layout,
) -> Result<DumpNames, CommandFault>
    ensures named { IfOk result (IsNamedOf layout ((F.held inputs.now).holds file.now)) }
    ensures refused { IfErr result IsFileFault }
{
    let input = inputs.open(file)?;
    match read_names(alloc, layout, input) {
        Ok(named) => Ok(named),
        Err(_) => Err(CommandFault::Ledger(LedgerFault::Memory)),
    }
}

/// The names of the usage records of a dump that a reader gives.
fn read_names<R: Read + Drop>(
    alloc: Global,
    layout: Layout,
    reader: R,
) -> Result<DumpNames, AllocError>
    ensures { IfOk result (IsNamedOf layout (R.remaining reader)) }
{
    let mut source = Source::new(reader);
    dump_names(alloc, &mut source, layout, MAX_READS, &ShaNames)
}

/// Opens the books, and withholds the works of the records of these names.
fn withhold_named<S: Repository>(
    repository: &mut S,
    book: &str,
    named: DumpNames,
    note: Option<Note>,
) -> WorksAnswered
    ensures { IsWithheld named book.now (S.shelf repository.old) (S.shelf repository.new) result }
{
    let DumpNames { names, stop } = named;
    let mut works = NamedWorks { names, note };
    let Opened { answer, has_log } = repository.open(book, &mut works);
    WorksAnswered {
        told: answer,
        stop,
        has_log,
    }
}

/// Writes what came of works, and says how the command ends.
pub(crate) fn tell_works<O: Writer + Drop>(
    answered: Result<WorksAnswered, CommandFault>,
    output: O,
) -> (Ended, O)
    ensures { TellsDump answered (O.contents output) (O.contents result.1)
        (∥ HasFailed O.may_answer result.1 ∥₁) result.0 }
{
    match answered {
        Ok(answered) => tell_answered(answered, output),
        Err(fault) => (Ended::without_log(Err(fault)), output),
    }
}

fn tell_answered<O: Writer + Drop>(answered: WorksAnswered, output: O) -> (Ended, O)
    ensures { TellsWorks answered (O.contents output) (O.contents result.1)
        (∥ HasFailed O.may_answer result.1 ∥₁) result.0 }
{
    let WorksAnswered {
        told,
        stop,
        has_log,
    } = answered;
    let (came, output) = tell_told(told, stop, output);
    let ended = Ended {
        came,
        has_log,
        is_change: true,
        notice: None,
    };
    (ended, output)
}

fn tell_told<O: Writer + Drop>(
    told: Result<WorksTold, RepositoryFault>,
    stop: Stop,
    output: O,
) -> (Result<(), CommandFault>, O)
    ensures { TellsTold told stop (O.contents output) (O.contents result.1)
        (∥ HasFailed O.may_answer result.1 ∥₁) result.0 }
{
    match told {
        Ok(told) => print_counts(told, stop_of(told.refusal, stop), output),
        Err(fault) => (Err(CommandFault::from(fault)), output),
    }
}

/// Why no further work was withheld: the books refused one, or the dump had no more records.
fn stop_of(refusal: Option<LedgerFault>, stop: Stop) -> Stop
    ensures { result ≡ spec.stop_of refusal stop }
{
    match refusal {
        Some(fault) => Stop::Ledger(fault),
        None => stop,
    }
}

/// Writes the counts, so that they have left the program. Works that stopped say so also where they
/// could not be written.
fn print_counts<O: Writer + Drop>(
    told: WorksTold,
    stop: Stop,
    mut output: O,
) -> (Result<(), CommandFault>, O)
    ensures { PrintsWorks told.counts stop (O.contents output) (O.contents result.1)
        (∥ HasFailed O.may_answer result.1 ∥₁) result.0 }
{
    let counts = told.counts;
    let line = withheld_line_text(counts.withheld, counts.already, counts.not_held, stop);
    let written = print_text(line.as_str(), &mut output);
    (ended_at(stop, written), output)
}

/// How a command ends that stopped so, whose line was written or not.
fn ended_at(stop: Stop, written: Result<(), CommandFault>) -> Result<(), CommandFault>
    ensures { result ≡ first_fault (end_of stop) written }
{
    end_of(stop)?;
    written
}
