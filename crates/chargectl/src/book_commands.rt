//! The commands on books. Faults are found in this order: a date or a name, the books, the file,
//! what the books say, or the stop of an import, and then the output. The books are closed before
//! their answer is written. `report_commands` has the reports.

ghost use Rattle.std.specs.Prelude.{◌≡◌, None};
ghost use Rattle.streams.specs.Failures.{HasFailed};
ghost use Rattle.book_core.specs.Words.{IsTransition};
ghost use Rattle.office.specs.Answers.{answer_text};
ghost use Rattle.office.specs.Requests.{IsAskableUnread, response_by, response_of};
ghost use Rattle.office.proofs.AskLemmas.{askable_once};
ghost use Rattle.without_books.specs.FirstBytes.{left_of};
ghost use Rattle.chargectl.specs.Commands.{AsksOnce, once_answered, ComesOf, IsAnswered, IsPrinted};
ghost use Rattle.chargectl.specs.Commands.{IsTold, Tells, answer_of, ends_by};
ghost use Rattle.chargectl.specs.Commands as spec;

use crate::answered::Answered;
use crate::asked_rulings::asked_ruling;
use crate::dated_rulings::rule_on_day;
use book_core::{Ledger, LedgerFault, Note, Sink, Source};
use command_line::{BookRequest, DumpFile, Ruling};
use named_books::{Opened, Repository, RepositoryFault, Visit};
use office::{Answer, Asked, Report, ask, write_answer};
use program_output::is_receipt_torn;
use std::alloc::Global;
use std::io;
use std::io::{IsTerminal, Read};
use streams::Writer;
use without_books::{
    CommandFault, Ended, Inputs, LookedAt, Notice, clear_line, dump_notice, end_of, expect_whole,
    let_out, look_at, open_watched,
};

/// A request to the office, with the reader of its dump.
#[derive(Drop)]
struct OfficeRequest<R: Read + Drop> {
    alloc: Global,
    asked: Asked,
    /// None after it was read.
    input: Option<R>,
    ghost askable: { IsAskableUnread asked } by { Prim.hlevel askable_once },
}

impl<R: Read + Drop> Visit for OfficeRequest<R> {
    /// What the books answered.
    type Answer = Result<Answer, LedgerFault>;

    ghost work = { λ naming request _ told. AsksOnce naming request.asked
        (left_of R.remaining request.input) (response_by told) };

    ghost comes = { λ _ _ _. Unit {0} };

    ghost answered = { λ naming request _ told.
        once_answered naming request.asked (left_of R.remaining request.input)
        (response_by told) };

    /// A report is, but for those that look records up wherever these lie: coverage, which a period's
    /// page has too, and bills. Imports, rulings and other prices go over many pages.
    fn is_brief(&self) -> bool {
        match &self.asked {
            Asked::Report(Report::Coverage { .. }) => false,
            Asked::Report(Report::PeriodPage(_)) => false,
            Asked::Report(Report::Bill { .. }) => false,
            Asked::Report(_) => true,
            _ => false,
        }
    }

    fn visit<L: Ledger>(&mut self, books: &mut L) -> Result<Answer, LedgerFault> {
        match self.input.take() {
            Some(input) => ask_with(self.alloc, books, &self.asked, input),
            None => ask_with(self.alloc, books, &self.asked, io::empty()),
        }
    }
}

/// Asks the books, with a reader that was not asked yet.
pub(crate) fn ask_with<L: Ledger, R: Read + Drop>(
    alloc: Global,
    books: &mut L,
    asked: &Asked,
    input: R,
) -> Result<Answer, LedgerFault>
    requires { IsAskableUnread asked.now }
    ensures { IsTransition (L.seen books.old) (L.seen books.new)
        (spec.AsksOnceBy (L.seen books.old).naming asked.now (R.remaining input) result) }
{
    let mut source = Source::new(input);
    ask(alloc, books, asked, &mut source)
}

/// It may change the books.
pub(crate) fn may_change(asked: &Asked) -> bool
    ensures { result ≡ spec.may_change asked.now }
{
    match asked {
        Asked::Report(_) => false,
        Asked::WhatIf { .. } => false,
        _ => true,
    }
}

/// What came of a request: its answer, its refusal, or why the books were not opened.
pub(crate) fn answer_in(
    told: Result<Result<Answer, LedgerFault>, RepositoryFault>,
) -> Result<Answer, CommandFault>
    ensures { result ≡ answer_of told }
{
    match told {
        Ok(Ok(answer)) => Ok(answer),
        Ok(Err(fault)) => Err(CommandFault::Ledger(fault)),
        Err(fault) => Err(CommandFault::from(fault)),
    }
}

/// Asks the books of a name.
pub(crate) fn ask_books<S: Repository, R: Read + Drop>(
    rt: &HostRuntime,
    repository: &mut S,
    book: &str,
    asked: Asked,
    input: R,
) -> Answered
    requires { IsAskableUnread asked }
    ensures answered { IsAnswered asked (R.remaining input) book.now
        (S.shelf repository.old) (S.shelf repository.new) result }
    ensures notice { result.notice ≡ None }
{
    let is_change = may_change(&asked);
    let mut office_request = OfficeRequest {
        alloc: rt.alloc(),
        asked,
        input: Some(input),
    };
    let Opened { answer, has_log } = repository.open(book, &mut office_request);
    Answered {
        answer: answer_in(answer),
        has_log,
        is_change,
        notice: None,
    }
}

/// Writes what came of a command, and says how it ends.
pub(crate) fn tell<O: Writer + Drop>(
    answered: Result<Answered, CommandFault>,
    output: O,
) -> (Ended, O)
    ensures { Tells answered (O.contents output) (O.contents result.1)
        (∥ HasFailed O.may_answer result.1 ∥₁) result.0 }
{
    match answered {
        Ok(
            Answered {
                answer,
                has_log,
                is_change,
                notice,
            },
        ) => {
            let (came, output) = tell_answer(answer, output);
            let ended = Ended {
                came,
                has_log,
                is_change,
                notice,
            };
            (ended, output)
        }
        Err(fault) => (Ended::without_log(Err(fault)), output),
    }
}

fn tell_answer<O: Writer + Drop>(
    answer: Result<Answer, CommandFault>,
    output: O,
) -> (Result<(), CommandFault>, O)
    ensures { IsTold answer (O.contents output) (O.contents result.1)
        (∥ HasFailed O.may_answer result.1 ∥₁) result.0 }
{
    match answer {
        Ok(answer) => {
            let (written, output) = print(&answer, output);
            (end_by(&answer, written), output)
        }
        Err(fault) => (Err(fault), output),
    }
}

/// An import that stopped says so, also where its receipt could not be written.
fn end_by(answer: &Answer, written: Result<(), CommandFault>) -> Result<(), CommandFault>
    ensures { result ≡ ends_by answer.now written }
{
    if let Answer::Receipt(receipt) = answer {
        end_of(receipt.stop)?;
    }
    written
}

/// Writes an answer, so that it has left the program.
pub(crate) fn print<O: Writer + Drop>(answer: &Answer, output: O) -> (Result<(), CommandFault>, O)
    ensures { IsPrinted (answer_text (response_of answer.now)) (O.contents output)
        (O.contents result.1) (∥ HasFailed O.may_answer result.1 ∥₁) result.0 }
{
    let mut sink = Sink::new(output);
    let told = write_answer(answer, &mut sink);
    let mut output = sink.into_inner();
    if let Err(fault) = told {
        return (Err(CommandFault::Report(fault)), output);
    }
    match let_out(&mut output) {
        Ok(()) => (Ok(()), output),
        Err(lost) => (Err(lost), output),
    }
}

/// It has a day, which may be far from the records. A tariff in the place of another has the day of
/// that one.
fn is_dated(ruling: Ruling<'_>) -> bool
    ensures { result ≡ spec.is_dated ruling.entry }
{
    match ruling {
        Ruling::Tariff { .. } => true,
        Ruling::Close { .. } => true,
        Ruling::Choose { .. } => false,
        Ruling::Adopt => false,
        Ruling::Replace { .. } => false,
        Ruling::Withhold { .. } => false,
        Ruling::Credit { .. } => false,
    }
}

/// Makes a ruling on the books of a name, with its note.
#[tactic(auto, using(crate::proofs::FarLemmas::ruling_unread))]
pub(crate) fn rule<S: Repository, F: Inputs>(
    rt: &HostRuntime,
    repository: &mut S,
    inputs: &F,
    book: &str,
    ruling: Ruling<'_>,
    note: Option<Note>,
) -> Result<Answered, CommandFault>
    ensures { ComesOf (F.held inputs.now) (BookRequest.Rule ruling.entry) book.now
        (S.shelf repository.old) (S.shelf repository.new) result }
{
    let asked = asked_ruling(rt.alloc(), &*repository, inputs, book, ruling, note)?;
    if is_dated(ruling) {
        Ok(rule_on_day(rt.alloc(), repository, inputs, book, asked))
    } else {
        Ok(ask_books(rt, repository, book, asked, io::empty()))
    }
}

/// Reads a dump into the books, whatever stops the import, with its note.
pub(crate) fn import_dump<S: Repository, F: Inputs>(
    rt: &HostRuntime,
    repository: &mut S,
    inputs: &F,
    book: &str,
    dump: DumpFile<'_>,
    note: Option<Note>,
) -> Result<Answered, CommandFault>
    ensures { ComesOf (F.held inputs.now) (BookRequest.Import dump.entry) book.now
        (S.shelf repository.old) (S.shelf repository.new) result }
{
    repository.expect(book)?;
    expect_whole(rt, inputs, dump)?;
    let asked = Asked::Import(dump.layout, note);
    let is_shown = !dump.quiet && rt.stderr().is_terminal();
    let input = open_watched(rt, inputs, dump.file, is_shown)?;
    let LookedAt { reader, is_misread } = look_at(rt.alloc(), dump.layout, input);
    let mut answered = ask_books(rt, repository, book, asked, reader);
    clear_line(rt, is_shown);
    answered.notice = answer_notice(dump.whole, is_misread, &answered.answer);
    Ok(answered)
}

/// What an import notices of its dump.
fn answer_notice(
    has_to_be_whole: bool,
    is_misread: bool,
    answer: &Result<Answer, CommandFault>,
) -> Option<Notice>
    ensures { result ≡ spec.answer_notice has_to_be_whole is_misread answer.now }
{
    match answer {
        Ok(Answer::Receipt(receipt)) => {
            let is_torn = is_receipt_torn(receipt);
            dump_notice(has_to_be_whole, is_misread, is_torn, receipt.stop)
        }
        _ => None,
    }
}
