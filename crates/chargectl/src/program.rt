//! What the program does with its words and streams.

ghost use Rattle.std.specs.Prelude.{◌≡◌};
ghost use Rattle.streams.specs.Failures.{HasFailed};
ghost use Rattle.program_output.specs.Messages.{AreSaid};
ghost use Rattle.without_books.specs.Faults.{shelf_end};
ghost use Rattle.chargectl.specs.Requests as requests;
ghost use Rattle.chargectl.specs.Requests.{CommandsBy, Does, Helps, IsRefusedFor, Runs};
ghost use Rattle.chargectl.specs.Requests.{GoesOverRecords, LooksIntoBooks, UnlessUnnoted, WaitsAndDoes};

use crate::audits::{audit, back_up};
use crate::book_commands::{import_dump, rule, tell};
use crate::choices::choose_listed;
use crate::dry_runs::dry_run;
use crate::import_works::withhold_by_entry;
use crate::near_rulings::rule_near;
use crate::report_commands::{report, what_if};
use crate::serve::serve;
use crate::streamed_lists::list;
use crate::upgrades::upgrade;
use crate::withheld_works::withhold_dump;
use book_audit::AuditedRepository;
use book_core::{LedgerFault, Note};
use command_line::{ArgumentFault, BookRequest, NoteWords, Request, requested_by};
use named_books::{RepositoryFault, WaitingRepository};
use program_output::{PROGRAM, Status, out_of_memory, say};
use std::io::Read;
use streams::Writer;
use tariff_rules::{MAX_RATE, Tariff};
use without_books::{
    CommandFault, Ended, Inputs, Said, check, explain, help, note_of, print_text, run_trial,
    run_trial_under, say_fault, settled,
};

/// For how many seconds a client of a service is kept waiting for books that others have in use.
const SERVICE_WAIT: u16 = 2;

/// Does what the words ask for, the first of which is the program's name. Books are kept at a
/// place, and the files that words name are read from others. Why it was not done is said on
/// standard error; where that is a terminal, or it is asked for, a person is told more.
pub fn command<S, F: Inputs, I: Read + Drop, O: Writer + Drop, E: Writer>(
    rt: &HostRuntime,
    place: &mut S,
    files: &F,
    words: &[String],
    input: I,
    output: O,
    errors: &mut E,
) -> (Status, O)
where
    S: AuditedRepository + WaitingRepository,
    ensures { CommandsBy (F.held files.now) S.shelf S.waits place.old place.new words.now
        (I.remaining input) O.contents O.may_answer output result.1
        (AreSaid E.contents E.may_answer) errors.old errors.new result.0 }
{
    match requested_by(rt.alloc(), PROGRAM, words, MAX_RATE as u32) {
        Ok(request) => {
            let (ended, output) = run(rt, place, files, request, input, output);
            let said = Said::by(&ended);
            let status = ended.write_to(errors);
            help(rt, words, request, said);
            (status, output)
        }
        Err(fault) => refuse(&fault, output, errors),
    }
}

/// Does what is asked. Here alone it is set for how long openings wait.
fn run<S, F: Inputs, I: Read + Drop, O: Writer + Drop>(
    rt: &HostRuntime,
    repository: &mut S,
    inputs: &F,
    request: Request<'_>,
    input: I,
    mut output: O,
) -> (Ended, O)
where
    S: AuditedRepository + WaitingRepository,
    ensures { Runs (F.held inputs.now) S.shelf S.waits repository.old repository.new request.entry
        (I.remaining input) (O.contents output) (O.contents result.1)
        (∥ HasFailed O.may_answer result.1 ∥₁) result.0 }
{
    match request {
        Request::Trial {
            layout,
            cpu,
            excp,
            record,
            whole,
        } => {
            let tariff = Tariff::flat(rt.alloc(), cpu, excp, record);
            run_trial(rt.alloc(), layout, whole, tariff, input, output)
        }
        Request::TrialUnder {
            layout,
            file,
            whole,
        } => run_trial_under(rt.alloc(), inputs, layout, whole, file, input, output),
        Request::Check { dump, names } => check(rt, inputs, dump, names, output),
        Request::Explain { kind, number } => {
            let came = explain(rt.alloc(), kind, number, &mut output);
            (Ended::without_log(came), output)
        }
        Request::OfBooks {
            book,
            wait,
            note,
            asked,
        } => run_noted(rt, repository, inputs, book, wait, note, asked, output),
        Request::Unclear(why) => (Ended::without_log(Err(CommandFault::Unclear(why))), output),
    }
}

/// Makes the note of what is asked of books, and does that. Without memory for the note nothing is done.
fn run_noted<S, F: Inputs, O: Writer + Drop>(
    rt: &HostRuntime,
    repository: &mut S,
    inputs: &F,
    book: &str,
    wait: u16,
    note: NoteWords<'_>,
    asked: BookRequest<'_>,
    output: O,
) -> (Ended, O)
where
    S: AuditedRepository + WaitingRepository,
    ensures { UnlessUnnoted repository.old repository.new (O.contents output)
        (O.contents result.1) result.0
        (WaitsAndDoes (F.held inputs.now) S.shelf S.waits repository.old repository.new
        (requests.wait_for asked.entry wait) asked.entry book.now (O.contents output)
        (O.contents result.1) (∥ HasFailed O.may_answer result.1 ∥₁) result.0) }
{
    match note_of(rt.alloc(), inputs, note, &asked) {
        Ok(own) => {
            repository.wait_up_to(wait_for(&asked, wait));
            run_on_books(rt, repository, inputs, book, own, asked, output)
        }
        Err(_) => {
            let memory = CommandFault::Ledger(LedgerFault::Memory);
            (Ended::without_log(Err(memory)), output)
        }
    }
}

/// For how many seconds an opening waits for books that others have in use: the words of a service
/// do not say it.
fn wait_for(asked: &BookRequest<'_>, wait: u16) -> u16
    ensures { result ≡ requests.wait_for asked.now wait }
{
    match asked {
        BookRequest::Serve { .. } => SERVICE_WAIT,
        _ => wait,
    }
}

/// Does what is asked of books, with its note.
fn run_on_books<S: AuditedRepository, F: Inputs, O: Writer + Drop>(
    rt: &HostRuntime,
    place: &mut S,
    inputs: &F,
    book: &str,
    note: Option<Note>,
    asked: BookRequest<'_>,
    output: O,
) -> (Ended, O)
    ensures { Does (F.held inputs.now) S.shelf asked.entry book.now place.old place.new
        (O.contents output) (O.contents result.1) (∥ HasFailed O.may_answer result.1 ∥₁) result.0 }
{
    match asked {
        BookRequest::Init => (Ended::without_log(made(place.make(book))), output),
        BookRequest::Rule(ruling) => { tell(rule(rt, place, inputs, book, ruling, note), output) }
        BookRequest::RuleNear(ruling) => {
            tell(rule_near(rt, place, inputs, book, ruling, note), output)
        }
        BookRequest::Import(dump) => {
            tell(import_dump(rt, place, inputs, book, dump, note), output)
        }
        BookRequest::DryRun(ruling) => tell(dry_run(rt, place, inputs, book, ruling), output),
        BookRequest::ChooseListed { .. }
        | BookRequest::TryListed { .. }
        | BookRequest::WithholdDump { .. }
        | BookRequest::WithholdImport { .. } => {
            go_over_records(rt, place, inputs, book, note, asked, output)
        }
        BookRequest::Report(_)
        | BookRequest::List(_)
        | BookRequest::WhatIf { .. }
        | BookRequest::Upgrade
        | BookRequest::Audit { .. }
        | BookRequest::BackUp { .. }
        | BookRequest::Serve { .. } => {
            look_into_books(rt, place, inputs, book, note, asked, output)
        }
    }
}

/// Chooses records, or withholds their works, one after the other, with the note; or tries that, which
/// needs none.
fn go_over_records<S: AuditedRepository, F: Inputs, O: Writer + Drop>(
    rt: &HostRuntime,
    place: &mut S,
    inputs: &F,
    book: &str,
    note: Option<Note>,
    asked: BookRequest<'_>,
    output: O,
) -> (Ended, O)
    requires { GoesOverRecords asked }
    ensures { Does (F.held inputs.now) S.shelf asked.entry book.now place.old place.new
        (O.contents output) (O.contents result.1) (∥ HasFailed O.may_answer result.1 ∥₁) result.0 }
{
    let alloc = rt.alloc();
    match asked {
        BookRequest::ChooseListed { none, file } => choose_listed(
            alloc, place, inputs, book, file, false, none, note, output,
        ),
        BookRequest::TryListed { none, file } => choose_listed(
            alloc, place, inputs, book, file, true, none, None, output,
        ),
        BookRequest::WithholdDump { file, layout } => withhold_dump(
            alloc, place, inputs, book, file, layout, note, output,
        ),
        BookRequest::WithholdImport { number } => {
            withhold_by_entry(alloc, place, book, number, note, output)
        }
        _ => unreachable!(),
    }
}

/// Does what makes no ruling and reads no dump, but for a service, whose clients may post with the note.
fn look_into_books<S: AuditedRepository, F: Inputs, O: Writer + Drop>(
    rt: &HostRuntime,
    place: &mut S,
    inputs: &F,
    book: &str,
    note: Option<Note>,
    asked: BookRequest<'_>,
    mut output: O,
) -> (Ended, O)
    requires { LooksIntoBooks asked }
    ensures { Does (F.held inputs.now) S.shelf asked.entry book.now place.old place.new
        (O.contents output) (O.contents result.1) (∥ HasFailed O.may_answer result.1 ∥₁) result.0 }
{
    match asked {
        BookRequest::Report(words) => tell(report(rt, place, book, words), output),
        BookRequest::List(words) => {
            let (listed, output) = list(rt, place, book, words, output);
            (settled(listed), output)
        }
        BookRequest::WhatIf { form, period, file } => {
            tell(what_if(rt, place, inputs, book, form, period, file), output)
        }
        BookRequest::Upgrade => (settled(upgrade(place, book, &mut output)), output),
        BookRequest::Audit { quiet } => {
            let (audited, output) = audit(rt, place, book, quiet, output);
            (settled(audited), output)
        }
        BookRequest::BackUp { copy, quiet } => {
            let (audited, output) = back_up(rt, place, book, copy, quiet, output);
            (settled(audited), output)
        }
        BookRequest::Serve { port, requests } => {
            let (served, output) = serve(rt, place, book, port, requests, note, output);
            (settled(served), output)
        }
        _ => unreachable!(),
    }
}

/// New books were made, or why not.
fn made(answer: Result<(), RepositoryFault>) -> Result<(), CommandFault>
    ensures { result ≡ shelf_end answer }
{
    match answer {
        Ok(()) => Ok(()),
        Err(fault) => Err(CommandFault::from(fault)),
    }
}

/// Says what was wrong with the words, or helps where help was asked for.
fn refuse<O: Writer + Drop, E: Writer>(
    fault: &ArgumentFault,
    mut output: O,
    errors: &mut E,
) -> (Status, O)
    ensures { IsRefusedFor fault.now (O.contents output) (O.contents result.1)
        (∥ HasFailed O.may_answer result.1 ∥₁)
        (λ lines. AreSaid E.contents E.may_answer lines errors.old errors.new) result.0 }
{
    match fault {
        ArgumentFault::Memory => (out_of_memory(errors), output),
        ArgumentFault::Wrong(text) => {
            say(errors, text.as_str());
            (Status::Usage, output)
        }
        ArgumentFault::Help(text) => (print_help(text.as_str(), &mut output, errors), output),
    }
}

/// Writes help. Why it was not written is said as of any command.
fn print_help<O: Writer, E: Writer>(text: &str, output: &mut O, errors: &mut E) -> Status
    ensures { Helps text.now (O.contents output.old) (O.contents output.new)
        (∥ HasFailed O.may_answer output.new ∥₁)
        (λ lines. AreSaid E.contents E.may_answer lines errors.old errors.new) result }
{
    let written = print_text(text, output);
    say_fault(written, errors)
}
