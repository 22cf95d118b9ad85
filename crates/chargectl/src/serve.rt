//! Serves the books over HTTP, to this machine only.

ghost use Rattle.std.specs.Prelude.{◌≡◌, ◌++◌, codes, decimal, IfErr, Err, None, Ok, OnOk, true};
ghost use Rattle.streams.specs.Failures.{HasFailed};
ghost use Rattle.without_books.specs.ServedLines.{Gains, seen_of};
ghost use Rattle.chargectl.specs.ClientRequests as spec;
ghost use Rattle.chargectl.specs.ClientRequests.{told_of};
ghost use Rattle.chargectl.specs.Requests.{IsServiceFault, Serves, ServesBy};
ghost use Rattle.chargectl.specs.Serving.{ServesUntil, line_of, lines_of, ready, service_end};

use crate::client_requests::Attended;
use crate::port::{Connections, Port};
use arrayvec::ArrayString;
use book_core::Note;
use book_http::Served;
use book_reports::ReportFault;
use itoa::Buffer;
use named_books::{Look, Opened, Repository, RepositoryFault};
use std::io;
use std::net::TcpListener;
use streams::Writer;
use without_books::{CommandFault, Ended, ServedLines, listen_here};

/// Room for the line of an answer.
type Line = ArrayString<16>;

/// Answers a given number of connections, one after the other, and says what became of each; those that
/// are turned away come beside them. That the books can't be opened is told before the port is taken;
/// from then on they are open only while they are asked. A line that can't be written keeps nobody from
/// being answered: that is told at the end. What is posted has the note, at the time when it came.
pub(crate) fn serve<S: Repository, O: Writer + Drop>(
    rt: &HostRuntime,
    repository: &mut S,
    book: &str,
    port: u16,
    requests: u32,
    note: Option<Note>,
    output: O,
) -> (Result<Ended, CommandFault>, O)
    ensures { ServesBy S.shelf requests book.now repository.old repository.new
        (O.contents output) (O.contents result.1) (∥ HasFailed O.may_answer result.1 ∥₁) result.0 }
{
    if let Err(fault) = repository.expect(book) {
        return (Err(CommandFault::from(fault)), output);
    }
    let Opened { answer, has_log } = repository.open(book, &mut Look);
    match listen(rt, port, answer) {
        Ok(listener) => {
            let (ended, output) = serve_here(
                rt, &listener, requests, note, repository, book, has_log, output,
            );
            (Ok(ended), output)
        }
        Err(fault) => (Ok(ended(Err(fault), has_log)), output),
    }
}

/// Takes the port, where the books were opened.
fn listen(
    rt: &HostRuntime,
    port: u16,
    opened: Result<(), RepositoryFault>,
) -> Result<TcpListener, CommandFault>
    ensures { IfErr result (IsServiceFault (λ why. opened ≡ Err why)) }
{
    opened?;
    Ok(listen_here(rt, port)?)
}

/// How a service ends that answered all connections.
fn told_end(has_failed: bool) -> Result<(), CommandFault>
    ensures { result ≡ service_end (Ok has_failed) }
{
    if has_failed {
        Err(CommandFault::Report(ReportFault::Write))
    } else {
        Ok(())
    }
}

/// How a service ended. It may have taken imports.
fn ended(came: Result<(), CommandFault>, has_log: bool) -> Ended
    ensures { result ≡ record {
      came = came;
      has_log = has_log;
      is_change = true;
      notice = None;
    } }
{
    Ended {
        came,
        has_log,
        is_change: true,
        notice: None,
    }
}

/// Says that connections to a port are answered from now on, and answers them.
fn serve_here<S: Repository, O: Writer + Drop>(
    rt: &HostRuntime,
    listener: &TcpListener,
    requests: u32,
    note: Option<Note>,
    repository: &mut S,
    book: &str,
    has_log: bool,
    output: O,
) -> (Ended, O)
    requires { (S.shelf repository.old).has_log book.now has_log }

    // The books are not in the way any more.
    ensures { Serves S.shelf (λ _. ⊥) requests book.now repository.old repository.new
        (O.contents output) (O.contents result.1) (∥ HasFailed O.may_answer result.1 ∥₁) result.0 }
{
    let mut port = Port::over(rt, listener, requests, note);
    let mut lines = ServedLines::new(output);
    say_ready(&mut lines);
    let (answered, has_log) = serve_each(&mut port, repository, book, has_log, &mut lines);
    match answered {
        Ok(()) => {
            let came = told_end(lines.has_failed());
            (ended(came, has_log), lines.into_inner())
        }
        Err(error) => {
            let fault = CommandFault::from(error);
            (ended(Err(fault), has_log), lines.into_inner())
        }
    }
}

/// Answers the connections that are left, one after the other, and writes a line for each: at once, or
/// once the books are closed from which others were answered too. A line that can't be written is
/// lost, and so are those after it; the connections are answered all the same. An error means that a
/// connection did not come; what was asked of the books till then is done. Whether a log is left
/// beside them is handed on.
pub fn serve_each<C: Connections, S: Repository, O: Writer + Drop>(
    connections: &mut C,
    repository: &mut S,
    book: &str,
    has_log: bool,
    lines: &mut ServedLines<O>,
) -> (io::Result<()>, bool)
    requires { (S.shelf repository.old).has_log book.now has_log }

    // No fault of the output or of the books ends it early.
    ensures served { ServesUntil S.shelf C.sent C.may_come C.may_fail C.most connections.old
        connections.new book.now repository.old repository.new
        (seen_of O.contents lines.old) (seen_of O.contents lines.new) result.0 }
    ensures all { OnOk result.0 (C.left connections.new ≡ 0) }
    ensures log { (S.shelf repository.new).has_log book.now result.1 }
{
    let mut has_log = has_log;
    while !connections.is_over() {
        match connections.next(repository, book) {
            Ok(attended) => {
                has_log = attended.log.unwrap_or(has_log);
                say_attended(lines, &attended);
            }
            Err(error) => return (Err(error), has_log),
        }
    }
    (Ok(()), has_log)
}

/// Says that connections are answered from now on.
fn say_ready<O: Writer + Drop>(lines: &mut ServedLines<O>)
    ensures { Gains (seen_of O.contents lines.old) (seen_of O.contents lines.new) ready }
{
    lines.write("READY\n");
}

/// Says what became of a connection, and of those behind it, once the books are closed.
fn say_attended<O: Writer + Drop>(lines: &mut ServedLines<O>, attended: &Attended)
    ensures { Gains (seen_of O.contents lines.old) (seen_of O.contents lines.new)
        (lines_of (told_of attended.now)) }
{
    say_served(lines, attended.served);
    let later = attended.later.as_slice();
    for what in later {
        say_served(lines, told_behind(attended.served, *what));
    }
}

/// What is told of a client behind one of which this is told: where it was not seen that the closed
/// files hold the books from which both were answered, no answer is told.
pub(crate) fn told_behind(first: Served, what: Served) -> Served
    ensures { result ≡ spec.told_behind first what }
{
    match first {
        Served::Cut => Served::Cut,
        _ => what,
    }
}

/// Says what became of a connection.
fn say_served<O: Writer + Drop>(lines: &mut ServedLines<O>, served: Served)
    ensures { Gains (seen_of O.contents lines.old) (seen_of O.contents lines.new)
        (line_of served) }
{
    match served {
        Served::Closed => lines.write("CLOSED\n"),
        Served::ReadFault => lines.write("READ\n"),
        Served::WriteFault => lines.write("WRITE\n"),
        Served::Cut => lines.write("CUT\n"),
        Served::Answered(status) => {
            let line = status_line(status);
            lines.write(line.as_str());
        }
    }
}

/// The line of a connection that was answered with a status.
fn status_line(status: u16) -> Line
    ensures { result.bytes ≡ codes "SERVED " ++ decimal status ++ codes "\n" }
{
    let mut digits = Buffer::new();
    let mut line = Line::new();
    line.push_str("SERVED ");
    line.push_str(digits.format(status));
    line.push_str("\n");
    line
}
