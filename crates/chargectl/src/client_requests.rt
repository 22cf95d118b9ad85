//! One request of a client. It is read whole before the books are opened, and answered after they
//! are closed, so that a slow client keeps them from nobody. Two answers are sent before that:
//! details, while they are read, where their text is longer than a body may be; and the short text
//! of a report, behind which others may be answered from the same open books.

ghost use Rattle.std.specs.Prelude.{◌≡◌, ◌≤◌, ◌+◌, ◌^◌, [], Err, None, false, length, reverse};
ghost use Rattle.std.specs.Prelude.{true};
ghost use Rattle.streams.specs.Failures.{HasFailed};
ghost use Rattle.streams.specs.Sources.{has_ended, has_failed, reads_of};
ghost use Rattle.book_core.specs.Transition.{IsTransition};
ghost use Rattle.book_http.specs.declared.asked.Asked.TheVariants as wants;
ghost use Rattle.book_http.specs.Reads.{ReadsRequest};
ghost use Rattle.book_http.specs.Replies.{reply_of};
ghost use Rattle.book_http.specs.Served.{IsSent, is_read_fault, is_unanswered, is_write_fault};
ghost use Rattle.chargectl.specs.ClientRequests as spec;
ghost use Rattle.chargectl.specs.ClientRequests.{AreAnsweredFrom, AsksBehind, AsksOpen, ComesOpen};
ghost use Rattle.chargectl.specs.ClientRequests.{EndsBy, FailsBefore, IsServedFrom, LeavesLog};
ghost use Rattle.chargectl.specs.ClientRequests.{asks_books, later_of};

use crate::port::Peer;
use book_core::{Ledger, Note, Sink, Source};
use book_http::{
    Answer, Asked, Routes, Served, Status, Unanswered, answer_report, ask_office, read_request,
    send, send_details,
};
use named_books::{Opened, Repository, RepositoryFault, Visit};
use office::Report;
use report_rows::BodyKind;
use request_bursts::{Arrivals, answer_more, is_short};
use std::alloc::Global;
use std::mem;
use streams::{Reader, Writer};

/// What became of a client, and of those behind it.
#[derive(Drop)]
pub struct Attended {
    pub served: Served,
    /// Those that were answered while the books were open for it, in their order.
    pub later: Vec<Served>,
    /// Whether a log is left beside the books. None where they were not opened for it.
    pub log: Option<bool>,
}

/// What became of a client for which the books were not opened.
pub(crate) fn unopened(alloc: Global, served: Served) -> Attended
    ensures served { result.served ≡ served }
    ensures later { later_of result ≡ [] }
    ensures log { result.log ≡ None }
{
    Attended {
        served,
        later: Vec::new(alloc),
        log: None,
    }
}

/// A request that is asked of the books, the writer that an early answer goes to, and the clients
/// that may come behind it.
#[derive(Drop)]
struct OpenRequest<W: Peer + Drop, C: Arrivals + Drop> {
    routes: Routes,
    /// Settled, once it was asked.
    request: Asked<Vec<u8>>,
    /// That of what is posted; none, once it was asked.
    note: Option<Note>,
    writer: W,
    arrivals: C,
    /// What became of those that were answered behind it.
    later: Vec<Served>,
}

impl<W: Peer + Writer + Drop, C: Arrivals + Drop> Visit for OpenRequest<W, C> {
    ghost use Rattle.std.specs.Prelude.{reverse};
    ghost use Rattle.streams.specs.Failures.{HasFailed};
    ghost use Rattle.chargectl.specs.ClientRequests.{AsksAll, ComesAll, all_answered};

    /// An answer was sent; or this one is due, once the books are closed.
    type Answer = Result<Served, Answer>;

    ghost work = { λ naming it after told. AsksAll naming it.request
        (W.contents it.writer) (W.contents after.writer) told (reverse after.later.items) };

    ghost comes = { λ it after told. ComesAll C.left it.arrivals after.arrivals it.request
        (W.contents it.writer) (W.contents after.writer)
        (∥ HasFailed W.Writer.may_answer after.writer ∥₁) told (reverse after.later.items) };

    ghost answered = { λ naming it after told. all_answered naming it.request
        (W.contents it.writer) (W.contents after.writer) told (reverse after.later.items) };

    /// A report is. Imports, other prices and details go over many pages.
    fn is_brief(&self) -> bool {
        matches!(self.request, Asked::Report(_, _))
    }

    fn visit<L: Ledger>(&mut self, books: &mut L) -> Result<Served, Answer> {
        let reports = is_report(&self.request);
        let request = mem::replace(&mut self.request, Asked::Settled(Answer::Busy));
        let note = self.note.take();
        let (told, writer) = ask_open(self.routes.alloc(), books, request, note, self.writer);
        self.writer = writer;
        let leads = may_lead(reports, &told);
        self.later = ask_behind(leads, &mut self.routes, &mut self.arrivals, books);
        told
    }
}

/// Answers those that come behind a client that leads others, while the books are open. Without
/// memory none is.
fn ask_behind<C: Arrivals, L: Ledger>(
    leads: bool,
    routes: &mut Routes,
    arrivals: &mut C,
    books: &mut L,
) -> Vec<Served>
    ensures behind { AsksBehind L.seen leads books.old books.new (reverse result.items) }
    ensures count { C.left arrivals.new + length (reverse result.items) ≡ C.left arrivals.old }
{
    if !leads {
        return Vec::new(routes.alloc());
    }
    match answer_more(routes, arrivals, books) {
        Ok(later) => later,
        Err(_) => Vec::new(routes.alloc()),
    }
}

/// A report is asked for.
fn is_report(request: &Asked<Vec<u8>>) -> bool
    ensures { result ≡ spec.is_report request.now }
{
    match request {
        Asked::Report(_, _) => true,
        _ => false,
    }
}

/// Others may be answered behind a report that was sent.
fn may_lead(reports: bool, told: &Result<Served, Answer>) -> bool
    ensures { result ≡ spec.may_lead reports told.now }
{
    match told {
        Ok(_) => reports,
        Err(_) => false,
    }
}

/// Asks open books, and sends nothing but long details and the short text of a report.
fn ask_open<L: Ledger, W: Peer + Drop>(
    alloc: Global,
    books: &mut L,
    request: Asked<Vec<u8>>,
    note: Option<Note>,
    writer: W,
) -> (Result<Served, Answer>, W)
    ensures done { IsTransition (L.seen books.old) (L.seen books.new)
        (AsksOpen (L.seen books.old).naming request
        (W.contents writer) (W.contents result.1) result.0) }
    ensures came { ComesOpen request (W.contents writer) (W.contents result.1)
        (∥ HasFailed W.Writer.may_answer result.1 ∥₁) result.0 }
{
    match request {
        Asked::Report(report, kind) => ask_report(alloc, books, report, kind, writer),
        request => ask_once(alloc, books, request, note, writer),
    }
}

/// Asks open books for a report, and sends its text if it is short.
fn ask_report<L: Ledger, W: Peer + Drop>(
    alloc: Global,
    books: &mut L,
    report: Report,
    kind: BodyKind,
    writer: W,
) -> (Result<Served, Answer>, W)
    ensures done { IsTransition (L.seen books.old) (L.seen books.new)
        (AsksOpen (L.seen books.old).naming (wants.Report report kind)
        (W.contents writer) (W.contents result.1) result.0) }
    ensures came { ComesOpen (wants.Report report kind) (W.contents writer) (W.contents result.1)
        (∥ HasFailed W.Writer.may_answer result.1 ∥₁) result.0 }
{
    let text = answer_report(alloc, books, report, kind);
    if is_short(&text) {
        writer.hurry();
        let (what, writer) = send_to(writer, &text);
        writer.finish();
        (Ok(what), writer)
    } else {
        (Err(text), writer)
    }
}

/// Asks open books once, and sends nothing but long details.
fn ask_once<L: Ledger, W: Peer + Drop>(
    alloc: Global,
    books: &mut L,
    request: Asked<Vec<u8>>,
    note: Option<Note>,
    writer: W,
) -> (Result<Served, Answer>, W)
    ensures done { IsTransition (L.seen books.old) (L.seen books.new)
        (AsksOpen (L.seen books.old).naming request
        (W.contents writer) (W.contents result.1) result.0) }
    ensures came { ComesOpen request (W.contents writer) (W.contents result.1)
        (∥ HasFailed W.Writer.may_answer result.1 ∥₁) result.0 }
{
    match ask_office(alloc, books, request, note) {
        Ok(answer) => (Err(answer), writer),
        Err(long) => {
            writer.hurry();
            let mut sink = Sink::new(writer);
            let what = send_details(alloc, books, long.0, long.1, &mut sink);
            (Ok(what), sink.into_inner())
        }
    }
}

/// It may be answered before the books are closed.
fn may_be_early(request: &Asked<Vec<u8>>) -> bool
    ensures { result ≡ spec.may_be_early request.now }
{
    match request {
        Asked::Details(_) => true,
        Asked::Report(_, _) => true,
        _ => false,
    }
}

/// Sends an answer.
fn send_to<W: Peer + Drop>(writer: W, answer: &Answer) -> (Served, W)
    ensures sent { IsSent (reply_of answer.now) (W.contents writer) (W.contents result.1) result.0 }
    ensures answered { is_unanswered result.0 ≡ false }
    ensures write { is_write_fault result.0 ≡ true → ∥ HasFailed W.Writer.may_answer result.1 ∥₁ }
{
    let mut sink = Sink::new(writer);
    let what = send(&mut sink, answer);
    (what, sink.into_inner())
}

/// Answers a client after the books were closed.
fn end_request<W: Peer + Drop>(
    early: bool,
    told: Result<Result<Served, Answer>, RepositoryFault>,
    writer: W,
) -> (Served, W)
    requires { FailsBefore (∥ HasFailed W.Writer.may_answer writer ∥₁) told }
    ensures ends { EndsBy early told (W.contents writer) (W.contents result.1) result.0 }
    ensures write { is_write_fault result.0 ≡ true → ∥ HasFailed W.Writer.may_answer result.1 ∥₁ }
{
    match told {
        Ok(Ok(what)) => (what, writer),
        Ok(Err(answer)) => send_to(writer, &answer),
        Err(fault) => send_away(early, fault, writer),
    }
}

/// Answers a client that the books were in the way of, unless it may have an answer already.
fn send_away<W: Peer + Drop>(early: bool, fault: RepositoryFault, writer: W) -> (Served, W)
    ensures ends { EndsBy early (Err fault) (W.contents writer) (W.contents result.1) result.0 }
    ensures write { is_write_fault result.0 ≡ true → ∥ HasFailed W.Writer.may_answer result.1 ∥₁ }
{
    match fault {
        RepositoryFault::Unseen => {
            if early {
                (Served::Cut, writer)
            } else {
                send_to(writer, &Answer::Refusal(Status::Unavailable))
            }
        }
        RepositoryFault::Busy => send_to(writer, &Answer::Busy),
        RepositoryFault::Io | RepositoryFault::Exists | RepositoryFault::Ledger(_) => {
            send_to(writer, &Answer::Refusal(Status::Unavailable))
        }
    }
}

/// Opens the books for a request, asks them once, and answers the client once they are closed, or
/// before, if that is short; and those that come behind it meanwhile.
fn answer_from_books<W: Peer + Drop, C: Arrivals + Drop, S: Repository>(
    routes: &mut Routes,
    request: Asked<Vec<u8>>,
    note: Option<Note>,
    writer: W,
    arrivals: C,
    repository: &mut S,
    book: &str,
) -> (Attended, W, C)
    ensures from { AreAnsweredFrom S.shelf book.now repository.old repository.new request
        (W.contents writer) (W.contents result.1) result.0.served (later_of result.0) }
    ensures count { C.left result.2 + length (later_of result.0) ≡ C.left arrivals }
    ensures answered { is_unanswered result.0.served ≡ false }
    ensures write { is_write_fault result.0.served ≡ true
        → ∥ HasFailed W.Writer.may_answer result.1 ∥₁ }
    ensures log { LeavesLog S.shelf book.now repository.old repository.new result.0.log }
{
    let alloc = routes.alloc();
    let early = may_be_early(&request);
    let nobody = Vec::new(alloc);
    let mut open_request = OpenRequest {
        routes: mem::replace(routes, Routes::new(alloc)),
        request,
        note,
        writer,
        arrivals,
        later: nobody,
    };
    let Opened { answer, has_log } = repository.open(book, &mut open_request);
    let OpenRequest {
        routes: kept,
        writer,
        arrivals,
        later,
        ..
    } = open_request;
    *routes = kept;
    let (served, writer) = end_request(early, answer, writer);
    let attended = Attended {
        served,
        later,
        log: Some(has_log),
    };
    (attended, writer, arrivals)
}

/// Answers a request that was read whole: one that asks nothing of the books without them.
fn answer_request<W: Peer + Drop, C: Arrivals + Drop, S: Repository>(
    routes: &mut Routes,
    request: Asked<Vec<u8>>,
    note: Option<Note>,
    writer: W,
    arrivals: C,
    repository: &mut S,
    book: &str,
) -> (Attended, W, C)
    ensures from { AreAnsweredFrom S.shelf book.now repository.old repository.new request
        (W.contents writer) (W.contents result.1) result.0.served (later_of result.0) }
    ensures count { C.left result.2 + length (later_of result.0) ≡ C.left arrivals }
    ensures alone { asks_books request ≡ false → repository.new ≡ repository.old }
    ensures answered { is_unanswered result.0.served ≡ false }
    ensures write { is_write_fault result.0.served ≡ true
        → ∥ HasFailed W.Writer.may_answer result.1 ∥₁ }
    ensures log { LeavesLog S.shelf book.now repository.old repository.new result.0.log }
{
    match request {
        Asked::Settled(answer) => {
            let (served, writer) = send_to(writer, &answer);
            let later = Vec::new(routes.alloc());
            let attended = Attended {
                served,
                later,
                log: None,
            };
            (attended, writer, arrivals)
        }
        request => { answer_from_books(routes, request, note, writer, arrivals, repository, book) }
    }
}

/// Serves one request as `book_http::serve_one` does, from the books of a name, which are opened
/// for it once it came whole; and those that come behind it while they are open. What it posts has
/// the note.
pub fn serve_request<R: Reader + Drop, W: Peer + Drop, C: Arrivals + Drop, S: Repository>(
    routes: &mut Routes,
    source: &mut Source<R>,
    note: Option<Note>,
    writer: W,
    arrivals: C,
    repository: &mut S,
    book: &str,
) -> (Attended, W, C)
    requires asked { reads_of source.old ≤ 2 ^ 62 }
    requires failed { has_failed source.old ≡ false }
    requires ended { has_ended source.old ≡ false }
    ensures served { ReadsRequest R.remaining R.may_answer source.old source.new
        (λ ended. IsServedFrom S.shelf repository.old repository.new book.now ended
        (W.contents writer) (W.contents result.1) result.0.served (later_of result.0)) }
    ensures count { C.left result.2 + length (later_of result.0) ≡ C.left arrivals }

    // The books are not opened before a request is whole.
    ensures closed { is_unanswered result.0.served ≡ true → repository.new ≡ repository.old }

    // Nothing is written to a client that is not answered, and nobody is answered behind it.
    ensures unwritten { is_unanswered result.0.served ≡ true → result.1 ≡ writer }
    ensures nobody { is_unanswered result.0.served ≡ true → later_of result.0 ≡ [] }
    ensures log { LeavesLog S.shelf book.now repository.old repository.new result.0.log }

    // That reading failed is said where a read did, and nowhere else; that writing did, only where
    // a write failed.
    ensures read { has_failed source.new ≡ is_read_fault result.0.served }
    ensures write { is_write_fault result.0.served ≡ true
        → ∥ HasFailed W.Writer.may_answer result.1 ∥₁ }
{
    match read_request(routes, source) {
        Ok(request) => { answer_request(routes, request, note, writer, arrivals, repository, book) }
        Err(Unanswered::Closed) => {
            let attended = unopened(routes.alloc(), Served::Closed);
            (attended, writer, arrivals)
        }
        Err(Unanswered::Failed) => {
            let attended = unopened(routes.alloc(), Served::ReadFault);
            (attended, writer, arrivals)
        }
    }
}
