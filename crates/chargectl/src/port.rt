//! Where connections come from.

ghost use Rattle.std.specs.Prelude.{◌≡◌, ◌+◌, ◌<◌, length, true};
ghost use Rattle.streams.specs.Failures.{HasFailed};
ghost use Rattle.book_http.specs.Served.{is_unanswered, is_write_fault};
ghost use Rattle.chargectl.specs.ClientRequests.{IsServedByReads, later_of, told_of};
ghost use Rattle.chargectl.specs.Serving.{Attends, due_from, first_due, is_answered};

use crate::arriving::Arriving;
use crate::client_requests::{Attended, serve_request, unopened};
use crate::connection::Client;
use crate::due::Due;
use crate::waiting::Waiting;
use book_core::{Note, Source};
use book_http::{Routes, Served};
use named_books::Repository;
use request_bursts::Arrivals;
use std::io;
use std::net::{TcpListener, TcpStream};
use streams::{Reader, Writer};
use without_books::noted_now;

/// A given number of connections, one after the other: those to a port, or any others.
pub trait Connections {
    ghost use Rattle.std.specs.Prelude.{ℕ, ◌≡◌, ◌<◌, ◌+◌, ◌==◌, IfErr, IfOk, List, MatchResult, None};
    ghost use Rattle.std.specs.Prelude.{OnErr, Option, length};
    ghost use Rattle.std.specs.declared.io.Error.{Error};
    ghost use Rattle.chargectl.specs.ClientRequests.{LeavesLog, told_of};
    ghost use Rattle.chargectl.specs.Serving.{CameTogether, Coming};

    /// How many are left to be answered.
    ghost left: { Self → ℕ };

    /// How many may come, those among them that are answered and not counted.
    ghost most: { Self → ℕ };

    /// The bytes that the next one sends, where they are known.
    ghost sent: { Self → Option (List ℕ) } = { λ _. None };

    /// The next one may come, this may become of it, and such connections may be left. Only a wait
    /// shows it, so a clause can say that what is told of a connection became of one.
    ghost may_come: { Coming Self };

    /// The next one may not come, for this reason, and leave such connections. Only a wait shows it, so
    /// a clause can say that nothing else ended a service.
    ghost may_fail: { Self → Error → Self → Type 0 };

    /// None is left.
    fn is_over(&self) -> bool
        ensures { result ≡ (left self.now == 0) };

    /// Waits for the next one, and answers it from the books of a name, which are open only while
    /// they are asked, and others that come soon behind it. An error means that none came; it counts
    /// as one of those that may come.
    fn next<S: Repository>(&mut self, repository: &mut S, book: &str) -> io::Result<Attended>
        requires { 0 < left self.old }
        ensures most { MatchResult result
            (λ attended. most self.new + length (told_of attended) ≡ most self.old)
            (λ _. most self.new + 1 ≡ most self.old) }
        ensures came { IfOk result (λ attended. CameTogether S.shelf sent may_come book.now
            self.old self.new repository.old repository.new (told_of attended)) }
        ensures log { IfOk result (λ attended.
            LeavesLog S.shelf book.now repository.old repository.new attended.log) }
        ensures none { OnErr result (repository.new ≡ repository.old) }
        ensures failed { IfErr result (λ error. may_fail self.old error self.new) };
}

/// One client, whose connection ends in bounded time. Each copy of it is the same connection, so one
/// can be read while another is written. It is a `Reader` and a `Writer`, so that a clause can say
/// which reads were made of it, and that a write to it failed.
pub trait Peer: Reader + Writer + Copy {
    ghost use Rattle.std.specs.Prelude.{Bool, ◌≡◌, true};

    /// What it still sends was read, so that it can read its answer.
    ghost is_drained: { Self → Bool };

    /// Says that others wait for what is written to it from here on: it may keep them waiting for a
    /// short time in all.
    fn hurry(&self);

    /// Shows it that the answer is whole. It waits for nothing.
    fn finish(&self);

    /// Shows it that the answer is whole, and reads what it still sends. Nothing is written to it.
    fn drain(self) -> Self
        ensures drained { is_drained result ≡ true }
        ensures unwritten { Self.contents result ≡ Self.contents self };
}

/// The connections to a port that are due.
#[derive(Drop)]
pub(crate) struct Port<'a> {
    rt: &'a HostRuntime,
    /// The note of what is posted, but for the time.
    note: Option<Note>,
    pub(crate) due: Due,
    /// One router for all that they ask.
    routes: Routes,
    waiting: Waiting<'a>,
}

impl<'a> Port<'a> {
    /// So many requests are to be answered; what they post has such a note.
    pub(crate) fn over(
        rt: &'a HostRuntime,
        listener: &'a TcpListener,
        requests: u32,
        note: Option<Note>,
    ) -> Port<'a>
        ensures { result.due ≡ first_due requests }
    {
        Port {
            rt,
            note,
            due: Due::first(requests),
            routes: Routes::new(rt.alloc()),
            waiting: Waiting::at(rt, listener),
        }
    }

    /// Answers a client that came, and those that come soon behind it. What is told of them says how
    /// many are due then.
    fn attend<S: Repository>(
        &mut self,
        stream: &TcpStream,
        repository: &mut S,
        book: &str,
    ) -> Attended
        requires { 0 < self.old.due.left }
        ensures attended { Attends S.shelf book.now None repository.old repository.new result }
        ensures due { self.new.due ≡ due_from self.old.due (told_of result) }
        ensures most { (self.new.due.left + self.new.due.beside) + length (told_of result)
            ≡ self.old.due.left + self.old.due.beside }
    {
        self.waiting.begin();
        let soon = Arriving {
            left: self.due.left - 1,
            waiting: self.waiting.taken(),
        };
        let (attended, soon) = answer_stream(
            self.rt,
            &mut self.routes,
            &self.note,
            stream,
            soon,
            repository,
            book,
        );
        let Arriving { waiting, .. } = soon;
        let due = self.due.after_all(&attended);
        self.due = due;
        self.waiting = waiting;
        self.waiting.drain_answered();
        self.waiting.leave_alone();
        attended
    }
}

impl Connections for Port<'_> {
    ghost use Rattle.std.specs.Prelude.{◌≡◌, ◌+◌, ⊤};
    ghost use Rattle.chargectl.specs.Serving.{due_after};

    ghost left = { λ port. port.due.left };

    ghost most = { λ port. port.due.left + port.due.beside };

    // Of the sockets of the machine nothing is known; but one of those that are due is answered.
    ghost may_come = { λ before served after. after.due ≡ due_after served before.due };

    ghost may_fail = { λ _ _ _. ⊤ };

    fn is_over(&self) -> bool {
        self.due.left == 0
    }

    fn next<S: Repository>(&mut self, repository: &mut S, book: &str) -> io::Result<Attended> {
        match self.waiting.next_client() {
            Ok(stream) => Ok(self.attend(&stream, repository, book)),
            Err(error) => {
                self.due = self.due.after(Served::Closed);
                Err(error)
            }
        }
    }
}

/// Answers one connection, and those that come soon behind it. Where the clock fails the time is
/// not bounded, so nothing is read.
fn answer_stream<C: Arrivals + Drop, S: Repository>(
    rt: &HostRuntime,
    routes: &mut Routes,
    note: &Option<Note>,
    stream: &TcpStream,
    arrivals: C,
    repository: &mut S,
    book: &str,
) -> (Attended, C)
    ensures attended { Attends S.shelf book.now None repository.old repository.new result.0 }
    ensures count { C.left result.1 + length (later_of result.0) ≡ C.left arrivals }
{
    let patience = Client::patience();
    let Ok(client) = Client::accepted(rt, stream, &patience) else {
        let attended = unopened(rt.alloc(), Served::ReadFault);
        return (attended, arrivals);
    };
    answer_client(rt, routes, note, client, arrivals, repository, book)
}

/// Answers a client, and those that come soon behind it. What it posts has the note at this time;
/// without memory for that, nothing is read.
fn answer_client<C: Arrivals + Drop, S: Repository>(
    rt: &HostRuntime,
    routes: &mut Routes,
    note: &Option<Note>,
    client: Client<'_>,
    arrivals: C,
    repository: &mut S,
    book: &str,
) -> (Attended, C)
    ensures attended { Attends S.shelf book.now None repository.old repository.new result.0 }
    ensures count { C.left result.1 + length (later_of result.0) ≡ C.left arrivals }
{
    let Ok(posted) = noted_now(rt, note) else {
        let attended = unopened(rt.alloc(), Served::ReadFault);
        return (attended, arrivals);
    };
    let (attended, _, arrivals) = answer_peer(routes, posted, client, arrivals, repository, book);
    (attended, arrivals)
}

/// Reads one request of a client, asks it of the books of a name, and answers; and those that come soon
/// behind it, while the books are open. A client that was answered is drained before it is let go, so
/// that it can read its answer. What it posts has the note.
pub fn answer_peer<P: Peer + Drop, C: Arrivals + Drop, S: Repository>(
    routes: &mut Routes,
    note: Option<Note>,
    peer: P,
    arrivals: C,
    repository: &mut S,
    book: &str,
) -> (Attended, P, C)
    ensures served { Attends S.shelf book.now (P.remaining peer) repository.old repository.new
        result.0 }
    ensures count { C.left result.2 + length (later_of result.0) ≡ C.left arrivals }

    // It is answered by what reads of it gave, each of which was due; and the books are not opened
    // for a request that asks nothing of them.
    ensures reads { IsServedByReads P.Reader.may_answer S.shelf repository.old repository.new
        book.now peer (P.contents peer) (P.contents result.1) result.0.served (later_of result.0) }

    // Nor are they for a client that is not answered, and nothing is written to it.
    ensures closed { is_unanswered result.0.served ≡ true → repository.new ≡ repository.old }
    ensures unwritten { is_unanswered result.0.served ≡ true
        → P.contents result.1 ≡ P.contents peer }

    // That writing failed is told only where a write failed, and none was made after it.
    ensures write { is_write_fault result.0.served ≡ true
        → ∥ HasFailed P.Writer.may_answer result.1 ∥₁ }
    ensures drained { is_answered result.0.served ≡ true → P.is_drained result.1 ≡ true }
{
    let mut source = Source::new(peer);
    let (attended, peer, arrivals) = serve_request(
        routes,
        &mut source,
        note,
        peer,
        arrivals,
        repository,
        book,
    );
    match attended.served {
        Served::Answered(_) => (attended, peer.drain(), arrivals),
        _ => (attended, peer, arrivals),
    }
}
