//! One client. What it asks is in memory, and its answer is short enough for the room that any
//! connection has: so open books never wait for it.

ghost use Rattle.std.specs.Prelude.{◌≡◌, IfSome, MatchOption, None, false, true};
ghost use Rattle.streams.specs.Failures.{HasFailed};
ghost use Rattle.book_core.specs.Transition.{IsTransition};
ghost use Rattle.book_http.specs.declared.asked.Asked.TheVariants as asks;
ghost use Rattle.book_http.specs.Replies.{reply_of};
ghost use Rattle.book_http.specs.Served.{IsSent, is_unanswered, is_write_fault};
ghost use Rattle.request_bursts.specs.Bursts.{AnswersOne, AnswersSeen, AskReport, IsShort};
ghost use Rattle.request_bursts.specs.Bursts.{LooksOnly};

use book_core::{Ledger, Sink, Source};
use book_http::{Answer, Asked, Routes, Served, answer_report, read_request, send};
use office::Report;
use report_rows::BodyKind;
use streams::Writer;

/// The most bytes of a text that is sent while the books are open.
const MOST_EARLY: usize = 65_536;

/// Whether an answer is a text that may be sent while the books are open. A refusal is not: it ends
/// the burst, since the books may have to be opened again.
pub fn is_short(answer: &Answer) -> bool
    ensures { result ≡ true → IsShort (reply_of answer.now) }
{
    match answer {
        Answer::Report(_, text) => text.len() <= MOST_EARLY,
        Answer::Receipt(_) | Answer::Refusal(_) | Answer::OtherMethod(_) | Answer::Busy => false,
    }
}

/// The report that a request asks for, if it asks for one, and what kind of body it is.
fn only_report(request: &Asked<Vec<u8>>) -> Option<(Report, BodyKind)>
    ensures { IfSome result (λ asked. request.now ≡ asks.Report asked.0 asked.1) }
{
    match request {
        Asked::Report(report, kind) => Some((*report, *kind)),
        _ => None,
    }
}

/// The report that these bytes ask for. `None`: more of them may have to come, or they ask for
/// something else.
fn report_in(routes: &mut Routes, sent: &[u8]) -> Option<(Report, BodyKind)>
    ensures { IfSome result (λ asked. AskReport sent.now asked.0 asked.1) }
{
    let mut source = Source::new(sent);
    let request = read_request(routes, &mut source);
    if source.ended() {
        return None;
    }
    match &request {
        Ok(whole) => match only_report(whole) {
            Some(asked) => Some(asked),
            None => None,
        },
        Err(_) => None,
    }
}

/// Sends an answer.
fn send_to<W: Writer + Drop>(writer: W, answer: &Answer) -> (Served, W)
    ensures sent { IsSent (reply_of answer.now) (W.contents writer) (W.contents result.1) result.0 }
    ensures answered { is_unanswered result.0 ≡ false }
    ensures write { is_write_fault result.0 ≡ true → ∥ HasFailed W.may_answer result.1 ∥₁ }
{
    let mut sink = Sink::new(writer);
    let what = send(&mut sink, answer);
    (what, sink.into_inner())
}

/// Answers a client from open books, by the bytes that it is seen to have sent, if they ask for a
/// report whose text is short. `None`: it is as it was, and nothing was done.
pub fn answer_seen<W: Writer + Drop, L: Ledger>(
    routes: &mut Routes,
    sent: &[u8],
    writer: W,
    books: &mut L,
) -> (Option<Served>, W)
    ensures answered { MatchOption result.0
        (IsTransition (L.seen books.old) (L.seen books.new) LooksOnly)
        (λ what. IsTransition (L.seen books.old) (L.seen books.new)
        (AnswersSeen (L.seen books.old).naming sent.now
        (W.contents writer) (W.contents result.1) what)) }

    // So it was answered, and nothing was done to the books.
    ensures one { MatchOption result.0
        (IsTransition (L.seen books.old) (L.seen books.new) LooksOnly)
        (λ what. IsTransition (L.seen books.old) (L.seen books.new)
        (AnswersOne (L.seen books.old).naming what)) }
    ensures none { result.0 ≡ None → result.1 ≡ writer }
    ensures begun { IfSome result.0 (λ what. is_unanswered what ≡ false) }
    ensures write { IfSome result.0 (λ what. is_write_fault what ≡ true
        → ∥ HasFailed W.may_answer result.1 ∥₁) }
{
    let Some(asked) = report_in(routes, sent) else {
        return (None, writer);
    };
    let answer = answer_report(routes.alloc(), books, asked.0, asked.1);
    if is_short(&answer) {
        let (what, writer) = send_to(writer, &answer);
        return (Some(what), writer);
    }
    (None, writer)
}
