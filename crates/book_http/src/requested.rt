//! A request that was read whole. Of its body no byte is read that is not asked for.

ghost use Rattle.std.specs.Prelude.{◌≡◌, ◌+◌, ◌≤◌, ◌^◌, IfOk, IsErrOf, IsUtf8, false, true, is_err};
ghost use Rattle.httparse.specs.Grammar.{RequestHead};
ghost use Rattle.streams.specs.AnswerFlags.{NothingUnread};
ghost use Rattle.streams.specs.Sources.{reader_of, reads_of, has_failed, has_ended};
ghost use Rattle.book_http.specs.Asked.{IsServable};
ghost use Rattle.book_http.specs.Bodies.{body_status, is_failed_read, most_body_bytes};
ghost use Rattle.book_http.specs.Head.{most_head_bytes};
ghost use Rattle.book_http.specs.Reads.{ReadsRequest};
ghost use Rattle.book_http.specs.Replies.{refusal};
ghost use Rattle.book_http.specs.Requested.{AsksAfter, IsReadAs, Settles, request_seen};
ghost use Rattle.book_http.specs.Requests.{DescribesHead};
ghost use Rattle.book_http.specs.Served.{is_failed};
ghost use Rattle.book_http.specs.Asked as spec;

use crate::answer::Answer;
use crate::asked::{Asked, asked_framed};
use crate::body::{BodyFault, read_body};
use crate::head::{HeadRead, MAX_FIELDS, MAX_HEAD, read_head};
use crate::request::{Request, request_in};
use crate::route::find_route;
use crate::routes::Routes;
use crate::served::Unanswered;
use crate::status::Status;
use book_core::Source;
use httparse::spans::EMPTY_HEADER_SPAN;
use std::alloc::Global;
use streams::Reader;

/// A read failed before the request was whole.
#[derive(Clone, Copy)]
pub struct ReadFailed;

/// What is asked without a whole body: nothing.
fn refuse_body(fault: BodyFault) -> Result<Asked<Vec<u8>>, ReadFailed>
    ensures refused { IfOk result (λ request.
        request_seen request ≡ Settles (refusal (body_status fault))) }
    ensures failed { is_err result ≡ is_failed_read fault }
{
    match fault {
        BodyFault::Short => Ok(Asked::Settled(Answer::Refusal(Status::BadRequest))),
        BodyFault::Memory => Ok(Asked::Settled(Answer::Refusal(Status::Unavailable))),
        BodyFault::Read => Err(ReadFailed),
    }
}

/// Reads on after a head that asks this, after which these bytes were already read.
fn read_asked<R: Reader + Drop>(
    alloc: Global,
    source: &mut Source<R>,
    front: &[u8],
    asked: Asked<u64>,
) -> Result<Asked<Vec<u8>>, ReadFailed>
    requires limit { IsServable asked }
    requires asked { reads_of source.old ≤ 2 ^ 62 + most_head_bytes }
    requires failed { has_failed source.old ≡ false }
    requires ended { has_ended source.old ≡ false }
    ensures asks { AsksAfter R.remaining R.may_answer asked front.now source.old source.new result }
    ensures failed { has_failed source.new ≡ is_err result }
    ensures asked { reads_of source.new ≤ reads_of source.old + most_body_bytes }
    ensures left { NothingUnread
        (has_ended source.new) (R.remaining (reader_of source.new)) }
{
    match asked {
        Asked::Report(report, kind) => Ok(Asked::Report(report, kind)),
        Asked::Details(details) => Ok(Asked::Details(details)),
        Asked::WhatIf(what_if, size) => match read_body(alloc, source, front, size as usize) {
            Ok(body) => Ok(Asked::WhatIf(what_if, body)),
            Err(fault) => refuse_body(fault),
        },
        Asked::Import(layout, size) => match read_body(alloc, source, front, size as usize) {
            Ok(body) => Ok(Asked::Import(layout, body)),
            Err(fault) => refuse_body(fault),
        },
        Asked::Settled(answer) => Ok(Asked::Settled(answer)),
    }
}

/// Reads on after the head of a request.
fn read_rest<R: Reader + Drop>(
    routes: &mut Routes,
    source: &mut Source<R>,
    request: &Request<'_>,
) -> Result<Asked<Vec<u8>>, ReadFailed>
    requires text { IsUtf8 request.now.target.now }
    requires asked { reads_of source.old ≤ 2 ^ 62 + most_head_bytes }
    requires failed { has_failed source.old ≡ false }
    requires ended { has_ended source.old ≡ false }
    ensures asks { (head : RequestHead) → DescribesHead head request.now
        → AsksAfter R.remaining R.may_answer (spec.asked head) request.now.behind.now
        source.old source.new result }
    ensures failed { has_failed source.new ≡ is_err result }
    ensures asked { reads_of source.new ≤ reads_of source.old + most_body_bytes }
    ensures left { NothingUnread
        (has_ended source.new) (R.remaining (reader_of source.new)) }
{
    let Ok(found) = find_route(routes, request.target) else {
        return Ok(Asked::Settled(Answer::Refusal(Status::Unavailable)));
    };
    let asked = asked_framed(
        request.framing,
        request.is_foreign,
        found,
        request.method,
        request.has_origin,
    );
    read_asked(routes.alloc(), source, request.behind, asked)
}

/// Reads one request, whole: its head, and the body of a request that is served with one. Bytes
/// after it are not looked at.
pub fn read_request<R: Reader + Drop>(
    routes: &mut Routes,
    source: &mut Source<R>,
) -> Result<Asked<Vec<u8>>, Unanswered>
    requires asked { reads_of source.old ≤ 2 ^ 62 }
    requires failed { has_failed source.old ≡ false }
    requires ended { has_ended source.old ≡ false }

    // What is asked, by the bytes that the reads gave, whatever may follow them. Each read was due:
    // while there was no head, or for the rest of the body of an import or a tariff that is served;
    // and after one that failed or met the end there was none.
    ensures asks { ReadsRequest R.remaining R.may_answer source.old source.new
        (λ ended. IsReadAs ended result) }
    ensures closed { IsErrOf result Unanswered.Closed → has_ended source.new ≡ true }
    ensures failed { has_failed source.new ≡ is_failed result }
    ensures asked { reads_of source.new
        ≤ reads_of source.old + most_head_bytes + most_body_bytes }
    ensures left { NothingUnread
        (has_ended source.new) (R.remaining (reader_of source.new)) }
{
    let mut buffer = [0u8; MAX_HEAD];
    let mut fields = [EMPTY_HEADER_SPAN; MAX_FIELDS];
    match read_head(source, &mut buffer, &mut fields) {
        HeadRead::Closed => Err(Unanswered::Closed),
        HeadRead::Failed => Err(Unanswered::Failed),
        HeadRead::Refused => Ok(Asked::Settled(Answer::Refusal(Status::BadRequest))),
        HeadRead::Whole(whole) => {
            let request = request_in(&buffer[..whole.filled], &fields, whole.spans);
            let Ok(requested) = read_rest(routes, source, &request) else {
                return Err(Unanswered::Failed);
            };
            Ok(requested)
        }
    }
}
