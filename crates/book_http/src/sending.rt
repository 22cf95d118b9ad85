//! How an answer is written. Beside a report's own text, or lines of details that wait, it takes no
//! memory.

ghost use Rattle.std.specs.Prelude.{◌≡◌, false};
ghost use Rattle.streams.specs.Sinks.{writer_of, has_failed};
ghost use Rattle.book_core.specs.Transition.{IsTransition};
ghost use Rattle.book_http.specs.Replies.{refusal_with, reply_of};
ghost use Rattle.book_http.specs.Replies as spec;
ghost use Rattle.book_http.specs.Served as outcomes;
ghost use Rattle.book_http.specs.Served.{IsSent, SendsDetails, SendsSome, is_unanswered};
ghost use Rattle.book_http.specs.Served.{is_write_fault};

use crate::answer::Answer;
use crate::answer_head::{answer_head, status_body};
use crate::notice::Notice;
use crate::office_answers::form_kind;
use crate::served::Served;
use crate::status::Status;
use book_core::{Ledger, Sink};
use book_import::Stop;
use book_reports::{
    DetailReport, ReportFault, receipt_line_text, write_bytes, write_details, write_text,
};
use report_rows::BodyKind;
use std::alloc::Global;
use streams::Writer;

/// The status that the stop of an import has.
fn import_status(stop: Stop) -> Status
    ensures { result ≡ spec.import_status stop }
{
    match stop {
        Stop::End => Status::Done,
        Stop::Frame(_) => Status::Unprocessable,
        Stop::Read | Stop::ReadLimit | Stop::Ledger(_) => Status::Unavailable,
    }
}

/// Writes the lines of the head, and then the body.
fn send_reply<W: Writer + Drop>(
    sink: &mut Sink<W>,
    status: Status,
    kind: BodyKind,
    notice: Option<Notice>,
    body: &[u8],
) -> Served
    requires { has_failed sink.old ≡ false }
    ensures sent { IsSent
        (record { status = status; kind = kind; notice = notice; body = body.now })
        (W.contents (writer_of sink.old)) (W.contents (writer_of sink.new)) result }
    ensures failed { has_failed sink.new ≡ is_write_fault result }
    ensures answered { is_unanswered result ≡ false }
{
    let head = answer_head(status, kind, notice, body.len());
    let Ok(()) = write_text(sink, head.as_str()) else {
        return Served::WriteFault;
    };
    let Ok(()) = write_bytes(sink, body) else {
        return Served::WriteFault;
    };
    Served::Answered(status.code())
}

/// Writes a refusal, whose body is its own status.
fn send_refusal<W: Writer + Drop>(
    sink: &mut Sink<W>,
    notice: Option<Notice>,
    status: Status,
) -> Served
    requires { has_failed sink.old ≡ false }
    ensures sent { IsSent (refusal_with notice status)
        (W.contents (writer_of sink.old)) (W.contents (writer_of sink.new)) result }
    ensures failed { has_failed sink.new ≡ is_write_fault result }
    ensures answered { is_unanswered result ≡ false }
{
    let text = status_body(status);
    send_reply(
        sink,
        status,
        BodyKind::Text,
        notice,
        text.as_str().as_bytes(),
    )
}

/// Writes an answer.
pub fn send<W: Writer + Drop>(sink: &mut Sink<W>, answer: &Answer) -> Served
    requires { has_failed sink.old ≡ false }

    // The writer has the answer, or, where a write failed, a prefix of it that is not the whole.
    ensures sent { IsSent (reply_of answer.now)
        (W.contents (writer_of sink.old)) (W.contents (writer_of sink.new)) result }
    ensures failed { has_failed sink.new ≡ is_write_fault result }
    ensures answered { is_unanswered result ≡ false }
{
    match answer {
        Answer::Report(kind, text) => send_reply(sink, Status::Done, *kind, None, text),
        Answer::Receipt(receipt) => {
            let line = receipt_line_text(receipt);
            let body = line.as_str().as_bytes();
            send_reply(
                sink,
                import_status(receipt.stop),
                BodyKind::Text,
                None,
                body,
            )
        }
        Answer::Refusal(status) => send_refusal(sink, None, *status),
        Answer::OtherMethod(method) => {
            let notice = Notice::Allow(*method);
            send_refusal(sink, Some(notice), Status::MethodNotAllowed)
        }
        Answer::Busy => send_refusal(sink, Some(Notice::RetryAfter), Status::Unavailable),
    }
}

/// What became of a text, by what became of its writing.
fn served_as(told: Result<(), ReportFault>) -> Served
    ensures { result ≡ outcomes.served_as told }
{
    match told {
        Ok(()) => Served::Answered(Status::Done.code()),
        Err(ReportFault::Write) => Served::WriteFault,
        Err(_) => Served::Cut,
    }
}

/// Writes the text of details while they are read, behind a head that announces so many bytes. So a
/// client sees whether the text came whole.
pub fn send_details<L: Ledger, W: Writer + Drop>(
    alloc: Global,
    ledger: &mut L,
    details: DetailReport,
    size: usize,
    sink: &mut Sink<W>,
) -> Served
    requires { has_failed sink.old ≡ false }
    ensures sent { IsTransition (L.seen ledger.old) (L.seen ledger.new)
        (SendsDetails details size (L.seen ledger.old).naming
        (W.contents (writer_of sink.old)) (W.contents (writer_of sink.new)) result) }

    // Also where the books have no such period, or their text is of another length, nothing is
    // written but this head and some details.
    ensures some { SendsSome details size
        (W.contents (writer_of sink.old)) (W.contents (writer_of sink.new)) result }
    ensures failed { has_failed sink.new ≡ is_write_fault result }
    ensures answered { is_unanswered result ≡ false }
{
    let head = answer_head(Status::Done, form_kind(details.form), None, size);
    let Ok(()) = write_text(sink, head.as_str()) else {
        return Served::WriteFault;
    };
    served_as(write_details(alloc, ledger, details, sink))
}
