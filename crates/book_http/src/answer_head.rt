//! The lines of an answer before its body, in a buffer of fixed size.

ghost use Rattle.std.specs.Prelude.{◌≡◌, ◌+◌, ◌≤◌, ◌++◌};
ghost use Rattle.arrayvec.specs.ArrayString.{array_string_len};
ghost use Rattle.book_http.specs.AnswerHead as spec;
ghost use Rattle.book_http.specs.AnswerHead.{allow_line, limit_lines, notice_line};
ghost use Rattle.book_http.specs.Statuses as statuses;
ghost use Rattle.book_http.specs.Statuses.{status_text};

use crate::method::Method;
use crate::notice::Notice;
use crate::status::Status;
use arrayvec::ArrayString;
use itoa::Buffer;
use report_rows::BodyKind;

/// A text that takes no memory beside its own.
pub type AnswerText = ArrayString<512>;

/// The media type of a body.
fn media_type(kind: BodyKind) -> &'static str
    ensures { result.now ≡ spec.media_type kind }
{
    match kind {
        BodyKind::Text => "text/plain; charset=us-ascii",
        BodyKind::Csv => "text/csv; charset=us-ascii",
        BodyKind::Page => "text/html; charset=us-ascii",
        BodyKind::TariffFile => "text/plain; charset=utf-8",
    }
}

/// Appends the code of a status, a blank, and its phrase.
#[tactic(auto, unfolding(crate::specs::Statuses::status_text))]
fn push_status(text: &mut AnswerText, status: Status)
    requires { array_string_len text.old + 24 ≤ 512 }
    ensures bytes { text.new.bytes ≡ text.old.bytes ++ status_text status }
    ensures bound { array_string_len text.new ≤ array_string_len text.old + 24 }
{
    text.push_str(status.in_http().as_str());
    text.push_str(" ");
    text.push_str(status.phrase());
}

/// Appends the lines that tell a browser what it may do with a page: it runs no script, fetches
/// nothing, shows the page inside no other, and takes it for nothing but HTML. A tariff file it takes
/// for nothing but a text.
fn push_limits(text: &mut AnswerText, kind: BodyKind)
    requires { array_string_len text.old + 129 ≤ 512 }
    ensures bytes { text.new.bytes ≡ text.old.bytes ++ limit_lines kind }
    ensures bound { array_string_len text.new ≤ array_string_len text.old + 129 }
{
    match kind {
        BodyKind::Page => {
            text.push_str("Content-Security-Policy: default-src 'none'; ");
            text.push_str("style-src 'unsafe-inline'; frame-ancestors 'none'\r\n");
            text.push_str("X-Content-Type-Options: nosniff\r\n");
        }
        BodyKind::TariffFile => text.push_str("X-Content-Type-Options: nosniff\r\n"),
        BodyKind::Text | BodyKind::Csv => {}
    }
}

/// Appends the line that names the method of a path.
fn push_allow(text: &mut AnswerText, method: Method)
    requires { array_string_len text.old + 13 ≤ 512 }
    ensures bytes { text.new.bytes ≡ text.old.bytes ++ allow_line method }
    ensures bound { array_string_len text.new ≤ array_string_len text.old + 13 }
{
    text.push_str("Allow: ");
    text.push_str(method.text());
    text.push_str("\r\n");
}

/// Appends the line of what is said beside the status, if anything is.
fn push_notice(text: &mut AnswerText, notice: Option<Notice>)
    requires { array_string_len text.old + 16 ≤ 512 }
    ensures bytes { text.new.bytes ≡ text.old.bytes ++ notice_line notice }
    ensures bound { array_string_len text.new ≤ array_string_len text.old + 16 }
{
    match notice {
        Some(Notice::Allow(method)) => push_allow(text, method),
        Some(Notice::RetryAfter) => text.push_str("Retry-After: 1\r\n"),
        None => {}
    }
}

/// Appends the line that gives the number of bytes of a body.
#[tactic(auto, unfolding(crate::specs::AnswerHead::size_line))]
fn push_size(text: &mut AnswerText, size: usize)
    requires { array_string_len text.old + 58 ≤ 512 }
    ensures bytes { text.new.bytes ≡ text.old.bytes ++ spec.size_line size }
    ensures bound { array_string_len text.new ≤ array_string_len text.old + 58 }
{
    let mut digits = Buffer::new();
    text.push_str("Content-Length: ");
    text.push_str(digits.format(size));
    text.push_str("\r\n");
}

/// The lines of an answer before a body of that many bytes, the empty line among them.
#[tactic(auto, unfolding(crate::specs::AnswerHead::answer_head))]
pub fn answer_head(
    status: Status,
    kind: BodyKind,
    notice: Option<Notice>,
    size: usize,
) -> AnswerText
    ensures { result.bytes ≡ spec.answer_head status kind notice size }
{
    let mut text = AnswerText::new();
    text.push_str("HTTP/1.1 ");
    push_status(&mut text, status);
    text.push_str("\r\nContent-Type: ");
    text.push_str(media_type(kind));
    text.push_str("\r\n");
    push_limits(&mut text, kind);
    push_notice(&mut text, notice);
    push_size(&mut text, size);
    text.push_str("Connection: close\r\n\r\n");
    text
}

/// The body of an answer that gives its status alone.
#[tactic(auto, unfolding(crate::specs::Statuses::status_body))]
pub fn status_body(status: Status) -> AnswerText
    ensures { result.bytes ≡ statuses.status_body status }
{
    let mut text = AnswerText::new();
    push_status(&mut text, status);
    text.push_str("\n");
    text
}
