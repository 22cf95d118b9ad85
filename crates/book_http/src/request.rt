//! What the head of a request says.

ghost use Rattle.std.specs.Prelude.{◌≡◌, drop};
ghost use Rattle.httparse.specs.Grammar.{RequestHead};
ghost use Rattle.httparse.specs.Spans.{IsRequestAt, IsRequestWithin};
ghost use Rattle.book_http.specs.Requests.{DescribesHead};

use crate::framing::{Framing, framing_in, has_field};
use crate::host::is_foreign;
use httparse::spans::{HeaderSpan, RequestSpans};

/// The name of the field that gives the origin of the page that sends the request.
const ORIGIN: &str = "origin";

/// What a head says, lent from the buffer that it was read into.
#[derive(Clone, Copy)]
pub struct Request<'a> {
    /// The name of the method.
    pub method: &'a [u8],
    /// What is asked for: a path, and what follows a question mark.
    pub target: &'a [u8],
    /// What is said of the length of the body.
    pub framing: Framing,
    /// It gives a host that is not this machine, or says that a page of another site sends it.
    pub is_foreign: bool,
    /// It gives the origin of the page that sends it.
    pub has_origin: bool,
    /// The bytes that were read after the head.
    pub behind: &'a [u8],
}

/// What the head at the beginning of these bytes says; its parts are where the spans say.
pub fn request_in<'a>(bytes: &'a [u8], fields: &[HeaderSpan], spans: RequestSpans) -> Request<'a>
    requires { IsRequestWithin bytes.now fields.now spans }
    ensures behind { result.behind.now ≡ drop spans.len bytes.now }
    ensures says { (head : RequestHead) → IsRequestAt bytes.now fields.now spans head
        → DescribesHead head result }
{
    let fields = &fields[..spans.headers];
    Request {
        method: spans.method.of(bytes),
        target: spans.path.of(bytes),
        framing: framing_in(bytes, fields),
        is_foreign: is_foreign(bytes, fields),
        has_origin: has_field(bytes, fields, ORIGIN),
        behind: &bytes[spans.len..],
    }
}
