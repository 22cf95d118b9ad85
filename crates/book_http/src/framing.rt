//! How a request says where its body ends.

ghost use Rattle.std.specs.Prelude.{◌≡◌, All, length, map};
ghost use Rattle.httparse.specs.Spans.{IsHeaderWithin, header_bytes};
ghost use Rattle.book_http.specs.Framing as spec;

use crate::numbers::decimal_value;
use httparse::spans::HeaderSpan;

/// What a head says of its body's length.
#[derive(Clone, Copy)]
pub enum Framing {
    /// No length is given, or the body comes in a transfer encoding.
    Unframed,
    /// The body has this many bytes.
    Framed(u64),
    /// Two lengths are given, or one that is no number of 1 to 19 digits.
    Faulty,
}

/// The name of the field that gives a body's length.
const CONTENT_LENGTH: &str = "content-length";

/// The name of the field that gives a transfer encoding.
const TRANSFER_ENCODING: &str = "transfer-encoding";

/// The most digits of a length. The largest such number fits 64 bits.
const MOST_DIGITS: usize = 19;

/// The name is this one, in any case.
pub fn is_field_named(name: &[u8], wanted: &str) -> bool
    ensures { result ≡ spec.is_field_named wanted.now name.now }
{
    name.eq_ignore_ascii_case(wanted.as_bytes())
}

/// What one length says.
fn framing_by(length: &[u8]) -> Framing
    ensures { result ≡ spec.framing_by length.now }
{
    match decimal_value(MOST_DIGITS, length) {
        Some(length) => Framing::Framed(length),
        None => Framing::Faulty,
    }
}

/// What a further length makes of what was said before.
fn with_length(before: Framing, length: &[u8]) -> Framing
    ensures { result ≡ spec.with_length before length.now }
{
    match before {
        Framing::Unframed => framing_by(length),
        _ => Framing::Faulty,
    }
}

/// What a further field makes of it.
fn with_field(before: Framing, name: &[u8], value: &[u8]) -> Framing
    ensures { result ≡ spec.with_field before (name.now, value.now) }
{
    if is_field_named(name, CONTENT_LENGTH) {
        with_length(before, value)
    } else {
        before
    }
}

/// What the lengths among the fields say.
fn declared(bytes: &[u8], fields: &[HeaderSpan]) -> Framing
    requires { All (IsHeaderWithin (length bytes.now)) fields.now }
    ensures { result ≡ spec.declared (map (header_bytes bytes.now) fields.now) }
{
    let mut said = Framing::Unframed;
    for field in fields {
        said = with_field(said, field.name.of(bytes), field.value.of(bytes));
    }
    said
}

/// A field has this name, in any case.
pub fn has_field(bytes: &[u8], fields: &[HeaderSpan], wanted: &str) -> bool
    requires { All (IsHeaderWithin (length bytes.now)) fields.now }
    ensures { result ≡ spec.has_field wanted.now (map (header_bytes bytes.now) fields.now) }
{
    for field in fields {
        if is_field_named(field.name.of(bytes), wanted) {
            return true;
        }
    }
    false
}

/// What the fields of a head say of its body's length.
pub fn framing_in(bytes: &[u8], fields: &[HeaderSpan]) -> Framing
    requires { All (IsHeaderWithin (length bytes.now)) fields.now }
    ensures { result ≡ spec.framing_of (map (header_bytes bytes.now) fields.now) }
{
    match declared(bytes, fields) {
        Framing::Framed(_) if has_field(bytes, fields, TRANSFER_ENCODING) => Framing::Unframed,
        said => said,
    }
}
