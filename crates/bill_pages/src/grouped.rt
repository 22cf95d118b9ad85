//! Figures on pages: commas stand between the thousands of what comes before the point.

ghost use Rattle.std.specs.Prelude.{◌≡◌, ◌++◌};
ghost use Rattle.bill_pages.specs.Grouped as spec;

use html_text::push_byte;
use text_drafts::Draft;

/// The byte is a digit.
fn is_digit(byte: u8) -> bool
    ensures { result ≡ spec.is_digit byte }
{
    b'0' <= byte && byte <= b'9'
}

/// It may stand before the point.
fn is_whole(byte: u8) -> bool
    ensures { result ≡ spec.is_whole byte }
{
    is_digit(byte) || byte == b'-'
}

/// How many bytes of a figure stand before its point.
fn whole_length(text: &[u8]) -> usize
    ensures { result ≡ spec.whole_length text.now }
{
    for (before, byte) in text.iter().enumerate() {
        if !is_whole(*byte) {
            return before;
        }
    }
    text.len()
}

/// So many digits are thousands, and some.
fn are_thousands(left: usize) -> bool
    ensures { result ≡ spec.are_thousands left }
{
    0 < left && left % 3 == 0
}

/// A comma follows a digit, where so many more come before the point.
fn has_comma(left: usize, byte: u8) -> bool
    ensures { result ≡ spec.has_comma left byte }
{
    is_digit(byte) && are_thousands(left)
}

/// Appends a byte of a figure, before so many others.
#[tactic(auto, unfolding(crate::specs::Grouped::digit))]
fn push_digit(out: &mut Draft, left: usize, byte: u8)
    ensures { out.new ≡ out.old ++ spec.digit left byte }
{
    push_byte(out, byte);
    if has_comma(left, byte) {
        out.push_str(",");
    }
}

/// Appends a text of which so many bytes stand before the point.
fn push_thousands(out: &mut Draft, whole: usize, text: &[u8])
    ensures { out.new ≡ out.old ++ spec.in_thousands whole text.now }
{
    let mut left = whole;
    for byte in text {
        left = left.saturating_sub(1);
        push_digit(out, left, *byte);
    }
}

/// Appends a figure.
#[tactic(auto, unfolding(crate::specs::Grouped::grouped))]
pub(crate) fn push_figure(out: &mut Draft, text: &str)
    ensures { out.new ≡ out.old ++ spec.grouped text.now }
{
    let bytes = text.as_bytes();
    push_thousands(out, whole_length(bytes), bytes);
}

/// Appends a figure that is a draft.
pub(crate) fn push_made_figure(out: &mut Draft, figure: &Draft)
    ensures { out.new ≡ out.old ++ spec.grouped figure.now }
{
    match figure.whole() {
        Some(text) => push_figure(out, text),
        None => out.leave_out(figure),
    }
}
