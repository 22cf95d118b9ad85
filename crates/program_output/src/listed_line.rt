//! What a line of a list of names says. A spreadsheet or an editor may have written it: a byte order
//! mark may stand before the name, quotes round it, and blanks behind.

ghost use Rattle.std.specs.Prelude.{◌≡◌};
ghost use Rattle.book_reports.specs.RecordNames.{name_in};
ghost use Rattle.program_output.specs.ListedLines as spec;

use hex::FromHex;

/// The most bytes of a line, its end apart: a name, and room for what may stand round it.
const MAX_LINE: usize = 128;

/// What a line says.
#[derive(Clone, Copy)]
pub enum ListedLine {
    /// Nothing.
    Blank,
    /// The name of a record.
    Name([u8; 32]),
    /// Something else.
    Other,
}

/// The name that a text spells, whose bytes may be no text.
fn name_of_line(text: &[u8]) -> Option<[u8; 32]>
    ensures { result ≡ name_in text.now }
{
    <[u8; 32] as FromHex>::from_hex(text).ok()
}

/// A line without the byte order mark before it, if there is one.
#[tactic(auto, unfolding(crate::specs::ListedLines::without_mark))]
fn without_mark(line: &[u8]) -> &[u8]
    ensures { result.now ≡ spec.without_mark line.now }
{
    if line.starts_with(b"\xEF\xBB\xBF") {
        &line[3..]
    } else {
        line
    }
}

/// A line without the blanks at its end.
fn without_blanks(line: &[u8]) -> &[u8]
    ensures { result.now ≡ spec.without_blanks line.now }
{
    line.trim_ascii_end()
}

/// A quote stands before the text, and another behind it.
fn is_quoted(text: &[u8]) -> bool
    ensures { result ≡ spec.is_quoted text.now }
{
    2 <= text.len() && text.starts_with(b"\"") && text.ends_with(b"\"")
}

/// A text without the quotes round it, if there are any.
#[tactic(auto, unfolding(crate::specs::ListedLines::without_quotes))]
fn without_quotes(text: &[u8]) -> &[u8]
    ensures { result.now ≡ spec.without_quotes text.now }
{
    if is_quoted(text) {
        &text[1..text.len() - 1]
    } else {
        text
    }
}

/// What a text says that has nothing round it.
#[tactic(auto, unfolding(crate::specs::ListedLines::line_of))]
fn line_of(text: &[u8]) -> ListedLine
    ensures { result ≡ spec.line_of text.now }
{
    if text.is_empty() {
        return ListedLine::Blank;
    }
    match name_of_line(text) {
        Some(name) => ListedLine::Name(name),
        None => ListedLine::Other,
    }
}

/// What a line says, which has no end any more.
#[tactic(auto, unfolding(crate::specs::ListedLines::read_line))]
pub(crate) fn read_line(line: &[u8]) -> ListedLine
    ensures { result ≡ spec.read_line line.now }
{
    if line.len() > MAX_LINE {
        return ListedLine::Other;
    }
    line_of(without_quotes(without_blanks(without_mark(line))))
}
