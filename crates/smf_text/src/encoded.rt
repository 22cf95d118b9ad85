//! Texts as bytes of the page.

ghost use Rattle.std.specs.Prelude.{◌≡◌, ◌++◌, drop, length, map, Some, OnOk, OnErr};
ghost use Rattle.smf_text.specs.CodePage.{char_of};
ghost use Rattle.smf_text.specs.Encoding as spec;
ghost use Rattle.smf_text.specs.Encoding.{encode_of, page_bytes};

use crate::code_page::byte_of;
use thiserror::Error;

/// Why a text is not encoded. Where both reasons apply, the first is given.
#[derive(Clone, Copy, Debug, PartialEq, Eq, Error)]
pub enum TextFault {
    /// The page does not have a character of the text.
    #[error("a text has a character that code page 037 does not have")]
    NotInPage,
    /// The text has more characters than the buffer has bytes.
    #[error("a text is longer than its field")]
    TooLong,
}

impl TextFault {
    /// The number that reports and messages show.
    pub fn number(self) -> u8
        ensures { result ≡ spec.text_number self }
    {
        match self {
            TextFault::NotInPage => 1,
            TextFault::TooLong => 2,
        }
    }
}

/// Whether the page has each character of the text.
fn is_in_page(text: &str) -> bool
    ensures { result ≡ spec.is_in_page text.now }
{
    text.bytes().all(|character| byte_of(character).is_some())
}

/// Writes the page's bytes of a text at the start of a buffer, one for each character, and gives
/// their number. The rest of the buffer stays; where the text is refused, all of it.
pub fn encode(text: &str, buffer: &mut [u8]) -> Result<usize, TextFault>
    ensures exact { result ≡ encode_of text.now (length buffer.old) }
    ensures written { OnOk result
        (buffer.new ≡ page_bytes text.now ++ drop (length text.now) buffer.old) }
    ensures stands { OnOk result (map char_of (page_bytes text.now) ≡ map Some text.now) }
    ensures refused { OnErr result (buffer.new ≡ buffer.old) }
{
    if !is_in_page(text) {
        return Err(TextFault::NotInPage);
    }
    if buffer.len() < text.len() {
        return Err(TextFault::TooLong);
    }
    for (i, character) in text.as_bytes().iter().enumerate() {
        buffer[i] = byte_of(*character).unwrap();
    }
    Ok(text.len())
}
