//! Bytes of the page as people read them.

ghost use Rattle.std.specs.Prelude.{◌≡◌, ℕ, ◌<◌, List, [], ◌∷◌, ◌++◌, IfOk, OnOk, All, length, string_bytes};
ghost use Rattle.smf_text.specs.CodePage as spec;
ghost use Rattle.smf_text.specs.CodePage.{hexadecimal, hexadecimal_digit, show_byte, show_text};

use crate::code_page::character_of;
use std::alloc::{AllocError, Global};

/// The blank of the page.
const BLANK: u8 = 0x40;

/// The backslash of the page.
const BACKSLASH: u8 = 0xE0;

/// The digits of hexadecimal numbers.
const DIGITS: [u8; 16] = *b"0123456789ABCDEF";

/// Appends the digit of a half-byte.
fn push_digit(text: &mut String, digit: u8) -> Result<(), AllocError>
    requires { digit < 16 }
    ensures { OnOk result (string_bytes text.new
        ≡ string_bytes text.old ++ hexadecimal_digit digit ∷ []) }
{
    text.push(char::from(DIGITS[digit as usize]))
}

/// Appends a byte in hexadecimal.
fn push_hexadecimal(text: &mut String, byte: u8) -> Result<(), AllocError>
    ensures { OnOk result (string_bytes text.new ≡ string_bytes text.old ++ hexadecimal byte) }
{
    text.push('\\')?;
    push_digit(text, byte / 16)?;
    push_digit(text, byte % 16)
}

/// Appends a byte as it is shown.
fn push_shown(text: &mut String, byte: u8) -> Result<(), AllocError>
    ensures { OnOk result (string_bytes text.new ≡ string_bytes text.old ++ show_byte byte) }
{
    match character_of(byte) {
        Some(character) if byte != BACKSLASH => text.push(char::from(character)),
        _ => push_hexadecimal(text, byte),
    }
}

/// The bytes without the blanks at their end.
fn without_blanks(bytes: &[u8]) -> &[u8]
    ensures { result.now ≡ spec.without_blanks bytes.now }
{
    let mut end = bytes.len();
    while end > 0 && bytes[end - 1] == BLANK {
        end -= 1;
    }
    &bytes[..end]
}

/// The bytes as people read them: each as its character, but the backslash and what has no
/// character as a backslash and two hexadecimal digits; blanks at the end are dropped. Two
/// different fields of one length are never shown alike.
#[tactic(auto, unfolding(crate::specs::CodePage::show_text))]
pub fn show(alloc: Global, bytes: &[u8]) -> Result<String, AllocError>
    ensures shown { IfOk result (λ text. string_bytes text ≡ show_text bytes.now) }
    ensures unlike { IfOk result (λ text.
        (other : List ℕ) → length other ≡ length bytes.now → All (λ byte. byte < 256) other
        → show_text other ≡ string_bytes text → other ≡ bytes.now) }
{
    let mut text = String::new(alloc);
    for byte in without_blanks(bytes) {
        push_shown(&mut text, *byte)?;
    }
    Ok(text)
}
