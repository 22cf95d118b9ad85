//! What may be credited: amounts, and reasons.

ghost use Rattle.std.specs.Prelude.{◌≡◌};
ghost use Rattle.std.specs.List.{list_all};
ghost use Rattle.book_model.specs.RulingsAsked as spec;

use crate::limits::{CREDIT_END, MAX_REASON};

/// The amount may be credited: it is not 0, and below the limit, whatever its sign.
pub fn is_credit_amount(amount: i64) -> bool
    ensures { result ≡ spec.is_credit_amount amount }
{
    -CREDIT_END < amount && amount < CREDIT_END && amount != 0
}

/// A reason may have the character.
fn is_reason_character(character: u8) -> bool
    ensures { result ≡ spec.is_reason_character character }
{
    b' ' <= character && character <= b'~'
}

/// A reason may have each character of the text.
fn has_reason_characters(text: &str) -> bool
    ensures { result ≡ list_all spec.is_reason_character text.now }
{
    text.bytes().all(is_reason_character)
}

/// The text is a reason.
pub fn is_reason(text: &str) -> bool
    ensures { result ≡ spec.is_reason text.now }
{
    1 <= text.len() && text.len() <= MAX_REASON && has_reason_characters(text)
}
