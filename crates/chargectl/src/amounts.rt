//! The amount of a credit, as a word.

ghost use Rattle.std.specs.Prelude.{◌≡◌, ◌<◌, ◌^◌, IfSome, IsTrue};
ghost use Rattle.book_model.specs.Words.{is_credit_amount};
ghost use Rattle.chargectl.specs.Amounts as spec;

use book_core::is_credit_amount;
use book_http::decimal_value;

/// How many bytes the point and the decimals behind it are.
const BEHIND_UNITS: usize = 5;

/// Whole units: at most ten digits, and no 0 before others.
#[tactic(auto, unfolding(crate::specs::Amounts::units_in))]
fn units_in(text: &[u8]) -> Option<u64>
    ensures value { result ≡ spec.units_in text.now }
    ensures bound { IfSome result (λ units. units < 10 ^ 10) }
{
    if 1 < text.len() && text.starts_with(b"0") {
        return None;
    }
    decimal_value(10, text)
}

/// Ten-thousandths without a sign.
#[tactic(auto, unfolding(crate::specs::Amounts::magnitude_in))]
fn magnitude_in(text: &[u8]) -> Option<u64>
    ensures value { result ≡ spec.magnitude_in text.now }
    ensures bound { IfSome result (λ magnitude. magnitude < 10 ^ 14) }
{
    if text.len() < BEHIND_UNITS + 1 {
        return None;
    }
    let (units, behind) = text.split_at(text.len() - BEHIND_UNITS);
    if !behind.starts_with(b".") {
        return None;
    }
    let units = units_in(units)?;
    let decimals = decimal_value(4, &behind[1..])?;
    Some(units * 10_000 + decimals)
}

/// The same with one.
fn with_sign(is_below: bool, magnitude: u64) -> i64
    requires { magnitude < 10 ^ 14 }
    ensures { result ≡ spec.with_sign is_below magnitude }
{
    let amount = magnitude as i64;
    if is_below {
        return -amount;
    }
    amount
}

/// An amount, whatever it is.
#[tactic(auto, unfolding(crate::specs::Amounts::signed_in))]
fn signed_in(text: &[u8]) -> Option<i64>
    ensures { result ≡ spec.signed_in text.now }
{
    if text.starts_with(b"-") {
        let magnitude = magnitude_in(&text[1..])?;
        return Some(with_sign(true, magnitude));
    }
    let magnitude = magnitude_in(text)?;
    Some(with_sign(false, magnitude))
}

/// The amount that a word says, if it may be credited.
pub(crate) fn amount_of_text(text: &str) -> Option<i64>
    ensures amount { result ≡ spec.amount_in text.now }
    ensures limited { IfSome result (λ amount. IsTrue (is_credit_amount amount)) }
{
    let amount = signed_in(text.as_bytes())?;
    if !is_credit_amount(amount) {
        return None;
    }
    Some(amount)
}
