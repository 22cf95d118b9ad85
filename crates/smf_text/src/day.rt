//! Days, as numbers of days since 1970-01-01.

ghost use Rattle.std.specs.Prelude.{◌≡◌, ◌≢◌, ℕ, ℤ, pos, ◌<◌, ◌≤◌, ◌≤ℤ◌, ◌↔◌, [], ◌∷◌, Some, IfOk, IfSome, IfNone, IsTrue, string_bytes};
ghost use Rattle.jiff_core.specs.Date.{epoch_day};
ghost use Rattle.jiff_core.specs.declared.civil.date.Date.{Date};
ghost use Rattle.jiff_fmt.specs.Text.{date_text, pad2};
ghost use Rattle.smf_text.specs.Day as spec;
ghost use Rattle.smf_text.specs.Day.{IsDay, day_of_text_of, day_text_of};

use jiff::civil;
use jiff_core::civil::Date;
use std::alloc::{AllocError, Global};

/// The first day that this product knows, 1900-01-01, in days since 1970-01-01.
pub const FIRST_DAY: i32 = -25_567;

/// The last day that this product knows, 2099-12-31, in days since 1970-01-01.
pub const LAST_DAY: i32 = 47_481;

/// The date of a day.
fn date_of(day: i32) -> Date
    requires { IsDay day }
    ensures { epoch_day result ≡ day }
{
    match Date::from_unix_epoch_day(i64::from(day)) {
        Ok(date) => date,
        Err(_) => unreachable!(),
    }
}

/// The day as `YYYY-MM-DD`.
pub fn day_text(alloc: Global, day: i32) -> Result<String, AllocError>
    requires { IsDay day }
    ensures { IfOk result (λ text. string_bytes text ≡ day_text_of day) }
{
    let date = civil::Date::from_plain(date_of(day));
    format!(in alloc; "{date}")
}

/// The day of the week, from 1 for Monday to 7 for Sunday.
#[tactic(auto, unfolding(crate::specs::Day::weekday_of))]
pub fn weekday(day: i32) -> u8
    requires { IsDay day }
    ensures value { result ≡ spec.weekday_of day }
    ensures first { 1 ≤ result }
    ensures last { result ≤ 7 }
{
    date_of(day).weekday().to_monday_one_offset() as u8
}

/// The number that two decimal digits spell.
fn two_digits(high: u8, low: u8) -> Option<u8>
    ensures small { IfSome result (λ n. n < 100) }
    ensures value { IfSome result (λ n. pad2 n ≡ high ∷ low ∷ []) }
    ensures none { IfNone result ((n : ℕ) → n < 100 → pad2 n ≢ high ∷ low ∷ []) }
{
    if high.is_ascii_digit() && low.is_ascii_digit() {
        Some(10 * (high - b'0') + (low - b'0'))
    } else {
        None
    }
}

/// The date of a text `YYYY-MM-DD`, if the calendar has it. (The reader of `jiff` takes other forms
/// too.)
fn date_of_text(text: &str) -> Option<Date>
    ensures year { IfSome result (λ date. pos 0 ≤ℤ date.year) }
    ensures value { IfSome result (λ date. date_text date ≡ text.now) }
    ensures none { IfNone result
        ((date : Date) → pos 0 ≤ℤ date.year → date_text date ≢ text.now) }
{
    let [c1, c2, y1, y2, b'-', m1, m2, b'-', d1, d2] = text.as_bytes() else {
        return None;
    };
    let century = two_digits(*c1, *c2)?;
    let year = two_digits(*y1, *y2)?;
    let month = two_digits(*m1, *m2)?;
    let day = two_digits(*d1, *d2)?;
    let year = 100 * i16::from(century) + i16::from(year);
    Date::new(year, month as i8, day as i8).ok()
}

/// Whether the day is one that this product knows.
fn is_day(day: i32) -> bool
    ensures { IsTrue result ↔ IsDay day }
{
    FIRST_DAY <= day && day <= LAST_DAY
}

/// The day of a text `YYYY-MM-DD`: the inverse of `day_text`. No other text is taken.
pub fn day_of_text(text: &str) -> Option<i32>
    ensures exact { (day : ℤ) → IsDay day → ((result ≡ Some day) ↔ (text.now ≡ day_text_of day)) }
    ensures day { IfSome result IsDay }
    ensures value { result ≡ day_of_text_of text.now }
{
    let day = date_of_text(text)?.to_unix_epoch_day();
    if is_day(day) { Some(day) } else { None }
}
