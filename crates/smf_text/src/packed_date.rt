//! Packed dates, `0cyydddF`, a half-byte each (SA38-0667).

ghost use Rattle.std.specs.Prelude.{◌≡◌, ◌≤◌, IsTrue, IfOk, pos, slice_index};
ghost use Rattle.jiff_core.specs.Calendar.{IsEpochDay, days_in_year as days_in_year_of};
ghost use Rattle.smf_text.specs.Day.{IsDay, day_of_date, first_year, last_year, nth_day_of};
ghost use Rattle.smf_text.specs.PackedDate as spec;

use jiff::civil;
use jiff_core::civil::days_in_year;
use thiserror::Error;

/// Where the half-byte of the century is.
const CENTURY_AT: usize = 1;

/// Where the two half-bytes of the year are.
const YEAR_AT: usize = 2;

/// Where the three half-bytes of the day of the year are.
const DAY_AT: usize = 4;

/// Where the sign is.
const SIGN_AT: usize = 7;

/// The year that centuries are counted from.
const BASE_YEAR: u16 = 1900;

/// The last century that is known: 20yy.
const LAST_CENTURY: u8 = 1;

/// The sign that the manual gives.
const SIGN: u8 = 0xF;

/// The sign that some writers use.
const OTHER_SIGN: u8 = 0xC;

/// Why four bytes are no packed date. Where several reasons apply, the first of these is given.
#[derive(Clone, Copy, Debug, PartialEq, Eq, Error)]
pub enum DateFault {
    /// One of the first seven half-bytes is above 9.
    #[error("a half-byte of a packed date is not a decimal digit")]
    Digit,
    /// The first half-byte is not 0, or the second, which names the century, is above 1.
    #[error("a packed date has an unknown century")]
    Century,
    /// The day of the year is 0, or beyond the last day of the year.
    #[error("a packed date has a day that its year does not have")]
    DayOfYear,
    /// The last half-byte is neither F nor C.
    #[error("a packed date does not end in a sign")]
    Sign,
}

impl DateFault {
    /// The number that reports and messages show.
    pub fn number(self) -> u8
        ensures { result ≡ spec.date_number self }
    {
        match self {
            DateFault::Digit => 1,
            DateFault::Century => 2,
            DateFault::DayOfYear => 3,
            DateFault::Sign => 4,
        }
    }
}

/// The half-bytes, of each byte the high one first.
fn half_bytes(bytes: &[u8; 4]) -> [u8; 8]
    ensures { result ≡ spec.half_bytes bytes.now }
{
    let [a, b, c, d] = *bytes;
    [
        a / 16,
        a % 16,
        b / 16,
        b % 16,
        c / 16,
        c % 16,
        d / 16,
        d % 16,
    ]
}

/// The year: the second half-byte counts the centuries from 1900 on, the next two are the last
/// digits.
fn year_of(halves: &[u8; 8]) -> u16
    ensures { result ≡ spec.year_of halves.now }
{
    BASE_YEAR
        + 100 * halves[CENTURY_AT] as u16
        + 10 * halves[YEAR_AT] as u16
        + halves[YEAR_AT + 1] as u16
}

/// The day of the year, from 1.
fn day_of_year(halves: &[u8; 8]) -> u16
    ensures { result ≡ spec.day_of_year halves.now }
{
    100 * halves[DAY_AT] as u16 + 10 * halves[DAY_AT + 1] as u16 + halves[DAY_AT + 2] as u16
}

/// Whether each half-byte but the sign is a decimal digit.
fn has_digits(halves: &[u8; 8]) -> bool
    ensures exact { result ≡ spec.has_digits halves.now }
    ensures late { IsTrue result → slice_index halves.now spec.century_at ≤ spec.last_century
        → spec.year_of halves.now ≤ last_year }
{
    halves[..SIGN_AT].iter().all(|half| *half <= 9)
}

/// Whether the century is 19 or 20.
fn has_century(halves: &[u8; 8]) -> bool
    ensures exact { result ≡ spec.has_century halves.now }
    ensures century { IsTrue result → slice_index halves.now spec.century_at ≤ spec.last_century }
{
    halves[0] == 0 && halves[CENTURY_AT] <= LAST_CENTURY
}

/// Whether the year has the day of the year.
fn has_day_of_year(halves: &[u8; 8]) -> bool
    requires { spec.year_of halves.now ≤ last_year }
    ensures exact { result ≡ spec.has_day_of_year halves.now }
    ensures first { IsTrue result → 1 ≤ spec.day_of_year halves.now }
    ensures last { IsTrue result
        → spec.day_of_year halves.now ≤ days_in_year_of (pos (spec.year_of halves.now)) }
{
    let day = day_of_year(halves);
    1 <= day && day <= days_in_year(year_of(halves) as i16)
}

/// Whether the sign is F, or C, which some writers use.
fn has_sign(halves: &[u8; 8]) -> bool
    ensures { result ≡ spec.has_sign halves.now }
{
    halves[SIGN_AT] == SIGN || halves[SIGN_AT] == OTHER_SIGN
}

/// 1 January of a year.
fn new_year(year: u16) -> i32
    requires { year ≤ last_year }
    ensures exact { result ≡ day_of_date year 1 1 }
    ensures bound { IsEpochDay result }
{
    civil::date(year as i16, 1, 1)
        .to_plain()
        .to_unix_epoch_day()
}

/// The nth day of a year, from 1.
fn nth_day(year: u16, n: u16) -> i32
    requires early { first_year ≤ year }
    requires late { year ≤ last_year }
    requires first { 1 ≤ n }
    requires last { n ≤ days_in_year_of (pos year) }
    ensures exact { result ≡ nth_day_of year n }
    ensures day { IsDay result }
{
    new_year(year) + (n as i32 - 1)
}

/// The day of a packed date, in days since 1970-01-01, or the first test that it fails.
#[tactic(auto, unfolding(crate::specs::PackedDate::packed_day_of))]
pub fn packed_day(bytes: &[u8; 4]) -> Result<i32, DateFault>
    ensures exact { result ≡ spec.packed_day_of bytes.now }
    ensures day { IfOk result IsDay }
{
    let halves = half_bytes(bytes);
    if !has_digits(&halves) {
        return Err(DateFault::Digit);
    }
    if !has_century(&halves) {
        return Err(DateFault::Century);
    }
    if !has_day_of_year(&halves) {
        return Err(DateFault::DayOfYear);
    }
    if !has_sign(&halves) {
        return Err(DateFault::Sign);
    }
    Ok(nth_day(year_of(&halves), day_of_year(&halves)))
}
