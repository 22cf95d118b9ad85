//! The days of a period, as a table of cost and usage shows them.

ghost use Rattle.std.specs.Prelude.{◌≡◌, ◌-◌, ◌+ℤ◌, All, length, pos, slice_get};
ghost use Rattle.std.specs.Option.{ForSome};
ghost use Rattle.book_model.specs.Words.{AreRows, IsDay};
ghost use Rattle.report_texts.specs.Midnights.{IsMidnight};
ghost use Rattle.book_reports.specs.FocusDays as spec;

use crate::bill_tariffs::KeptTariffs;
use book_core::ChargeRow;
use book_model::BilledTariff;
use page_texts::close_of;
use smf_text::{FIRST_DAY, LAST_DAY};

/// The day that a period begins on, and its last day, counted from 1970-01-01.
#[derive(Clone, Copy)]
pub(crate) struct FocusDays {
    /// After a close through the last day that is known it is the day after that.
    pub(crate) begins: i32,
    /// It is always known.
    pub(crate) last: i32,
}

/// The first of the tariffs of a period, if it has one.
fn first_tariff(kept: &KeptTariffs) -> Option<BilledTariff>
    ensures { result ≡ slice_get kept.now.tariffs.items 0 }
{
    kept.tariffs.first().copied()
}

/// The newest of its rows, which stand in the order of their days.
fn newest_row(rows: &[ChargeRow]) -> Option<ChargeRow>
    ensures { result ≡ slice_get rows.now (length rows.now - 1) }
{
    rows.last().copied()
}

/// The day after a close.
fn day_after(close: i32) -> i32
    requires { IsDay close }
    ensures day { result ≡ close +ℤ pos 1 }
    ensures midnight { IsMidnight result }
{
    close + 1
}

/// The first day of a tariff, or, where there is none, the first one known.
#[tactic(auto, unfolding(crate::specs::FocusDays::first_by))]
fn first_by(first: Option<BilledTariff>) -> i32
    requires { ForSome first (λ tariff. IsDay tariff.day) }
    ensures value { result ≡ spec.first_by first }
    ensures day { IsDay result }
{
    match first {
        Some(tariff) => tariff.day,
        None => FIRST_DAY,
    }
}

/// The day that it begins on, by the close before it, or else by its first tariff.
#[tactic(auto, unfolding(crate::specs::FocusDays::begins_on))]
fn begins_on(before: Option<i32>, first: Option<BilledTariff>) -> i32
    requires before { ForSome before IsDay }
    requires first { ForSome first (λ tariff. IsDay tariff.day) }
    ensures day { result ≡ spec.begins_on before first }
    ensures midnight { IsMidnight result }
{
    match before {
        Some(close) => day_after(close),
        None => first_by(first),
    }
}

/// A day, where it is no later than the last one known.
#[tactic(auto, unfolding(crate::specs::FocusDays::known_day))]
fn known_day(day: i32) -> i32
    requires { IsMidnight day }
    ensures value { result ≡ spec.known_day day }
    ensures day { IsDay result }
{
    if LAST_DAY < day { LAST_DAY } else { day }
}

/// Its last day, by its close, or else by its newest row.
#[tactic(auto, unfolding(crate::specs::FocusDays::last_on))]
fn last_on(through: Option<i32>, newest: Option<ChargeRow>, begins: i32) -> i32
    requires through { ForSome through IsDay }
    requires newest { ForSome newest (λ row. IsDay row.day) }
    requires begins { IsMidnight begins }
    ensures last { result ≡ spec.last_on through newest begins }
    ensures day { IsDay result }
{
    match through {
        Some(day) => day,
        None => match newest {
            Some(row) => row.day,
            None => known_day(begins),
        },
    }
}

/// The days of a period, by those of all closes, its tariffs and its rows.
pub(crate) fn focus_days(
    number: u16,
    closes: &[i32],
    kept: &KeptTariffs,
    rows: &[ChargeRow],
) -> FocusDays
    requires closes { All IsDay closes.now }
    requires tariffs { All (λ tariff. IsDay tariff.day) kept.now.tariffs.items }
    requires rows { AreRows rows.now }
    ensures days { result ≡ spec.focus_days number closes.now kept.now.tariffs.items rows.now }
    ensures begins { IsMidnight result.begins }
    ensures last { IsDay result.last }
{
    let number = usize::from(number);
    let before = close_of(closes, number.saturating_sub(1));
    let through = close_of(closes, number);
    let first = first_tariff(kept);
    let newest = newest_row(rows);
    let begins = begins_on(before, first);
    let last = last_on(through, newest, begins);
    FocusDays { begins, last }
}
