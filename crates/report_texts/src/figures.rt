//! Figures of a period: what a dry run shows of books before a ruling and after it.

ghost use Rattle.std.specs.Prelude.{◌≡◌};
ghost use Rattle.book_model.specs.Words.{AreLines, AreRows};
ghost use Rattle.report_texts.specs.Figures as spec;

use crate::{adjustment_lists, statements};
use book_model::{ChargeRow, Line};

/// What books have of a period, as a dry run of a ruling shows it.
#[derive(Clone, Copy)]
pub struct Figures {
    /// What its statement comes to, in ten-thousandths of the money unit.
    pub statement: u64,
    /// What its adjustments add, in ten-thousandths of the money unit.
    pub added: u64,
    /// What they reverse, in ten-thousandths of the money unit.
    pub reversed: u64,
    /// How many records it counts.
    pub records: u64,
    /// The count that is shown for this ruling and not for another: for a tariff the records of the
    /// period that are dated on its first day or later, or, in the place of another, before the
    /// next one; for a close those of the next period; for a choice and the adoption the disputes;
    /// for a credit those of the period.
    pub own: u64,
}

/// The figures of a period by all its charge rows and adjustment lines, and the count that is shown
/// for the ruling.
pub fn figures_of(rows: &[ChargeRow], lines: &[Line], own: u64) -> Figures
    requires rows { AreRows rows.now }
    requires lines { AreLines lines.now }
    ensures { result ≡ spec.figures_by rows.now lines.now own }
{
    let (records, _, _, statement) = statements::row_sums(rows);
    let (added, reversed) = adjustment_lists::sums(lines);
    Figures {
        statement,
        added,
        reversed,
        records,
        own,
    }
}

/// How many records the charge rows of a period count.
pub fn record_count(rows: &[ChargeRow]) -> u64
    requires { AreRows rows.now }
    ensures { result ≡ spec.record_count rows.now }
{
    let (records, _, _, _) = statements::row_sums(rows);
    records
}

/// The records of a row, where they are dated on a day or later.
fn count_from(row: &ChargeRow, day: i32) -> u64
    ensures { result ≡ spec.count_from day row.now }
{
    if row.day < day { 0 } else { row.count }
}

/// How many records of some charge rows are dated on a day or later. The day is counted from
/// 1970-01-01.
#[tactic(auto, using(std::proofs::lemmas::List::Sums::sum_by_more_le, crate::proofs::FigureLemmas::count_within))]
pub fn record_count_from(rows: &[ChargeRow], day: i32) -> u64
    requires { AreRows rows.now }
    ensures { result ≡ spec.record_count_from day rows.now }
{
    let mut records = 0;
    for row in rows {
        records += count_from(row, day);
    }
    records
}

/// How many of them are dated on the day of another tariff or later, if there is one.
fn count_after(rows: &[ChargeRow], next: Option<i32>) -> u64
    requires { AreRows rows.now }
    ensures { result ≡ spec.count_after next rows.now }
{
    match next {
        Some(next) => record_count_from(rows, next),
        None => 0,
    }
}

/// How many records of some charge rows are dated on a day or later, and before the next tariff, if
/// there is one. Days are counted from 1970-01-01.
pub fn record_count_under(rows: &[ChargeRow], first: i32, next: Option<i32>) -> u64
    requires { AreRows rows.now }
    ensures { result ≡ spec.record_count_under first next rows.now }
{
    record_count_from(rows, first).saturating_sub(count_after(rows, next))
}
