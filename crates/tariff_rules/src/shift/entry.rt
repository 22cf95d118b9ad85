//! What an entry of a tariff file's array of shifts says.

ghost use Rattle.std.specs.Prelude.{◌≡◌, map, IfOk, option_map};
ghost use Rattle.toml.specs.View.{table_view, view};
ghost use Rattle.tariff_rules.specs.Document.{IsUnlessMemory, AreUnlessMemory};
ghost use Rattle.tariff_rules.specs.ShiftEntry as spec;

use super::{MAX_PERCENT, Shift, ShiftRule};
use crate::clock::minute_of_text;
use crate::document::{entries_at, integer_at, integer_in, name_at, text_at};
use crate::fault::TariffFault;
use crate::key::Key;
use crate::rules::Rule;
use std::alloc::{AllocError, Global};
use toml::{Table, Value};

/// The number of weekdays.
const DAYS_PER_WEEK: usize = 7;

/// A weekday, Monday 1 to Sunday 7.
fn weekday_in(value: &Value) -> Option<u8>
    ensures { result ≡ spec.weekday_in (view value.now) }
{
    match integer_in(value, 1, DAYS_PER_WEEK as u64) {
        Some(day) => Some(day as u8),
        None => None,
    }
}

/// The weekdays that the entries are, in order, if these are one to seven weekdays.
fn weekdays_of(alloc: Global, entries: &[Value]) -> Result<Option<Vec<u8>>, AllocError>
    ensures { IfOk result (λ found. option_map (λ days. days.items) found
        ≡ spec.weekdays_of (map view entries.now)) }
{
    if entries.is_empty() || entries.len() > DAYS_PER_WEEK {
        return Ok(None);
    }
    let mut days = Vec::new(alloc);
    for entry in entries {
        match weekday_in(entry) {
            Some(day) => days.push(day)?,
            None => return Ok(None),
        }
    }
    Ok(Some(days))
}

/// The weekdays at the key `days`.
#[tactic(auto, unfolding(crate::specs::ShiftEntry::days_at))]
fn days_at(alloc: Global, table: &Table) -> Result<Vec<u8>, TariffFault>
    ensures { AreUnlessMemory result (spec.days_at (table_view table.now)) }
{
    let entries = entries_at(table, Key::Days)?;
    weekdays_of(alloc, entries)?.ok_or(TariffFault::Range(Key::Days))
}

/// The minute of the day at a key.
#[tactic(auto, unfolding(crate::specs::ShiftEntry::minute_at))]
fn minute_at(table: &Table, key: Key) -> Result<u32, TariffFault>
    ensures { result ≡ spec.minute_at (table_view table.now) key }
{
    let text = text_at(table, key)?;
    minute_of_text(text.as_bytes()).ok_or(TariffFault::Range(key))
}

/// The first minute after the shift, which is later than its first minute.
#[tactic(auto, unfolding(crate::specs::ShiftEntry::to_at))]
fn to_at(table: &Table, from: u32) -> Result<u32, TariffFault>
    ensures { result ≡ spec.to_at (table_view table.now) from }
{
    let to = minute_at(table, Key::To)?;
    if from < to {
        Ok(to)
    } else {
        Err(TariffFault::Range(Key::To))
    }
}

impl ShiftRule {
    /// The rule of a table.
    #[tactic(auto, unfolding(crate::specs::ShiftEntry::shift_rule_of))]
    fn of_table(alloc: Global, table: &Table) -> Result<ShiftRule, TariffFault>
        ensures { IsUnlessMemory result (spec.shift_rule_of (table_view table.now)) }
    {
        let name = name_at(table)?;
        let days = days_at(alloc, table)?;
        let from = minute_at(table, Key::From)?;
        let to = to_at(table, from)?;
        let percent = integer_at(table, Key::Percent, 0, u64::from(MAX_PERCENT))? as u16;
        Ok(ShiftRule {
            shift: Shift { name, percent },
            days,
            from,
            to,
        })
    }
}

impl Rule for ShiftRule {
    ghost use Rattle.tariff_rules.specs.ShiftEntry.{shift_rule_in};

    ghost rule_in = { shift_rule_in };

    #[tactic(auto, unfolding(crate::specs::ShiftEntry::shift_rule_in))]
    fn read(alloc: Global, value: &Value) -> Result<ShiftRule, TariffFault> {
        match value.as_table() {
            Some(table) => ShiftRule::of_table(alloc, table),
            None => Err(TariffFault::Range(Key::Shift)),
        }
    }
}
