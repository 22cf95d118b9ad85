//! The arrays of rules of a tariff file.

ghost use Rattle.std.specs.Prelude.{◌≡◌, map, Result};
ghost use Rattle.toml.specs.Data.{Data};
ghost use Rattle.toml.specs.View.{table_view, view};
ghost use Rattle.tariff_rules.specs.Document as spec;
ghost use Rattle.tariff_rules.specs.Document.{IsUnlessMemory, AreUnlessMemory};
ghost use Rattle.tariff_rules.specs.declared.fault.TariffFault.{TariffFault};

use crate::document::{entries_in, value_at};
use crate::fault::TariffFault;
use crate::key::Key;
use std::alloc::Global;
use toml::{Table, Value};

/// A rule of a tariff, which an entry of an array gives.
pub(crate) trait Rule: Drop {
    /// What an entry says.
    ghost rule_in: { Data → Result Self TariffFault };

    /// The rule of an entry.
    fn read(alloc: Global, value: &Value) -> Result<Self, TariffFault>
        ensures { IsUnlessMemory result (rule_in (view value.now)) };
}

/// The rules of the entries, in order.
fn read_each<R: Rule>(alloc: Global, entries: &[Value]) -> Result<Vec<R>, TariffFault>
    ensures { AreUnlessMemory result (spec.read_each R.rule_in (map view entries.now)) }
{
    let mut rules = Vec::new(alloc);
    for entry in entries {
        rules.push(R::read(alloc, entry)?)?;
    }
    Ok(rules)
}

/// The rules at a key; there may be none.
#[tactic(auto, unfolding(crate::specs::Document::rules_at), using(crate::proofs::EntryLemmas::entry_lemmas))]
pub(crate) fn rules_at<R: Rule>(
    alloc: Global,
    table: &Table,
    key: Key,
    most: usize,
) -> Result<Vec<R>, TariffFault>
    ensures { AreUnlessMemory result (spec.rules_at (table_view table.now) key most R.rule_in) }
{
    let Some(value) = value_at(table, key) else {
        return Ok(Vec::new(alloc));
    };
    match entries_in(value) {
        None => Err(TariffFault::Range(key)),
        Some(entries) if entries.len() > most => Err(TariffFault::TooMany),
        Some(entries) => read_each(alloc, entries),
    }
}
