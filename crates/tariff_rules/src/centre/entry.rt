//! What an entry of a tariff file's array of centres says.

ghost use Rattle.std.specs.Prelude.{◌≡◌};
ghost use Rattle.toml.specs.View.{table_view, view};
ghost use Rattle.tariff_rules.specs.Document.{IsUnlessMemory, AreUnlessMemory};
ghost use Rattle.tariff_rules.specs.CentreEntry as spec;

use super::{CentreRule, Field};
use crate::document::{integer_in, name_at, text_at, value_at};
use crate::fault::TariffFault;
use crate::key::Key;
use crate::prefix::prefix_of;
use crate::rules::Rule;
use std::alloc::Global;
use toml::{Table, Value};

/// The last accounting field that a rule may look at.
const LAST_ACCOUNT: u64 = 255;

/// The most characters of an accounting field's prefix.
const MAX_ACCOUNT_PREFIX: usize = 16;

/// The most characters of a job name's prefix, which are those of the name.
const MAX_JOB_PREFIX: usize = 8;

/// The field that the rule looks at.
#[tactic(auto, unfolding(crate::specs::CentreEntry::field_at))]
fn field_at(table: &Table) -> Result<Field, TariffFault>
    ensures { result ≡ spec.field_at (table_view table.now) }
{
    match (value_at(table, Key::Account), value_at(table, Key::Job)) {
        (Some(account), _) => match integer_in(account, 1, LAST_ACCOUNT) {
            Some(n) => Ok(Field::Account(n as u16)),
            None => Err(TariffFault::Range(Key::Account)),
        },
        (None, Some(_)) => Ok(Field::Job),
        (None, None) => Err(TariffFault::Missing(Key::Account)),
    }
}

/// The prefix at a key.
#[tactic(auto, unfolding(crate::specs::CentreEntry::prefix_at))]
fn prefix_at(alloc: Global, table: &Table, key: Key, most: usize) -> Result<Vec<u8>, TariffFault>
    ensures { AreUnlessMemory result (spec.prefix_at (table_view table.now) key most) }
{
    let text = text_at(table, key)?;
    prefix_of(alloc, text, most)?.ok_or(TariffFault::Range(key))
}

/// What the field has to begin with.
fn prefix_for(alloc: Global, table: &Table, field: Field) -> Result<Vec<u8>, TariffFault>
    ensures { AreUnlessMemory result (spec.prefix_for (table_view table.now) field) }
{
    match field {
        Field::Account(_) => prefix_at(alloc, table, Key::Prefix, MAX_ACCOUNT_PREFIX),
        Field::Job => prefix_at(alloc, table, Key::Job, MAX_JOB_PREFIX),
    }
}

impl CentreRule {
    /// The rule of a table.
    #[tactic(auto, unfolding(crate::specs::CentreEntry::centre_rule_of))]
    fn of_table(alloc: Global, table: &Table) -> Result<CentreRule, TariffFault>
        ensures { IsUnlessMemory result (spec.centre_rule_of (table_view table.now)) }
    {
        let centre = name_at(table)?;
        let field = field_at(table)?;
        let prefix = prefix_for(alloc, table, field)?;
        Ok(CentreRule {
            centre,
            field,
            prefix,
        })
    }
}

impl Rule for CentreRule {
    ghost use Rattle.tariff_rules.specs.CentreEntry.{centre_rule_in};

    ghost rule_in = { centre_rule_in };

    #[tactic(auto, unfolding(crate::specs::CentreEntry::centre_rule_in))]
    fn read(alloc: Global, value: &Value) -> Result<CentreRule, TariffFault> {
        match value.as_table() {
            Some(table) => CentreRule::of_table(alloc, table),
            None => Err(TariffFault::Range(Key::Centre)),
        }
    }
}
