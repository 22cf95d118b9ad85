//! What the tables of a tariff file have at their keys.

ghost use Rattle.std.specs.Prelude.{◌≡◌, ◌≤◌, map, option_map, IfOk, IfSome, MatchResult, Ok, Err};
ghost use Rattle.smf_text.specs.Names.{IsName};
ghost use Rattle.toml.specs.Data.{as_table, get_member};
ghost use Rattle.toml.specs.View.{table_view, view};
ghost use Rattle.tariff_rules.specs.Document as spec;

use crate::fault::TariffFault;
use crate::key::Key;
use smf_text::Name;
use toml::{Table, Value};

/// What the table has at the key of this text.
pub(crate) fn member_at<'a>(table: &'a Table, key: &str) -> Option<&'a Value>
    ensures { option_map (λ value. view value.now) result
        ≡ get_member key.now (table_view table.now) }
{
    table.get(key)
}

/// What the table has at a key that need not be there.
pub(crate) fn value_at<'a>(table: &'a Table, key: Key) -> Option<&'a Value>
    ensures { option_map (λ value. view value.now) result
        ≡ spec.value_at (table_view table.now) key }
{
    member_at(table, key.text())
}

/// The table at a key that has to be there.
#[tactic(auto, unfolding(crate::specs::Document::read_at, crate::specs::Document::required_at))]
pub(crate) fn table_at<'a>(table: &'a Table, key: Key) -> Result<&'a Table, TariffFault>
    ensures { let wanted = spec.read_at (table_view table.now) key as_table in
        MatchResult result
        (λ inner. wanted ≡ Ok (table_view inner.now))
        (λ fault. wanted ≡ Err fault) }
{
    match value_at(table, key) {
        Some(value) => value.as_table().ok_or(TariffFault::Range(key)),
        None => Err(TariffFault::Missing(key)),
    }
}

/// The text at a key that has to be there.
#[tactic(auto, unfolding(crate::specs::Document::read_at, crate::specs::Document::required_at))]
pub(crate) fn text_at<'a>(table: &'a Table, key: Key) -> Result<&'a str, TariffFault>
    ensures { let wanted = spec.text_at (table_view table.now) key in
        MatchResult result (λ text. wanted ≡ Ok text.now) (λ fault. wanted ≡ Err fault) }
{
    match value_at(table, key) {
        Some(value) => value.as_str().ok_or(TariffFault::Range(key)),
        None => Err(TariffFault::Missing(key)),
    }
}

/// The entries of the array at a key that has to be there.
#[tactic(auto, unfolding(crate::specs::Document::read_at, crate::specs::Document::required_at))]
pub(crate) fn entries_at<'a>(table: &'a Table, key: Key) -> Result<&'a [Value], TariffFault>
    ensures { let wanted = spec.read_at (table_view table.now) key spec.entries_in in
        MatchResult result
        (λ entries. wanted ≡ Ok (map view entries.now))
        (λ fault. wanted ≡ Err fault) }
{
    match value_at(table, key) {
        Some(value) => entries_in(value).ok_or(TariffFault::Range(key)),
        None => Err(TariffFault::Missing(key)),
    }
}

/// The whole number at a key that has to be there.
#[tactic(auto, unfolding(crate::specs::Document::read_at, crate::specs::Document::required_at))]
pub(crate) fn integer_at(table: &Table, key: Key, least: u64, most: u64) -> Result<u64, TariffFault>
    ensures value { result ≡ spec.integer_at (table_view table.now) key least most }
    ensures bound { IfOk result (λ n. n ≤ most) }
{
    match value_at(table, key) {
        Some(value) => integer_in(value, least, most).ok_or(TariffFault::Range(key)),
        None => Err(TariffFault::Missing(key)),
    }
}

/// The name of a shift or a centre.
#[tactic(auto, unfolding(crate::specs::Document::name_at))]
pub(crate) fn name_at(table: &Table) -> Result<Name, TariffFault>
    ensures value { result ≡ spec.name_at (table_view table.now) }
    ensures name { IfOk result IsName }
{
    let text = text_at(table, Key::Name)?;
    Name::of(text).ok_or(TariffFault::Name)
}

/// A whole number within its range.
pub(crate) fn integer_in(value: &Value, least: u64, most: u64) -> Option<u64>
    ensures value { result ≡ spec.integer_in least most (view value.now) }
    ensures bound { IfSome result (λ n. n ≤ most) }
{
    match value.as_integer() {
        Some(n) if 0 <= n && least <= n as u64 && n as u64 <= most => Some(n as u64),
        _ => None,
    }
}

/// The entries of an array.
#[tactic(auto, using(crate::proofs::EntryLemmas::list_of_items_view))]
pub(crate) fn entries_in(value: &Value) -> Option<&[Value]>
    ensures { option_map (λ entries. map view entries.now) result
        ≡ spec.entries_in (view value.now) }
{
    Some(value.as_array()?)
}
