//! Keys as they are looked for: the first columns of rows.

ghost use Rattle.std.specs.Prelude.{◌≡◌, ◌∷◌, [], OnOk, pos};
ghost use Rattle.sqlite_value.specs.declared.value.Value.TheVariants.{Blob, Int};
ghost use Rattle.tree_tables.specs.Columns.{flag};
ghost use Rattle.book_audit.specs.Records as spec;

use crate::finding::DetailKey;
use sqlite_value::row::Row;
use sqlite_value::value::ValueRef;
use std::alloc::AllocError;
use tree_tables::StoredRecord;

/// Bytes as a key: the name of a record, or an identity.
pub(crate) fn bytes_key(key: &mut Row, bytes: &[u8]) -> Result<(), AllocError>
    ensures { OnOk result (key.new ≡ Blob bytes.now ∷ []) }
{
    key.clear();
    key.push(ValueRef::Blob(bytes))
}

/// A number as a key: the first day of a tariff, a period, or the number of a ruling.
pub(crate) fn number_key(key: &mut Row, number: i64) -> Result<(), AllocError>
    ensures { OnOk result (key.new ≡ Int number ∷ []) }
{
    key.clear();
    key.push(ValueRef::Int(number))
}

/// The key that finds a record by its identity.
pub(crate) fn identity_key(key: &mut Row, stored: &StoredRecord) -> Result<(), AllocError>
    ensures { OnOk result (key.new
        ≡ Blob stored.now.identity.items ∷ Blob stored.now.name ∷ []) }
{
    key.clear();
    key.push(ValueRef::Blob(&stored.identity))?;
    key.push(ValueRef::Blob(&stored.name))
}

/// The key that finds a record by its mark.
pub(crate) fn mark_key(key: &mut Row, stored: &StoredRecord) -> Result<(), AllocError>
    ensures { OnOk result (key.new ≡ Int (pos (flag stored.now.charged))
        ∷ Blob stored.now.identity.items ∷ Blob stored.now.name ∷ []) }
{
    key.clear();
    key.push(ValueRef::Int(i64::from(stored.charged)))?;
    key.push(ValueRef::Blob(&stored.identity))?;
    key.push(ValueRef::Blob(&stored.name))
}

/// The key that finds a choice by the record that it names.
pub(crate) fn choice_name_key(key: &mut Row, name: &[u8; 32], number: u32) -> Result<(), AllocError>
    ensures { OnOk result (key.new ≡ Blob name.now ∷ Int (pos number) ∷ []) }
{
    key.clear();
    key.push(ValueRef::Blob(name))?;
    key.push(ValueRef::Int(i64::from(number)))
}

/// The key of a period's line for a record.
pub(crate) fn line_key(key: &mut Row, period: u16, name: &[u8; 32]) -> Result<(), AllocError>
    ensures { OnOk result (key.new ≡ Int (pos period) ∷ Blob name.now ∷ []) }
{
    key.clear();
    key.push(ValueRef::Int(i64::from(period)))?;
    key.push(ValueRef::Blob(name))
}

/// The key of a row of details.
pub(crate) fn detail_key(key: &mut Row, spot: &DetailKey) -> Result<(), AllocError>
    ensures { OnOk result (key.new ≡ spec.detail_key spot.now) }
{
    key.clear();
    key.push(ValueRef::Int(i64::from(spot.place.day)))?;
    key.push(ValueRef::Text(spot.place.centre.text().as_bytes()))?;
    key.push(ValueRef::Text(spot.place.shift.text().as_bytes()))?;
    key.push(ValueRef::Int(i64::from(spot.time)))?;
    key.push(ValueRef::Blob(&spot.name))
}
