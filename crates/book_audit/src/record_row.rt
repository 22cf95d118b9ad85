//! The row of a record.

ghost use Rattle.std.specs.Prelude.{◌≡◌, IfOk};
ghost use Rattle.tree_tables.specs.Stored.{stored_entry};
ghost use Rattle.book_audit.specs.Records.{HasPrice, SaysCame, SaysRecord, row_with};

use sqlite_trees::error::StoreError;
use sqlite_value::row::Row;
use std::alloc::Global;
use tariff_rules::Priced;
use tree_tables::{StoredRecord, bytes_at, count_at, day_at, hash_at, mark_at, name_at};

/// A record as its row says, with the number of the entry by which it came, if it came by one.
#[derive(Drop)]
pub(crate) struct Arrived {
    pub(crate) record: StoredRecord,
    pub(crate) came: Option<u64>,
}

/// What the row of a record says that it costs.
fn price_in(row: &Row) -> Result<Priced, StoreError>
    ensures { IfOk result (HasPrice row.now) }
{
    Ok(Priced {
        day: day_at(row, 3)?,
        shift: name_at(row, 4)?,
        centre: name_at(row, 5)?,
        cpu: count_at(row, 6)?,
        excp: count_at(row, 7)?,
        amount: count_at(row, 8)?,
    })
}

/// What the row of a record says of it, but for the entry by which it came.
fn stored_in(alloc: Global, row: &Row) -> Result<StoredRecord, StoreError>
    ensures { IfOk result (SaysRecord row.now) }
{
    Ok(StoredRecord {
        name: hash_at(row, 0)?,
        priced: price_in(row)?,
        charged: mark_at(row, 9)?,
        posted: mark_at(row, 10)?,
        identity: bytes_at(row, 1, alloc)?,
        data_bytes: bytes_at(row, 2, alloc)?,
    })
}

/// The number of the entry by which the record of a row came: the row of one that came by none ends
/// before it.
fn came_in(row: &Row) -> Result<Option<u64>, StoreError>
    ensures { IfOk result (SaysCame row.now) }
{
    match row.len() {
        11 => Ok(None),
        12 => Ok(Some(count_at(row, 11)?)),
        _ => Err(StoreError::Corrupt),
    }
}

/// What the row of a record says, which has that and no more.
pub(crate) fn record_in(alloc: Global, row: &Row) -> Result<Arrived, StoreError>
    ensures read { IfOk result (λ one. row.now ≡ row_with (stored_entry one.record) one.came) }
{
    let came = came_in(row)?;
    let record = stored_in(alloc, row)?;
    Ok(Arrived { record, came })
}
