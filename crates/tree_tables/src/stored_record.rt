//! Records as their rows say.

ghost use Rattle.std.specs.Prelude.{◌≡◌, ℕ, IfOk, List, pos};
ghost use Rattle.std.specs.FinMap.{get};
ghost use Rattle.sqlite_value.specs.Order.{column};
ghost use Rattle.sqlite_value.specs.declared.value.Value.TheVariants.{Int, Text};
ghost use Rattle.table_model.specs.Tables.{CameTable, RecordRow};
ghost use Rattle.tree_tables.specs.Columns.{record_columns};
ghost use Rattle.tree_tables.specs.Stored.{mark_of, stored_entry};

use crate::column_values::{
    blob_at, bytes_at, counts_at, day_at, entry_at, hash_at, mark_at, name_at,
};
use crate::columns::{
    RECORD_CAME, RECORD_CENTRE, RECORD_CHARGED, RECORD_CPU, RECORD_DATA, RECORD_DAY,
    RECORD_IDENTITY, RECORD_NAME, RECORD_POSTED, RECORD_SHIFT,
};
use sqlite_trees::error::StoreError;
use sqlite_value::row::Row;
use std::alloc::Global;
use tariff_rules::Priced;

/// A record as its row says.
#[derive(Drop)]
pub struct StoredRecord {
    /// The name of the record's data.
    pub name: [u8; 32],
    /// Which work it measures, by the rule of identity in force.
    pub identity: Vec<u8>,
    /// The data after the descriptor.
    pub data_bytes: Vec<u8>,
    /// What it costs, and where.
    pub priced: Priced,
    /// It is charged now.
    pub charged: bool,
    /// The last close charged it.
    pub posted: bool,
}

/// What tells of a record whether a period counts it.
#[derive(Clone, Copy)]
pub struct RecordMark {
    /// The name of the record's data.
    pub name: [u8; 32],
    /// The day of its header, in days since 1970-01-01.
    pub day: i32,
    /// It is charged now.
    pub charged: bool,
}

/// What the row of a record says that it costs.
pub(crate) fn read_price(row: &Row) -> Result<Priced, StoreError>
    ensures read { IfOk result (λ priced. (came : CameTable) (entry : List ℕ × RecordRow)
        → row.now ≡ record_columns came entry → priced ≡ entry.1.priced) }
    ensures day { IfOk result (λ priced. column row.now 3 ≡ Int priced.day) }
    ensures shift { IfOk result (λ priced. column row.now 4 ≡ Text priced.shift) }
    ensures centre { IfOk result (λ priced. column row.now 5 ≡ Text priced.centre) }
    ensures cpu { IfOk result (λ priced. column row.now 6 ≡ Int (pos priced.cpu)) }
    ensures excp { IfOk result (λ priced. column row.now 7 ≡ Int (pos priced.excp)) }
    ensures amount { IfOk result (λ priced. column row.now 8 ≡ Int (pos priced.amount)) }
{
    let counts = counts_at(row, RECORD_CPU)?;
    Ok(Priced {
        day: day_at(row, RECORD_DAY)?,
        shift: name_at(row, RECORD_SHIFT)?,
        centre: name_at(row, RECORD_CENTRE)?,
        cpu: counts.cpu,
        excp: counts.blocks,
        amount: counts.amount,
    })
}

/// What the row of a record says.
pub fn read_record(row: &Row, alloc: Global) -> Result<StoredRecord, StoreError>
    ensures read { IfOk result (λ stored. (came : CameTable) (entry : List ℕ × RecordRow)
        → row.now ≡ record_columns came entry → stored_entry stored ≡ entry) }
{
    Ok(StoredRecord {
        name: hash_at(row, RECORD_NAME)?,
        priced: read_price(row)?,
        charged: mark_at(row, RECORD_CHARGED)?,
        posted: mark_at(row, RECORD_POSTED)?,
        // What owns memory comes last, so that a row that does not fit has taken none.
        identity: bytes_at(row, RECORD_IDENTITY, alloc)?,
        data_bytes: bytes_at(row, RECORD_DATA, alloc)?,
    })
}

/// What the row of a record says that tells whether a period counts it.
pub fn read_mark(row: &Row) -> Result<RecordMark, StoreError>
    ensures read { IfOk result (λ mark. (came : CameTable) (entry : List ℕ × RecordRow)
        → row.now ≡ record_columns came entry → mark ≡ mark_of entry) }
{
    Ok(RecordMark {
        name: hash_at(row, RECORD_NAME)?,
        day: day_at(row, RECORD_DAY)?,
        charged: mark_at(row, RECORD_CHARGED)?,
    })
}

/// The number of the entry by which the record of a row came, if it came by one.
pub fn read_came(row: &Row) -> Result<Option<u64>, StoreError>
    ensures read { IfOk result (λ number. (came : CameTable) (entry : List ℕ × RecordRow)
        → row.now ≡ record_columns came entry → number ≡ get came entry.0) }
{
    entry_at(row, RECORD_CAME)
}

/// The data in the row of a record, after the descriptor; they are lent.
pub fn data_of<'a>(row: &'a Row) -> Result<&'a [u8], StoreError>
    ensures read { IfOk result (λ data_bytes. (came : CameTable) (entry : List ℕ × RecordRow)
        → row.now ≡ record_columns came entry → data_bytes.now ≡ entry.1.data_bytes) }
{
    Ok(blob_at(row, RECORD_DATA)?)
}
