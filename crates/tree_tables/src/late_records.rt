//! The records that a later tariff may be for, one after another: those that are not charged, and
//! then those that are counted from a day on. No other record is read.

ghost use Rattle.std.specs.Prelude.{◌≡◌, IfOk, OnOk};
ghost use Rattle.tree_tables.specs.LateRecords.{SaysUnchargedName, mark_start, start_after};

use crate::column_values::{hash_at, mark_at};
use crate::columns::{MARK_CHARGED, MARK_NAME};
use crate::detail_rows::{DetailStart, bytes_after};
use crate::keys::{NOT_CHARGED, number_key};
use crate::stored_record::StoredRecord;
use crate::tables::TreeTables;
use crate::trees::MARKS;
use book_model::Detail;
use sqlite_trees::error::StoreError;
use sqlite_trees::store::Store;
use sqlite_value::row::Row;
use sqlite_value::value::ValueRef;
use std::alloc::Global;
use tree_rows::first_from;

/// A record that the walk has come to.
#[derive(Drop)]
pub struct LateRecord {
    /// The record, as its row says.
    pub stored: StoredRecord,
    /// The detail that it was found by, where it was not found by its mark.
    pub detail: Option<Detail>,
}

/// Where the details go on, if the walk has come to one.
fn next_start(last: &Option<LateRecord>) -> Option<DetailStart>
    ensures { result ≡ start_after last.now }
{
    let Some(late) = last else {
        return None;
    };
    match late.detail {
        None => None,
        Some(detail) => Some(DetailStart::After(detail)),
    }
}

/// The first columns of the marks of records that are not charged, after one or from the first on.
fn mark_key(key: &mut Row, last: &Option<LateRecord>) -> Result<(), StoreError>
    ensures made { OnOk result (key.new ≡ mark_start last.now) }
{
    number_key(key, NOT_CHARGED)?;
    let Some(late) = last else {
        return Ok(());
    };
    key.push(ValueRef::Blob(&late.stored.identity))?;
    key.push(ValueRef::Blob(&bytes_after(&late.stored.name)))?;
    Ok(())
}

/// The name that a mark's row says, where the record is not charged.
fn read_uncharged_name(row: &Row) -> Result<Option<[u8; 32]>, StoreError>
    ensures says { IfOk result (SaysUnchargedName row.now) }
{
    if mark_at(row, MARK_CHARGED)? {
        return Ok(None);
    }
    Ok(Some(hash_at(row, MARK_NAME)?))
}

impl<S: Store> TreeTables<S> {
    ghost use Rattle.tree_tables.specs.LateRecords.{FindsCounted, FindsLate, FindsUnchargedLeft};
    ghost use Rattle.tree_tables.specs.States.{state_of};
    ghost use Rattle.tree_tables.specs.Steps.{Looks};

    /// The next of the records that are not charged, by identity and name: one look for its name,
    /// and one for the record.
    fn next_uncharged(
        &mut self,
        alloc: Global,
        last: &Option<LateRecord>,
    ) -> Result<Option<StoredRecord>, StoreError>
        ensures looks { Looks result (state_of self.old) (state_of self.new)
            (FindsUnchargedLeft last.now) }
    {
        mark_key(&mut self.key, last)?;
        if !first_from(&mut self.store, MARKS, &self.key, &mut self.row)? {
            return Ok(None);
        }
        let Some(name) = read_uncharged_name(&self.row)? else {
            return Ok(None);
        };
        Ok(Some(self.record_named(alloc, &name)?))
    }

    /// The record of the first detail from a start on, if there is one.
    fn next_counted(
        &mut self,
        alloc: Global,
        start: &DetailStart,
    ) -> Result<Option<LateRecord>, StoreError>
        ensures looks { Looks result (state_of self.old) (state_of self.new)
            (FindsCounted start.now) }
    {
        let Some(detail) = self.next_detail(start)? else {
            return Ok(None);
        };
        let stored = self.record_named(alloc, &detail.name)?;
        Ok(Some(LateRecord {
            stored,
            detail: Some(detail),
        }))
    }

    /// The next record of a walk over those that are not charged, and then those that are counted
    /// from a day on; after the one that it has come to, or the first of all.
    pub fn next_late(
        &mut self,
        alloc: Global,
        first: i32,
        last: &Option<LateRecord>,
    ) -> Result<Option<LateRecord>, StoreError>
        ensures looks { Looks result (state_of self.old) (state_of self.new)
            (FindsLate first last.now) }
    {
        if let Some(start) = next_start(last) {
            return self.next_counted(alloc, &start);
        }
        if let Some(stored) = self.next_uncharged(alloc, last)? {
            return Ok(Some(LateRecord {
                stored,
                detail: None,
            }));
        }
        self.next_counted(alloc, &DetailStart::Day(first))
    }
}
