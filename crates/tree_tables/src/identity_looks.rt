//! Identities of records that are not charged, one after another, and all records of one.

ghost use Rattle.std.specs.Prelude.{◌≡◌, IfOk, OnOk};
ghost use Rattle.tree_tables.specs.Columns.{uncharged_part};
ghost use Rattle.tree_tables.specs.Stored.{SaysUncharged};

use crate::column_values::{bytes_at, mark_at};
use crate::columns::{MARK_CHARGED, MARK_IDENTITY};
use crate::keys::{NOT_CHARGED, bytes_key, number_key};
use crate::stored_record::StoredRecord;
use crate::tables::TreeTables;
use crate::trees::{IDENTITIES, MARKS};
use sqlite_trees::error::StoreError;
use sqlite_trees::store::Store;
use sqlite_value::row::Row;
use sqlite_value::value::ValueRef;
use std::alloc::Global;
use tree_rows::{first_from, list_run};

/// The first columns of the marks of records that are not charged and have an identity.
fn uncharged_key(key: &mut Row, identity: &[u8]) -> Result<(), StoreError>
    ensures made { OnOk result (key.new ≡ uncharged_part identity.now) }
{
    number_key(key, NOT_CHARGED)?;
    key.push(ValueRef::Blob(identity))?;
    Ok(())
}

/// The identity that a mark's row says, where the record is not charged.
fn read_uncharged(row: &Row, alloc: Global) -> Result<Option<Vec<u8>>, StoreError>
    ensures says { IfOk result (SaysUncharged row.now) }
{
    let charged = mark_at(row, MARK_CHARGED)?;
    if charged {
        return Ok(None);
    }
    let identity = bytes_at(row, MARK_IDENTITY, alloc)?;
    Ok(Some(identity))
}

impl<S: Store> TreeTables<S> {
    ghost use Rattle.tree_tables.specs.Answers.{FindsUncharged, ListsSharing};
    ghost use Rattle.tree_tables.specs.States.{state_of};
    ghost use Rattle.tree_tables.specs.Steps.{Looks};

    /// The least identity that is these bytes or comes after them, of the identities of records
    /// that are not charged: one look, however many there are.
    pub fn find_uncharged(
        &mut self,
        alloc: Global,
        from: &[u8],
    ) -> Result<Option<Vec<u8>>, StoreError>
        ensures looks { Looks result (state_of self.old) (state_of self.new)
            (FindsUncharged from.now) }
    {
        uncharged_key(&mut self.key, from)?;
        if !first_from(&mut self.store, MARKS, &self.key, &mut self.row)? {
            return Ok(None);
        }
        read_uncharged(&self.row, alloc)
    }

    /// All records that have an identity, by name.
    pub fn list_sharing(
        &mut self,
        alloc: Global,
        identity: &[u8],
    ) -> Result<Vec<StoredRecord>, StoreError>
        ensures looks { Looks result (state_of self.old) (state_of self.new)
            (λ tables list. ListsSharing identity.now tables list.items) }
    {
        bytes_key(&mut self.key, identity)?;
        let names = list_run(&mut self.store, IDENTITIES, &self.key, &mut self.row, alloc)?;
        self.read_named(alloc, &names)
    }
}
