//! The identities of all records, written anew by the second rule: first into their rows, by name,
//! and then into the two trees that find them, in the order of these trees. So each page of the
//! three is written about once, and the log of a large file does not grow with every record.

ghost use Rattle.std.specs.Prelude.{◌≡◌, IfOk, OnOk, true};
ghost use Rattle.sqlite_value.specs.Order.{column};
ghost use Rattle.table_model.specs.RowChanges.{by_second_rule};
ghost use Rattle.tree_tables.specs.Walks.{RenewsRow};

use crate::column_values::{blob_at, make_row, with_column};
use crate::columns::{
    IDENTITY_IDENTITY, IDENTITY_NAME, RECORD_CHARGED, RECORD_DATA, RECORD_IDENTITY, RECORD_NAME,
};
use crate::record_rows::change_mark;
use crate::record_walks::{MOST_STEPS, column_key, first_past};
use crate::stored_usage::usage_bytes;
use crate::tables::TreeTables;
use crate::trees::{IDENTITIES, RECORDS};
use smf_type30::Type30;
use sqlite_trees::error::StoreError;
use sqlite_trees::store::Store;
use sqlite_value::row::Row;
use sqlite_value::value::ValueRef;
use std::alloc::Global;
use tree_rows::{change_row, find_row};

/// Makes the row of a record anew, with its identity by the second rule.
fn renamed_row(row: &mut Row, before: &Row, alloc: Global) -> Result<(), StoreError>
    ensures { OnOk result (RenewsRow by_second_rule before.now row.new true) }
{
    let data = blob_at(before, RECORD_DATA)?;
    let bytes = usage_bytes(alloc, data)?;
    let identity = Type30::of_usage(&bytes).identity2();
    with_column(row, before, RECORD_IDENTITY, ValueRef::Blob(&identity))
}

/// Whether a record is found by the identity that its row says.
fn is_keyed(before: &Row, last: &Row) -> Result<bool, StoreError>
    ensures { IfOk result (λ keyed. keyed ≡ true
        → column before.now RECORD_IDENTITY ≡ column last.now IDENTITY_IDENTITY) }
{
    Ok(blob_at(before, RECORD_IDENTITY)? == blob_at(last, IDENTITY_IDENTITY)?)
}

impl<S: Store> TreeTables<S> {
    ghost use Rattle.std.specs.Prelude.{IfOk, OnErr, OnOk};
    ghost use Rattle.sqlite_trees.specs.View.{IsClean};
    ghost use Rattle.tree_rows.specs.Calls.{CommitsNothing, LeavesCommitted};
    ghost use Rattle.table_model.specs.RowChanges.{by_second_rule};
    ghost use Rattle.table_model.specs.Steps as step;
    ghost use Rattle.tree_tables.specs.States.{state_of};
    ghost use Rattle.tree_tables.specs.Steps.{Always, Does};
    ghost use Rattle.tree_tables.specs.Walks.{KeysNext, KeysRecords, MovesKeys, RenamesRows};
    ghost use Rattle.tree_tables.specs.Walks.{RenewsNext};

    /// Writes its identity by the second rule into the row of the first record after that of the
    /// key, and makes its name the key; or answers that there is none.
    fn rename_next(&mut self, alloc: Global) -> Result<bool, StoreError>
        ensures renews { IfOk result (λ more. IsClean (S.Store.view self.new.store)
            → RenewsNext by_second_rule (S.Store.view self.old.store)
            (S.Store.view self.new.store) self.old.key self.new.key more) }
        ensures kept { OnErr result (LeavesCommitted S.Store self.old.store self.new.store) }
        ensures quiet { CommitsNothing S.Store self.old.store self.new.store }
    {
        if !first_past(&mut self.store, RECORDS, &self.key, &mut self.before)? {
            return Ok(false);
        }
        column_key(&mut self.key, &self.before, RECORD_NAME)?;
        renamed_row(&mut self.row, &self.before, alloc)?;
        change_row(&mut self.store, RECORDS, &self.before, &self.row)?;
        Ok(true)
    }

    /// The rows of all records have their identities by the second rule. The trees that find
    /// records stay as they are.
    #[tactic(auto, using(crate::proofs::Renewing::renewing_starts))]
    fn rename_rows(&mut self, alloc: Global) -> Result<(), StoreError>
        ensures renamed { OnOk result (IsClean (S.Store.view self.new.store)
            → RenamesRows (S.Store.view self.old.store) (S.Store.view self.new.store)) }
        ensures kept { OnErr result (LeavesCommitted S.Store self.old.store self.new.store) }
        ensures quiet { CommitsNothing S.Store self.old.store self.new.store }
    {
        self.key.clear();
        'rows: for _ in 0..MOST_STEPS {
            if !self.rename_next(alloc)? {
                return Ok(());
            }
        }
        // Only a disk that lies has more rows.
        Err(StoreError::Corrupt)
    }

    /// Has the record of the first entry after the key `last` found by the identity that its row
    /// says, and makes that entry the key; or answers that there is none.
    #[tactic(auto, using(crate::proofs::Keying::keys_none))]
    fn key_next(&mut self, last: &mut Row) -> Result<bool, StoreError>
        ensures keys { IfOk result (λ more. IsClean (S.Store.view self.new.store)
            → KeysNext (S.Store.view self.old.store) (S.Store.view self.new.store)
            last.old last.new more) }
        ensures kept { OnErr result (LeavesCommitted S.Store self.old.store self.new.store) }
        ensures quiet { CommitsNothing S.Store self.old.store self.new.store }
    {
        if !first_past(&mut self.store, IDENTITIES, last, &mut self.row)? {
            return Ok(false);
        }
        make_row(
            last,
            &[self.row.get(IDENTITY_IDENTITY), self.row.get(IDENTITY_NAME)],
        )?;
        column_key(&mut self.key, &self.row, IDENTITY_NAME)?;
        if !find_row(&mut self.store, RECORDS, &self.key, &mut self.before)? {
            // Only a disk that lies has an entry of no record.
            return Err(StoreError::Corrupt);
        }
        if is_keyed(&self.before, last)? {
            return Ok(true);
        }
        self.key_record(last)?;
        Ok(true)
    }

    /// The record over `before` was found by this entry, and by its mark with the identity there:
    /// it is found by the identity that its row says from now on.
    fn key_record(&mut self, entry: &Row) -> Result<(), StoreError>
        ensures keyed { OnOk result (IsClean (S.Store.view self.new.store)
            → MovesKeys (S.Store.view self.old.store) (S.Store.view self.new.store)
            self.old.before entry.now) }
        ensures kept { OnErr result (LeavesCommitted S.Store self.old.store self.new.store) }
        ensures quiet { CommitsNothing S.Store self.old.store self.new.store }
    {
        let name = entry.get(IDENTITY_NAME);
        let mark = self.before.get(RECORD_CHARGED);
        let identity = self.before.get(RECORD_IDENTITY);
        make_row(&mut self.row, &[identity, name])?;
        change_row(&mut self.store, IDENTITIES, entry, &self.row)?;
        change_mark(
            &mut self.store,
            &mut self.key,
            &mut self.row,
            &[mark, entry.get(IDENTITY_IDENTITY), name],
            &[mark, identity, name],
        )
    }

    /// Each record is found by the identity that its row says by the second rule.
    #[tactic(auto, using(crate::proofs::Keying::keying_starts))]
    fn key_records(&mut self, alloc: Global) -> Result<(), StoreError>
        ensures keyed { OnOk result (IsClean (S.Store.view self.new.store)
            → KeysRecords (S.Store.view self.old.store) (S.Store.view self.new.store)) }
        ensures kept { OnErr result (LeavesCommitted S.Store self.old.store self.new.store) }
        ensures quiet { CommitsNothing S.Store self.old.store self.new.store }
    {
        let mut last = Row::new(alloc);
        'entries: for _ in 0..MOST_STEPS {
            if !self.key_next(&mut last)? {
                return Ok(());
            }
        }
        // Only a disk that lies has more entries.
        Err(StoreError::Corrupt)
    }

    /// Each record has its identity by the second rule, and is found by it. A walk that does not
    /// end, and data that are those of no usage record, are an error: `Corrupt`.
    pub fn rename_records(&mut self, alloc: Global) -> Result<(), StoreError>
        ensures does { Does result (state_of self.old) (state_of self.new) Always step.rename_rows }
    {
        self.rename_rows(alloc)?;
        self.key_records(alloc)
    }
}
