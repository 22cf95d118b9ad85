//! The charged record of an identity, found by its mark.

ghost use Rattle.std.specs.Prelude.{◌≡◌, OnOk};
ghost use Rattle.tree_tables.specs.Columns.{charged_part};

use crate::column_values::hash_at;
use crate::columns::MARK_NAME;
use crate::keys::{IS_CHARGED, number_key};
use crate::stored_record::StoredRecord;
use crate::tables::TreeTables;
use crate::trees::MARKS;
use sqlite_trees::error::StoreError;
use sqlite_trees::store::Store;
use sqlite_value::row::Row;
use sqlite_value::value::ValueRef;
use std::alloc::Global;
use tree_rows::find_row;

/// The first columns of the marks of charged records that have an identity.
fn charged_key(key: &mut Row, identity: &[u8]) -> Result<(), StoreError>
    ensures made { OnOk result (key.new ≡ charged_part identity.now) }
{
    number_key(key, IS_CHARGED)?;
    key.push(ValueRef::Blob(identity))?;
    Ok(())
}

impl<S: Store> TreeTables<S> {
    ghost use Rattle.std.specs.Prelude.{IfOk, OnErr, OnOk};
    ghost use Rattle.sqlite_trees.specs.View.{IsClean};
    ghost use Rattle.tree_rows.specs.Calls.{CommitsNothing, LeavesCommitted, OnlyLooks};
    ghost use Rattle.tree_rows.specs.Rows.{IsFirst};
    ghost use Rattle.tree_rows.specs.Runs.{run_of};
    ghost use Rattle.tree_tables.specs.Answers.{FindsCharged, HasCharged};
    ghost use Rattle.tree_tables.specs.States.{state_of};
    ghost use Rattle.tree_tables.specs.Steps.{Looks};

    /// Writes the first mark of a charged record that has the identity over `row`, or answers that
    /// there is none.
    fn find_mark(&mut self, identity: &[u8]) -> Result<bool, StoreError>
        ensures found { IfOk result (λ there. IsClean (S.Store.view self.new.store)
            → IsFirst (run_of (charged_part identity.now)
            ((S.Store.view self.old.store).trees MARKS)) self.new.row there) }
        ensures same { OnOk result (OnlyLooks S.Store self.old.store self.new.store) }
        ensures kept { OnErr result (LeavesCommitted S.Store self.old.store self.new.store) }
        ensures quiet { CommitsNothing S.Store self.old.store self.new.store }
    {
        charged_key(&mut self.key, identity)?;
        find_row(&mut self.store, MARKS, &self.key, &mut self.row)
    }

    /// Whether a record of the identity is charged: one look, and no record is read.
    pub fn has_charged(&mut self, identity: &[u8]) -> Result<bool, StoreError>
        ensures looks { Looks result (state_of self.old) (state_of self.new)
            (HasCharged identity.now) }
    {
        self.find_mark(identity)
    }

    /// The charged record of an identity, if there is one: one look for its name, and one for the
    /// record, however many records have the identity.
    pub fn find_charged(
        &mut self,
        alloc: Global,
        identity: &[u8],
    ) -> Result<Option<StoredRecord>, StoreError>
        ensures looks { Looks result (state_of self.old) (state_of self.new)
            (FindsCharged identity.now) }
    {
        if !self.find_mark(identity)? {
            return Ok(None);
        }
        let name = hash_at(&self.row, MARK_NAME)?;
        // A mark has its record, unless the disk lies.
        Ok(Some(self.record_named(alloc, &name)?))
    }
}
