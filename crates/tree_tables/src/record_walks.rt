//! Walks and passes over all records, by name; and what a close posts, in such a walk or one record
//! at a time.

ghost use Rattle.std.specs.Prelude.{◌≡◌, ◌∷◌, [], IfOk, OnErr, OnOk, slice_set};
ghost use Rattle.sqlite_trees.specs.View.{IsClean, KeepsSchema};
ghost use Rattle.sqlite_value.specs.Order.{column};
ghost use Rattle.table_model.specs.RowChanges.{post_by};
ghost use Rattle.tree_rows.specs.Calls.{CommitsNothing, IsSorted, LeavesCommitted, OnlyLooks};
ghost use Rattle.tree_rows.specs.Rows.{IsFirst};
ghost use Rattle.tree_tables.specs.Walks.{RenewsRow, last_name_key, rows_past};

use crate::column_values::{day_at, mark_at, with_column};
use crate::columns::{RECORD_CHARGED, RECORD_DAY, RECORD_NAME, RECORD_POSTED};
use crate::keys::bytes_key;
use crate::stored_record::{StoredRecord, read_record};
use crate::tables::TreeTables;
use crate::trees::RECORDS;
use sqlite_trees::error::StoreError;
use sqlite_trees::store::Store;
use sqlite_value::row::Row;
use std::alloc::Global;
use tree_rows::{change_row, find_row, first_after, first_from, next_row, start_pass};

/// The most rows that are walked over: more than any tree of a sound store has.
pub const MOST_STEPS: u64 = 1 << 32;

/// Reads the first row of a tree after those of the key over `row`, or the very first where the key
/// has no columns; or answers that there is none.
pub(crate) fn first_past<S: Store>(
    store: &mut S,
    tree: u32,
    key: &Row,
    row: &mut Row,
) -> Result<bool, StoreError>
    requires { IsSorted S.Store store.old tree }
    ensures found { IfOk result (λ there. IsClean (S.Store.view store.new)
        → IsFirst (rows_past key.now ((S.Store.view store.old).trees tree)) row.new there) }
    ensures same { OnOk result (OnlyLooks S.Store store.old store.new) }
    ensures schema { KeepsSchema (S.Store.view store.old) (S.Store.view store.new) }
    ensures kept { OnErr result (LeavesCommitted S.Store store.old store.new) }
    ensures quiet { CommitsNothing S.Store store.old store.new }
{
    if key.is_empty() {
        return first_from(store, tree, key, row);
    }
    first_after(store, tree, key, row)
}

/// A column of a row as a key.
pub(crate) fn column_key(key: &mut Row, row: &Row, at: usize) -> Result<(), StoreError>
    ensures { OnOk result (key.new ≡ column row.now at ∷ []) }
{
    key.clear();
    key.push(row.get(at))?;
    Ok(())
}

/// The key of the name that a walk has come to, with no columns before the first.
fn walk_key(key: &mut Row, last: Option<[u8; 32]>) -> Result<(), StoreError>
    ensures made { OnOk result (key.new ≡ last_name_key last) }
{
    match last {
        None => {
            key.clear();
            Ok(())
        }
        Some(name) => bytes_key(key, &name),
    }
}

/// Makes the row of a record anew, posted as it is charged.
fn posted_row(row: &mut Row, before: &Row) -> Result<(), StoreError>
    ensures { OnOk result (row.new
        ≡ slice_set before.now RECORD_POSTED (column before.now RECORD_CHARGED)) }
{
    with_column(row, before, RECORD_POSTED, before.get(RECORD_CHARGED))
}

/// Makes the row of a record as a close through the day posts it, or answers that it is so
/// already.
fn post_row(row: &mut Row, before: &Row, through: i32) -> Result<bool, StoreError>
    ensures { IfOk result (RenewsRow (post_by through) before.now row.new) }
{
    let day = day_at(before, RECORD_DAY)?;
    let charged = mark_at(before, RECORD_CHARGED)?;
    let posted = mark_at(before, RECORD_POSTED)?;
    if through < day || charged == posted {
        return Ok(false);
    }
    posted_row(row, before)?;
    Ok(true)
}

impl<S: Store> TreeTables<S> {
    ghost use Rattle.std.specs.Prelude.{IfOk, OnErr, OnOk};
    ghost use Rattle.std.specs.FinMap.{entries};
    ghost use Rattle.sqlite_trees.specs.View.{IsClean};
    ghost use Rattle.tree_rows.specs.Calls.{CommitsNothing, LeavesCommitted};
    ghost use Rattle.tree_rows.specs.Passes.{IsPassing};
    ghost use Rattle.table_model.specs.RowChanges.{post_by};
    ghost use Rattle.table_model.specs.Steps as step;
    ghost use Rattle.tree_tables.specs.Answers.{FindsNext};
    ghost use Rattle.tree_tables.specs.Passes.{HasRecordsLeft, TakesNext};
    ghost use Rattle.tree_tables.specs.States.{state_of};
    ghost use Rattle.tree_tables.specs.Steps.{Always, Does, Looks};
    ghost use Rattle.tree_tables.specs.Walks.{RenewsNext};

    /// The record with the least name after one, or with the least of all where there is none: a
    /// step of a walk over all records, which holds no more than one of them at a time.
    pub fn find_next(
        &mut self,
        alloc: Global,
        last: Option<[u8; 32]>,
    ) -> Result<Option<StoredRecord>, StoreError>
        ensures looks { Looks result (state_of self.old) (state_of self.new) (FindsNext last) }
    {
        walk_key(&mut self.key, last)?;
        if !first_past(&mut self.store, RECORDS, &self.key, &mut self.before)? {
            return Ok(None);
        }
        Ok(Some(read_record(&self.before, alloc)?))
    }

    /// Starts a pass over all records, by name. It goes on as long as nothing is written.
    pub fn start_pass(&mut self) -> Result<(), StoreError>
        ensures passing { OnOk result (IsPassing (S.Store.view self.new.store)) }
        ensures looks { Looks result (state_of self.old) (state_of self.new)
            (λ tables started.
            HasRecordsLeft tables.came (state_of self.new).view (entries tables.records)) }
    {
        start_pass(&mut self.store, RECORDS, &mut self.before)
    }

    /// Writes the row of the next record of a pass over `row`, or answers that none is left.
    pub fn next_record(&mut self, row: &mut Row) -> Result<bool, StoreError>
        requires { IsPassing (S.Store.view self.old.store) }
        ensures passing { OnOk result (IsPassing (S.Store.view self.new.store)) }
        ensures looks { Looks result (state_of self.old) (state_of self.new)
            (λ tables there.
            TakesNext (state_of self.old).view (state_of self.new).view row.new there) }
    {
        next_row(&mut self.store, row)
    }

    /// Posts the first record after that of the key by a day, and makes its name the key; or
    /// answers that there is none.
    fn post_next(&mut self, through: i32) -> Result<bool, StoreError>
        ensures renews { IfOk result (λ more. IsClean (S.Store.view self.new.store)
            → RenewsNext (post_by through) (S.Store.view self.old.store)
            (S.Store.view self.new.store) self.old.key self.new.key more) }
        ensures kept { OnErr result (LeavesCommitted S.Store self.old.store self.new.store) }
        ensures quiet { CommitsNothing S.Store self.old.store self.new.store }
    {
        if !first_past(&mut self.store, RECORDS, &self.key, &mut self.before)? {
            return Ok(false);
        }
        column_key(&mut self.key, &self.before, RECORD_NAME)?;
        if post_row(&mut self.row, &self.before, through)? {
            change_row(&mut self.store, RECORDS, &self.before, &self.row)?;
        }
        Ok(true)
    }

    /// The records that are dated on or before the day are posted as they are charged. A walk that
    /// does not end is an error: `Corrupt`.
    #[tactic(auto, using(crate::proofs::Renewing::renewing_starts))]
    pub fn post_records(&mut self, through: i32) -> Result<(), StoreError>
        ensures does { Does result (state_of self.old) (state_of self.new) Always
            (step.post_rows through) }
    {
        self.key.clear();
        'steps: for _ in 0..MOST_STEPS {
            if !self.post_next(through)? {
                return Ok(());
            }
        }
        // Only a disk that lies has more rows.
        Err(StoreError::Corrupt)
    }

    /// The record of a name, if there is one that is dated on or before the day, is posted as it is
    /// charged. Neither the trees that find it nor its detail say whether it is.
    pub fn post_record(&mut self, name: &[u8], through: i32) -> Result<(), StoreError>
        ensures does { Does result (state_of self.old) (state_of self.new) Always
            (step.post_row through name.now) }
    {
        bytes_key(&mut self.key, name)?;
        if !find_row(&mut self.store, RECORDS, &self.key, &mut self.before)? {
            return Ok(());
        }
        let due = post_row(&mut self.row, &self.before, through)?;
        if !due {
            return Ok(());
        }
        change_row(&mut self.store, RECORDS, &self.before, &self.row)
    }
}
