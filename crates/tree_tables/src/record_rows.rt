//! Records by name, and the two trees that find them by identity and by mark.

ghost use Rattle.std.specs.Prelude.{◌≡◌, ◌∷◌, ◌++◌, [], OnErr, OnOk, map, pos, slice_set};
ghost use Rattle.sqlite_trees.specs.View.{IsClean, KeepsSchema};
ghost use Rattle.sqlite_value.specs.Value.{owned};
ghost use Rattle.sqlite_value.specs.declared.value.Value.TheVariants.{Int};
ghost use Rattle.tree_rows.specs.Calls.{CommitsNothing, IsSorted, LeavesCommitted};
ghost use Rattle.tree_rows.specs.Rows.{ChangesRow};
ghost use Rattle.tree_tables.specs.Columns.{came_columns, flag, record_front};
ghost use Rattle.tree_tables.specs.Stored.{new_entry, priced_entry};

use crate::column_values::{make_row, push_number, with_column};
use crate::columns::{RECORD_CHARGED, RECORD_IDENTITY, RECORD_NAME};
use crate::found_names::FoundName;
use crate::keys::{NOT_CHARGED, bytes_key, number_key};
use crate::stored_record::{StoredRecord, read_came, read_record};
use crate::tables::TreeTables;
use crate::trees::{IDENTITIES, MARKS, RECORDS};
use sqlite_trees::error::StoreError;
use sqlite_trees::store::Store;
use sqlite_value::row::Row;
use sqlite_value::value::ValueRef;
use std::alloc::Global;
use tariff_rules::Priced;
use tree_rows::{add_row, change_row, find_row, list_first, list_run};

/// The most records of one identity that are looked at: whether there are two is all that counts.
const MOST_SHARING: usize = 2;

/// A record as its row is written.
#[derive(Clone, Copy)]
pub struct NewRecord<'a> {
    /// The name of the record's data.
    pub name: &'a [u8],
    /// Which work it measures, by the rule of identity in force: 24 bytes or 32.
    pub identity: &'a [u8],
    /// The data after the descriptor.
    pub data_bytes: &'a [u8],
    /// What it costs, and where.
    pub priced: Priced,
    /// It is charged now.
    pub charged: bool,
    /// The last close charged it.
    pub posted: bool,
}

/// What a record used and costs joins its row.
pub(crate) fn push_price(row: &mut Row, priced: &Priced) -> Result<(), StoreError>
    ensures { OnOk result (row.new ≡ row.old ++ Int (pos priced.now.cpu)
        ∷ Int (pos priced.now.excp) ∷ Int (pos priced.now.amount) ∷ []) }
{
    push_number(row, priced.cpu)?;
    push_number(row, priced.excp)?;
    push_number(row, priced.amount)
}

/// A mark as the value of a column.
fn mark_value<'a>(mark: bool) -> ValueRef<'a>
    ensures { owned result ≡ Int (pos (flag mark)) }
{
    ValueRef::Int(i64::from(mark))
}

/// Makes the row of a record, but for the entry by which it came.
fn record_row(row: &mut Row, kept: &NewRecord<'_>) -> Result<(), StoreError>
    ensures { OnOk result (row.new ≡ record_front (new_entry kept.now)) }
{
    make_row(
        row,
        &[
            ValueRef::Blob(kept.name),
            ValueRef::Blob(kept.identity),
            ValueRef::Blob(kept.data_bytes),
            ValueRef::Int(i64::from(kept.priced.day)),
            ValueRef::Text(kept.priced.shift.text().as_bytes()),
            ValueRef::Text(kept.priced.centre.text().as_bytes()),
        ],
    )?;
    push_price(row, &kept.priced)?;
    row.push(mark_value(kept.charged))?;
    row.push(mark_value(kept.posted))?;
    Ok(())
}

/// The number of the entry by which a record came joins its row, if it came by one.
fn push_came(row: &mut Row, came: Option<u64>) -> Result<(), StoreError>
    ensures { OnOk result (row.new ≡ row.old ++ came_columns came) }
{
    match came {
        None => Ok(()),
        Some(number) => push_number(row, number),
    }
}

/// A record that was read, as its row is written where it costs this.
fn with_price<'a>(stored: &'a StoredRecord, priced: &Priced) -> NewRecord<'a>
    ensures { new_entry result ≡ priced_entry stored.now priced.now }
{
    NewRecord {
        name: &stored.name,
        identity: &stored.identity,
        data_bytes: &stored.data_bytes,
        priced: *priced,
        charged: stored.charged,
        posted: stored.posted,
    }
}

/// In the tree of marks, the row of the values `old` makes way for that of `new`. The two rows are
/// made in `from` and `to`.
pub(crate) fn change_mark<S: Store>(
    store: &mut S,
    from: &mut Row,
    to: &mut Row,
    old: &[ValueRef<'_>],
    new: &[ValueRef<'_>],
) -> Result<(), StoreError>
    requires { IsSorted S.Store store.old MARKS }
    ensures done { OnOk result (IsClean (S.Store.view store.new)
        → ChangesRow (S.Store.view store.old) (S.Store.view store.new) MARKS
        (map owned old.now) (map owned new.now)) }
    ensures kept { OnErr result (LeavesCommitted S.Store store.old store.new) }
    ensures schema { KeepsSchema (S.Store.view store.old) (S.Store.view store.new) }
    ensures quiet { CommitsNothing S.Store store.old store.new }
{
    make_row(from, old)?;
    make_row(to, new)?;
    change_row(store, MARKS, from, to)
}

/// Makes the row of a record anew, charged or not.
fn marked_row(row: &mut Row, before: &Row, mark: bool) -> Result<(), StoreError>
    ensures { OnOk result (row.new ≡ slice_set before.now RECORD_CHARGED (Int (pos (flag mark)))) }
{
    with_column(row, before, RECORD_CHARGED, mark_value(mark))
}

impl<S: Store> TreeTables<S> {
    ghost use Rattle.std.specs.Prelude.{false, true};
    ghost use Rattle.table_model.specs.Steps as step;
    ghost use Rattle.tree_tables.specs.Answers.{CountsSharing, FindsRecord, ListsUncharged};
    ghost use Rattle.tree_tables.specs.Answers.{NamesSharing};
    ghost use Rattle.tree_tables.specs.States.{state_of};
    ghost use Rattle.tree_tables.specs.Steps.{Always, Does, Looks};
    ghost use Rattle.tree_tables.specs.Stored.{IsAsRead, IsFree, inserted, new_entry};

    /// The record of a name, if there is one.
    pub fn find_record(
        &mut self,
        alloc: Global,
        name: &[u8],
    ) -> Result<Option<StoredRecord>, StoreError>
        ensures looks { Looks result (state_of self.old) (state_of self.new)
            (FindsRecord name.now) }
    {
        bytes_key(&mut self.key, name)?;
        if !find_row(&mut self.store, RECORDS, &self.key, &mut self.row)? {
            return Ok(None);
        }
        Ok(Some(read_record(&self.row, alloc)?))
    }

    /// The names of the first two of the records that have an identity, in their order: more are
    /// not looked at, however many there are, and no record is read.
    pub fn names_sharing(
        &mut self,
        alloc: Global,
        identity: &[u8],
    ) -> Result<Vec<FoundName>, StoreError>
        ensures looks { Looks result (state_of self.old) (state_of self.new)
            (λ tables names. NamesSharing identity.now tables names.items) }
    {
        bytes_key(&mut self.key, identity)?;
        list_first(
            &mut self.store,
            IDENTITIES,
            &self.key,
            &mut self.row,
            alloc,
            MOST_SHARING,
        )
    }

    /// How many records have an identity, counted to two: no record is read.
    pub fn count_sharing(&mut self, alloc: Global, identity: &[u8]) -> Result<usize, StoreError>
        ensures looks { Looks result (state_of self.old) (state_of self.new)
            (CountsSharing identity.now) }
    {
        let names = self.names_sharing(alloc, identity)?;
        Ok(names.len())
    }

    /// The records that are not charged, by identity, then name.
    pub fn list_uncharged(&mut self, alloc: Global) -> Result<Vec<StoredRecord>, StoreError>
        ensures looks { Looks result (state_of self.old) (state_of self.new)
            (λ tables list. ListsUncharged tables list.items) }
    {
        number_key(&mut self.key, NOT_CHARGED)?;
        let names = list_run(&mut self.store, MARKS, &self.key, &mut self.row, alloc)?;
        self.read_named(alloc, &names)
    }

    /// A new record's row joins the table, with the number of the entry by which it came, if it came
    /// by one, and is found by its identity and by its mark. What is under its name, if anything is,
    /// is not looked at. It is not counted yet.
    pub fn insert_record(
        &mut self,
        kept: &NewRecord<'_>,
        came: Option<u64>,
    ) -> Result<(), StoreError>
        ensures does { Does result (state_of self.old) (state_of self.new)
            (IsFree kept.now.name.now) (inserted (new_entry kept.now) came) }
    {
        record_row(&mut self.row, kept)?;
        push_came(&mut self.row, came)?;
        add_row(&mut self.store, RECORDS, &self.row)?;
        let identity = ValueRef::Blob(kept.identity);
        let name = ValueRef::Blob(kept.name);
        make_row(&mut self.row, &[identity, name])?;
        add_row(&mut self.store, IDENTITIES, &self.row)?;
        make_row(&mut self.row, &[mark_value(kept.charged), identity, name])?;
        add_row(&mut self.store, MARKS, &self.row)
    }

    /// A record that is as it was read costs this from now on, also where details show it. Its
    /// identity and its marks stay, and with them the rows that find it. Its row is looked for, as it
    /// says by which entry the record came.
    pub fn set_price(&mut self, stored: &StoredRecord, priced: &Priced) -> Result<(), StoreError>
        ensures does { Does result (state_of self.old) (state_of self.new) (IsAsRead stored.now)
            (step.put_price_row stored.now.name priced.now) }
    {
        bytes_key(&mut self.key, &stored.name)?;
        if !find_row(&mut self.store, RECORDS, &self.key, &mut self.before)? {
            // Only a disk that lies has lost it since it was read.
            return Err(StoreError::Corrupt);
        }
        record_row(&mut self.row, &with_price(stored, priced))?;
        let came = read_came(&self.before)?;
        push_came(&mut self.row, came)?;
        change_row(&mut self.store, RECORDS, &self.before, &self.row)?;
        self.price_detail(stored, priced)
    }

    /// The record of a name, if there is one, is charged from now on.
    pub fn mark_record(&mut self, name: &[u8]) -> Result<(), StoreError>
        ensures does { Does result (state_of self.old) (state_of self.new) Always
            (step.set_mark_row true name.now) }
    {
        self.set_mark(name, true)
    }

    /// The record of a name, if there is one, is charged no more.
    pub fn unmark_record(&mut self, name: &[u8]) -> Result<(), StoreError>
        ensures does { Does result (state_of self.old) (state_of self.new) Always
            (step.set_mark_row false name.now) }
    {
        self.set_mark(name, false)
    }

    /// The record of a name, if there is one, has this mark, and is found by it.
    fn set_mark(&mut self, name: &[u8], mark: bool) -> Result<(), StoreError>
        ensures does { Does result (state_of self.old) (state_of self.new) Always
            (step.set_mark_row mark name.now) }
    {
        bytes_key(&mut self.key, name)?;
        if !find_row(&mut self.store, RECORDS, &self.key, &mut self.before)? {
            return Ok(());
        }
        marked_row(&mut self.row, &self.before, mark)?;
        change_row(&mut self.store, RECORDS, &self.before, &self.row)?;
        let identity = self.before.get(RECORD_IDENTITY);
        let name = self.before.get(RECORD_NAME);
        change_mark(
            &mut self.store,
            &mut self.key,
            &mut self.row,
            &[self.before.get(RECORD_CHARGED), identity, name],
            &[mark_value(mark), identity, name],
        )
    }
}
