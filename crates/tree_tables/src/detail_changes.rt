//! The records that are counted, where one joins them or leaves them, or costs something else.

ghost use Rattle.std.specs.Prelude.{◌≡◌, OnErr, OnOk};
ghost use Rattle.smf_frames.specs.Framed as framed;
ghost use Rattle.sqlite_trees.specs.View.{IsClean, KeepsSchema};
ghost use Rattle.table_model.specs.Steps as step;
ghost use Rattle.tree_rows.specs.Calls.{CommitsNothing, IsSorted, LeavesCommitted};
ghost use Rattle.tree_tables.specs.Details.{MakesDetail, PricesDetail};
ghost use Rattle.tree_tables.specs.States.{state, state_of};
ghost use Rattle.tree_tables.specs.Steps.{Always, Does, Looks};
ghost use Rattle.tree_tables.specs.Stored.{IsUncounted, new_entry};

use crate::detail_rows::detail_row;
use crate::keys::bytes_key;
use crate::record_rows::NewRecord;
use crate::stored_record::{StoredRecord, data_of, read_price};
use crate::stored_usage::{put_data, usage_in};
use crate::tables::TreeTables;
use crate::trees::{DETAILS, RECORDS};
use smf_type30::Type30;
use sqlite_trees::error::StoreError;
use sqlite_trees::store::Store;
use sqlite_value::row::Row;
use std::alloc::Global;
use tariff_rules::Priced;
use tree_rows::{add_row, drop_row, find_row, put_row, replace_row};

/// The rows and the bytes that a row of details is made with.
#[derive(Drop)]
pub struct DetailScratch {
    /// The name of the record.
    key: Row,
    /// The row that was found.
    before: Row,
    /// The row that is made.
    row: Row,
    /// The record, of which its fields are read.
    pub(crate) bytes: Vec<u8>,
}

impl DetailScratch {
    /// Nothing yet.
    pub fn new(alloc: Global) -> DetailScratch {
        DetailScratch {
            key: Row::new(alloc),
            before: Row::new(alloc),
            row: Row::new(alloc),
            bytes: Vec::new(alloc),
        }
    }
}

/// Makes the row that details have of the record of a name, if there is one.
fn make_detail<S: Store>(
    store: &mut S,
    scratch: &mut DetailScratch,
    name: &[u8],
) -> Result<bool, StoreError>
    requires { IsSorted S.Store store.old RECORDS }
    ensures looks { Looks result (state S.Store store.old) (state S.Store store.new)
        (λ tables there. MakesDetail name.now tables scratch.new.row there) }
    ensures schema { KeepsSchema (S.Store.view store.old) (S.Store.view store.new) }
{
    bytes_key(&mut scratch.key, name)?;
    if !find_row(store, RECORDS, &scratch.key, &mut scratch.before)? {
        return Ok(false);
    }
    put_data(&mut scratch.bytes, data_of(&scratch.before)?)?;
    let priced = read_price(&scratch.before)?;
    let usage = usage_in(&scratch.bytes)?;
    detail_row(&mut scratch.row, name, &priced, &usage)?;
    Ok(true)
}

/// The record of a name, if there is one, is counted from now on.
pub fn count_in<S: Store>(
    store: &mut S,
    scratch: &mut DetailScratch,
    name: &[u8],
) -> Result<(), StoreError>
    requires records { IsSorted S.Store store.old RECORDS }
    requires details { IsSorted S.Store store.old DETAILS }
    ensures does { Does result (state S.Store store.old) (state S.Store store.new)
        Always (step.count_row name.now) }
    ensures schema { KeepsSchema (S.Store.view store.old) (S.Store.view store.new) }
{
    if !make_detail(store, scratch, name)? {
        return Ok(());
    }
    // The row is its own key in its tree.
    put_row(
        store,
        DETAILS,
        &scratch.row,
        &scratch.row,
        &mut scratch.before,
    )
}

impl<S: Store> TreeTables<S> {
    /// A record that was just written, and is not counted yet, is counted from now on: its row is
    /// not looked for. The fields that are given are those of its data.
    pub fn count_new(&mut self, kept: &NewRecord<'_>, usage: &Type30<'_>) -> Result<(), StoreError>
        requires same { usage.now ≡ framed.record_with kept.now.data_bytes.now }
        ensures does { Does result (state_of self.old) (state_of self.new)
            (IsUncounted (new_entry kept.now)) (step.count_row (new_entry kept.now).0) }
    {
        detail_row(&mut self.row, kept.name, &kept.priced, usage)?;
        add_row(&mut self.store, DETAILS, &self.row)
    }

    /// The record of a name, if there is one, is counted from now on.
    pub fn count_record(&mut self, name: &[u8]) -> Result<(), StoreError>
        ensures does { Does result (state_of self.old) (state_of self.new) Always
            (step.count_row name.now) }
    {
        count_in(&mut self.store, &mut self.scratch, name)
    }

    /// The record of a name, if there is one, is counted no more.
    pub fn uncount_record(&mut self, name: &[u8]) -> Result<(), StoreError>
        ensures does { Does result (state_of self.old) (state_of self.new) Always
            (step.uncount_row name.now) }
    {
        if !make_detail(&mut self.store, &mut self.scratch, name)? {
            return Ok(());
        }
        drop_row(
            &mut self.store,
            DETAILS,
            &self.scratch.row,
            &mut self.scratch.before,
        )
    }

    /// Where a record that was read is counted, details show that it costs this.
    pub(crate) fn price_detail(
        &mut self,
        stored: &StoredRecord,
        priced: &Priced,
    ) -> Result<(), StoreError>
        ensures replaces { OnOk result (IsClean (S.Store.view self.new.store)
            → PricesDetail (S.Store.view self.old.store) (S.Store.view self.new.store)
            stored.now priced.now) }
        ensures kept { OnErr result (LeavesCommitted S.Store self.old.store self.new.store) }
        ensures quiet { CommitsNothing S.Store self.old.store self.new.store }
    {
        put_data(&mut self.scratch.bytes, &stored.data_bytes)?;
        let usage = usage_in(&self.scratch.bytes)?;
        detail_row(&mut self.before, &stored.name, &stored.priced, &usage)?;
        detail_row(&mut self.row, &stored.name, priced, &usage)?;
        replace_row(
            &mut self.store,
            DETAILS,
            &self.before,
            &self.row,
            &mut self.key,
        )
    }
}
