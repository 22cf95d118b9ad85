//! Adjustment lines by period and name.

ghost use Rattle.std.specs.Prelude.{◌≡◌, ◌∷◌, [], ℕ, IfOk, List, OnOk, pos};
ghost use Rattle.sqlite_value.specs.declared.value.Value.TheVariants.{Blob, Int};
ghost use Rattle.book_model.specs.Words.{line_with, record_with};
ghost use Rattle.table_model.specs.Tables.{CameTable, RecordRow};
ghost use Rattle.tree_tables.specs.Columns.{line_columns, record_columns};
ghost use Rattle.tree_tables.specs.Stored.{SaysLine};

use crate::column_values::{hash_at, mark_at};
use crate::columns::{LINE_NAME, LINE_PLUS};
use crate::keys::{bytes_key, number_key, period_key};
use crate::stored_record::{data_of, read_price};
use crate::stored_usage::put_usage;
use crate::tables::TreeTables;
use crate::trees::{LINES, RECORDS};
use book_core::line_with;
use book_model::Line;
use smf_type30::Type30;
use sqlite_trees::error::StoreError;
use sqlite_trees::store::Store;
use sqlite_value::row::Row;
use sqlite_value::value::ValueRef;
use std::alloc::Global;
use tree_rows::{ReadRow, drop_row, find_row, list_run, put_row};

/// Where a line is: its period, and the name of its record.
#[derive(Clone, Copy)]
pub struct LineKey<'a> {
    /// The number of the period, from 1.
    pub period: u16,
    /// The name of the record's data.
    pub name: &'a [u8],
}

/// A line as its row says.
#[derive(Clone, Copy, Drop)]
pub struct StoredLine {
    /// The name of the record.
    pub name: [u8; 32],
    /// It adds the record, or reverses it.
    pub plus: bool,
}

/// The key of a line.
fn line_key(key: &mut Row, spot: &LineKey<'_>) -> Result<(), StoreError>
    ensures made { OnOk result (key.new ≡ Int (pos spot.now.period) ∷ Blob spot.now.name.now ∷ []) }
{
    number_key(key, i64::from(spot.period))?;
    key.push(ValueRef::Blob(spot.name))?;
    Ok(())
}

/// Makes the row of a line.
fn line_row(row: &mut Row, spot: &LineKey<'_>, plus: bool) -> Result<(), StoreError>
    ensures { OnOk result (row.new ≡ line_columns ((spot.now.period, spot.now.name.now), plus)) }
{
    line_key(row, spot)?;
    row.push(ValueRef::Int(i64::from(plus)))?;
    Ok(())
}

/// The line that a stored line makes with the row of its record, which is put together in `bytes`.
fn line_of(row: &Row, bytes: &mut Vec<u8>, stored: &StoredLine) -> Result<Line, StoreError>
    ensures read { IfOk result (λ line. (came : CameTable) (entry : List ℕ × RecordRow)
        → row.now ≡ record_columns came entry → line ≡ line_with stored.now.plus stored.now.name
        (record_with entry.1.data_bytes) entry.1.priced) }
{
    let data = data_of(row)?;
    put_usage(bytes, data)?;
    let priced = read_price(row)?;
    let usage = Type30::of_usage(bytes.as_slice());
    Ok(line_with(stored.plus, &stored.name, &usage, priced))
}

impl ReadRow for StoredLine {
    ghost says = { SaysLine };

    fn read(row: &Row, _alloc: Global) -> Result<StoredLine, StoreError> {
        Ok(StoredLine {
            name: hash_at(row, LINE_NAME)?,
            plus: mark_at(row, LINE_PLUS)?,
        })
    }
}

impl<S: Store> TreeTables<S> {
    ghost use Rattle.table_model.specs.Steps as step;
    ghost use Rattle.tree_tables.specs.Answers.{FindsLine, ListsLines};
    ghost use Rattle.tree_tables.specs.States.{state_of};
    ghost use Rattle.tree_tables.specs.Steps.{Always, Does, Looks};
    ghost use Rattle.table_model.specs.PeriodLists.{line_read};

    /// A line is kept under its period and the name of its record: it adds the record, or reverses
    /// it.
    pub fn put_line(&mut self, spot: &LineKey<'_>, plus: bool) -> Result<(), StoreError>
        ensures does { Does result (state_of self.old) (state_of self.new) Always
            (step.put_line_row spot.now.period spot.now.name.now plus) }
    {
        line_key(&mut self.key, spot)?;
        line_row(&mut self.row, spot, plus)?;
        put_row(
            &mut self.store,
            LINES,
            &self.key,
            &self.row,
            &mut self.before,
        )
    }

    /// A period's line for a record, if there is one, goes.
    pub fn drop_line(&mut self, spot: &LineKey<'_>) -> Result<(), StoreError>
        ensures does { Does result (state_of self.old) (state_of self.new) Always
            (step.drop_line_row spot.now.period spot.now.name.now) }
    {
        line_key(&mut self.key, spot)?;
        drop_row(&mut self.store, LINES, &self.key, &mut self.before)
    }

    /// Whether a period's line for a record, if there is one, adds the record: one look, however
    /// many lines there are.
    pub fn find_line(&mut self, spot: &LineKey<'_>) -> Result<Option<bool>, StoreError>
        ensures looks { Looks result (state_of self.old) (state_of self.new)
            (FindsLine spot.now.period spot.now.name.now) }
    {
        line_key(&mut self.key, spot)?;
        if !find_row(&mut self.store, LINES, &self.key, &mut self.row)? {
            return Ok(None);
        }
        let plus = mark_at(&self.row, LINE_PLUS)?;
        Ok(Some(plus))
    }

    /// The lines of a period, by name.
    pub fn list_lines(&mut self, alloc: Global, period: u16) -> Result<Vec<StoredLine>, StoreError>
        ensures looks { Looks result (state_of self.old) (state_of self.new)
            (λ tables list. ListsLines period tables list.items) }
    {
        period_key(&mut self.key, period)?;
        list_run(&mut self.store, LINES, &self.key, &mut self.row, alloc)
    }

    /// The line that a stored line makes with the record of its name, if there is one: neither the
    /// identity nor the data of the record is copied out of its row.
    pub fn read_line(&mut self, stored: &StoredLine) -> Result<Option<Line>, StoreError>
        ensures looks { Looks result (state_of self.old) (state_of self.new)
            (λ tables line.
            line ≡ line_read tables.records ((0, stored.now.name), stored.now.plus)) }
    {
        bytes_key(&mut self.key, &stored.name)?;
        if !find_row(&mut self.store, RECORDS, &self.key, &mut self.before)? {
            return Ok(None);
        }
        let line = line_of(&self.before, &mut self.scratch.bytes, stored)?;
        Ok(Some(line))
    }
}
