//! Tariffs that were replaced, by their numbers among these.

ghost use Rattle.std.specs.Prelude.{◌≡◌, IfOk, OnOk};
ghost use Rattle.tree_tables.specs.Columns.{replaced_columns};
ghost use Rattle.tree_tables.specs.Stored.{SaysReplaced, replaced_given};

use crate::column_values::{day_at, make_row, number_at, period_at, text_at};
use crate::columns::{REPLACED_DAY, REPLACED_NUMBER, REPLACED_PERIOD, REPLACED_TEXT};
use crate::keys::ruling_key;
use crate::tables::TreeTables;
use crate::trees::REPLACED;
use sqlite_trees::error::StoreError;
use sqlite_trees::store::Store;
use sqlite_value::row::Row;
use sqlite_value::value::ValueRef;
use std::alloc::Global;
use tree_rows::{ReadRow, find_row, last_row, put_row};

/// A tariff that came as a text and is replaced.
#[derive(Clone, Copy)]
pub struct ReplacedText<'a> {
    /// Its first day, in days since 1970-01-01.
    pub day: i32,
    /// The period that is open.
    pub period: u16,
    pub body: &'a str,
}

/// A tariff that was replaced, as its row says.
#[derive(Drop)]
pub struct StoredReplaced {
    /// Its number among the tariffs that were replaced, from 1.
    pub number: u32,
    /// Its first day, in days since 1970-01-01.
    pub day: i32,
    /// The period that was open then.
    pub period: u16,
    pub body: String,
}

/// Makes the row of a tariff that is replaced.
fn replaced_row(row: &mut Row, number: u32, tariff: &ReplacedText<'_>) -> Result<(), StoreError>
    ensures { OnOk result (row.new ≡ replaced_columns (number, replaced_given tariff.now)) }
{
    make_row(
        row,
        &[
            ValueRef::Int(i64::from(number)),
            ValueRef::Int(i64::from(tariff.day)),
            ValueRef::Int(i64::from(tariff.period)),
            ValueRef::Text(tariff.body.as_bytes()),
        ],
    )
}

/// What the row of a tariff that was replaced says.
fn read_replaced(row: &Row, alloc: Global) -> Result<StoredReplaced, StoreError>
    ensures says { IfOk result (SaysReplaced row.now) }
{
    Ok(StoredReplaced {
        number: number_at(row, REPLACED_NUMBER)?,
        day: day_at(row, REPLACED_DAY)?,
        period: period_at(row, REPLACED_PERIOD)?,
        body: text_at(row, REPLACED_TEXT, alloc)?,
    })
}

impl ReadRow for StoredReplaced {
    ghost says = { SaysReplaced };

    fn read(row: &Row, alloc: Global) -> Result<StoredReplaced, StoreError> {
        read_replaced(row, alloc)
    }
}

impl<S: Store> TreeTables<S> {
    ghost use Rattle.std.specs.Prelude.{◌≡◌};
    ghost use Rattle.table_model.specs.Steps as step;
    ghost use Rattle.tree_tables.specs.Answers.{FindsReplaced, ListsReplaced, last_number};
    ghost use Rattle.tree_tables.specs.States.{state_of};
    ghost use Rattle.tree_tables.specs.Steps.{Always, Does, Looks};
    ghost use Rattle.tree_tables.specs.Stored.{replaced_given};

    /// A tariff that is replaced is kept under its number.
    pub fn put_replaced(&mut self, number: u32, tariff: &ReplacedText<'_>) -> Result<(), StoreError>
        ensures does { Does result (state_of self.old) (state_of self.new) Always
            (step.put_replaced_row number (replaced_given tariff.now)) }
    {
        ruling_key(&mut self.key, number)?;
        replaced_row(&mut self.row, number, tariff)?;
        put_row(
            &mut self.store,
            REPLACED,
            &self.key,
            &self.row,
            &mut self.before,
        )
    }

    /// The tariff that was replaced of a number, if there is one: one look, however many there are.
    pub fn find_replaced(
        &mut self,
        alloc: Global,
        number: u32,
    ) -> Result<Option<StoredReplaced>, StoreError>
        ensures looks { Looks result (state_of self.old) (state_of self.new)
            (FindsReplaced number) }
    {
        ruling_key(&mut self.key, number)?;
        if !find_row(&mut self.store, REPLACED, &self.key, &mut self.row)? {
            return Ok(None);
        }
        Ok(Some(read_replaced(&self.row, alloc)?))
    }

    /// All tariffs that were replaced, by their numbers.
    pub fn list_replaced(&mut self, alloc: Global) -> Result<Vec<StoredReplaced>, StoreError>
        ensures looks { Looks result (state_of self.old) (state_of self.new)
            (λ tables list. ListsReplaced tables list.items) }
    {
        self.list_all(REPLACED, alloc)
    }

    /// The number of the last tariff that was replaced, or 0 where there is none: one look at the
    /// end of the tree, however many there are.
    pub fn last_replaced(&mut self) -> Result<u32, StoreError>
        ensures looks { Looks result (state_of self.old) (state_of self.new)
            (λ tables number. number ≡ last_number tables.replaced) }
    {
        if !last_row(&mut self.store, REPLACED, &mut self.row)? {
            return Ok(0);
        }
        number_at(&self.row, REPLACED_NUMBER)
    }
}
