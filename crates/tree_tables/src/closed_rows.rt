//! Closes by their periods.

ghost use Rattle.std.specs.Prelude.{◌≡◌, OnOk};
ghost use Rattle.tree_tables.specs.Columns.{closed_columns};
ghost use Rattle.tree_tables.specs.Stored.{close_entry};

use crate::column_values::{day_at, make_row, period_at};
use crate::columns::{CLOSE_PERIOD, CLOSE_THROUGH};
use crate::keys::period_key;
use crate::tables::TreeTables;
use crate::trees::CLOSES;
use sqlite_trees::error::StoreError;
use sqlite_trees::store::Store;
use sqlite_value::row::Row;
use sqlite_value::value::ValueRef;
use std::alloc::Global;
use tree_rows::{ReadRow, put_row};

/// A close: the period, and the day through which it was closed.
#[derive(Clone, Copy, Drop)]
pub struct Close {
    /// The number of the period, from 1.
    pub period: u16,
    /// Its last day, in days since 1970-01-01.
    pub through: i32,
}

/// Makes the row of a close.
fn close_row(row: &mut Row, close: &Close) -> Result<(), StoreError>
    ensures { OnOk result (row.new ≡ closed_columns (close_entry close.now)) }
{
    make_row(
        row,
        &[
            ValueRef::Int(i64::from(close.period)),
            ValueRef::Int(i64::from(close.through)),
        ],
    )
}

impl ReadRow for Close {
    ghost use Rattle.std.specs.Prelude.{◌≡◌, pos};
    ghost use Rattle.sqlite_value.specs.Order.{column};
    ghost use Rattle.sqlite_value.specs.declared.value.Value.TheVariants.{Int};

    ghost says = { λ row close. (column row 0 ≡ Int (pos close.period))
        × (column row 1 ≡ Int close.through) };

    fn read(row: &Row, _alloc: Global) -> Result<Close, StoreError> {
        Ok(Close {
            period: period_at(row, CLOSE_PERIOD)?,
            through: day_at(row, CLOSE_THROUGH)?,
        })
    }
}

impl<S: Store> TreeTables<S> {
    ghost use Rattle.table_model.specs.Steps as step;
    ghost use Rattle.tree_tables.specs.Answers.{ListsCloses};
    ghost use Rattle.tree_tables.specs.States.{state_of};
    ghost use Rattle.tree_tables.specs.Steps.{Always, Does, Looks};

    /// The day of a close is kept under its period.
    pub fn put_close(&mut self, close: &Close) -> Result<(), StoreError>
        ensures does { Does result (state_of self.old) (state_of self.new) Always
            (step.put_close_row close.now.period close.now.through) }
    {
        period_key(&mut self.key, close.period)?;
        close_row(&mut self.row, close)?;
        put_row(
            &mut self.store,
            CLOSES,
            &self.key,
            &self.row,
            &mut self.before,
        )
    }

    /// All closes, by their periods.
    pub fn list_closes(&mut self, alloc: Global) -> Result<Vec<Close>, StoreError>
        ensures looks { Looks result (state_of self.old) (state_of self.new)
            (λ tables list. ListsCloses tables list.items) }
    {
        self.list_all(CLOSES, alloc)
    }
}
