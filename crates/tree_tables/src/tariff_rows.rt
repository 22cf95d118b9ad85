//! Tariffs by their first days.

ghost use Rattle.std.specs.Prelude.{◌≡◌, OnOk, Some};
ghost use Rattle.tree_tables.specs.Columns.{tariff_columns};

use crate::column_values::{day_at, make_row, text_at};
use crate::columns::{TARIFF_DAY, TARIFF_TEXT};
use crate::keys::day_key;
use crate::tables::TreeTables;
use crate::trees::TARIFFS;
use sqlite_trees::error::StoreError;
use sqlite_trees::store::Store;
use sqlite_value::row::Row;
use sqlite_value::value::ValueRef;
use std::alloc::Global;
use tree_rows::{ReadRow, put_row};

/// A tariff that came as a text: its first day, and the text.
#[derive(Clone, Copy)]
pub struct TariffText<'a> {
    /// Days since 1970-01-01.
    pub day: i32,
    pub body: &'a str,
}

/// A tariff as it was kept: its first day, and its text.
#[derive(Drop)]
pub struct StoredTariff {
    /// Days since 1970-01-01.
    pub day: i32,
    pub body: String,
}

/// Makes the row of a tariff.
fn tariff_row(row: &mut Row, tariff: &TariffText<'_>) -> Result<(), StoreError>
    ensures { OnOk result (row.new ≡ tariff_columns (tariff.now.day, Some tariff.now.body.now)) }
{
    make_row(
        row,
        &[
            ValueRef::Int(i64::from(tariff.day)),
            ValueRef::Text(tariff.body.as_bytes()),
        ],
    )
}

impl ReadRow for StoredTariff {
    ghost use Rattle.std.specs.Prelude.{◌≡◌, string_bytes};
    ghost use Rattle.sqlite_value.specs.Order.{column};
    ghost use Rattle.sqlite_value.specs.declared.value.Value.TheVariants.{Int, Text};

    ghost says = { λ row tariff. (column row 0 ≡ Int tariff.day)
        × (column row 1 ≡ Text (string_bytes tariff.body)) };

    fn read(row: &Row, alloc: Global) -> Result<StoredTariff, StoreError> {
        Ok(StoredTariff {
            day: day_at(row, TARIFF_DAY)?,
            body: text_at(row, TARIFF_TEXT, alloc)?,
        })
    }
}

impl<S: Store> TreeTables<S> {
    ghost use Rattle.table_model.specs.Steps as step;
    ghost use Rattle.tree_tables.specs.Answers.{ListsTariffs};
    ghost use Rattle.tree_tables.specs.States.{state_of};
    ghost use Rattle.tree_tables.specs.Steps.{Always, Does, Looks};
    ghost use Rattle.std.specs.Prelude.{Some};

    /// The text of a tariff is kept under its first day.
    pub fn put_tariff(&mut self, tariff: &TariffText<'_>) -> Result<(), StoreError>
        ensures does { Does result (state_of self.old) (state_of self.new) Always
            (step.put_tariff_row tariff.now.day (Some tariff.now.body.now)) }
    {
        day_key(&mut self.key, tariff.day)?;
        tariff_row(&mut self.row, tariff)?;
        put_row(
            &mut self.store,
            TARIFFS,
            &self.key,
            &self.row,
            &mut self.before,
        )
    }

    /// All tariffs, by their first days.
    pub fn list_tariffs(&mut self, alloc: Global) -> Result<Vec<StoredTariff>, StoreError>
        ensures looks { Looks result (state_of self.old) (state_of self.new)
            (λ tables list. ListsTariffs tables list.items) }
    {
        self.list_all(TARIFFS, alloc)
    }
}
