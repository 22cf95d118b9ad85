//! Numbers of choices, as the rows say that find them by the names of their records.

ghost use Rattle.std.specs.Prelude.{◌≡◌, pos};
ghost use Rattle.sqlite_value.specs.Order.{column};
ghost use Rattle.sqlite_value.specs.declared.value.Value.TheVariants.{Int};

use crate::column_values::number_at;
use crate::columns::CHOSEN_NUMBER;
use sqlite_trees::error::StoreError;
use sqlite_value::row::Row;
use std::alloc::Global;
use tree_rows::ReadRow;

/// The number of a choice, which ends the row that finds it.
#[derive(Clone, Copy, Drop)]
pub(crate) struct ChosenNumber {
    pub(crate) number: u32,
}

impl ReadRow for ChosenNumber {
    ghost says = { λ row found. column row 1 ≡ Int (pos found.number) };

    fn read(row: &Row, _alloc: Global) -> Result<ChosenNumber, StoreError> {
        Ok(ChosenNumber {
            number: number_at(row, CHOSEN_NUMBER)?,
        })
    }
}
