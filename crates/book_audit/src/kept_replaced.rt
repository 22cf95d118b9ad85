//! The tariffs that were replaced, one after the other.

ghost use Rattle.std.specs.Prelude.{◌≡◌, IfOk, length};
ghost use Rattle.tree_tables.specs.Columns.{replaced_columns};
ghost use Rattle.tree_tables.specs.Stored.{replaced_entry};
ghost use Rattle.book_audit.specs.KeptRulings.{AreReplaced, IsReplacedRow};
ghost use Rattle.book_audit.specs.Looks.{Looks, Tells};

use crate::finding::{Place, Tree, Wrong};
use crate::rulings::parsed;
use crate::stop::{Stop, met, unsound};
use crate::trees::Trees;
use crate::walk::{MOST_ROWS, Walk, endless};
use sqlite_trees::error::StoreError;
use sqlite_trees::store::Store;
use sqlite_value::row::Row;
use std::alloc::Global;
use tree_tables::{StoredReplaced, StoredTariff, day_at, number_at, period_at, text_at};

/// The most tariffs that were replaced.
const MAX_REPLACED: u32 = 10_000;

/// What the row of a replaced tariff says.
fn replaced_in(alloc: Global, row: &Row) -> Result<StoredReplaced, StoreError>
    requires { length row.now ≡ 4 }
    ensures read { IfOk result (λ tariff. row.now ≡ replaced_columns (replaced_entry tariff)) }
{
    Ok(StoredReplaced {
        number: number_at(row, 0)?,
        day: day_at(row, 1)?,
        period: period_at(row, 2)?,
        body: text_at(row, 3, alloc)?,
    })
}

/// The row is that of the next replaced tariff after so many.
fn check_replaced(alloc: Global, row: &Row, count: u32, open_period: u16) -> Result<(), Stop>
    requires { length row.now ≡ 4 }
    ensures { IfOk result (λ done. IsReplacedRow count open_period row.now) }
{
    let tariff = match replaced_in(alloc, row) {
        Ok(tariff) => tariff,
        Err(error) => return Err(met(Tree::Replaced, error)),
    };
    let place = Place::Replaced(tariff.number);
    if count >= MAX_REPLACED {
        return Err(unsound(Place::Tree(Tree::Replaced), Wrong::Rulings));
    }
    if tariff.number != count + 1 {
        return Err(unsound(place, Wrong::ChoiceNumber));
    }
    if tariff.period == 0 || open_period < tariff.period {
        return Err(unsound(place, Wrong::Begun));
    }
    let stored = StoredTariff {
        day: tariff.day,
        body: tariff.body,
    };
    parsed(alloc, place, &stored)?;
    Ok(())
}

/// Reads all tariffs that were replaced, each in the open period or before it.
pub(crate) fn read_replaced<S: Store>(
    alloc: Global,
    trees: &mut Trees<S>,
    walk: &mut Walk,
    open_period: u16,
) -> Result<(), Stop>
    ensures replaced { Tells result trees.old trees.new (λ all done.
        AreReplaced open_period (all 12)) }
    ensures looks { Looks result trees.old trees.new }
{
    walk.begin(Tree::Replaced);
    let mut count = 0u32;
    'tariffs: for _steps in 0..MOST_ROWS {
        if !walk.next(trees)? {
            return Ok(());
        }
        check_replaced(alloc, walk.row(), count, open_period)?;
        count += 1;
    }
    Err(endless())
}
