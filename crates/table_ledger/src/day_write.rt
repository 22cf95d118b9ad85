//! How prices join the charge rows of a period, and how they leave them.

ghost use Rattle.std.specs.Prelude.{◌≡◌, ◌==◌, [], if◌then◌else◌, IfSome, None, Some};
ghost use Rattle.std.specs.Option.{option_map_or};
ghost use Rattle.book_core.specs.KeyedRows.{with_price};
ghost use Rattle.book_core.specs.declared.effects.DayChange.TheVariants.{Add, Take};
ghost use Rattle.book_model.specs.Rows as rows;
ghost use Rattle.table_model.specs.RowChanges as changed;
ghost use Rattle.table_model.specs.Steps as step;
ghost use Rattle.table_model.specs.TablesOf.{row_key};
ghost use Rattle.tree_tables.specs.Answers.{FindsDay};
ghost use Rattle.tree_tables.specs.States.{state_of};
ghost use Rattle.tree_tables.specs.Steps.{Always, Does};
ghost use Rattle.table_ledger.specs.TotalsFit.{FitsPrice};

use book_core::{ChargeRow, DayChange, empty_row, key_of, row_with};
use sqlite_trees::error::StoreError;
use sqlite_trees::store::Store;
use tariff_rules::Priced;
use tree_tables::{DayKey, DayRow, TreeTables};

/// The row of a price that is alone at its place.
pub(crate) fn first_row(priced: &Priced) -> ChargeRow
    ensures { result ≡ with_price (rows.row_at [] (rows.key_of priced.now)) priced.now }
{
    ChargeRow {
        day: priced.day,
        centre: priced.centre,
        shift: priced.shift,
        count: 1,
        cpu: priced.cpu,
        blocks: priced.excp,
        amount: priced.amount,
    }
}

/// A price joins a row, if 64 bits hold its sums. If they do not, the row is of no use any more.
pub(crate) fn join_price(row: &mut ChargeRow, priced: &Priced) -> Option<()>
    ensures more { IfSome result (λ done. row.new ≡ with_price row.old priced.now) }
    ensures full { result ≡ None → ¬ FitsPrice row.old priced.now }
{
    row.count = row.count.checked_add(1)?;
    row.cpu = row.cpu.checked_add(priced.cpu)?;
    row.blocks = row.blocks.checked_add(priced.excp)?;
    row.amount = row.amount.checked_add(priced.amount)?;
    Some(())
}

/// The row with one price less.
fn less_price(row: &ChargeRow, priced: &Priced) -> ChargeRow
    ensures { result ≡ changed.less_price row.now priced.now }
{
    ChargeRow {
        day: row.day,
        centre: row.centre,
        shift: row.shift,
        count: row.count.saturating_sub(1),
        cpu: row.cpu.saturating_sub(priced.cpu),
        blocks: row.blocks.saturating_sub(priced.excp),
        amount: row.amount.saturating_sub(priced.amount),
    }
}

/// What a price leaves of the row of its place, if there is one: an empty row, if it is the last.
fn rest_of(found: Option<ChargeRow>, priced: &Priced) -> ChargeRow
    ensures { result ≡ option_map_or (λ row. if row.count == 1
        then rows.row_at [] (rows.key_of priced.now) else changed.less_price row priced.now)
        found (rows.row_at [] (rows.key_of priced.now)) }
{
    match &found {
        None => empty_row(key_of(priced)),
        Some(row) if row.count == 1 => empty_row(key_of(priced)),
        Some(row) => less_price(row, priced),
    }
}

/// Writes a row with one more price, if its numbers can be stored, at the place where this was
/// found.
fn put_with<S: Store>(
    tables: &mut TreeTables<S>,
    period: u16,
    found: Option<ChargeRow>,
    row: &ChargeRow,
    priced: &Priced,
) -> Result<(), StoreError>
    ensures does { Does result (state_of tables.old) (state_of tables.new)
        (λ tables. FindsDay period (row_key row.now) tables found)
        (step.put_day_row period (with_price row.now priced.now)) }
{
    let Some(more) = row_with(row, priced) else {
        return Err(StoreError::Corrupt);
    };
    tables.put_day(found, &DayRow { period, row: more })
}

/// A price joins the row of its place; if there is none, it makes one.
pub(crate) fn add_price<S: Store>(
    tables: &mut TreeTables<S>,
    period: u16,
    priced: &Priced,
) -> Result<(), StoreError>
    ensures does { Does result (state_of tables.old) (state_of tables.new) Always
        (step.change_day_row period (Some (Add priced.now))) }
{
    let place = key_of(priced);
    let found = tables.find_day(&DayKey { period, place })?;
    let before = found;
    let row = found.unwrap_or(empty_row(key_of(priced)));
    put_with(tables, period, before, &row, priced)
}

/// A price leaves the row of its place; its last price deletes it.
pub(crate) fn take_price<S: Store>(
    tables: &mut TreeTables<S>,
    period: u16,
    priced: &Priced,
) -> Result<(), StoreError>
    ensures does { Does result (state_of tables.old) (state_of tables.new) Always
        (step.change_day_row period (Some (Take priced.now))) }
{
    let place = key_of(priced);
    let Some(row) = tables.find_day(&DayKey { period, place })? else {
        return Ok(());
    };
    if row.count == 1 {
        return tables.drop_day(&DayRow { period, row });
    }
    let less = less_price(&row, priced);
    tables.put_day(Some(row), &DayRow { period, row: less })
}

/// A price leaves the row of its place, and another one joins it: the row is read and written once.
pub(crate) fn replace_price<S: Store>(
    tables: &mut TreeTables<S>,
    period: u16,
    old: &Priced,
    new: &Priced,
) -> Result<(), StoreError>
    requires { rows.key_of old.now ≡ rows.key_of new.now }
    ensures does { Does result (state_of tables.old) (state_of tables.new) Always
        (λ tables. step.change_day_row period (Some (Add new.now))
        (step.change_day_row period (Some (Take old.now)) tables)) }
{
    let place = key_of(old);
    let found = tables.find_day(&DayKey { period, place })?;
    let before = found;
    put_with(tables, period, before, &rest_of(found, old), new)
}

/// A price joins the charge rows of a period, or leaves them.
pub(crate) fn change_day<S: Store>(
    tables: &mut TreeTables<S>,
    period: u16,
    change: &Option<DayChange>,
) -> Result<(), StoreError>
    ensures does { Does result (state_of tables.old) (state_of tables.new) Always
        (step.change_day_row period change.now) }
{
    match change {
        None => Ok(()),
        Some(DayChange::Add(priced)) => add_price(tables, period, priced),
        Some(DayChange::Take(priced)) => take_price(tables, period, priced),
    }
}
