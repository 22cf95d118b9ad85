//! Charge rows by period and place.

ghost use Rattle.std.specs.Prelude.{◌≡◌, ◌==◌, ◌∷◌, ◌+ℤ◌, [], ℕ, IfOk, IsTrue, OnOk, map, pos};
ghost use Rattle.sqlite_value.specs.Order.{column};
ghost use Rattle.sqlite_value.specs.declared.value.Value.TheVariants.{Int};
ghost use Rattle.table_model.specs.TablesOf.{row_key};
ghost use Rattle.tree_tables.specs.Columns.{day_columns, day_key_columns};
ghost use Rattle.tree_tables.specs.Days.{RowFits, SaysDay};

use crate::closed_rows::Close;
use crate::column_values::{count_at, counts_at, day_at, make_row, name_at, push_all};
use crate::columns::{
    CHARGE_CENTRE, CHARGE_COUNT, CHARGE_CPU, CHARGE_DAY, CHARGE_PERIOD, CHARGE_SHIFT,
};
use crate::keys::period_key;
use crate::record_walks::MOST_STEPS;
use crate::tables::TreeTables;
use crate::trees::DAYS;
use book_model::{ChargeRow, RowKey};
use sqlite_trees::error::StoreError;
use sqlite_trees::store::Store;
use sqlite_value::row::Row;
use sqlite_value::value::ValueRef;
use std::alloc::Global;
use tree_rows::{ReadRow, add_row, change_row, find_row, first_from, list_run, remove_row};

/// The first number that signed 64-bit integers do not hold.
const SIGNED_END: u64 = 1 << 63;

/// A charge row of a period.
#[derive(Clone, Copy)]
pub struct DayRow {
    /// The number of the period, from 1.
    pub period: u16,
    pub row: ChargeRow,
}

/// Where a charge row is: its period, and its day, centre and shift.
#[derive(Clone, Copy)]
pub struct DayKey {
    /// The number of the period, from 1.
    pub period: u16,
    pub place: RowKey,
}

/// The place of a charge row.
fn place_in(charge: &ChargeRow) -> RowKey
    ensures { result ≡ row_key charge.now }
{
    RowKey {
        day: charge.day,
        centre: charge.centre,
        shift: charge.shift,
    }
}

/// The key of a charge row.
fn place_key(key: &mut Row, period: u32, place: &RowKey) -> Result<(), StoreError>
    ensures { OnOk result (key.new ≡ day_key_columns (period, place.now)) }
{
    make_row(
        key,
        &[
            ValueRef::Int(i64::from(period)),
            ValueRef::Int(i64::from(place.day)),
            ValueRef::Text(place.centre.text().as_bytes()),
            ValueRef::Text(place.shift.text().as_bytes()),
        ],
    )
}

/// Makes the row of a charge row.
fn day_row(row: &mut Row, period: u32, charge: &ChargeRow) -> Result<(), StoreError>
    requires fits { RowFits charge.now }
    ensures { OnOk result (row.new ≡ day_columns ((period, row_key charge.now), charge.now)) }
{
    place_key(row, period, &place_in(charge))?;
    push_all(
        row,
        &[
            ValueRef::Int(charge.count as i64),
            ValueRef::Int(charge.cpu as i64),
            ValueRef::Int(charge.blocks as i64),
            ValueRef::Int(charge.amount as i64),
        ],
    )
}

/// The sums of a charge row can be stored.
fn can_be_stored(charge: &ChargeRow) -> bool
    ensures { IsTrue result → RowFits charge.now }
{
    charge.count < SIGNED_END
        && charge.cpu < SIGNED_END
        && charge.blocks < SIGNED_END
        && charge.amount < SIGNED_END
}

/// Makes the row of a charge row, if its sums can be stored.
fn stored_row(row: &mut Row, period: u32, charge: &ChargeRow) -> Result<(), StoreError>
    ensures { OnOk result (row.new ≡ day_columns ((period, row_key charge.now), charge.now)) }
{
    if !can_be_stored(charge) {
        return Err(StoreError::Corrupt);
    }
    day_row(row, period, charge)
}

/// The first columns of charge rows of the period that are dated after the day.
fn later_key(key: &mut Row, close: &Close) -> Result<(), StoreError>
    ensures { OnOk result (key.new
        ≡ Int (pos close.now.period) ∷ Int (close.now.through +ℤ pos 1) ∷ []) }
{
    make_row(
        key,
        &[
            ValueRef::Int(i64::from(close.period)),
            ValueRef::Int(i64::from(close.through) + 1),
        ],
    )
}

/// Whether a charge row is one of the period.
fn is_of(row: &Row, period: u16) -> bool
    ensures { (n : ℕ) → column row.now 0 ≡ Int (pos n) → result ≡ (n == period) }
{
    match row.get(CHARGE_PERIOD) {
        ValueRef::Int(n) => n == i64::from(period),
        _ => false,
    }
}

/// What a charge row says.
fn read_day(row: &Row) -> Result<ChargeRow, StoreError>
    ensures says { IfOk result (SaysDay row.now) }
    ensures fits { IfOk result RowFits }
{
    let counts = counts_at(row, CHARGE_CPU)?;
    Ok(ChargeRow {
        day: day_at(row, CHARGE_DAY)?,
        centre: name_at(row, CHARGE_CENTRE)?,
        shift: name_at(row, CHARGE_SHIFT)?,
        count: count_at(row, CHARGE_COUNT)?,
        cpu: counts.cpu,
        blocks: counts.blocks,
        amount: counts.amount,
    })
}

/// A charge row as its row says.
#[derive(Clone, Copy, Drop)]
struct StoredDay {
    charge: ChargeRow,
}

impl ReadRow for StoredDay {
    ghost says = { λ row day. SaysDay row day.charge };

    fn read(row: &Row, alloc: Global) -> Result<StoredDay, StoreError> {
        Ok(StoredDay {
            charge: read_day(row)?,
        })
    }
}

/// The charge rows that were read.
fn charges(days: &[StoredDay], alloc: Global) -> Result<Vec<ChargeRow>, StoreError>
    ensures made { IfOk result (λ list. list.items ≡ map (λ day. day.charge) days.now) }
{
    let mut list = Vec::new(alloc);
    for day in days {
        list.push(day.charge)?;
    }
    Ok(list)
}

impl<S: Store> TreeTables<S> {
    ghost use Rattle.std.specs.Prelude.{◌≡◌, IfOk, OnErr, Some, false};
    ghost use Rattle.sqlite_trees.specs.View.{IsClean};
    ghost use Rattle.tree_rows.specs.Calls.{CommitsNothing, LeavesCommitted};
    ghost use Rattle.table_model.specs.Steps as step;
    ghost use Rattle.tree_tables.specs.Answers.{FindsDay, ListsDays};
    ghost use Rattle.tree_tables.specs.Days.{MovesSome, NoneLater, NoneNext};
    ghost use Rattle.tree_tables.specs.States.{state_of};
    ghost use Rattle.tree_tables.specs.Steps.{Does, Looks};

    /// A period's charge row at a place, if there is one.
    pub fn find_day(&mut self, spot: &DayKey) -> Result<Option<ChargeRow>, StoreError>
        ensures looks { Looks result (state_of self.old) (state_of self.new)
            (FindsDay spot.now.period spot.now.place) }
    {
        place_key(&mut self.key, u32::from(spot.period), &spot.place)?;
        if !find_row(&mut self.store, DAYS, &self.key, &mut self.row)? {
            return Ok(None);
        }
        Ok(Some(read_day(&self.row)?))
    }

    /// The charge rows of a period, by day, then centre, then shift.
    pub fn list_days(&mut self, alloc: Global, period: u16) -> Result<Vec<ChargeRow>, StoreError>
        ensures looks { Looks result (state_of self.old) (state_of self.new)
            (λ tables list. ListsDays period tables list.items) }
    {
        period_key(&mut self.key, period)?;
        let days = list_run(&mut self.store, DAYS, &self.key, &mut self.row, alloc)?;
        charges(&days, alloc)
    }

    /// A charge row is put at its place in the period, if its sums can be stored. What was found
    /// there makes way for it: the place is not looked for again.
    pub fn put_day(&mut self, found: Option<ChargeRow>, day: &DayRow) -> Result<(), StoreError>
        ensures does { Does result (state_of self.old) (state_of self.new)
            (λ tables. FindsDay day.now.period (row_key day.now.row) tables found)
            (step.put_day_row day.now.period day.now.row) }
    {
        let period = u32::from(day.period);
        stored_row(&mut self.row, period, &day.row)?;
        let Some(before) = found else {
            return add_row(&mut self.store, DAYS, &self.row);
        };
        stored_row(&mut self.before, period, &before)?;
        change_row(&mut self.store, DAYS, &self.before, &self.row)
    }

    /// A charge row that was found at its place in the period goes.
    pub fn drop_day(&mut self, day: &DayRow) -> Result<(), StoreError>
        ensures does { Does result (state_of self.old) (state_of self.new)
            (λ tables. FindsDay day.now.period (row_key day.now.row) tables (Some day.now.row))
            (step.drop_day_row day.now.period (row_key day.now.row)) }
    {
        stored_row(&mut self.before, u32::from(day.period), &day.row)?;
        remove_row(&mut self.store, DAYS, &self.before)
    }

    /// The first row of a period that is dated after a day, if there is one, goes to the next
    /// period. Answers whether there was one.
    #[tactic(auto, using(crate::proofs::MoveDays::none_found))]
    fn move_day(&mut self, close: &Close) -> Result<bool, StoreError>
        ensures moved { IfOk result (λ found. IsClean (S.Store.view self.new.store)
            → MovesSome (S.Store.view self.old.store) (S.Store.view self.new.store)
            close.now.period close.now.through) }
        ensures ended { IfOk result (λ found. found ≡ false
            → IsClean (S.Store.view self.new.store)
            → NoneLater (S.Store.view self.new.store).trees close.now.period close.now.through) }
        ensures kept { OnErr result (LeavesCommitted S.Store self.old.store self.new.store) }
        ensures quiet { CommitsNothing S.Store self.old.store self.new.store }
    {
        later_key(&mut self.key, close)?;
        if !first_from(&mut self.store, DAYS, &self.key, &mut self.before)? {
            return Ok(false);
        }
        if !is_of(&self.before, close.period) {
            return Ok(false);
        }
        let charge = read_day(&self.before)?;
        day_row(&mut self.row, u32::from(close.period) + 1, &charge)?;
        change_row(&mut self.store, DAYS, &self.before, &self.row)?;
        Ok(true)
    }

    /// The charge rows of a period that are dated after a day go to the next period.
    pub fn move_days(&mut self, close: &Close) -> Result<(), StoreError>
        ensures does { Does result (state_of self.old) (state_of self.new)
            (NoneNext close.now.period) (step.move_day_rows close.now.period close.now.through) }
    {
        // A disk that lies could find a row again and again, so the steps are counted.
        'rows: for _ in 0..MOST_STEPS {
            if !self.move_day(close)? {
                return Ok(());
            }
        }
        Err(StoreError::Corrupt)
    }
}
