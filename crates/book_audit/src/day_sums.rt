//! The sums of records by their places, against the charge rows.

ghost use Rattle.std.specs.BTreeMap.{values};
ghost use Rattle.std.specs.Prelude.{◌≡◌, IfOk, OnOk, length, true};
ghost use Rattle.tree_tables.specs.Columns.{day_columns};
ghost use Rattle.consistent_tables.specs.DueRows.{due_entry};
ghost use Rattle.book_audit.specs.Days.{AreDueRows, entry_of};
ghost use Rattle.book_audit.specs.Looks.{Looks, Tells};
ghost use Rattle.book_audit.specs.Walks.{AreRising};

use crate::finding::{Place, Tree, Wrong};
use crate::rulings::Rulings;
use crate::stop::{Stop, met, unsound};
use crate::trees::Trees;
use crate::walk::Walk;
use crate::watch::Watch;
use book_core::{empty_row, key_of, row_with};
use book_model::{ChargeRow, RowKey};
use sqlite_trees::error::StoreError;
use sqlite_trees::store::Store;
use sqlite_value::row::Row;
use std::alloc::{AllocError, Global};
use std::collections::BTreeMap;
use tariff_rules::Priced;
use tree_tables::{DayKey, count_at, day_at, name_at, period_at};

/// A charge row with its period.
#[derive(Clone, Copy)]
pub(crate) struct DayRow {
    period: u16,
    sums: ChargeRow,
}

/// The charge rows of records, by their places.
#[derive(Drop)]
pub(crate) struct Places {
    rows: BTreeMap<RowKey, ChargeRow>,
}

impl Places {
    ghost use Rattle.std.specs.Prelude.{◌≡◌, ◌++◌, ◌∷◌, [], IfOk, List, true};
    ghost use Rattle.tariff_rules.specs.declared.priced.Priced.{Priced as Price};
    ghost use Rattle.book_core.specs.KeyedRows.{keyed_rows};

    /// For no records.
    pub(crate) fn new(alloc: Global) -> Places
        ensures { result.rows.entries ≡ keyed_rows [] }
    {
        Places {
            rows: BTreeMap::new(alloc),
        }
    }

    /// A record is counted at its place, or answers that the sums there do not fit 64 bits.
    pub(crate) fn count(&mut self, priced: &Priced) -> Result<bool, AllocError>
        ensures { IfOk result (λ fits. fits ≡ true → (prices : List Price)
            → self.old.rows.entries ≡ keyed_rows prices
            → self.new.rows.entries ≡ keyed_rows (prices ++ priced.now ∷ [])) }
    {
        let place = key_of(priced);
        let row = self.rows.entry(place)?.or_insert(empty_row(place));
        let Some(more) = row_with(row, priced) else {
            return Ok(false);
        };
        *row = more;
        Ok(true)
    }

    /// The rows, in the order of their places.
    fn into_rows(self, alloc: Global) -> Result<Vec<ChargeRow>, AllocError>
        ensures { IfOk result (λ rows. rows.items ≡ values self.rows) }
    {
        self.rows.into_values().collect(alloc)
    }
}

/// What a charge row says.
fn row_in(row: &Row) -> Result<DayRow, StoreError>
    requires { length row.now ≡ 8 }
    ensures read { IfOk result (λ it. row.now ≡ day_columns (entry_of it)) }
{
    Ok(DayRow {
        period: period_at(row, 0)?,
        sums: ChargeRow {
            day: day_at(row, 1)?,
            centre: name_at(row, 2)?,
            shift: name_at(row, 3)?,
            count: count_at(row, 4)?,
            cpu: count_at(row, 5)?,
            blocks: count_at(row, 6)?,
            amount: count_at(row, 7)?,
        },
    })
}

/// The place of a charge row.
fn place_of(row: &DayRow) -> DayKey {
    DayKey {
        period: row.period,
        place: place_in(&row.sums),
    }
}

/// The place of sums.
fn place_in(sums: &ChargeRow) -> RowKey {
    RowKey {
        day: sums.day,
        centre: sums.centre,
        shift: sums.shift,
    }
}

/// What is wrong with a charge row, where another is due, or none: it is not in the period of its
/// day, counts no record, or is not the sum of its records; or there is no row for others.
fn wrong_with(rulings: &Rulings, row: &DayRow, due: Option<&ChargeRow>) -> Stop {
    let spot = place_of(row);
    if row.period != rulings.period_of(row.sums.day) {
        return unsound(Place::Day(spot), Wrong::Period);
    }
    if row.sums.count == 0 {
        return unsound(Place::Day(spot), Wrong::NoCount);
    }
    if let Some(due) = due {
        let place = place_in(due);
        if place < spot.place {
            let period = rulings.period_of(due.day);
            return unsound(Place::Day(DayKey { period, place }), Wrong::NoRow);
        }
    }
    unsound(Place::Day(spot), Wrong::Sums)
}

/// Whether the charge row is this one, in the period of its day.
fn is_due(rulings: &Rulings, row: &DayRow, due: &ChargeRow) -> bool
    ensures { result ≡ true → entry_of row.now ≡ due_entry rulings.now.closes.items due.now }
{
    row.period == rulings.period_of(due.day) && row.sums == *due
}

/// A charge row is the one that is due.
fn check_row(rulings: &Rulings, row: &Row, due: &ChargeRow) -> Result<(), Stop>
    requires { length row.now ≡ 8 }
    ensures { OnOk result (row.now ≡ day_columns (due_entry rulings.now.closes.items due.now)) }
{
    let one = match row_in(row) {
        Ok(one) => one,
        Err(error) => return Err(met(Tree::Days, error)),
    };
    if !is_due(rulings, &one, due) {
        return Err(wrong_with(rulings, &one, Some(due)));
    }
    Ok(())
}

/// What is wrong with a charge row where none is due.
fn wrong_more(rulings: &Rulings, row: &Row) -> Stop
    requires { length row.now ≡ 8 }
{
    match row_in(row) {
        Ok(row) => wrong_with(rulings, &row, None),
        Err(error) => met(Tree::Days, error),
    }
}

/// Reads all charge rows, which must be these, one after the other: the period of a day is no later
/// than that of a later day, so they are in the order of their places.
fn read_rows<S: Store, W: Watch>(
    trees: &mut Trees<S>,
    walk: &mut Walk,
    rulings: &Rulings,
    due: &[ChargeRow],
    watch: &mut W,
) -> Result<(), Stop>
    ensures rows { Tells result trees.old trees.new (λ all _.
        AreDueRows rulings.now.closes.items due.now (all 4) × AreRising Tree.Days (all 4)) }
    ensures looks { Looks result trees.old trees.new }
{
    let tree = Tree::Days;
    walk.begin(tree);
    let mut count = 0u64;
    'rows: for next in due {
        watch.read(tree, count);
        if !walk.next(trees)? {
            let place = place_in(next);
            let period = rulings.period_of(next.day);
            return Err(unsound(Place::Day(DayKey { period, place }), Wrong::NoRow));
        }
        check_row(rulings, walk.row(), next)?;
        count = count.saturating_add(1);
    }
    if walk.next(trees)? {
        return Err(wrong_more(rulings, walk.row()));
    }
    Ok(())
}

/// Reads all charge rows, which must be those of the records that were counted. Returns how many
/// there are.
pub(crate) fn check_rows<S: Store, W: Watch>(
    alloc: Global,
    trees: &mut Trees<S>,
    walk: &mut Walk,
    rulings: &Rulings,
    places: Places,
    watch: &mut W,
) -> Result<u64, Stop>
    ensures rows { Tells result trees.old trees.new (λ all _.
        AreDueRows rulings.now.closes.items (values places.rows) (all 4)
        × AreRising Tree.Days (all 4)) }
    ensures count { IfOk result (λ count. count ≡ length (values places.rows)) }
    ensures looks { Looks result trees.old trees.new }
{
    let due = places.into_rows(alloc)?;
    read_rows(trees, walk, rulings, &due, watch)?;
    Ok(due.len() as u64)
}
