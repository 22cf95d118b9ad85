//! Records that a tariff is for, and their new prices: one at a time, in walks over those that are
//! dated on its first day or later, as details show them, and those that are not charged; where
//! they are many, over all records by name.

ghost use Rattle.std.specs.Prelude.{◌≡◌, ◌≤◌, ◌+◌, IfOk, IfSome, IsTrue, Some};
ghost use Rattle.book_core.specs.declared.effects.DayChange.TheVariants.{Add, Take};
ghost use Rattle.book_core.specs.Room.{if_room};
ghost use Rattle.book_model.specs.Words.{most_cost};
ghost use Rattle.table_model.specs.Steps as step;
ghost use Rattle.table_model.specs.TableChanges as change;
ghost use Rattle.tree_tables.specs.LateRecords.{FindsLate};
ghost use Rattle.tree_tables.specs.States.{state_of};
ghost use Rattle.tree_tables.specs.Steps.{Always, Does, Looks};
ghost use Rattle.tree_tables.specs.Stored.{IsAsRead, stored_entry};
ghost use Rattle.table_ledger.specs.Repricing.{CanBeRepriced, CanBeSummed, CanCost, CostUnder};
ghost use Rattle.table_ledger.specs.Repricing.{TakesTariff, tariff_price};

use crate::day_write::{add_price, replace_price, take_price};
use book_core::{MAX_COST, key_of};
use smf_type30::Type30;
use sqlite_trees::error::StoreError;
use sqlite_trees::store::Store;
use std::alloc::Global;
use tariff_rules::{Priced, Tariff, price};
use tree_tables::{LateRecord, MOST_STEPS, StoredRecord, TreeTables, usage_bytes};

/// What a record costs by a tariff, if it is dated on the first day or later.
fn new_price(
    alloc: Global,
    tariff: &Tariff,
    stored: &StoredRecord,
) -> Result<Option<Priced>, StoreError>
    ensures price { IfOk result (λ priced.
        priced ≡ tariff_price tariff.now (stored_entry stored.now).1) }
    ensures can { IfOk result (λ priced. CanCost tariff.now (stored_entry stored.now).1) }
{
    if stored.priced.day < tariff.effective() {
        return Ok(None);
    }
    let bytes = usage_bytes(alloc, &stored.data_bytes)?;
    Ok(Some(price(tariff, &Type30::of_usage(&bytes))))
}

/// What a record costs under a tariff, whether or not the tariff is for it.
fn amount_under(alloc: Global, tariff: &Tariff, stored: &StoredRecord) -> Result<u64, StoreError>
    ensures amount { IfOk result (λ amount.
        amount ≡ change.amount_under tariff.now (stored_entry stored.now).1) }
    ensures can { IfOk result (λ amount. CanCost tariff.now (stored_entry stored.now).1) }
{
    match new_price(alloc, tariff, stored)? {
        None => Ok(stored.priced.amount),
        Some(priced) => Ok(priced.amount),
    }
}

/// The next record of a walk over those that a tariff may be for, after the one that it has come
/// to, or the first of all.
fn next_late<S: Store>(
    tables: &mut TreeTables<S>,
    alloc: Global,
    tariff: &Tariff,
    last: &Option<LateRecord>,
) -> Result<Option<LateRecord>, StoreError>
    ensures looks { Looks result (state_of tables.old) (state_of tables.new)
        (FindsLate tariff.now.effective last.now) }
{
    tables.next_late(alloc, tariff.effective(), last)
}

/// Two costs together, if the books can hold as much.
pub(crate) fn cost_together(one: u64, other: u64) -> Option<u64>
    ensures sum { result ≡ if_room (one + other) }
    ensures small { IfSome result (λ cost. cost ≤ most_cost) }
{
    let Some(cost) = one.checked_add(other) else {
        return None;
    };
    if cost > MAX_COST {
        return None;
    }
    Some(cost)
}

/// What all records cost together under a tariff, if the books can hold as much: what they cost
/// now, without the old prices of those that it may be for, and with their new ones. No others are
/// looked at.
fn cost_of_late<S: Store>(
    tables: &mut TreeTables<S>,
    alloc: Global,
    tariff: &Tariff,
    total: u64,
) -> Result<Option<u64>, StoreError>
    ensures looks { Looks result (state_of tables.old) (state_of tables.new)
        (λ tables found. CanBeSummed tariff.now total tables → CostUnder tariff.now tables found) }
    ensures small { IfOk result (λ found. IfSome found (λ cost. cost ≤ most_cost)) }
{
    let mut rest = total;
    let mut cost = 0u64;
    let mut last = None;
    'records: for _ in 0..MOST_STEPS {
        let Some(late) = next_late(tables, alloc, tariff, &last)? else {
            return Ok(cost_together(rest, cost));
        };
        let Some(less) = rest.checked_sub(late.stored.priced.amount) else {
            // Only on a disk that lies do some cost more than all.
            return Err(StoreError::Corrupt);
        };
        let amount = amount_under(alloc, tariff, &late.stored)?;
        // It ends at the first excess: 64 bits need not hold what all of them cost.
        let Some(more) = cost_together(cost, amount) else {
            return Ok(None);
        };
        rest = less;
        cost = more;
        last = Some(late);
    }
    // Only a disk that lies has more rows.
    Err(StoreError::Corrupt)
}

/// What all records cost together under a tariff, if the books can hold as much, in a walk over
/// them by name.
fn cost_by_name<S: Store>(
    tables: &mut TreeTables<S>,
    alloc: Global,
    tariff: &Tariff,
) -> Result<Option<u64>, StoreError>
    ensures looks { Looks result (state_of tables.old) (state_of tables.new)
        (CostUnder tariff.now) }
    ensures small { IfOk result (λ found. IfSome found (λ cost. cost ≤ most_cost)) }
{
    let mut cost = 0u64;
    let mut last = None;
    'records: for _ in 0..MOST_STEPS {
        let Some(stored) = tables.find_next(alloc, last)? else {
            return Ok(Some(cost));
        };
        let amount = amount_under(alloc, tariff, &stored)?;
        let Some(more) = cost_together(cost, amount) else {
            return Ok(None);
        };
        cost = more;
        last = Some(stored.name);
    }
    // Only a disk that lies has more rows.
    Err(StoreError::Corrupt)
}

/// What all records cost together under a tariff, if the books can hold as much.
pub(crate) fn cost_under<S: Store>(
    tables: &mut TreeTables<S>,
    alloc: Global,
    tariff: &Tariff,
    total: u64,
    many: bool,
) -> Result<Option<u64>, StoreError>
    ensures looks { Looks result (state_of tables.old) (state_of tables.new)
        (λ tables found. CanBeSummed tariff.now total tables → CostUnder tariff.now tables found) }
    ensures small { IfOk result (λ found. IfSome found (λ cost. cost ≤ most_cost)) }
{
    if many {
        return cost_by_name(tables, alloc, tariff);
    }
    cost_of_late(tables, alloc, tariff, total)
}

/// A price replaces another in the charge rows of a period: the old one leaves its row, and the new
/// one joins its own. If both have one row, that is read and written once.
fn change_price<S: Store>(
    tables: &mut TreeTables<S>,
    period: u16,
    old: &Priced,
    new: &Priced,
) -> Result<(), StoreError>
    ensures does { Does result (state_of tables.old) (state_of tables.new) Always
        (λ tables. step.change_day_row period (Some (Add new.now))
        (step.change_day_row period (Some (Take old.now)) tables)) }
{
    if key_of(old) == key_of(new) {
        return replace_price(tables, period, old, new);
    }
    take_price(tables, period, old)?;
    add_price(tables, period, new)
}

/// Changes the price of a record; if it is charged, the charge rows of the open period too.
pub(crate) fn set_price<S: Store>(
    tables: &mut TreeTables<S>,
    period: u16,
    stored: &StoredRecord,
    priced: &Priced,
) -> Result<(), StoreError>
    ensures does { Does result (state_of tables.old) (state_of tables.new) (IsAsRead stored.now)
        (change.reprice period stored.now.name (stored_entry stored.now).1 priced.now) }
{
    tables.set_price(stored, priced)?;
    if !stored.charged {
        return Ok(());
    }
    change_price(tables, period, &stored.priced, priced)
}

/// The record costs this already.
fn stands(stored: &StoredRecord, priced: &Priced) -> bool
    ensures same { IsTrue result → stored.now.priced ≡ priced.now }
{
    stored.priced == *priced
}

/// Sets the price of a record that a tariff is for to what the tariff says. A walk may meet one
/// again that it has priced: then nothing is written.
fn reprice<S: Store>(
    tables: &mut TreeTables<S>,
    alloc: Global,
    period: u16,
    tariff: &Tariff,
    stored: &StoredRecord,
) -> Result<(), StoreError>
    ensures does { Does result (state_of tables.old) (state_of tables.new)
        (CanBeRepriced period tariff.now stored.now)
        (change.reprice_step period tariff.now stored.now.name) }
{
    let Some(priced) = new_price(alloc, tariff, stored)? else {
        return Ok(());
    };
    if stands(stored, &priced) {
        return Ok(());
    }
    set_price(tables, period, stored, &priced)
}

/// Sets the price of each record that a tariff is for to what the tariff says, in a walk over those
/// that it may be for.
fn reprice_late<S: Store>(
    tables: &mut TreeTables<S>,
    alloc: Global,
    period: u16,
    tariff: &Tariff,
) -> Result<(), StoreError>
    ensures does { Does result (state_of tables.old) (state_of tables.new)
        (TakesTariff period tariff.now) (change.reprice_each period tariff.now) }
{
    let mut last = None;
    'records: for _ in 0..MOST_STEPS {
        let Some(late) = next_late(tables, alloc, tariff, &last)? else {
            return Ok(());
        };
        reprice(tables, alloc, period, tariff, &late.stored)?;
        last = Some(late);
    }
    // Only a disk that lies has more rows.
    Err(StoreError::Corrupt)
}

/// Sets the price of a record that a tariff is for to what the tariff says.
fn reprice_once<S: Store>(
    tables: &mut TreeTables<S>,
    alloc: Global,
    period: u16,
    tariff: &Tariff,
    stored: &StoredRecord,
) -> Result<(), StoreError>
    ensures does { Does result (state_of tables.old) (state_of tables.new) (IsAsRead stored.now)
        (change.reprice_step period tariff.now stored.now.name) }
{
    let Some(priced) = new_price(alloc, tariff, stored)? else {
        return Ok(());
    };
    set_price(tables, period, stored, &priced)
}

/// Sets the price of each record that a tariff is for to what the tariff says, in a walk over all
/// by name, which meets each once.
fn reprice_by_name<S: Store>(
    tables: &mut TreeTables<S>,
    alloc: Global,
    period: u16,
    tariff: &Tariff,
) -> Result<(), StoreError>
    ensures does { Does result (state_of tables.old) (state_of tables.new) Always
        (change.reprice_each period tariff.now) }
{
    let mut last = None;
    'records: for _ in 0..MOST_STEPS {
        let Some(stored) = tables.find_next(alloc, last)? else {
            return Ok(());
        };
        reprice_once(tables, alloc, period, tariff, &stored)?;
        last = Some(stored.name);
    }
    // Only a disk that lies has more rows.
    Err(StoreError::Corrupt)
}

/// Sets the price of each record that a tariff is for to what the tariff says.
pub(crate) fn reprice_all<S: Store>(
    tables: &mut TreeTables<S>,
    alloc: Global,
    period: u16,
    tariff: &Tariff,
    many: bool,
) -> Result<(), StoreError>
    ensures does { Does result (state_of tables.old) (state_of tables.new)
        (TakesTariff period tariff.now) (change.reprice_each period tariff.now) }
{
    if many {
        return reprice_by_name(tables, alloc, period, tariff);
    }
    reprice_late(tables, alloc, period, tariff)
}
