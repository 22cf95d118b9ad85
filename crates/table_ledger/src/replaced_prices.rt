//! Records whose day has a tariff that another text takes the place of, and their new prices: one
//! at a time, in walks over all records by name.

ghost use Rattle.std.specs.Prelude.{◌≡◌, ◌≤◌, IfOk, IfSome, find, option_copied, reverse, true};
ghost use Rattle.book_model.specs.Rulings as ruling;
ghost use Rattle.book_model.specs.Words.{are_rising, has_begun, most_cost};
ghost use Rattle.table_model.specs.TableChanges as change;
ghost use Rattle.tree_tables.specs.States.{state_of};
ghost use Rattle.tree_tables.specs.Steps.{Always, Does, Looks};
ghost use Rattle.tree_tables.specs.Stored.{IsAsRead, stored_entry};
ghost use Rattle.table_ledger.specs.Replacing.{CanCostInPlace, CostInPlace, price_in_place};

use crate::repricing::{cost_together, set_price};
use book_core::AcceptedTariff;
use smf_type30::Type30;
use sqlite_trees::error::StoreError;
use sqlite_trees::store::Store;
use std::alloc::Global;
use tariff_rules::{Priced, Tariff, price};
use tree_tables::{MOST_STEPS, StoredRecord, TreeTables, usage_bytes};

/// The last of the tariffs that has begun on the day of a record.
fn last_begun<'a>(
    tariffs: &'a [AcceptedTariff],
    stored: &StoredRecord,
) -> Option<&'a AcceptedTariff>
    ensures { option_copied result
        ≡ find (has_begun stored.now.priced.day) (reverse tariffs.now) }
{
    tariffs.iter().rev().find(|accepted| !(stored.priced.day < accepted.tariff.effective()))
}

/// Of the tariffs the one that begins on the first day of another is in force on the day of a
/// record.
fn is_under(tariffs: &[AcceptedTariff], tariff: &Tariff, stored: &StoredRecord) -> bool
    requires { are_rising tariffs.now ≡ true }
    ensures { result ≡ ruling.is_under tariffs.now tariff.now stored.now.priced.day }
{
    match last_begun(tariffs, stored) {
        Some(accepted) => accepted.has_day_of(tariff),
        None => false,
    }
}

/// What a record costs where a tariff takes the place of that one, if its day has that.
fn new_price(
    alloc: Global,
    tariffs: &[AcceptedTariff],
    tariff: &Tariff,
    stored: &StoredRecord,
) -> Result<Option<Priced>, StoreError>
    requires { are_rising tariffs.now ≡ true }
    ensures price { IfOk result (λ priced.
        priced ≡ price_in_place tariffs.now tariff.now (stored_entry stored.now).1) }
    ensures can { IfOk result (λ priced.
        CanCostInPlace tariffs.now tariff.now (stored_entry stored.now).1) }
{
    if !is_under(tariffs, tariff, stored) {
        return Ok(None);
    }
    let bytes = usage_bytes(alloc, &stored.data_bytes)?;
    Ok(Some(price(tariff, &Type30::of_usage(&bytes))))
}

/// What a record costs then, whether or not its day has that tariff.
fn amount_in_place(
    alloc: Global,
    tariffs: &[AcceptedTariff],
    tariff: &Tariff,
    stored: &StoredRecord,
) -> Result<u64, StoreError>
    requires { are_rising tariffs.now ≡ true }
    ensures amount { IfOk result (λ amount.
        amount ≡ change.amount_replaced tariffs.now tariff.now (stored_entry stored.now).1) }
    ensures can { IfOk result (λ amount.
        CanCostInPlace tariffs.now tariff.now (stored_entry stored.now).1) }
{
    match new_price(alloc, tariffs, tariff, stored)? {
        None => Ok(stored.priced.amount),
        Some(priced) => Ok(priced.amount),
    }
}

/// What all records cost together where a tariff takes the place of another, if the books can hold
/// as much.
pub(crate) fn cost_in_place<S: Store>(
    tables: &mut TreeTables<S>,
    alloc: Global,
    tariffs: &[AcceptedTariff],
    tariff: &Tariff,
) -> Result<Option<u64>, StoreError>
    requires { are_rising tariffs.now ≡ true }
    ensures looks { Looks result (state_of tables.old) (state_of tables.new)
        (CostInPlace tariffs.now tariff.now) }
    ensures small { IfOk result (λ found. IfSome found (λ cost. cost ≤ most_cost)) }
{
    let mut cost = 0u64;
    let mut last = None;
    'records: for _ in 0..MOST_STEPS {
        let Some(stored) = tables.find_next(alloc, last)? else {
            return Ok(Some(cost));
        };
        let amount = amount_in_place(alloc, tariffs, tariff, &stored)?;
        let Some(more) = cost_together(cost, amount) else {
            return Ok(None);
        };
        cost = more;
        last = Some(stored.name);
    }
    // Only a disk that lies has more rows.
    Err(StoreError::Corrupt)
}

/// Sets the price of a record whose day has the replaced tariff to what the new one says.
fn replace_once<S: Store>(
    tables: &mut TreeTables<S>,
    alloc: Global,
    period: u16,
    tariffs: &[AcceptedTariff],
    tariff: &Tariff,
    stored: &StoredRecord,
) -> Result<(), StoreError>
    requires { are_rising tariffs.now ≡ true }
    ensures does { Does result (state_of tables.old) (state_of tables.new) (IsAsRead stored.now)
        (change.replace_step period tariffs.now tariff.now stored.now.name) }
{
    let Some(priced) = new_price(alloc, tariffs, tariff, stored)? else {
        return Ok(());
    };
    set_price(tables, period, stored, &priced)
}

/// Sets the price of each record whose day has the replaced tariff to what the new one says, in a
/// walk over all by name, which meets each once.
pub(crate) fn replace_all<S: Store>(
    tables: &mut TreeTables<S>,
    alloc: Global,
    period: u16,
    tariffs: &[AcceptedTariff],
    tariff: &Tariff,
) -> Result<(), StoreError>
    requires { are_rising tariffs.now ≡ true }
    ensures does { Does result (state_of tables.old) (state_of tables.new) Always
        (change.replace_each period tariffs.now tariff.now) }
{
    let mut last = None;
    'records: for _ in 0..MOST_STEPS {
        let Some(stored) = tables.find_next(alloc, last)? else {
            return Ok(());
        };
        replace_once(tables, alloc, period, tariffs, tariff, &stored)?;
        last = Some(stored.name);
    }
    // Only a disk that lies has more rows.
    Err(StoreError::Corrupt)
}
