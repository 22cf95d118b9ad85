//! The charge rows of a period.

ghost use Rattle.std.specs.Prelude.{◌≡◌, ◌+◌, IfOk, IfSome, IsTrue, None, false};
ghost use Rattle.tree_tables.specs.States.{state_of};
ghost use Rattle.book_model.specs.Words.{IsDay, charges_outcome, Naming, AreRows};
ghost use Rattle.table_ledger.specs.Stages.{AttemptsOne};

use crate::days::is_day;
use crate::summary::Summary;
use book_core::{ChargeRow, LedgerFault};
use sqlite_trees::error::StoreError;
use sqlite_trees::store::Store;
use std::alloc::Global;
use tree_tables::TreeTables;

/// The sums of charge rows.
#[derive(Clone, Copy)]
struct Totals {
    count: u64,
    cpu: u64,
    blocks: u64,
    amount: u64,
}

impl Totals {
    ghost use Rattle.std.specs.Prelude.{◌≡◌, ◌+◌, IfSome, None};
    ghost use Rattle.table_ledger.specs.TotalsFit.{FitsMore, TotalsFit};

    /// The sums with one more row, if 64 bits hold them.
    fn with(&self, row: &ChargeRow) -> Option<Totals>
        ensures count { IfSome result (λ more. more.count ≡ self.now.count + row.now.count) }
        ensures cpu { IfSome result (λ more. more.cpu ≡ self.now.cpu + row.now.cpu) }
        ensures blocks { IfSome result (λ more. more.blocks ≡ self.now.blocks + row.now.blocks) }
        ensures amount { IfSome result (λ more. more.amount ≡ self.now.amount + row.now.amount) }
        ensures fits { IfSome result TotalsFit }
        ensures full { result ≡ None → ¬ FitsMore self.now row.now }
    {
        Some(Totals {
            count: self.count.checked_add(row.count)?,
            cpu: self.cpu.checked_add(row.cpu)?,
            blocks: self.blocks.checked_add(row.blocks)?,
            amount: self.amount.checked_add(row.amount)?,
        })
    }
}

/// The row is dated on a day.
fn is_dated(row: &ChargeRow) -> bool
    ensures day { IsTrue result → IsDay row.now.day }
    ensures other { result ≡ false → ¬ IsDay row.now.day }
{
    is_day(row.day)
}

/// The rows are dated on days, and 64 bits hold their totals.
pub(crate) fn can_show(rows: &[ChargeRow]) -> bool
    ensures shown { IsTrue result → AreRows rows.now }
    ensures refused { result ≡ false → ¬ AreRows rows.now }
{
    let mut totals = Totals {
        count: 0,
        cpu: 0,
        blocks: 0,
        amount: 0,
    };
    for row in rows {
        if !is_dated(row) {
            return false;
        }
        match totals.with(row) {
            Some(more) => totals = more,
            None => return false,
        }
    }
    true
}

/// The charge rows of a period.
pub(crate) fn try_charges<S: Store>(
    tables: &mut TreeTables<S>,
    alloc: Global,
    summary: &Summary,
    period: u16,
) -> Result<Result<Vec<ChargeRow>, LedgerFault>, StoreError>
    ensures tries { (naming : Naming) → AttemptsOne (λ rows. rows.items) naming summary.now
        summary.now (state_of tables.old) (state_of tables.new) (charges_outcome period) result }
    ensures shown { IfOk result (λ answer. IfOk answer (λ rows. AreRows rows.items)) }
{
    if !summary.has_period(period) {
        return Ok(Err(LedgerFault::NoSuchPeriod));
    }
    let rows = tables.list_days(alloc, period)?;
    if !can_show(&rows) {
        return Err(StoreError::Corrupt);
    }
    Ok(Ok(rows))
}
