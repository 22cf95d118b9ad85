//! The days of the closes.

ghost use Rattle.std.specs.Prelude.{All, IfOk};
ghost use Rattle.book_model.specs.Words.{IsDay, periods_outcome, Naming};
ghost use Rattle.tree_tables.specs.States.{state_of};
ghost use Rattle.table_ledger.specs.Stages.{AttemptsOne};

use crate::summary::Summary;
use book_core::LedgerFault;
use sqlite_trees::error::StoreError;
use sqlite_trees::store::Store;
use std::alloc::Global;
use tree_tables::TreeTables;

/// The days of the closes, in order.
pub(crate) fn try_periods<S: Store>(
    _tables: &TreeTables<S>,
    summary: &Summary,
    alloc: Global,
) -> Result<Result<Vec<i32>, LedgerFault>, StoreError>
    ensures tries { (naming : Naming) → AttemptsOne (λ days. days.items) naming summary.now
        summary.now (state_of _tables.now) (state_of _tables.now) periods_outcome result }
    ensures shown { IfOk result (λ answer. IfOk answer (λ days. All IsDay days.items)) }
{
    Ok(Ok(Vec::from_slice(alloc, summary.rulings.closes())?))
}
