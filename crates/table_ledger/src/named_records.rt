//! A record by its name.

ghost use Rattle.std.specs.Prelude.{IfOk};
ghost use Rattle.book_model.specs.Words.{IsUsage, Naming, record_outcome};
ghost use Rattle.tree_tables.specs.States.{state_of};
ghost use Rattle.table_ledger.specs.Stages.{AttemptsOne};

use crate::summary::Summary;
use book_core::LedgerFault;
use sqlite_trees::error::StoreError;
use sqlite_trees::store::Store;
use std::alloc::Global;
use tree_tables::{TreeTables, usage_bytes};

/// The record that is held under a name: one look at its row.
pub(crate) fn try_record<S: Store>(
    tables: &mut TreeTables<S>,
    _summary: &Summary,
    alloc: Global,
    name: &[u8; 32],
) -> Result<Result<Vec<u8>, LedgerFault>, StoreError>
    ensures tries { (naming : Naming) → AttemptsOne (λ bytes. bytes.items) naming _summary.now
        _summary.now (state_of tables.old) (state_of tables.new)
        (record_outcome naming name.now) result }
    ensures usage { IfOk result (λ answer. IfOk answer (λ bytes. IsUsage bytes.items)) }
{
    let Some(stored) = tables.find_record(alloc, name)? else {
        return Ok(Err(LedgerFault::NoSuchRecord));
    };
    let bytes = usage_bytes(alloc, &stored.data_bytes)?;
    Ok(Ok(bytes))
}
