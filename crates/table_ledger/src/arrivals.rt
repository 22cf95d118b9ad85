//! Records by their names, with the entries of the journal by which they came.

ghost use Rattle.book_model.specs.Words.{Naming, arrival_outcome};
ghost use Rattle.tree_tables.specs.States.{state_of};
ghost use Rattle.table_ledger.specs.Stages.{AttemptsOne};

use crate::summary::Summary;
use book_core::{Arrival, LedgerFault};
use sqlite_trees::error::StoreError;
use sqlite_trees::store::Store;
use tree_tables::TreeTables;

/// The first record whose name is these bytes or comes after them, with the entry by which it came:
/// one look.
pub(crate) fn try_arrival<S: Store>(
    tables: &mut TreeTables<S>,
    summary: &Summary,
    from: &[u8],
) -> Result<Result<Option<Arrival>, LedgerFault>, StoreError>
    ensures { (naming : Naming) → AttemptsOne (λ found. found) naming summary.now summary.now
        (state_of tables.old) (state_of tables.new) (arrival_outcome naming from.now) result }
{
    let found = tables.find_arrival(from)?;
    Ok(Ok(found))
}
