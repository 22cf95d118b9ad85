//! Ends of imports.

ghost use Rattle.book_model.specs.Words.{Naming, ended_outcome, stop_shown};
ghost use Rattle.tree_tables.specs.States.{state_of};
ghost use Rattle.tree_tables.specs.Steps.{Always, Does};
ghost use Rattle.table_ledger.specs.Groups.{end_step};
ghost use Rattle.table_ledger.specs.Stages.{AttemptsOne};

use crate::commits::commit_written;
use crate::groups::{Joined, newest_entry, newest_joined};
use crate::summary::Summary;
use book_core::{LedgerFault, Stop, ending_of};
use sqlite_trees::error::StoreError;
use sqlite_trees::store::Store;
use std::alloc::Global;
use tree_tables::{StoredAct, TreeTables};

/// Writes why the import of an entry ended.
fn write_end<S: Store>(
    tables: &mut TreeTables<S>,
    joined: &Joined<'_>,
    stop: Stop,
) -> Result<(), StoreError>
    ensures does { Does result (state_of tables.old) (state_of tables.new) Always
        (end_step joined.now (stop_shown stop)) }
{
    let ending = ending_of(stop);
    let act = StoredAct::Import(joined.reading, Some(ending), joined.kept);
    tables.put_entry(joined.number, joined.note, &act)
}

/// Ends the import that has the newest entry, if it goes on. Its end is a commit of its own.
pub(crate) fn try_end<S: Store>(
    tables: &mut TreeTables<S>,
    summary: &Summary,
    alloc: Global,
    stop: Stop,
) -> Result<Result<(), LedgerFault>, StoreError>
    ensures tries { (naming : Naming) → AttemptsOne (λ done. done) naming summary.now summary.now
        (state_of tables.old) (state_of tables.new) (ended_outcome stop) result }
{
    let newest = newest_entry(tables, alloc)?;
    let Some(joined) = newest_joined(&newest) else {
        return Ok(Ok(()));
    };
    let written = write_end(tables, &joined, stop);
    commit_written(tables, written)?;
    Ok(Ok(()))
}
