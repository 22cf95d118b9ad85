//! What becomes of a call that the store refused.

ghost use Rattle.std.specs.Prelude.{◌≡◌, ◌⊎◌, false};
ghost use Rattle.sqlite_trees.specs.View.{IsClean};
ghost use Rattle.tree_tables.specs.States.{Survives, state_of};
ghost use Rattle.table_ledger.specs.Attempts.{IsRolledBack, Finishes};

use book_core::LedgerFault;
use sqlite_trees::error::StoreError;
use sqlite_trees::store::Store;
use tree_tables::TreeTables;

/// Rolls back what was written, and answers the fault that an error of the store is: out of memory,
/// if the store still serves; else one of the store.
pub(crate) fn fault_of<S: Store>(tables: &mut TreeTables<S>, error: StoreError) -> LedgerFault
    ensures kind { (result ≡ LedgerFault.Memory) ⊎ (result ≡ LedgerFault.Store) }
    ensures back { IsClean (state_of tables.new).view → result ≡ LedgerFault.Memory
        → IsRolledBack (state_of tables.old).view (state_of tables.new).view }
    ensures survives { Survives (state_of tables.old) (state_of tables.new) (λ trees. ⊥) }
{
    tables.roll_back();
    if error == StoreError::OutOfMemory && !tables.is_broken() {
        LedgerFault::Memory
    } else {
        LedgerFault::Store
    }
}

/// Answers a call that was tried. After a fault of the store the books have to be reopened.
pub(crate) fn finish<S: Store, V: Drop>(
    tables: &mut TreeTables<S>,
    must_reopen: &mut bool,
    tried: Result<Result<V, LedgerFault>, StoreError>,
) -> Result<V, LedgerFault>
    requires { must_reopen.old ≡ false }
    ensures settles { Finishes S.Store tables.old.store tables.new.store must_reopen.old
        must_reopen.new tried result }
{
    match tried {
        Ok(answer) => answer,
        Err(error) => {
            let fault = fault_of(tables, error);
            *must_reopen = fault == LedgerFault::Store;
            Err(fault)
        }
    }
}
