//! Books that a store holds are opened, and released again.

use super::TableLedger;
use crate::load::read_summary;
use book_core::{Ledger, LedgerFault, Naming};
use sqlite_trees::store::Store;
use std::alloc::Global;
use tree_tables::TreeTables;

impl<S: Store, N: Naming + Drop> TableLedger<S, N> {
    ghost use Rattle.std.specs.Prelude.{◌≡◌, false, true, IfErr, IfOk};
    ghost use Rattle.sqlite_trees.specs.View.{IsClean};
    ghost use Rattle.table_model.specs.Tables.{Tables};
    ghost use Rattle.tree_rows.specs.Rows.{IsUnchanged};
    ghost use Rattle.tree_tables.specs.Holds.{HasShapes, Holds, has_book};
    ghost use Rattle.tree_tables.specs.States.{HasCleanDisk, Survives, state, state_of};
    ghost use Rattle.table_ledger.specs.Loaded.{IsOpenFault, OpensStored};

    /// The books that a store holds: those that calls made, and any others that can be read back.
    pub fn open(alloc: Global, store: S, naming: N) -> Result<TableLedger<S, N>, (LedgerFault, S)>
        requires { IsClean (S.Store.view store) → HasShapes (S.Store.view store) }
        ensures books { IfOk result (λ ledger. OpensStored (N.name_of naming) (S.Store.view store)
            (state_of ledger.tables) (⟦<TableLedger<S, N> as Ledger>⟧.seen ledger)) }

        // Nothing is written.
        ensures same { IfOk result (λ ledger. HasCleanDisk (state_of ledger.tables)
            → IsUnchanged (S.Store.view store) (state_of ledger.tables).view) }
        ensures crash { IfOk result (λ ledger. Survives (state S.Store store)
            (state_of ledger.tables) (λ trees. ⊥)) }
        ensures crash_refused { IfErr result (λ refused. Survives (state S.Store store)
            (state S.Store refused.1) (λ trees. ⊥)) }

        // If there are books, it is not answered that there are none.
        ensures found { IfErr result (λ refused. refused.0 ≡ LedgerFault.NotBooks
            → HasCleanDisk (state S.Store refused.1) → (tables : Tables)
            → ¬ Holds (S.Store.view store).trees tables) }
        ensures refused { IfErr result (λ refused. IsOpenFault refused.0) }

        // There are books exactly where their row is there.
        ensures there { IfOk result (λ ledger. HasCleanDisk (state_of ledger.tables)
            → has_book (S.Store.view store).trees ≡ true) }
        ensures none { IfErr result (λ refused. HasCleanDisk (state S.Store refused.1)
            → refused.0 ≡ LedgerFault.NotBooks → has_book (S.Store.view store).trees ≡ false) }
        ensures shaped { IfErr result (λ refused. IsClean (S.Store.view refused.1)
            → HasShapes (S.Store.view refused.1)) }
    {
        let mut tables = TreeTables::over(alloc, store);
        match read_summary(alloc, &mut tables) {
            Ok(summary) => Ok(TableLedger {
                tables,
                must_reopen: false,
                naming,
                summary,
                alloc,
            }),
            Err(fault) => Err((fault, tables.into_store())),
        }
    }

    /// Releases the store.
    pub fn close_store(self) -> S
        ensures same { result ≡ self.tables.store }
        ensures shaped { IsClean (S.Store.view result) → HasShapes (S.Store.view result) }
    {
        self.tables.into_store()
    }
}
