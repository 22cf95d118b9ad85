//! New books in a store whose trees have no rows yet.

ghost use Rattle.std.specs.Prelude.{IfErr};
ghost use Rattle.tree_tables.specs.States.{state_of};
ghost use Rattle.table_ledger.specs.NewBooks.{MakesNew};
ghost use Rattle.table_ledger.specs.Loaded.{IsStoreFault};

use super::TableLedger;
use crate::finish::fault_of;
use crate::summary::Summary;
use book_core::{Ledger, LedgerFault, Naming, Rulings};
use sqlite_trees::error::StoreError;
use sqlite_trees::store::Store;
use std::alloc::Global;
use tree_tables::TreeTables;

/// The row of new books, in trees that have none, in one commit. Trees that have a book are not
/// touched.
fn write_books<S: Store>(tables: &mut TreeTables<S>) -> Result<(), StoreError>
    ensures makes { MakesNew result (state_of tables.old) (state_of tables.new) }
{
    if tables.find_book()?.is_some() {
        return Err(StoreError::Corrupt);
    }
    tables.make_book()?;
    tables.commit()
}

/// The tables of new books, in trees that have no rows.
fn make_books<S: Store>(tables: &mut TreeTables<S>) -> Result<(), LedgerFault>
    ensures makes { MakesNew result (state_of tables.old) (state_of tables.new) }
    ensures kinds { IfErr result IsStoreFault }
{
    match write_books(tables) {
        Ok(()) => Ok(()),
        Err(error) => Err(fault_of(tables, error)),
    }
}

impl<S: Store, N: Naming + Drop> TableLedger<S, N> {
    ghost use Rattle.std.specs.Prelude.{◌≡◌, false, IfErr, IfOk};
    ghost use Rattle.sqlite_trees.specs.View.{IsClean};
    ghost use Rattle.tree_tables.specs.Holds.{HasShapes, has_book};
    ghost use Rattle.tree_tables.specs.States.{HasCleanDisk, Survives, state, state_of};
    ghost use Rattle.table_ledger.specs.NewBooks.{MayHoldNew, OpensNew};
    ghost use Rattle.table_ledger.specs.Loaded.{IsStoreFault};

    /// New books, in a store that has the trees, without rows. Books that are there already are
    /// not touched.
    pub fn create(alloc: Global, store: S, naming: N) -> Result<TableLedger<S, N>, (LedgerFault, S)>
        requires { IsClean (S.Store.view store) → HasShapes (S.Store.view store) }
        ensures books { IfOk result (λ ledger. OpensNew (N.name_of naming) (S.Store.view store)
            (state_of ledger.tables) (⟦<TableLedger<S, N> as Ledger>⟧.seen ledger)) }

        // Where the row of a book is there, none are made.
        ensures absent { IfOk result (λ ledger. HasCleanDisk (state_of ledger.tables)
            → has_book (S.Store.view store).trees ≡ false) }

        // A stop within it leaves what was there, or new books where there was no row.
        ensures crash { IfOk result (λ ledger. Survives (state S.Store store)
            (state_of ledger.tables) (MayHoldNew (S.Store.view store))) }
        ensures crash_refused { IfErr result (λ refused. Survives (state S.Store store)
            (state S.Store refused.1) (MayHoldNew (S.Store.view store))) }
        ensures refused { IfErr result (λ refused. IsStoreFault refused.0) }
        ensures shaped { IfErr result (λ refused. IsClean (S.Store.view refused.1)
            → HasShapes (S.Store.view refused.1)) }
    {
        let mut tables = TreeTables::over(alloc, store);
        match make_books(&mut tables) {
            Ok(()) => Ok(TableLedger {
                tables,
                must_reopen: false,
                naming,
                summary: Summary {
                    rulings: Rulings::new(alloc),
                    choices: 0,
                    replaced: 0,
                    credits: 0,
                    held: 0,
                    total: 0,
                },
                alloc,
            }),
            Err(fault) => Err((fault, tables.into_store())),
        }
    }
}
