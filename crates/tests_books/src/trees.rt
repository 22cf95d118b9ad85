//! The trees of books in a store, while no books are open on it.

ghost use Rattle.sqlite_trees.specs.View.{IsClean};
ghost use Rattle.tree_tables.specs.Holds.{HasShapes};

use crate::rows::AsksOpenBooks;
use book_core::Naming;
use sqlite_trees::error::StoreError;
use sqlite_trees::store::{Shape, Store};
use sqlite_value::keys::Order;
use sqlite_value::row::Row;
use std::alloc::Global;
use table_ledger::TableLedger;
use tests_ledgers::push_fault;
use tests_scripts::{AnswerText, LineResult, Named};
use tree_rows::{ReadRow, change_row, list_run};

/// A store with the trees of books.
#[derive(Drop)]
pub(crate) struct Trees<S: Store> {
    store: S,
    ghost shaped: { IsClean (S.Store.view store) → HasShapes (S.Store.view store) },
}

/// A row, whole.
#[derive(Drop)]
pub(crate) struct WholeRow(pub(crate) Row);

impl ReadRow for WholeRow {
    ghost use Rattle.std.specs.Prelude.{◌≡◌};

    ghost says = { λ columns whole. whole.0 ≡ columns };

    fn read(row: &Row, alloc: Global) -> Result<WholeRow, StoreError> {
        Ok(WholeRow(row.copy(alloc)?))
    }
}

impl<S: Store + Drop> Trees<S> {
    ghost use Rattle.sqlite_trees.specs.View.{IsClean};
    ghost use Rattle.tree_tables.specs.Holds.{HasShapes};

    /// The trees in a store that has them.
    pub(crate) fn over(store: S) -> Trees<S>
        requires { IsClean (S.Store.view store) → HasShapes (S.Store.view store) }
    {
        Trees { store }
    }

    /// The store.
    pub(crate) fn into_store(self) -> S
        ensures { IsClean (S.Store.view result) → HasShapes (S.Store.view result) }
    {
        self.store
    }

    /// All rows of a tree, in order; none where the store can't read them.
    pub(crate) fn rows(&mut self, alloc: Global, tree: u32) -> Option<Vec<WholeRow>> {
        if self.store.shape(tree) != Shape::Index(Order::PLAIN) {
            return None;
        }
        let mut row = Row::new(alloc);
        list_run(&mut self.store, tree, &Row::new(alloc), &mut row, alloc).ok()
    }

    /// Puts a row in the place of another, or answers that the store can't.
    pub(crate) fn change(&mut self, tree: u32, old: &Row, new: &Row) -> bool {
        self.store.shape(tree) == Shape::Index(Order::PLAIN)
            && change_row(&mut self.store, tree, old, new).is_ok()
    }

    /// Removes a row, or answers that the store can't.
    pub(crate) fn take(&mut self, tree: u32, row: &Row) -> bool {
        self.store.shape(tree) == Shape::Index(Order::PLAIN) && self.store.remove(tree, row).is_ok()
    }

    /// Keeps what was changed, or answers that the store can't.
    pub(crate) fn commit(&mut self) -> bool {
        self.store.commit().is_ok()
    }

    /// Asks the books in the trees, opened for this, and gives the trees back. What is asked of books
    /// that can't be opened is answered by the fault.
    pub(crate) fn ask<N: Naming + Drop, A: AsksOpenBooks>(
        self,
        named: &Named,
        naming: N,
        asking: &mut A,
        out: &mut AnswerText,
    ) -> (Trees<S>, LineResult) {
        match TableLedger::open(named.alloc(), self.store, naming) {
            Ok(mut books) => {
                let answered = asking.ask(named, &mut books, out);
                (Trees::over(books.close_store()), answered)
            }
            Err((fault, store)) => {
                push_fault(out, fault);
                (Trees::over(store), Ok(()))
            }
        }
    }
}
