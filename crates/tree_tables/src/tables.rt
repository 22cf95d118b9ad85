//! The tables of books over a store.

ghost use Rattle.sqlite_trees.specs.View.{IsClean};
ghost use Rattle.tree_tables.specs.Holds.{HasShapes};

use crate::detail_changes::DetailScratch;
use sqlite_trees::error::StoreError;
use sqlite_trees::store::Store;
use sqlite_value::row::Row;
use std::alloc::Global;
use tree_rows::{ReadRow, list_run};

/// The tables of books in the trees of a store, one or more each: `trees` says which.
#[derive(Drop)]
pub struct TreeTables<S: Store> {
    pub(crate) store: S,
    /// The key that is looked for.
    pub(crate) key: Row,
    /// The row that is written, or that was found.
    pub(crate) row: Row,
    /// The row that was under the key before.
    pub(crate) before: Row,
    /// What a row of details is made with.
    pub(crate) scratch: DetailScratch,
    ghost shaped: { IsClean (S.Store.view store) → HasShapes (S.Store.view store) },
}

impl<S: Store> TreeTables<S> {
    ghost use Rattle.std.specs.Prelude.{◌≡◌, OnErr, OnOk};
    ghost use Rattle.sqlite_trees.specs.View.{Commits, IsClean};
    ghost use Rattle.tree_rows.specs.Calls.{IsSorted};
    ghost use Rattle.tree_tables.specs.Holds.{HasShapes};
    ghost use Rattle.tree_tables.specs.States.{Survives, state_of};
    ghost use Rattle.tree_tables.specs.Steps.{IsUndone, MayCommit};
    ghost use Rattle.tree_tables.specs.Steps.{ReadsTree};

    /// The tables in a store that has their trees.
    pub fn over(alloc: Global, store: S) -> TreeTables<S>
        requires { IsClean (S.Store.view store) → HasShapes (S.Store.view store) }
        ensures { result.store ≡ store }
    {
        TreeTables {
            store,
            key: Row::new(alloc),
            row: Row::new(alloc),
            before: Row::new(alloc),
            scratch: DetailScratch::new(alloc),
        }
    }

    /// The store.
    pub fn into_store(self) -> S
        ensures same { result ≡ self.store }
        ensures shaped { IsClean (S.Store.view result) → HasShapes (S.Store.view result) }
    {
        self.store
    }

    /// Reads all rows of a tree, in order.
    pub(crate) fn list_all<T: ReadRow + Drop>(
        &mut self,
        tree: u32,
        alloc: Global,
    ) -> Result<Vec<T>, StoreError>
        requires { IsSorted S.Store self.old.store tree }
        ensures looks { ReadsTree result (state_of self.old) (state_of self.new) tree
            T.ReadRow.says }
    {
        self.key.clear();
        list_run(&mut self.store, tree, &self.key, &mut self.row, alloc)
    }

    /// Commits what was written. A commit that fails rolls it back.
    pub fn commit(&mut self) -> Result<(), StoreError>
        ensures committed { OnOk result (IsClean (S.Store.view self.new.store)
            → Commits (S.Store.view self.old.store) (S.Store.view self.new.store)) }
        ensures refused { OnErr result (IsClean (S.Store.view self.new.store)
            → IsUndone (S.Store.view self.old.store) (S.Store.view self.new.store)) }
        ensures survives { Survives (state_of self.old) (state_of self.new)
            (MayCommit (S.Store.view self.old.store)) }
    {
        self.store.commit()
    }

    /// Rolls back what was written since the last commit.
    pub fn roll_back(&mut self)
        ensures undone { IsClean (S.Store.view self.new.store)
            → IsUndone (S.Store.view self.old.store) (S.Store.view self.new.store) }
        ensures survives { Survives (state_of self.old) (state_of self.new) (λ trees. ⊥) }
    {
        self.store.rollback();
    }

    /// The store failed, so that what is seen of it says nothing.
    pub fn is_broken(&self) -> bool
        ensures { IsClean (S.Store.view self.now.store)
            → result ≡ (S.Store.view self.now.store).is_broken }
    {
        self.store.is_broken()
    }
}
