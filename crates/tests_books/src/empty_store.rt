//! Stores with the trees of books, and no books.

ghost use Rattle.std.specs.Prelude.{IfSome};
ghost use Rattle.sqlite_trees.specs.View.{IsClean};
ghost use Rattle.tree_tables.specs.Holds.{HasShapes};

use crate::restart::Restart;
use sqlite_disk::{Files, Memory};
use sqlite_store::FileStore;
use sqlite_trees::memory::MemStore;
use sqlite_trees::store::Store;
use std::alloc::Global;
use tree_tables::trees_in_memory;

/// A store that can be made without books.
pub(crate) trait EmptyStore: Store + Drop {
    /// A new one, where there is memory for it.
    fn empty(alloc: Global) -> Option<Self>
        ensures shaped { IfSome result (λ store. IsClean (Self.Store.view store)
            → HasShapes (Self.Store.view store)) };
}

impl EmptyStore for MemStore {
    fn empty(alloc: Global) -> Option<MemStore> {
        match trees_in_memory(alloc) {
            Ok(store) => Some(store),
            Err(_refused) => None,
        }
    }
}

/// That of two files in memory.
impl EmptyStore for FileStore<Memory> {
    fn empty(alloc: Global) -> Option<FileStore<Memory>> {
        let files = Files {
            log: Memory::new(alloc),
            db: Memory::new(alloc),
        };
        match FileStore::<Memory>::made(alloc, files) {
            Ok(store) => Some(store),
            Err(_left) => None,
        }
    }
}
