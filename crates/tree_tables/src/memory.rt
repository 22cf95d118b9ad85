//! The trees of books in memory.

ghost use Rattle.std.specs.Prelude.{◌≡◌, IfOk, false};
ghost use Rattle.sqlite_value.specs.Keys.{plain};
ghost use Rattle.sqlite_trees.specs.Memory.{memory_view};
ghost use Rattle.tree_tables.specs.Holds.{HasShapes};
ghost use Rattle.tree_tables.specs.Steps.{HasNoRows};

use sqlite_trees::memory::MemStore;
use sqlite_trees::schema::Object;
use sqlite_trees::store::Shape;
use sqlite_value::keys::Order;
use std::alloc::{AllocError, Global};

/// How many trees books have.
const TREES: usize = 14;

/// One tree of books. In memory nothing asks for its name.
fn tree() -> Object<'static>
    ensures { result.shape ≡ Shape.Index plain }
{
    Object {
        shape: Shape::Index(Order::PLAIN),
        kind: "table",
        name: "",
        table: "",
        reals: 0,
        sql: None,
    }
}

/// A store in memory with the trees of books, which have no rows.
pub fn trees_in_memory(alloc: Global) -> Result<MemStore, AllocError>
    ensures shapes { IfOk result (λ store. HasShapes (memory_view store)) }
    ensures empty { IfOk result (λ store. HasNoRows (memory_view store).trees) }
    ensures settled { IfOk result (λ store.
        (memory_view store).trees ≡ (memory_view store).committed) }
    ensures sound { IfOk result (λ store. (memory_view store).is_broken ≡ false) }
{
    MemStore::new(alloc, &[tree(); TREES])
}
