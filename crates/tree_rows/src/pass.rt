//! A pass over all rows of a tree: one cursor goes on from row to row, so that a page is looked for
//! once and not once for each of its rows.

ghost use Rattle.std.specs.Prelude.{IfOk, OnErr, OnOk};
ghost use Rattle.sqlite_trees.specs.View.{Advances, IsClean, KeepsSchema};
ghost use Rattle.tree_rows.specs.Calls.{CommitsNothing, IsSorted, LeavesCommitted, OnlyLooks};
ghost use Rattle.tree_rows.specs.Passes.{HasLeft, IsPassing};

use sqlite_trees::error::StoreError;
use sqlite_trees::store::{Direction, Store};
use sqlite_value::row::Row;

/// The cursor of a pass.
pub const PASS: u16 = 3;

/// Starts a pass over all rows of a tree: the first of them is the next. Nothing is written to the
/// store; an error is the store's own. What is in `row` is lost.
pub fn start_pass<S: Store>(store: &mut S, tree: u32, row: &mut Row) -> Result<(), StoreError>
    requires { IsSorted S.Store store.old tree }
    ensures passing { OnOk result (IsPassing (S.Store.view store.new)) }
    ensures left { OnOk result (IsClean (S.Store.view store.new)
        → HasLeft (S.Store.view store.new) ((S.Store.view store.old).trees tree)) }
    ensures same { OnOk result (OnlyLooks S.Store store.old store.new) }
    ensures schema { KeepsSchema (S.Store.view store.old) (S.Store.view store.new) }
    ensures kept { OnErr result (LeavesCommitted S.Store store.old store.new) }
    ensures quiet { CommitsNothing S.Store store.old store.new }
{
    // No row is below the key of no columns.
    row.clear();
    store.seek(PASS, tree, row, Direction::Forward)
}

/// Writes the next row of a pass over `row`, or answers that none is left. Nothing is written to
/// the store; an error is the store's own.
pub fn next_row<S: Store>(store: &mut S, row: &mut Row) -> Result<bool, StoreError>
    requires { IsPassing (S.Store.view store.old) }
    ensures passing { OnOk result (IsPassing (S.Store.view store.new)) }
    ensures next { IfOk result (λ there. IsClean (S.Store.view store.new)
        → Advances (S.Store.view store.old) (S.Store.view store.new) PASS row.new there) }
    ensures same { OnOk result (OnlyLooks S.Store store.old store.new) }
    ensures schema { KeepsSchema (S.Store.view store.old) (S.Store.view store.new) }
    ensures kept { OnErr result (LeavesCommitted S.Store store.old store.new) }
    ensures quiet { CommitsNothing S.Store store.old store.new }
{
    store.next(PASS, row)
}
