//! Rows are written under their keys.

ghost use Rattle.std.specs.Prelude.{◌≡◌, OnErr, OnOk};
ghost use Rattle.sqlite_trees.specs.Tree.{insert_entry, remove_entry};
ghost use Rattle.sqlite_trees.specs.View.{IsClean, KeepsSchema};
ghost use Rattle.sqlite_value.specs.Keys.{plain};
ghost use Rattle.tree_rows.specs.Calls.{CommitsNothing, IsSorted, LeavesCommitted};
ghost use Rattle.tree_rows.specs.Rows.{ChangesRow, Drops, Puts, Replaces, Rewrites};

use crate::lookup::find_row;
use sqlite_trees::error::StoreError;
use sqlite_trees::store::Store;
use sqlite_value::row::Row;

/// Puts a row beside the others; one that is there already is left as it is. Nothing is committed.
pub fn add_row<S: Store>(store: &mut S, tree: u32, row: &Row) -> Result<(), StoreError>
    requires { IsSorted S.Store store.old tree }
    ensures done { OnOk result (IsClean (S.Store.view store.new)
        → Rewrites (S.Store.view store.old) (S.Store.view store.new) tree
        (insert_entry plain row.now ((S.Store.view store.old).trees tree))) }
    ensures kept { OnErr result (LeavesCommitted S.Store store.old store.new) }
    ensures schema { KeepsSchema (S.Store.view store.old) (S.Store.view store.new) }
    ensures quiet { CommitsNothing S.Store store.old store.new }
{
    store.insert(tree, row)?;
    Ok(())
}

/// Takes a row out; one that is not there leaves the others as they are. Nothing is committed.
pub fn remove_row<S: Store>(store: &mut S, tree: u32, row: &Row) -> Result<(), StoreError>
    requires { IsSorted S.Store store.old tree }
    ensures done { OnOk result (IsClean (S.Store.view store.new)
        → Rewrites (S.Store.view store.old) (S.Store.view store.new) tree
        (remove_entry plain row.now ((S.Store.view store.old).trees tree))) }
    ensures kept { OnErr result (LeavesCommitted S.Store store.old store.new) }
    ensures schema { KeepsSchema (S.Store.view store.old) (S.Store.view store.new) }
    ensures quiet { CommitsNothing S.Store store.old store.new }
{
    store.remove(tree, row)?;
    Ok(())
}

/// Removes a row, and puts another in its place. A row is its own key in its tree, so one that
/// gets other values is removed first. Nothing is committed. After an error the row may be gone
/// until the transaction is rolled back.
pub fn change_row<S: Store>(
    store: &mut S,
    tree: u32,
    old: &Row,
    new: &Row,
) -> Result<(), StoreError>
    requires { IsSorted S.Store store.old tree }
    ensures done { OnOk result (IsClean (S.Store.view store.new)
        → ChangesRow (S.Store.view store.old) (S.Store.view store.new) tree old.now new.now) }
    ensures kept { OnErr result (LeavesCommitted S.Store store.old store.new) }
    ensures schema { KeepsSchema (S.Store.view store.old) (S.Store.view store.new) }
    ensures quiet { CommitsNothing S.Store store.old store.new }
{
    store.remove(tree, old)?;
    store.insert(tree, new)?;
    Ok(())
}

/// Puts a row in the place of the one that has its key, or beside the others where none has. The
/// old one is read into `found`. Nothing is committed. After an error the old row may be gone until
/// the transaction is rolled back.
#[tactic(auto, using(crate::proofs::Calls::calls_in_turn))]
pub fn put_row<S: Store>(
    store: &mut S,
    tree: u32,
    key: &Row,
    row: &Row,
    found: &mut Row,
) -> Result<(), StoreError>
    requires { IsSorted S.Store store.old tree }
    ensures puts { OnOk result (IsClean (S.Store.view store.new)
        → Puts (S.Store.view store.old) (S.Store.view store.new) tree key.now row.now) }
    ensures kept { OnErr result (LeavesCommitted S.Store store.old store.new) }
    ensures schema { KeepsSchema (S.Store.view store.old) (S.Store.view store.new) }
    ensures quiet { CommitsNothing S.Store store.old store.new }
{
    if find_row(store, tree, key, found)? {
        return change_row(store, tree, found, row);
    }
    store.insert(tree, row)
}

/// Puts a row in the place of the one that has the key, if one has; `found` is where that is read
/// to. Nothing is committed. After an error the old row may be gone until the transaction is rolled
/// back.
#[tactic(auto, using(crate::proofs::Calls::calls_in_turn))]
pub fn replace_row<S: Store>(
    store: &mut S,
    tree: u32,
    key: &Row,
    row: &Row,
    found: &mut Row,
) -> Result<(), StoreError>
    requires { IsSorted S.Store store.old tree }
    ensures replaces { OnOk result (IsClean (S.Store.view store.new)
        → Replaces (S.Store.view store.old) (S.Store.view store.new) tree key.now row.now) }
    ensures kept { OnErr result (LeavesCommitted S.Store store.old store.new) }
    ensures schema { KeepsSchema (S.Store.view store.old) (S.Store.view store.new) }
    ensures quiet { CommitsNothing S.Store store.old store.new }
{
    if find_row(store, tree, key, found)? {
        return change_row(store, tree, found, row);
    }
    Ok(())
}

/// Takes the row that has the key, if one has; `found` is where it is read to. Nothing is
/// committed.
pub fn drop_row<S: Store>(
    store: &mut S,
    tree: u32,
    key: &Row,
    found: &mut Row,
) -> Result<(), StoreError>
    requires { IsSorted S.Store store.old tree }
    ensures drops { OnOk result (IsClean (S.Store.view store.new)
        → Drops (S.Store.view store.old) (S.Store.view store.new) tree key.now) }
    ensures kept { OnErr result (LeavesCommitted S.Store store.old store.new) }
    ensures schema { KeepsSchema (S.Store.view store.old) (S.Store.view store.new) }
    ensures quiet { CommitsNothing S.Store store.old store.new }
{
    if find_row(store, tree, key, found)? {
        return store.remove(tree, found);
    }
    Ok(())
}
