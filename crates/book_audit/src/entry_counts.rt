//! How many entries a tree has.

ghost use Rattle.std.specs.Prelude.{◌≡◌, true};
ghost use Rattle.sqlite_value.specs.Order.{column};
ghost use Rattle.book_audit.specs.Entries.{AreCounted, HasBytes, HasCount, IsEntry};
ghost use Rattle.book_audit.specs.Looks.{Looks, Tells};
ghost use Rattle.book_audit.specs.Trees.{tree_number};
ghost use Rattle.book_audit.specs.Walks.{IsWide};

use crate::finding::{Place, Tree, Wrong};
use crate::stop::{Stop, unsound};
use crate::trees::Trees;
use crate::walk::{MOST_ROWS, Walk, endless};
use crate::watch::Watch;
use sqlite_trees::store::Store;
use sqlite_value::row::Row;
use sqlite_value::value::ValueRef;
use tree_tables::count_at;

/// Whether a column has bytes.
fn has_bytes(row: &Row, at: usize) -> bool
    ensures { result ≡ true → HasBytes (column row.now at) }
{
    match row.get(at) {
        ValueRef::Blob(_) => true,
        _ => false,
    }
}

/// Whether a column has a number that is not below 0.
fn has_count(row: &Row, at: usize) -> bool
    ensures { result ≡ true → HasCount (column row.now at) }
{
    count_at(row, at).is_ok()
}

/// Whether a row is an entry of a tree that finds the rows of a table: bytes, and a number before or
/// after them, where it has one.
fn is_entry(tree: Tree, row: &Row) -> bool
    requires { IsWide tree row.now }
    ensures { result ≡ true → IsEntry tree row.now }
{
    match tree {
        Tree::Identities => has_bytes(row, 0) && has_bytes(row, 1),
        Tree::Marks => has_count(row, 0) && has_bytes(row, 1) && has_bytes(row, 2),
        Tree::ChoiceNames => has_bytes(row, 0) && has_count(row, 1),
        _ => false,
    }
}

/// How many entries a tree has that finds the rows of a table.
fn count_rows<S: Store, W: Watch>(
    trees: &mut Trees<S>,
    walk: &mut Walk,
    tree: Tree,
    watch: &mut W,
) -> Result<u64, Stop>
    ensures counted { Tells result trees.old trees.new (λ all count.
        AreCounted tree (all (tree_number tree)) count) }
    ensures looks { Looks result trees.old trees.new }
{
    walk.begin(tree);
    'entries: for count in 0..MOST_ROWS {
        watch.read(tree, count);
        if !walk.next(trees)? {
            return Ok(count);
        }
        if !is_entry(tree, walk.row()) {
            return Err(unsound(Place::Tree(tree), Wrong::Unreadable));
        }
    }
    Err(endless())
}

/// A tree that finds the rows of a table has an entry for each, which was looked up, and no other.
pub(crate) fn check_entries<S: Store, W: Watch>(
    trees: &mut Trees<S>,
    walk: &mut Walk,
    tree: Tree,
    rows: u64,
    watch: &mut W,
) -> Result<(), Stop>
    ensures counted { Tells result trees.old trees.new (λ all _.
        AreCounted tree (all (tree_number tree)) rows) }
    ensures looks { Looks result trees.old trees.new }
{
    let entries = count_rows(trees, walk, tree, watch)?;
    if entries == rows {
        Ok(())
    } else {
        Err(unsound(Place::Tree(tree), Wrong::Entries))
    }
}
