//! A walk through a tree, a row at a time.

ghost use Rattle.std.specs.Prelude.{◌≡◌, ◌≤◌, OnOk, length, take};

use crate::finding::{Place, Tree, Wrong};
use crate::stop::{Stop, met, unsound};
use crate::trees::Trees;
use book_model::LedgerFault;
use sqlite_trees::store::Store;
use sqlite_value::keys::Order;
use sqlite_value::row::Row;
use std::alloc::{AllocError, Global};

/// The most rows that are walked over: more than any tree of a sound store has.
pub(crate) const MOST_ROWS: u64 = 1 << 40;

/// The first columns of a row become the key.
fn take_key(key: &mut Row, row: &Row, columns: usize) -> Result<(), AllocError>
    requires { columns ≤ length row.now }
    ensures { OnOk result (key.new ≡ take columns row.now) }
{
    key.clear();
    for at in 0..columns {
        key.push(row.get(at))?;
    }
    Ok(())
}

/// How far a tree was walked: the row that was read last, and its key. One walk goes through all
/// trees, one after the other.
#[derive(Drop)]
pub(crate) struct Walk {
    tree: Tree,
    key: Row,
    row: Row,
}

impl Walk {
    ghost use Rattle.std.specs.Prelude.{◌≡◌, [], IfOk, List, true};
    ghost use Rattle.sqlite_value.specs.Order.{Row as Columns};
    ghost use Rattle.book_audit.specs.Looks.{Looks, Tells};
    ghost use Rattle.book_audit.specs.Walks.{GoesOn, HasWalked, IsWide};

    /// No tree was walked yet.
    pub(crate) fn new(alloc: Global) -> Walk {
        Walk {
            tree: Tree::Book,
            key: Row::new(alloc),
            row: Row::new(alloc),
        }
    }

    /// Goes before the first row of a tree.
    pub(crate) fn begin(&mut self, tree: Tree)
        ensures tree { self.new.tree ≡ tree }
        ensures start { (rows : List Columns) → HasWalked tree self.new.key rows [] }
    {
        self.tree = tree;
        self.key.clear();
    }

    /// The row that was read last.
    pub(crate) fn row(&self) -> &Row
        ensures { result.now ≡ self.now.row }
    {
        &self.row
    }

    /// Reads the next row, or answers that there is none. A row whose key is not after that of the
    /// row before is unsound, so a walk ends whatever the tree holds.
    pub(crate) fn next<S: Store>(&mut self, trees: &mut Trees<S>) -> Result<bool, Stop>
        ensures next { Tells result trees.old trees.new (GoesOn self.old self.new) }
        ensures wide { IfOk result (λ there. there ≡ true
            → IsWide self.old.tree self.new.row) }
        ensures tree { self.new.tree ≡ self.old.tree }
        ensures looks { Looks result trees.old trees.new }
    {
        let tree = self.tree;
        let there = match trees.row_past(tree, &self.key, &mut self.row) {
            Ok(there) => there,
            Err(error) => return Err(met(tree, error)),
        };
        if !there {
            return Ok(false);
        }
        if !tree.has_width(&self.row) {
            return Err(unsound(Place::Tree(tree), Wrong::Columns));
        }
        if !self.key.is_empty() && !self.row.cmp_prefix(Order::PLAIN, &self.key).is_gt() {
            return Err(unsound(Place::Tree(tree), Wrong::Order));
        }
        take_key(&mut self.key, &self.row, tree.key_columns())?;
        Ok(true)
    }
}

/// A walk that does not end: only a disk that lies has more rows, and nothing is said of the books.
pub(crate) fn endless() -> Stop {
    Stop::Fault(LedgerFault::Store)
}
