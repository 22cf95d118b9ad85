//! The rows that begin alike, read in order into values.

ghost use Rattle.std.specs.Prelude.{take, IfOk, OnErr, OnOk};
ghost use Rattle.std.specs.List.{AllZip};
ghost use Rattle.sqlite_trees.specs.View.{IsClean, KeepsSchema};
ghost use Rattle.sqlite_value.specs.Order.{Row as Columns};
ghost use Rattle.tree_rows.specs.Calls.{CommitsNothing, IsSorted, LeavesCommitted, OnlyLooks};
ghost use Rattle.tree_rows.specs.Runs.{run_in};

use crate::lookup::has_key;
use sqlite_trees::error::StoreError;
use sqlite_trees::store::{Direction, Store};
use sqlite_value::row::Row;
use std::alloc::Global;

/// The cursor of a list.
const LIST: u16 = 2;

/// The most rows that are listed at once: more than any tree of a sound store has.
pub const MOST_ROWS: usize = 1 << 32;

/// A value that is read from a row.
pub trait ReadRow: Sized {
    // what the columns of its row say
    ghost says: { Columns → Self → Type 0 };

    /// Reads the value of a row, or answers that the row has none.
    fn read(row: &Row, alloc: Global) -> Result<Self, StoreError>
        ensures read { IfOk result (says row.now) };
}

/// Reads the first rows that begin with the columns of `part`, in order and as many as there are
/// up to `most`. Nothing is written to the store; an error is the store's own, or that of a row
/// that was not read. What is in `row` is lost.
#[tactic(auto, using(crate::proofs::Calls::calls_in_turn))]
pub fn list_first<S: Store, T: ReadRow + Drop>(
    store: &mut S,
    tree: u32,
    part: &Row,
    row: &mut Row,
    alloc: Global,
    most: usize,
) -> Result<Vec<T>, StoreError>
    requires { IsSorted S.Store store.old tree }
    ensures found { IfOk result (λ all. IsClean (S.Store.view store.new)
        → AllZip T.ReadRow.says (take most (run_in S.Store store.old tree part.now)) all.items) }
    ensures same { OnOk result (OnlyLooks S.Store store.old store.new) }
    ensures schema { KeepsSchema (S.Store.view store.old) (S.Store.view store.new) }
    ensures kept { OnErr result (LeavesCommitted S.Store store.old store.new) }
    ensures quiet { CommitsNothing S.Store store.old store.new }
{
    store.seek(LIST, tree, part, Direction::Forward)?;
    let mut all = Vec::new(alloc);
    // A disk that lies could keep the cursor going, so the list itself counts.
    'rows: while all.len() < most {
        if !store.next(LIST, row)? || !has_key(row, part) {
            return Ok(all);
        }
        let one = T::read(row, alloc)?;
        all.push(one)?;
    }
    Ok(all)
}

/// Reads all rows that begin with the columns of `part`, in order. Nothing is written to the store.
/// What is in `row` is lost. An error is the store's own, or that of a row that was not read; more
/// than `MOST_ROWS` are an error too: `Corrupt`.
pub fn list_run<S: Store, T: ReadRow + Drop>(
    store: &mut S,
    tree: u32,
    part: &Row,
    row: &mut Row,
    alloc: Global,
) -> Result<Vec<T>, StoreError>
    requires { IsSorted S.Store store.old tree }
    ensures found { IfOk result (λ all. IsClean (S.Store.view store.new)
        → AllZip T.ReadRow.says (run_in S.Store store.old tree part.now) all.items) }
    ensures same { OnOk result (OnlyLooks S.Store store.old store.new) }
    ensures schema { KeepsSchema (S.Store.view store.old) (S.Store.view store.new) }
    ensures kept { OnErr result (LeavesCommitted S.Store store.old store.new) }
    ensures quiet { CommitsNothing S.Store store.old store.new }
{
    // One more is asked for, to find out whether there are more.
    let all = list_first(store, tree, part, row, alloc, MOST_ROWS + 1)?;
    if all.len() > MOST_ROWS {
        return Err(StoreError::Corrupt);
    }
    Ok(all)
}
