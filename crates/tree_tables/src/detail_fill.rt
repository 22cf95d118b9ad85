//! What is looked at where the tree of details was just made in a store, and is not committed yet:
//! as in `TreeTables`, whose store has the same trees as its last commit.

ghost use Rattle.std.specs.Prelude.{OnOk};
ghost use Rattle.std.specs.FinMap.{entries};
ghost use Rattle.sqlite_trees.specs.View.{KeepsSchema};
ghost use Rattle.tree_rows.specs.Calls.{IsSorted};
ghost use Rattle.tree_rows.specs.Passes.{IsPassing};
ghost use Rattle.tree_tables.specs.Answers.{ListsCloses, ListsLines};
ghost use Rattle.tree_tables.specs.Passes.{HasRecordsLeft, TakesNext};
ghost use Rattle.tree_tables.specs.States.{state};
ghost use Rattle.tree_tables.specs.Steps.{Looks};

use crate::closed_rows::Close;
use crate::keys::period_key;
use crate::line_rows::StoredLine;
use crate::trees::{CLOSES, LINES, RECORDS};
use sqlite_trees::error::StoreError;
use sqlite_trees::store::Store;
use sqlite_value::row::Row;
use std::alloc::Global;
use tree_rows::{list_run, next_row, start_pass};

/// The closes of books, by their periods.
pub fn closes_in<S: Store>(store: &mut S, alloc: Global) -> Result<Vec<Close>, StoreError>
    requires { IsSorted S.Store store.old CLOSES }
    ensures looks { Looks result (state S.Store store.old) (state S.Store store.new)
        (λ tables list. ListsCloses tables list.items) }
    ensures schema { KeepsSchema (S.Store.view store.old) (S.Store.view store.new) }
{
    let key = Row::new(alloc);
    let mut row = Row::new(alloc);
    list_run(store, CLOSES, &key, &mut row, alloc)
}

/// The lines of a period, by name.
pub fn lines_in<S: Store>(
    store: &mut S,
    alloc: Global,
    period: u16,
) -> Result<Vec<StoredLine>, StoreError>
    requires { IsSorted S.Store store.old LINES }
    ensures looks { Looks result (state S.Store store.old) (state S.Store store.new)
        (λ tables list. ListsLines period tables list.items) }
    ensures schema { KeepsSchema (S.Store.view store.old) (S.Store.view store.new) }
{
    let mut key = Row::new(alloc);
    period_key(&mut key, period)?;
    let mut row = Row::new(alloc);
    list_run(store, LINES, &key, &mut row, alloc)
}

/// Starts a pass over all records, by name. It goes on as long as nothing is written.
pub fn start_records<S: Store>(store: &mut S, row: &mut Row) -> Result<(), StoreError>
    requires { IsSorted S.Store store.old RECORDS }
    ensures passing { OnOk result (IsPassing (S.Store.view store.new)) }
    ensures looks { Looks result (state S.Store store.old) (state S.Store store.new)
        (λ tables started. HasRecordsLeft tables.came (S.Store.view store.new) (entries tables.records)) }
    ensures schema { KeepsSchema (S.Store.view store.old) (S.Store.view store.new) }
{
    start_pass(store, RECORDS, row)
}

/// Writes the row of the next record of a pass over `row`, or answers that none is left.
pub fn next_record_in<S: Store>(store: &mut S, row: &mut Row) -> Result<bool, StoreError>
    requires { IsPassing (S.Store.view store.old) }
    ensures passing { OnOk result (IsPassing (S.Store.view store.new)) }
    ensures looks { Looks result (state S.Store store.old) (state S.Store store.new)
        (λ tables there.
        TakesNext (S.Store.view store.old) (S.Store.view store.new) row.new there) }
    ensures schema { KeepsSchema (S.Store.view store.old) (S.Store.view store.new) }
{
    next_row(store, row)
}
