//! Rows that are changed behind the books' back.

use crate::tree_numbers::{BOOK, CHARGES, LINES};
use crate::trees::Trees;
use sqlite_trees::store::Store;
use sqlite_value::row::Row;
use sqlite_value::value::ValueRef;
use std::alloc::{AllocError, Global};
use tests_scripts::{AnswerText, Ask, LineFault, LineResult};

/// The columns of a charge row that are changed: how many records it counts, and their amount.
const COUNT: usize = 4;

const AMOUNT: usize = 7;

/// A change of all rows of a table.
#[derive(Clone, Copy)]
enum Change {
    /// A column of the charge rows becomes this number.
    Set { column: usize, number: i64 },
    /// The rows of a tree are removed.
    Empty { tree: u32 },
}

/// The change that a line asks for, if it asks for one.
fn change_of(ask: Ask<'_>) -> LineResult<Change> {
    match (ask.verb, ask.words) {
        ("set", ["day_sum.count", number]) => set(COUNT, number),
        ("set", ["day_sum.amount", number]) => set(AMOUNT, number),
        ("empty", ["book"]) => Ok(Change::Empty { tree: BOOK }),
        ("empty", ["line"]) => Ok(Change::Empty { tree: LINES }),
        _ => Err(LineFault::NotUnderstood),
    }
}

/// A number for a column of the charge rows.
fn set(column: usize, number: &str) -> LineResult<Change> {
    let number = number.parse::<i64>()?;
    Ok(Change::Set { column, number })
}

/// A row with another number in a column.
fn with_number(alloc: Global, row: &Row, column: usize, number: i64) -> Result<Row, AllocError> {
    let mut changed = Row::new(alloc);
    for at in 0..row.len() {
        let value = if at == column {
            ValueRef::Int(number)
        } else {
            row.get(at)
        };
        changed.push(value)?;
    }
    Ok(changed)
}

/// Changes the rows, and answers how many there were; none where the store can't.
fn change_rows<S: Store + Drop>(
    alloc: Global,
    trees: &mut Trees<S>,
    change: Change,
) -> Option<usize> {
    let tree = match change {
        Change::Set { .. } => CHARGES,
        Change::Empty { tree } => tree,
    };
    let rows = trees.rows(alloc, tree)?;
    for row in &rows {
        let is_changed = match change {
            Change::Set { column, number } => {
                let changed = with_number(alloc, &row.0, column, number).ok()?;
                trees.change(tree, &row.0, &changed)
            }
            Change::Empty { tree } => trees.take(tree, &row.0),
        };
        if !is_changed {
            return None;
        }
    }
    trees.commit().then_some(rows.len())
}

/// Changes the rows as a line asks, and adds how many there were.
pub(crate) fn push_change<S: Store + Drop>(
    trees: &mut Trees<S>,
    ask: Ask<'_>,
    out: &mut AnswerText,
) -> LineResult {
    let change = change_of(ask)?;
    match change_rows(out.alloc(), trees, change) {
        Some(count) => out.value_line("CHANGED ", count),
        None => out.line("NOT CHANGED"),
    }
    Ok(())
}
