//! The adjustment lines.

ghost use Rattle.std.specs.Prelude.{◌≡◌, IfOk, length};
ghost use Rattle.tree_tables.specs.Columns.{line_columns};
ghost use Rattle.book_audit.specs.Lines.{AreLines, IsLateLine, line_entry};
ghost use Rattle.book_audit.specs.Looks.{Looks, Tells};

use crate::finding::{Place, Tree, Wrong};
use crate::rulings::Rulings;
use crate::stop::{Stop, met, unsound};
use crate::trees::Trees;
use crate::walk::{MOST_ROWS, Walk, endless};
use crate::watch::Watch;
use sqlite_trees::error::StoreError;
use sqlite_trees::store::Store;
use sqlite_value::row::Row;
use std::alloc::Global;
use tree_tables::{hash_at, mark_at, period_at};

/// A line as its row gives it.
#[derive(Clone, Copy)]
pub(crate) struct Line {
    period: u16,
    /// The name of the record.
    name: [u8; 32],
    /// It adds the record, or reverses it.
    plus: bool,
}

/// What the row of a line says.
fn line_in(row: &Row) -> Result<Line, StoreError>
    requires { length row.now ≡ 3 }
    ensures read { IfOk result (λ line. row.now ≡ line_columns (line_entry line)) }
{
    Ok(Line {
        period: period_at(row, 0)?,
        name: hash_at(row, 1)?,
        plus: mark_at(row, 2)?,
    })
}

/// A line names a record that is held. Its period is after that of the record's day, and is no later
/// than the open one.
fn check_line<S: Store>(
    alloc: Global,
    trees: &mut Trees<S>,
    rulings: &Rulings,
    line: &Line,
) -> Result<(), Stop>
    ensures late { Tells result trees.old trees.new (λ all _.
        IsLateLine (all 3) rulings.now.closes.items (line_entry line.now)) }
    ensures looks { Looks result trees.old trees.new }
{
    let place = Place::Line(line.period, line.name);
    let Some(record) = trees.record_of(alloc, &line.name)? else {
        return Err(unsound(place, Wrong::NoRecord));
    };
    let own = rulings.period_of(record.priced.day);
    if line.period <= own || rulings.open_period() < line.period {
        return Err(unsound(place, Wrong::LineDate));
    }
    Ok(())
}

/// Reads all lines. Returns how many there are.
pub(crate) fn check_lines<S: Store, W: Watch>(
    alloc: Global,
    trees: &mut Trees<S>,
    walk: &mut Walk,
    rulings: &Rulings,
    watch: &mut W,
) -> Result<u64, Stop>
    ensures lines { Tells result trees.old trees.new (λ all count.
        AreLines all rulings.now.closes.items count) }
    ensures looks { Looks result trees.old trees.new }
{
    walk.begin(Tree::Lines);
    'lines: for count in 0..MOST_ROWS {
        watch.read(Tree::Lines, count);
        if !walk.next(trees)? {
            return Ok(count);
        }
        let line = match line_in(walk.row()) {
            Ok(line) => line,
            Err(error) => return Err(met(Tree::Lines, error)),
        };
        check_line(alloc, trees, rulings, &line)?;
    }
    Err(endless())
}
