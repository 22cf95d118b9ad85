//! The adjustment lines of a period.

ghost use Rattle.std.specs.Prelude.{◌≡◌, ◌≤◌, ◌^◌, IfOk, IfSome, IsTrue, None, false, map, sum_by};
ghost use Rattle.std.specs.List.{IsDistinct};
ghost use Rattle.std.specs.Ordering.{is_lt};
ghost use Rattle.tree_tables.specs.States.{state_of};
ghost use Rattle.book_model.specs.Words.{IsDay, AreLines, by_line, adjustments_outcome, Naming};
ghost use Rattle.book_model.specs.Words.{by_bytes, same_bytes, members, set_of};
ghost use Rattle.tree_tables.specs.Steps.{Looks};
ghost use Rattle.table_ledger.specs.LineReads.{NamesRise, lines_stored};
ghost use Rattle.table_ledger.specs.Stages.{AttemptsOne};

use crate::days::is_day;
use crate::summary::Summary;
use book_core::{LedgerFault, Line, sort_lines};
use sqlite_trees::error::StoreError;
use sqlite_trees::store::Store;
use std::alloc::Global;
use tree_tables::{StoredLine, TreeTables};

/// The first number that signed 64-bit integers do not hold.
const SIGNED_END: u64 = 1 << 63;

/// Lines that are stored, each if a record has its name.
fn read_lines<S: Store>(
    tables: &mut TreeTables<S>,
    alloc: Global,
    found: &[StoredLine],
) -> Result<Vec<Line>, StoreError>
    ensures looks { Looks result (state_of tables.old) (state_of tables.new)
        (λ tables lines. lines.items ≡ lines_stored tables.records found.now) }
{
    let mut lines = Vec::new(alloc);
    for stored in found {
        if let Some(line) = tables.read_line(stored)? {
            lines.push(line)?;
        }
    }
    Ok(lines)
}

/// The name of the line comes before the next one's.
fn is_before(line: &Line, next: &Line) -> bool
    ensures { result ≡ is_lt (by_bytes line.now.name next.now.name) }
{
    line.name.cmp(&next.name).is_lt()
}

/// No two of the lines are for one record: their names rise.
fn are_apart(lines: &[Line]) -> bool
    ensures apart { IsTrue result → IsDistinct same_bytes (map (λ line. line.name) lines.now) }
    ensures refused { result ≡ false → ¬ NamesRise lines.now }
{
    let mut at: usize = 1;
    while at < lines.len() {
        if !is_before(&lines[at - 1], &lines[at]) {
            return false;
        }
        at += 1;
    }
    true
}

/// What the lines amount to, if 64 bits hold it.
fn total(lines: &[Line]) -> Option<u64>
    ensures total { IfSome result (λ total. total ≡ sum_by (λ line. line.priced.amount) lines.now) }
    ensures full { result ≡ None → 2 ^ 64 ≤ sum_by (λ line. line.priced.amount) lines.now }
{
    let mut total: u64 = 0;
    for line in lines {
        total = total.checked_add(line.priced.amount)?;
    }
    Some(total)
}

/// The line is dated on a day.
fn is_dated(line: &Line) -> bool
    ensures day { IsTrue result → IsDay line.now.priced.day }
    ensures other { result ≡ false → ¬ IsDay line.now.priced.day }
{
    is_day(line.priced.day)
}

/// The lines are dated on days, and a signed 64-bit integer holds their total.
fn can_show(lines: &[Line]) -> bool
    ensures shown { IsTrue result → AreLines lines.now }
    ensures refused { result ≡ false → ¬ AreLines lines.now }
{
    let Some(total) = total(lines) else {
        return false;
    };
    total < SIGNED_END && lines.iter().all(|line| is_dated(line))
}

/// The lines in order, if they can be shown.
fn sorted(lines: Vec<Line>) -> Option<Vec<Line>>
    ensures sorted { IfSome result (λ sorted. sorted.items ≡ members (set_of by_line lines.items)) }
    ensures shown { IfSome result (λ sorted. AreLines sorted.items) }
    ensures refused { result ≡ None → NamesRise lines.items
        → ¬ AreLines (members (set_of by_line lines.items)) }
{
    let mut lines = lines;
    if !are_apart(&lines) {
        return None;
    }
    sort_lines(&mut lines);
    if can_show(&lines) { Some(lines) } else { None }
}

/// The adjustment lines of a period.
pub(crate) fn try_adjustments<S: Store>(
    tables: &mut TreeTables<S>,
    summary: &Summary,
    alloc: Global,
    period: u16,
) -> Result<Result<Vec<Line>, LedgerFault>, StoreError>
    ensures tries { (naming : Naming) → AttemptsOne (λ lines. lines.items) naming summary.now
        summary.now (state_of tables.old) (state_of tables.new) (adjustments_outcome naming period)
        result }
    ensures shown { IfOk result (λ answer. IfOk answer (λ lines. AreLines lines.items)) }
{
    if !summary.has_period(period) {
        return Ok(Err(LedgerFault::NoSuchPeriod));
    }
    let found = tables.list_lines(alloc, period)?;
    let lines = read_lines(tables, alloc, &found)?;
    let Some(sorted) = sorted(lines) else {
        return Err(StoreError::Corrupt);
    };
    Ok(Ok(sorted))
}
