//! Whether a call touches many of the records that are held. Where it does, they are written in the
//! order of their names: each page of them once, and the log has it once.

ghost use Rattle.tree_tables.specs.States.{state_of};
ghost use Rattle.tree_tables.specs.Steps.{Always, Looks};

use book_core::ChargeRow;
use sqlite_trees::error::StoreError;
use sqlite_trees::store::Store;
use std::alloc::Global;
use tree_tables::TreeTables;

/// The fewest records that are many.
const LEAST_MANY: u64 = 1_000;

/// About so many records stand on one page.
const ON_A_PAGE: u64 = 8;

/// So many records that there is one on most pages of all that are held.
fn are_many(count: u64, held: usize) -> bool {
    count >= LEAST_MANY && count >= held as u64 / ON_A_PAGE
}

/// How many records some charge rows count, from a day up to another.
fn count_between(rows: &[ChargeRow], first: i32, last: i32) -> u64 {
    let mut count = 0u64;
    for row in rows {
        if first <= row.day && row.day <= last {
            count = count.saturating_add(row.count);
        }
    }
    count
}

/// Whether a period counts many of the records that are held, from a day up to another. No clause
/// says when they are many: what is done to them is the same, however they are found.
pub(crate) fn counts_many<S: Store>(
    tables: &mut TreeTables<S>,
    alloc: Global,
    held: usize,
    period: u16,
    first: i32,
    last: i32,
) -> Result<bool, StoreError>
    ensures { Looks result (state_of tables.old) (state_of tables.new)
        (λ tables many. Always tables) }
{
    let rows = tables.list_days(alloc, period)?;
    Ok(are_many(count_between(&rows, first, last), held))
}
