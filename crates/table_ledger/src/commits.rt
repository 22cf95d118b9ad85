//! What effects write, the sums, and the commit.

ghost use Rattle.table_model.specs.RowChanges.{change_line, change_mark, uncounted_by};
ghost use Rattle.table_model.specs.Steps.{count_where_row, set_sums};
ghost use Rattle.table_model.specs.TableChanges.{apply};
ghost use Rattle.tree_tables.specs.States.{state_of};
ghost use Rattle.tree_tables.specs.Steps.{Always, Does};
ghost use Rattle.table_ledger.specs.Commits.{CommitsWritten};
ghost use Rattle.table_ledger.specs.Premises.{HaveSums};

use crate::day_write::change_day;
use crate::summary::Summary;
use book_core::{DayChange, Effects, LineChange};
use sqlite_trees::error::StoreError;
use sqlite_trees::store::Store;
use tree_tables::{LineKey, Sums, TreeTables};

/// Writes a line, or deletes it.
fn write_line<S: Store>(
    tables: &mut TreeTables<S>,
    period: u16,
    change: &Option<LineChange>,
) -> Result<(), StoreError>
    ensures does { Does result (state_of tables.old) (state_of tables.new) Always
        (λ tables. record tables { lines = change_line period change.now tables.lines }) }
{
    match change {
        None => Ok(()),
        Some(LineChange::AddPlus(name)) => tables.put_line(&LineKey { period, name }, true),
        Some(LineChange::DropPlus(name) | LineChange::DropMinus(name)) => {
            tables.drop_line(&LineKey { period, name })
        }
        Some(LineChange::AddMinus(name)) => tables.put_line(&LineKey { period, name }, false),
    }
}

/// Takes the mark from a record that is no longer charged.
fn write_mark<S: Store>(
    tables: &mut TreeTables<S>,
    unmark: &Option<[u8; 32]>,
) -> Result<(), StoreError>
    ensures does { Does result (state_of tables.old) (state_of tables.new) Always
        (λ tables. record tables { records = change_mark unmark.now tables.records }) }
{
    match unmark {
        None => Ok(()),
        Some(name) => tables.unmark_record(name),
    }
}

/// A record that is no longer charged is counted no more, where its price leaves the charge rows.
fn write_uncounted<S: Store>(
    tables: &mut TreeTables<S>,
    effects: &Effects,
) -> Result<(), StoreError>
    ensures does { Does result (state_of tables.old) (state_of tables.new) Always
        (λ tables. record tables { counted = uncounted_by effects.now tables.counted }) }
{
    let Some(name) = &effects.unmark else {
        return Ok(());
    };
    match &effects.day {
        None | Some(DayChange::Add(_)) => Ok(()),
        Some(DayChange::Take(_)) => tables.uncount_record(name),
    }
}

/// A record that is held is counted, where its price joins the charge rows.
pub(crate) fn write_counted<S: Store>(
    tables: &mut TreeTables<S>,
    change: &Option<DayChange>,
    name: &[u8; 32],
) -> Result<(), StoreError>
    ensures does { Does result (state_of tables.old) (state_of tables.new) Always
        (count_where_row change.now name.now) }
{
    match change {
        None | Some(DayChange::Take(_)) => Ok(()),
        Some(DayChange::Add(_)) => tables.count_record(name),
    }
}

/// Writes the sums that are remembered into the row of the book, unless they were these before.
pub(crate) fn write_sums<S: Store>(
    tables: &mut TreeTables<S>,
    held: usize,
    total: u64,
    summary: &Summary,
) -> Result<(), StoreError>
    ensures does { Does result (state_of tables.old) (state_of tables.new) (HaveSums held total)
        (set_sums summary.now.held summary.now.total) }
{
    if summary.held == held && summary.total == total {
        return Ok(());
    }
    tables.set_sums(&Sums {
        held: summary.held as u64,
        amount: summary.total,
    })
}

/// Writes what effects change in a period: a charge row, a line, a mark, and whether the record that
/// loses it is counted.
pub(crate) fn write_effects<S: Store>(
    tables: &mut TreeTables<S>,
    period: u16,
    effects: &Effects,
) -> Result<(), StoreError>
    ensures { Does result (state_of tables.old) (state_of tables.new) Always
        (apply period effects.now) }
{
    change_day(tables, period, &effects.day)?;
    write_line(tables, period, &effects.line)?;
    write_mark(tables, &effects.unmark)?;
    write_uncounted(tables, effects)
}

/// Commits what was written, if all of it was. So what a call writes is one commit.
pub(crate) fn commit_written<S: Store, T: Drop>(
    tables: &mut TreeTables<S>,
    written: Result<T, StoreError>,
) -> Result<T, StoreError>
    ensures { CommitsWritten S.Store written result tables.old.store tables.new.store }
{
    let answer = written?;
    tables.commit()?;
    Ok(answer)
}
