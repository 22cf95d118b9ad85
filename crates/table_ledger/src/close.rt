//! Closes of the open period.

ghost use Rattle.book_model.specs.Journal.{CloseOf};
ghost use Rattle.book_model.specs.Words.{IsDay, close_outcome, Naming, note_given};
ghost use Rattle.table_model.specs.Changed.{closed_at};
ghost use Rattle.table_model.specs.PostedLaws.{PostsTouched};
ghost use Rattle.table_model.specs.Steps as step;
ghost use Rattle.tree_tables.specs.States.{state_of};
ghost use Rattle.tree_tables.specs.Steps.{Always, Does, Looks};
ghost use Rattle.table_ledger.specs.Entries.{DoesRuling};
ghost use Rattle.table_ledger.specs.Posting.{CanClose, Gathers, RestIsPosted, names_in};
ghost use Rattle.table_ledger.specs.Stages.{AttemptsOne};

use crate::commits::commit_written;
use crate::details::{Sought, next_sought};
use crate::entries::enter;
use crate::many::counts_many;
use crate::summary::Summary;
use book_core::{Detail, LedgerFault, Ruled, is_done};
use book_model::{Note, Place};
use smf_text::FIRST_DAY;
use sqlite_trees::error::StoreError;
use sqlite_trees::store::Store;
use std::alloc::Global;
use tree_tables::{Close, MOST_STEPS, StoredLine, TreeTables};

/// The most records that are posted at once: their names take 3.2 MB.
const MOST_AT_ONCE: usize = 100_000;

/// Posts the records of some lines, one after the other.
fn post_lines<S: Store>(
    tables: &mut TreeTables<S>,
    lines: &[StoredLine],
    close: &Close,
) -> Result<(), StoreError>
    requires { IsDay close.now.through }
    ensures { Does result (state_of tables.old) (state_of tables.new) Always
        (step.post_each close.now.through (names_in lines.now)) }
{
    for line in lines {
        tables.post_record(&line.name, close.through)?;
    }
    Ok(())
}

/// Posts the records of some names, one after the other.
fn post_each<S: Store>(
    tables: &mut TreeTables<S>,
    names: &[[u8; 32]],
    close: &Close,
) -> Result<(), StoreError>
    requires { IsDay close.now.through }
    ensures { Does result (state_of tables.old) (state_of tables.new) Always
        (step.post_each close.now.through names.now) }
{
    for name in names {
        tables.post_record(name, close.through)?;
    }
    Ok(())
}

/// Posts the records of some names in the order of these, so that those of one page come one after
/// another.
fn post_names<S: Store>(
    tables: &mut TreeTables<S>,
    names: Vec<[u8; 32]>,
    close: &Close,
) -> Result<(), StoreError>
    requires { IsDay close.now.through }
    ensures { Does result (state_of tables.old) (state_of tables.new) Always
        (step.post_each close.now.through names.items) }
{
    let mut names = names;
    names.sort_unstable();
    post_each(tables, &names, close)
}

/// The names of the next details of a period, as many as are posted at once: of those after the
/// one that was passed, which then is the last of them.
fn gather_names<S: Store>(
    tables: &mut TreeTables<S>,
    alloc: Global,
    last: Option<i32>,
    close: &Close,
    passed: &mut Option<Detail>,
) -> Result<Vec<[u8; 32]>, StoreError>
    requires { IsDay close.now.through }
    ensures { Looks result (state_of tables.old) (state_of tables.new)
        (λ tables names. Gathers last close.now.through passed.old passed.new names.items tables) }
{
    let mut names = Vec::new(alloc);
    'details: while names.len() < MOST_AT_ONCE {
        let sought = Sought {
            close: last,
            through: Some(close.through),
            centre: None,
            last: *passed,
        };
        let Some(detail) = next_sought(tables, &sought)? else {
            return Ok(names);
        };
        names.push(detail.name)?;
        *passed = Some(detail);
    }
    Ok(names)
}

/// Posts the records that are counted and dated after the last close, up to the day: as many at
/// once as memory may hold the names of. Details do not show what is posted, so none of them is met
/// twice.
fn post_details<S: Store>(
    tables: &mut TreeTables<S>,
    alloc: Global,
    last: Option<i32>,
    close: &Close,
) -> Result<(), StoreError>
    requires { IsDay close.now.through }
    ensures { Does result (state_of tables.old) (state_of tables.new)
        (RestIsPosted last close.now.through) (step.post_rows close.now.through) }
{
    let mut passed = None;
    'details: for _ in 0..MOST_STEPS {
        let names = gather_names(tables, alloc, last, close, &mut passed)?;
        if names.is_empty() {
            return Ok(());
        }
        post_names(tables, names, close)?;
    }
    // So many are never held.
    Err(StoreError::OutOfMemory)
}

/// Posts what is dated on or before the day of a close. Where that is not much, no record is looked
/// at that the period does not touch: what it charges has a detail of its days, and what became of
/// earlier records a line.
fn post_charged<S: Store>(
    tables: &mut TreeTables<S>,
    alloc: Global,
    last: Option<i32>,
    held: usize,
    close: &Close,
) -> Result<(), StoreError>
    requires { IsDay close.now.through }
    ensures { Does result (state_of tables.old) (state_of tables.new)
        (PostsTouched close.now.period last) (step.post_rows close.now.through) }
{
    if counts_many(tables, alloc, held, close.period, FIRST_DAY, close.through)? {
        return tables.post_records(close.through);
    }
    let lines = tables.list_lines(alloc, close.period)?;
    post_lines(tables, &lines, close)?;
    post_details(tables, alloc, last, close)
}

/// Writes a close: its day, the marks of what it charged, the rows that it leaves to the next
/// period, and its entry.
fn write_close<S: Store>(
    tables: &mut TreeTables<S>,
    alloc: Global,
    last: Option<i32>,
    held: usize,
    close: &Close,
    note: &Option<Note>,
) -> Result<(), StoreError>
    requires { IsDay close.now.through }
    ensures { DoesRuling result (state_of tables.old) (state_of tables.new)
        (CanClose close.now.period last) (closed_at close.now.period close.now.through)
        (note_given note.now) (CloseOf close.now.period) }
{
    tables.put_close(close)?;
    post_charged(tables, alloc, last, held, close)?;
    tables.move_days(close)?;
    enter(tables, note, Place::Close(close.period))
}

/// Answers a close, and closes the open period if it is this one and the day is later than the
/// last close.
pub(crate) fn try_close<S: Store>(
    tables: &mut TreeTables<S>,
    alloc: Global,
    summary: &mut Summary,
    close: &Close,
    note: &Option<Note>,
) -> Result<Result<Ruled, LedgerFault>, StoreError>
    requires day { IsDay close.now.through }
    ensures tries { (naming : Naming) → AttemptsOne (λ ruled. ruled) naming summary.old summary.new
        (state_of tables.old) (state_of tables.new)
        (close_outcome (note_given note.now) close.now.period close.now.through) result }
{
    let answer = summary.rulings.close_answer(close.period, close.through);
    if !is_done(&answer) {
        return Ok(answer);
    }
    let last = summary.rulings.last_close();
    // The memory is taken first: if there is too little, the books stay as they were.
    summary.rulings.reserve_close()?;
    let written = write_close(tables, alloc, last, summary.held, close, note);
    commit_written(tables, written)?;
    summary.rulings.put_close(close.through);
    Ok(Ok(Ruled::Done))
}
