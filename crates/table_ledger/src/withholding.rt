//! Choices of none: a work that is withheld from then on.

ghost use Rattle.std.specs.Prelude.{◌≡◌, ◌<◌, Ok, nat_le};
ghost use Rattle.book_model.specs.Journal.{ChoiceOf};
ghost use Rattle.book_model.specs.Words.{most_choices, Naming, note_given, withhold_outcome};
ghost use Rattle.table_model.specs.TableChanges as change;
ghost use Rattle.table_model.specs.RulingsRead.{withheld_by};
ghost use Rattle.tree_tables.specs.States.{state_of};
ghost use Rattle.tree_tables.specs.Steps.{Looks};
ghost use Rattle.tree_tables.specs.Stored.{stored_entry};
ghost use Rattle.table_ledger.specs.ChoiceReads.{FindsWithdrawn};
ghost use Rattle.table_ledger.specs.Entries.{DoesRuling};
ghost use Rattle.table_ledger.specs.Premises.{IsNext};
ghost use Rattle.table_ledger.specs.Stages.{AttemptsOne};

use crate::choices::withdraw;
use crate::commits::commit_written;
use crate::effects::member_of;
use crate::entries::enter;
use crate::summary::Summary;
use crate::withheld::is_withheld;
use book_core::{Effects, LedgerFault, MAX_CHOICES, Ruled, is_done, plan_withheld};
use book_model::{Note, Place};
use sqlite_trees::error::StoreError;
use sqlite_trees::store::Store;
use std::alloc::Global;
use tree_tables::{StoredRecord, TreeTables};

/// A choice of none as it is written: its number, the period that is open, the name of a record of
/// the work, and what it changes.
#[derive(Clone, Copy)]
pub(crate) struct NoneChoice {
    pub(crate) number: u32,
    pub(crate) period: u16,
    pub(crate) name: [u8; 32],
    pub(crate) withdrawn: Option<Effects>,
}

/// What the choice of none changes: the record of the identity that was charged until now, if there
/// was one, is no longer charged.
pub(crate) fn look_for_withdrawn<S: Store>(
    tables: &mut TreeTables<S>,
    alloc: Global,
    through: Option<i32>,
    stored: &StoredRecord,
) -> Result<Option<Effects>, StoreError>
    ensures looks { Looks result (state_of tables.old) (state_of tables.new)
        (FindsWithdrawn through (stored_entry stored.now)) }
{
    let current = tables.find_charged(alloc, &stored.identity)?;
    let current = match &current {
        Some(charged) => Some(member_of(charged)),
        None => None,
    };
    Ok(plan_withheld(through, current))
}

/// Writes a choice of none, and its entry.
pub(crate) fn write_none<S: Store>(
    tables: &mut TreeTables<S>,
    choice: &NoneChoice,
    note: &Option<Note>,
) -> Result<(), StoreError>
    ensures { DoesRuling result (state_of tables.old) (state_of tables.new)
        (IsNext choice.now.number)
        (change.put_withheld choice.now.number choice.now.period choice.now.name
        choice.now.withdrawn) (note_given note.now) (ChoiceOf choice.now.number) }
{
    withdraw(tables, choice.period, &choice.withdrawn)?;
    tables.put_choice(choice.number, &choice.name, false, choice.period)?;
    enter(tables, note, Place::Choice(choice.number))
}

/// The answer to the choice of none of a work, by whether it is withheld, and how many choices were
/// made.
pub(crate) fn withheld_answer(withheld: bool, made: u32) -> Result<Ruled, LedgerFault>
    ensures answer { result ≡ withheld_by withheld (nat_le most_choices made) }
    ensures room { result ≡ Ok Ruled.Done → made < most_choices }
{
    if withheld {
        return Ok(Ruled::Already);
    }
    if made as usize >= MAX_CHOICES {
        return Err(LedgerFault::Full);
    }
    Ok(Ruled::Done)
}

/// Answers the choice of none of the work of a record, by the name of that, and keeps it if the
/// work is not withheld now.
pub(crate) fn try_withhold<S: Store>(
    tables: &mut TreeTables<S>,
    alloc: Global,
    summary: &mut Summary,
    name: [u8; 32],
    note: &Option<Note>,
) -> Result<Result<Ruled, LedgerFault>, StoreError>
    ensures tries { (naming : Naming) → AttemptsOne (λ ruled. ruled) naming summary.old summary.new
        (state_of tables.old) (state_of tables.new)
        (withhold_outcome naming (note_given note.now) name) result }
{
    let Some(stored) = tables.find_record(alloc, &name)? else {
        return Ok(Err(LedgerFault::NoSuchRecord));
    };
    let withheld = is_withheld(tables, alloc, &stored.identity)?;
    let answer = withheld_answer(withheld, summary.choices);
    if !is_done(&answer) {
        return Ok(answer);
    }
    let withdrawn = look_for_withdrawn(tables, alloc, summary.rulings.last_close(), &stored)?;
    let choice = NoneChoice {
        number: summary.choices + 1,
        period: summary.rulings.open_number(),
        name,
        withdrawn,
    };
    let written = write_none(tables, &choice, note);
    commit_written(tables, written)?;
    summary.choices += 1;
    Ok(Ok(Ruled::Done))
}
