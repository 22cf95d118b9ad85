//! Choices among the records of an identity.

ghost use Rattle.std.specs.Prelude.{◌≡◌, ◌<◌, ◌==◌, ◌&&◌, Ok, nat_le, not};
ghost use Rattle.std.specs.Option.{option_map_or};
ghost use Rattle.book_model.specs.Journal.{ChoiceOf};
ghost use Rattle.book_model.specs.Words.{choose_outcome, most_choices, Naming, note_given};
ghost use Rattle.table_model.specs.TableChanges as change;
ghost use Rattle.table_model.specs.RulingsRead.{chosen_by};
ghost use Rattle.tree_tables.specs.States.{state_of};
ghost use Rattle.tree_tables.specs.Steps.{Always, Does, Looks};
ghost use Rattle.tree_tables.specs.Stored.{stored_entry};
ghost use Rattle.table_ledger.specs.ChoiceReads.{FindsChoiceEffects};
ghost use Rattle.table_ledger.specs.Entries.{DoesRuling};
ghost use Rattle.table_ledger.specs.Premises.{IsNext};
ghost use Rattle.table_ledger.specs.Stages.{AttemptsOne};

use crate::commits::{commit_written, write_counted, write_effects};
use crate::effects::member_of;
use crate::entries::enter;
use crate::summary::Summary;
use crate::withheld::was_withheld;
use book_core::{ChoiceEffects, Effects, LedgerFault, MAX_CHOICES, Ruled, is_done, plan_choice};
use book_model::{Note, Place};
use sqlite_trees::error::StoreError;
use sqlite_trees::store::Store;
use std::alloc::Global;
use tree_tables::{StoredRecord, TreeTables};

/// A choice as it is written: its number, the period that is open, the name of the record, and what
/// it changes there.
#[derive(Clone, Copy)]
pub(crate) struct Choice {
    pub(crate) number: u32,
    pub(crate) period: u16,
    pub(crate) name: [u8; 32],
    pub(crate) effects: ChoiceEffects,
}

/// What the choice of a record changes, by the record of its identity that was charged until now.
fn look_for_choice<S: Store>(
    tables: &mut TreeTables<S>,
    alloc: Global,
    through: Option<i32>,
    stored: &StoredRecord,
) -> Result<ChoiceEffects, StoreError>
    ensures looks { Looks result (state_of tables.old) (state_of tables.new)
        (FindsChoiceEffects through (stored_entry stored.now)) }
{
    let current = tables.find_charged(alloc, &stored.identity)?;
    let current = match &current {
        Some(charged) => Some(member_of(charged)),
        None => None,
    };
    Ok(plan_choice(through, current, &member_of(stored)))
}

/// The record that was charged until now, if there was one, is no longer charged.
pub(crate) fn withdraw<S: Store>(
    tables: &mut TreeTables<S>,
    period: u16,
    withdrawn: &Option<Effects>,
) -> Result<(), StoreError>
    ensures does { Does result (state_of tables.old) (state_of tables.new) Always
        (λ tables. option_map_or (λ gone. change.apply period gone tables) withdrawn.now tables) }
{
    match withdrawn {
        Some(gone) => write_effects(tables, period, gone),
        None => Ok(()),
    }
}

/// A record that is held becomes charged.
pub(crate) fn charge<S: Store>(
    tables: &mut TreeTables<S>,
    period: u16,
    name: &[u8; 32],
    effects: &Effects,
) -> Result<(), StoreError>
    ensures does { Does result (state_of tables.old) (state_of tables.new) Always
        (change.charge_in period name.now effects.now) }
{
    write_effects(tables, period, effects)?;
    tables.mark_record(name)?;
    write_counted(tables, &effects.day, name)
}

/// Writes a choice, and its entry.
fn write_choice<S: Store>(
    tables: &mut TreeTables<S>,
    choice: &Choice,
    note: &Option<Note>,
) -> Result<(), StoreError>
    ensures { DoesRuling result (state_of tables.old) (state_of tables.new)
        (IsNext choice.now.number)
        (change.put_choice choice.now.number choice.now.period choice.now.name choice.now.effects)
        (note_given note.now) (ChoiceOf choice.now.number) }
{
    withdraw(tables, choice.period, &choice.effects.withdrawn)?;
    charge(tables, choice.period, &choice.name, &choice.effects.chosen)?;
    tables.put_choice(choice.number, &choice.name, true, choice.period)?;
    enter(tables, note, Place::Choice(choice.number))
}

/// The answer to the choice of a record, by how many were found of its identity, whether its work
/// was ever withheld, and how many choices were made: of two or more records of one identity, or of
/// one that was withheld, the one that is charged is the choice now.
fn choice_answer(
    stored: &StoredRecord,
    sharing: usize,
    ever: bool,
    made: u32,
) -> Result<Ruled, LedgerFault>
    ensures answer { result ≡ chosen_by (sharing == 1 && not ever) stored.now.charged
        (nat_le most_choices made) }
    ensures room { result ≡ Ok Ruled.Done → made < most_choices }
{
    if sharing == 1 && !ever {
        return Err(LedgerFault::NotDisputed);
    }
    if stored.charged {
        return Ok(Ruled::Already);
    }
    if made as usize >= MAX_CHOICES {
        return Err(LedgerFault::Full);
    }
    Ok(Ruled::Done)
}

/// Answers the choice of a record by its name, and keeps it if the record is one of two or more
/// of its identity, or its work was withheld, and it is not the one that is chosen now.
pub(crate) fn try_choose<S: Store>(
    tables: &mut TreeTables<S>,
    alloc: Global,
    summary: &mut Summary,
    name: [u8; 32],
    note: &Option<Note>,
) -> Result<Result<Ruled, LedgerFault>, StoreError>
    ensures tries { (naming : Naming) → AttemptsOne (λ ruled. ruled) naming summary.old summary.new
        (state_of tables.old) (state_of tables.new)
        (choose_outcome naming (note_given note.now) name) result }
{
    let Some(stored) = tables.find_record(alloc, &name)? else {
        return Ok(Err(LedgerFault::NoSuchRecord));
    };
    let sharing = tables.count_sharing(alloc, &stored.identity)?;
    let ever = was_withheld(tables, alloc, &stored.identity)?;
    let answer = choice_answer(&stored, sharing, ever, summary.choices);
    if !is_done(&answer) {
        return Ok(answer);
    }
    let effects = look_for_choice(tables, alloc, summary.rulings.last_close(), &stored)?;
    let choice = Choice {
        number: summary.choices + 1,
        period: summary.rulings.open_number(),
        name,
        effects,
    };
    let written = write_choice(tables, &choice, note);
    commit_written(tables, written)?;
    summary.choices += 1;
    Ok(Ok(Ruled::Done))
}
