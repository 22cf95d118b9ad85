//! Works that are withheld together, in one commit.

ghost use Rattle.std.specs.Prelude.{◌≡◌, ◌<◌, ◌≤◌, ◌+◌, [], IfOk, Ok, length};
ghost use Rattle.book_model.specs.Words.{Naming, note_given, withhold_outcome};
ghost use Rattle.book_core.specs.Withholdings.{withheld_of};
ghost use Rattle.tree_tables.specs.States.{state_of};
ghost use Rattle.table_ledger.specs.Stages.{StagesAs, most_in_commit};
ghost use Rattle.table_ledger.specs.WithheldTogether.{AttemptsWorks, KeepsButChoices, StagesAsOne};
ghost use Rattle.table_ledger.specs.WithheldTogether.{StagesWorks};

use crate::commits::commit_written;
use crate::summary::Summary;
use crate::withheld::is_withheld;
use crate::withholding::{NoneChoice, look_for_withdrawn, withheld_answer, write_none};
use book_core::{LedgerFault, Note, Ruled, Withheld, is_done, with_answer, work_answer};
use sqlite_trees::error::StoreError;
use sqlite_trees::store::Store;
use std::alloc::Global;
use tree_tables::TreeTables;

/// Answers the choice of none of the work of a record, by the name of that, and writes it inside the
/// transaction if the work is not withheld.
fn stage_withheld<S: Store>(
    tables: &mut TreeTables<S>,
    alloc: Global,
    summary: &mut Summary,
    name: [u8; 32],
    note: &Option<Note>,
) -> Result<Result<Ruled, LedgerFault>, StoreError>
    ensures stages { (naming : Naming) → StagesAs (λ tables. tables) (λ ruled. ruled) naming
        summary.old summary.new (state_of tables.old) (state_of tables.new)
        (withhold_outcome naming (note_given note.now) name) result }
    ensures kept { KeepsButChoices summary.old summary.new }
{
    let Some(stored) = tables.find_record(alloc, &name)? else {
        return Ok(Err(LedgerFault::NoSuchRecord));
    };
    let withheld = is_withheld(tables, alloc, &stored.identity)?;
    let answer = withheld_answer(withheld, summary.choices);
    if !is_done(&answer) {
        return Ok(answer);
    }
    let withdrawn = look_for_withdrawn(tables, alloc, summary.rulings.last_close(), &stored)?;
    let choice = NoneChoice {
        number: summary.choices + 1,
        period: summary.rulings.open_number(),
        name,
        withdrawn,
    };
    write_none(tables, &choice, note)?;
    summary.choices += 1;
    Ok(Ok(Ruled::Done))
}

/// Answers the choices of none of works inside the transaction, in order, up to the first that is
/// refused though its record is held, and says why that one is.
fn stage_works<S: Store>(
    tables: &mut TreeTables<S>,
    alloc: Global,
    summary: &mut Summary,
    names: &[[u8; 32]],
    note: &Option<Note>,
    counts: &mut Withheld,
) -> Result<Result<(), LedgerFault>, StoreError>
    requires few { length names.now ≤ most_in_commit }
    requires none { counts.old ≡ withheld_of [] }
    ensures stages { (naming : Naming) → StagesWorks naming (note_given note.now) names.now
        summary.old summary.new (state_of tables.old) (state_of tables.new) counts.new result }
    ensures kept { KeepsButChoices summary.old summary.new }
    ensures all { IfOk result (λ told. told ≡ Ok tt → counts.new.taken ≡ length names.now) }
    ensures few { counts.new.taken ≤ length names.now }
    ensures done { counts.new.done + counts.new.absent ≤ counts.new.taken }
{
    for name in names {
        let told = stage_withheld(tables, alloc, summary, *name, note)?;
        match work_answer(told) {
            Err(fault) => return Ok(Err(fault)),
            Ok(answer) => *counts = with_answer(*counts, answer),
        }
    }
    Ok(Ok(()))
}

/// The same, as one answer: how many works were taken, or why the first one is refused.
fn stage_together<S: Store>(
    tables: &mut TreeTables<S>,
    alloc: Global,
    summary: &mut Summary,
    names: &[[u8; 32]],
    note: &Option<Note>,
) -> Result<Result<Withheld, LedgerFault>, StoreError>
    requires some { 0 < length names.now }
    requires few { length names.now ≤ most_in_commit }
    ensures stages { (naming : Naming) → StagesAsOne naming (note_given note.now) names.now
        summary.old summary.new (state_of tables.old) (state_of tables.new) result }
    ensures kept { KeepsButChoices summary.old summary.new }
    ensures some { IfOk result (λ answer. IfOk answer (λ told. 0 < told.taken)) }
    ensures few { IfOk result (λ answer. IfOk answer (λ told. told.taken ≤ length names.now)) }
    ensures done { IfOk result (λ answer. IfOk answer (λ told.
        told.done + told.absent ≤ told.taken)) }
{
    let mut counts = Withheld {
        taken: 0,
        done: 0,
        absent: 0,
    };
    let told = stage_works(tables, alloc, summary, names, note, &mut counts)?;
    let Err(fault) = told else {
        return Ok(Ok(counts));
    };
    if counts.taken == 0 {
        return Ok(Err(fault));
    }
    Ok(Ok(counts))
}

/// Withholds works, in order, as one commit, up to the first that is refused.
pub(crate) fn try_withhold_many<S: Store>(
    tables: &mut TreeTables<S>,
    alloc: Global,
    summary: &mut Summary,
    names: &[[u8; 32]],
    note: &Option<Note>,
) -> Result<Result<Withheld, LedgerFault>, StoreError>
    requires some { 0 < length names.now }
    requires few { length names.now ≤ most_in_commit }
    ensures tries { (naming : Naming) → AttemptsWorks naming (note_given note.now) names.now
        summary.old summary.new (state_of tables.old) (state_of tables.new) result }
    ensures some { IfOk result (λ answer. IfOk answer (λ told. 0 < told.taken)) }
    ensures few { IfOk result (λ answer. IfOk answer (λ told. told.taken ≤ length names.now)) }
    ensures done { IfOk result (λ answer. IfOk answer (λ told.
        told.done + told.absent ≤ told.taken)) }
{
    let choices = summary.choices;
    let staged = stage_together(tables, alloc, summary, names, note);
    match commit_written(tables, staged) {
        Ok(answer) => Ok(answer),
        Err(error) => {
            // What was written is rolled back.
            summary.choices = choices;
            Err(error)
        }
    }
}
