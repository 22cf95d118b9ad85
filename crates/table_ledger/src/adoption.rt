//! The second rule of identity, which an office adopts once.

ghost use Rattle.std.specs.Prelude.{◌≡◌};
ghost use Rattle.book_model.specs.Journal.{AdoptionOf};
ghost use Rattle.book_model.specs.Words.{Naming, adopt_outcome, note_given};
ghost use Rattle.table_model.specs.Changed.{adopted_at};
ghost use Rattle.table_model.specs.TableChanges.{charge_each_due};
ghost use Rattle.table_model.specs.Views.{is_due_in};
ghost use Rattle.tree_tables.specs.States.{state_of};
ghost use Rattle.tree_tables.specs.Steps.{Always, Does, Looks};
ghost use Rattle.tree_tables.specs.Stored.{IsAsRead};
ghost use Rattle.table_ledger.specs.Adoptions.{IsLast, charge_where_due};
ghost use Rattle.table_ledger.specs.Entries.{DoesRuling};
ghost use Rattle.table_ledger.specs.Stages.{AttemptsOne};

use crate::choices::charge;
use crate::chosen::{Chosen, look_for_chosen};
use crate::commits::commit_written;
use crate::effects::member_of;
use crate::entries::enter;
use crate::summary::Summary;
use book_core::{LedgerFault, Ruled, is_done, plan_charge};
use book_model::{Note, Place};
use sqlite_trees::error::StoreError;
use sqlite_trees::store::Store;
use std::alloc::Global;
use tree_tables::{MOST_STEPS, SECOND_RULE, StoredRecord, TreeTables};

/// A record is to be charged: its work is not withheld, and it is alone in its identity, or is the
/// one that was named last.
fn is_due<S: Store>(
    tables: &mut TreeTables<S>,
    alloc: Global,
    chosen: &Chosen,
    stored: &StoredRecord,
) -> Result<bool, StoreError>
    ensures looks { Looks result (state_of tables.old) (state_of tables.new)
        (λ tables due. IsAsRead stored.now tables → IsLast chosen.now tables
        → due ≡ is_due_in tables stored.now.name) }
{
    if chosen.withholds(&stored.identity) {
        return Ok(false);
    }
    if chosen.is_last(&stored.identity, &stored.name) {
        return Ok(true);
    }
    let sharing = tables.count_sharing(alloc, &stored.identity)?;
    Ok(sharing == 1)
}

/// Charges a record that is not charged, if it is to be.
fn charge_due_record<S: Store>(
    tables: &mut TreeTables<S>,
    alloc: Global,
    period: u16,
    through: Option<i32>,
    chosen: &Chosen,
    stored: &StoredRecord,
) -> Result<(), StoreError>
    ensures does { Does result (state_of tables.old) (state_of tables.new)
        (λ tables. IsAsRead stored.now tables × IsLast chosen.now tables)
        (charge_where_due period through stored.now.name) }
{
    if stored.charged {
        return Ok(());
    }
    if !is_due(tables, alloc, chosen, stored)? {
        return Ok(());
    }
    let effects = plan_charge(through, &member_of(stored));
    charge(tables, period, &stored.name, &effects)
}

/// Charges each record that is not charged and is to be.
fn charge_all_due<S: Store>(
    tables: &mut TreeTables<S>,
    alloc: Global,
    period: u16,
    through: Option<i32>,
    chosen: &Chosen,
) -> Result<(), StoreError>
    ensures does { Does result (state_of tables.old) (state_of tables.new) (IsLast chosen.now)
        (charge_each_due period through) }
{
    let mut last = None;
    'records: for _ in 0..MOST_STEPS {
        let Some(stored) = tables.find_next(alloc, last)? else {
            return Ok(());
        };
        charge_due_record(tables, alloc, period, through, chosen, &stored)?;
        last = Some(stored.name);
    }
    // Only a disk that lies has more rows.
    Err(StoreError::Corrupt)
}

/// Charges each record that is not charged and is to be, by the choices.
fn charge_due<S: Store>(
    tables: &mut TreeTables<S>,
    alloc: Global,
    period: u16,
    through: Option<i32>,
) -> Result<(), StoreError>
    ensures does { Does result (state_of tables.old) (state_of tables.new) Always
        (charge_each_due period through) }
{
    let chosen = look_for_chosen(tables, alloc)?;
    charge_all_due(tables, alloc, period, through, &chosen)
}

/// Writes the second rule: the identities, what is charged by them, the row of the book, and the
/// entry.
fn write_adoption<S: Store>(
    tables: &mut TreeTables<S>,
    alloc: Global,
    period: u16,
    through: Option<i32>,
    note: &Option<Note>,
) -> Result<(), StoreError>
    ensures { DoesRuling result (state_of tables.old) (state_of tables.new) Always
        (adopted_at period through) (note_given note.now) AdoptionOf }
{
    tables.rename_records(alloc)?;
    charge_due(tables, alloc, period, through)?;
    tables.set_rule(SECOND_RULE, period)?;
    enter(tables, note, Place::Adoption)
}

/// Answers a rule of identity, and adopts it if it is the second and the first is in force.
pub(crate) fn try_adopt<S: Store>(
    tables: &mut TreeTables<S>,
    alloc: Global,
    summary: &mut Summary,
    rule: u8,
    note: &Option<Note>,
) -> Result<Result<Ruled, LedgerFault>, StoreError>
    ensures tries { (naming : Naming) → AttemptsOne (λ ruled. ruled) naming summary.old summary.new
        (state_of tables.old) (state_of tables.new)
        (adopt_outcome (note_given note.now) rule) result }
{
    let answer = summary.rulings.adopt_answer(rule);
    if !is_done(&answer) {
        return Ok(answer);
    }
    let period = summary.rulings.open_number();
    let written = write_adoption(tables, alloc, period, summary.rulings.last_close(), note);
    commit_written(tables, written)?;
    summary.rulings.adopt();
    Ok(Ok(Ruled::Done))
}
