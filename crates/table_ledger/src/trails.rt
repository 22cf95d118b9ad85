//! The trail of a record: how its price came about, the records of its identity with the choices
//! among them, and its life.

ghost use Rattle.std.specs.Prelude.{◌≡◌, ◌≤◌, ◌-◌, ◌++◌, All, IfOk, OnOk, map, suc};
ghost use Rattle.book_core.specs.OfficeRulings.{ruled_in};
ghost use Rattle.book_model.specs.Words.{IsDay, IsTrail, Naming, trail_outcome, trail_shown};
ghost use Rattle.book_model.specs.Words.{turn_if};
ghost use Rattle.table_model.specs.TrailRead.{life_read, line_turn, line_turns};
ghost use Rattle.tree_tables.specs.States.{state_of};
ghost use Rattle.tree_tables.specs.Steps.{Looks};
ghost use Rattle.tree_tables.specs.Stored.{choice_entry, stored_entry};
ghost use Rattle.table_ledger.specs.Stages.{AttemptsOne};
ghost use Rattle.table_ledger.specs.TrailReads as reads;
ghost use Rattle.table_ledger.specs.TrailReads.{AreInOrder, IsKin, ListsKinChoices, choice_told};
ghost use Rattle.table_ledger.specs.TrailReads.{chosen_of};

use crate::disputes::{can_show, variants};
use crate::summary::Summary;
use book_core::{Deed, LedgerFault, NamedChoice, Trail, Turn, Variant, reckon_in};
use smf_type30::Type30;
use sqlite_trees::error::StoreError;
use sqlite_trees::store::Store;
use std::alloc::{AllocError, Global};
use tree_tables::{LineKey, StoredChoice, StoredRecord, TreeTables, usage_bytes};

/// What a period did with a record by its line, if it has one, joins what earlier periods did.
fn push_turn(turns: &mut Vec<Turn>, period: u16, line: Option<bool>) -> Result<(), AllocError>
    ensures { OnOk result (turns.new.items ≡ turns.old.items ++ line_turn period line) }
{
    match line {
        None => return Ok(()),
        Some(true) => turns.push(Turn {
            period,
            deed: Deed::Added,
        })?,
        Some(false) => turns.push(Turn {
            period,
            deed: Deed::Reversed,
        })?,
    }
    Ok(())
}

/// What the periods after one did with a record, up to the last: one look a period.
fn later_turns<S: Store>(
    tables: &mut TreeTables<S>,
    alloc: Global,
    name: &[u8; 32],
    after: u16,
    last: u16,
) -> Result<Vec<Turn>, StoreError>
    requires { after ≤ last }
    ensures looks { Looks result (state_of tables.old) (state_of tables.new)
        (λ tables turns. turns.items ≡ line_turns tables.lines name.now (suc after)
        (last - after)) }
{
    let mut turns = Vec::new(alloc);
    let mut period = after;
    while period < last {
        period += 1;
        let line = tables.find_line(&LineKey { period, name })?;
        push_turn(&mut turns, period, line)?;
    }
    Ok(turns)
}

/// A record was charged before some periods, by whether it is charged after them, and by what they
/// did: charges and reversals take turns, so the first of them tells.
fn charged_before(charged: bool, later: &[Turn]) -> bool
    ensures { result ≡ reads.charged_before charged later.now }
{
    match later.first() {
        Some(turn) => turn.deed == Deed::Reversed,
        None => charged,
    }
}

/// What a period did with a record that it counts, or not, comes before what later periods did.
fn put_first(turns: &mut Vec<Turn>, period: u16, counted: bool) -> Result<(), AllocError>
    ensures { OnOk result (turns.new.items
        ≡ turn_if counted period Deed.Charged ++ turns.old.items) }
{
    if counted {
        turns.insert(
            0,
            Turn {
                period,
                deed: Deed::Charged,
            },
        )?;
    }
    Ok(())
}

/// The life of a record: only the period that its day belongs to counts it, and only those after
/// that have lines for it.
pub(crate) fn look_for_life<S: Store>(
    tables: &mut TreeTables<S>,
    alloc: Global,
    summary: &Summary,
    stored: &StoredRecord,
) -> Result<Vec<Turn>, StoreError>
    ensures looks { Looks result (state_of tables.old) (state_of tables.new)
        (λ tables life. life.items ≡ life_read (ruled_in summary.now.rulings) tables.lines
        (stored_entry stored.now)) }
{
    let own = summary.rulings.period_of_day(&stored.priced.day);
    let last = summary.rulings.open_number();
    let mut turns = later_turns(tables, alloc, &stored.name, own, last)?;
    let counted = charged_before(stored.charged, &turns);
    put_first(&mut turns, own, counted)?;
    Ok(turns)
}

/// The choices that name one of some records, record by record.
fn chosen_among<S: Store>(
    tables: &mut TreeTables<S>,
    alloc: Global,
    rows: &[StoredRecord],
) -> Result<Vec<StoredChoice>, StoreError>
    ensures looks { Looks result (state_of tables.old) (state_of tables.new)
        (λ tables found. map choice_entry found.items ≡ chosen_of rows.now tables) }
{
    let mut all = Vec::new(alloc);
    for stored in rows {
        let chosen = tables.list_chosen(alloc, &stored.name)?;
        all.extend_from_slice(&chosen)?;
    }
    Ok(all)
}

/// Some choices in the order of their numbers.
fn in_order(choices: Vec<StoredChoice>) -> Result<Vec<StoredChoice>, AllocError>
    ensures { IfOk result (λ sorted. AreInOrder choices.items sorted.items) }
{
    let mut choices = choices;
    choices.sort_by_key(|choice| choice.number)?;
    Ok(choices)
}

/// Choices as a trail shows them.
fn told(alloc: Global, choices: &[StoredChoice]) -> Result<Vec<NamedChoice>, AllocError>
    ensures { IfOk result (λ told. told.items ≡ map choice_told choices.now) }
{
    let mut told = Vec::new(alloc);
    for choice in choices {
        told.push(NamedChoice {
            period: choice.period,
            name: choice.name,
            counts: choice.counts,
        })?;
    }
    Ok(told)
}

/// The choices that name one of the records of an identity, which are these.
pub(crate) fn choices_among<S: Store>(
    tables: &mut TreeTables<S>,
    alloc: Global,
    rows: &[StoredRecord],
) -> Result<Vec<NamedChoice>, StoreError>
    ensures looks { Looks result (state_of tables.old) (state_of tables.new)
        (λ tables choices. ListsKinChoices rows.now tables choices.items) }
{
    let found = chosen_among(tables, alloc, rows)?;
    let sorted = in_order(found)?;
    Ok(told(alloc, &sorted)?)
}

/// The records of an identity, by name, and the choices among them.
#[derive(Drop)]
struct Kin {
    members: Vec<Variant>,
    choices: Vec<NamedChoice>,
}

/// The records that have an identity, and the choices that name one of them.
fn look_for_kin<S: Store>(
    tables: &mut TreeTables<S>,
    alloc: Global,
    identity: &[u8],
) -> Result<Kin, StoreError>
    ensures looks { Looks result (state_of tables.old) (state_of tables.new) (IsKin identity.now) }
    ensures shown { IfOk result (λ kin.
        All (λ member. IsDay member.priced.day) kin.members.items) }
{
    let rows = tables.list_sharing(alloc, identity)?;
    if !can_show(&rows) {
        return Err(StoreError::Corrupt);
    }
    let members = variants(alloc, &rows)?;
    let choices = choices_among(tables, alloc, &rows)?;
    Ok(Kin { members, choices })
}

/// The trail of the record of a name: its row, the rows of its identity, the choices that name one
/// of those, and one look a period for its lines.
pub(crate) fn try_trail_of<S: Store>(
    tables: &mut TreeTables<S>,
    summary: &Summary,
    alloc: Global,
    name: &[u8; 32],
) -> Result<Result<Trail, LedgerFault>, StoreError>
    ensures tries { (naming : Naming) → AttemptsOne trail_shown naming summary.now summary.now
        (state_of tables.old) (state_of tables.new) (trail_outcome naming name.now) result }
    ensures shown { IfOk result (λ answer. IfOk answer (λ trail. IsTrail (trail_shown trail))) }
{
    let Some(stored) = tables.find_record(alloc, name)? else {
        return Ok(Err(LedgerFault::NoSuchRecord));
    };
    let bytes = usage_bytes(alloc, &stored.data_bytes)?;
    let usage = Type30::of_usage(&bytes);
    let Some(reckoning) = reckon_in(summary.rulings.tariffs(), &usage) else {
        return Ok(Err(LedgerFault::NoSuchRecord));
    };
    let kin = look_for_kin(tables, alloc, &stored.identity)?;
    let life = look_for_life(tables, alloc, summary, &stored)?;
    Ok(Ok(Trail {
        bytes,
        period: summary.rulings.period_of_day(&stored.priced.day),
        reckoning,
        members: kin.members,
        choices: kin.choices,
        life,
    }))
}
