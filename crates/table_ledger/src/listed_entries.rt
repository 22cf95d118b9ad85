//! The journal, an entry at a time.

ghost use Rattle.std.specs.Prelude.{◌≡◌, ◌<◌, ◌+◌, IfOk, option_map, string_bytes};
ghost use Rattle.std.specs.Ordering.{int_eq};
ghost use Rattle.book_model.specs.Words.{Naming, ShowsActDays, ShowsDays, ShowsEntryDays};
ghost use Rattle.book_model.specs.Words.{act_listed, entry_outcome, entry_shown, place_shown};
ghost use Rattle.book_model.specs.Words.{ruling_shown};
ghost use Rattle.book_core.specs.OfficeRulings.{ruled_in};
ghost use Rattle.table_model.specs.ListsRead.{choice_read_at};
ghost use Rattle.tree_tables.specs.JournalColumns.{act_stored};
ghost use Rattle.tree_tables.specs.States.{state_of};
ghost use Rattle.tree_tables.specs.Stored.{replaced_entry};
ghost use Rattle.tree_tables.specs.Steps.{Looks};
ghost use Rattle.table_ledger.specs.EntryReads.{FindsText, ShowsAct, ShowsBrought, ShowsPlace};
ghost use Rattle.table_ledger.specs.EntryReads.{ShowsReplacement, brought_by};
ghost use Rattle.table_ledger.specs.RulingLooks.{credit_read_at};
ghost use Rattle.table_ledger.specs.Stages.{AttemptsOne};

use crate::days::is_day;
use crate::listed_rulings::{look_for_choice, look_for_credit};
use crate::summary::Summary;
use book_core::{LedgerFault, ListedEntry, ListedRuling, Rulings};
use book_model::{ListedAct, Place};
use sqlite_trees::error::StoreError;
use sqlite_trees::store::Store;
use std::alloc::Global;
use tree_tables::{StoredAct, StoredReplaced, TreeTables};

/// A tariff that was replaced begins on the day.
fn began_on(tariff: &StoredReplaced, day: i32) -> bool
    ensures { result ≡ int_eq day (replaced_entry tariff.now).1.day }
{
    day == tariff.day
}

/// The text of the first tariff of a day among those that were replaced, so many in all, behind as
/// many as the number says.
fn look_for_text<S: Store>(
    tables: &mut TreeTables<S>,
    alloc: Global,
    day: i32,
    number: u32,
    count: u32,
) -> Result<Option<String>, StoreError>
    ensures looks { Looks result (state_of tables.old) (state_of tables.new) (λ tables text.
        FindsText day number count tables (option_map (λ text. string_bytes text) text)) }
{
    let mut passed = number;
    'rows: while passed < count {
        let Some(tariff) = tables.find_replaced(alloc, passed + 1)? else {
            return Err(StoreError::Corrupt);
        };
        if began_on(&tariff, day) {
            return Ok(Some(tariff.body));
        }
        passed += 1;
    }
    Ok(None)
}

/// The tariff of a day by the text of one that was replaced, or the one in force.
fn listed_by(
    alloc: Global,
    rulings: &Rulings,
    day: i32,
    text: Option<String>,
) -> Result<Option<ListedRuling>, StoreError>
    ensures shown { IfOk result (λ found. option_map ruling_shown found ≡ brought_by day
        (ruled_in rulings.now).tariffs (option_map (λ text. string_bytes text) text)) }
    ensures days { IfOk result ShowsDays }
{
    if !is_day(day) {
        return Err(StoreError::Corrupt);
    }
    match text {
        Some(text) => Ok(Some(ListedRuling::Tariff { day, text })),
        None => Ok(rulings.listed_on(alloc, day)?),
    }
}

/// The tariff of a day that came first, or in the place of the one that was replaced under a
/// number: it is the next of that day that was replaced, or the one in force.
fn look_for_brought<S: Store>(
    tables: &mut TreeTables<S>,
    summary: &Summary,
    alloc: Global,
    day: i32,
    number: u32,
) -> Result<Option<ListedRuling>, StoreError>
    ensures looks { Looks result (state_of tables.old) (state_of tables.new) (λ tables found.
        ShowsBrought summary.now day number tables (option_map ruling_shown found)) }
    ensures days { IfOk result ShowsDays }
{
    let text = look_for_text(tables, alloc, day, number, summary.replaced)?;
    let found = listed_by(alloc, &summary.rulings, day, text)?;
    Ok(found)
}

/// The tariff that came in the place of the one that was replaced under a number.
fn look_for_replacement<S: Store>(
    tables: &mut TreeTables<S>,
    summary: &Summary,
    alloc: Global,
    number: u32,
) -> Result<Option<ListedRuling>, StoreError>
    ensures looks { Looks result (state_of tables.old) (state_of tables.new) (λ tables found.
        ShowsReplacement summary.now number tables (option_map ruling_shown found)) }
    ensures days { IfOk result ShowsDays }
{
    if number == 0 {
        return Err(StoreError::Corrupt);
    }
    let Some(tariff) = tables.find_replaced(alloc, number)? else {
        return Err(StoreError::Corrupt);
    };
    let found = look_for_brought(tables, summary, alloc, tariff.day, number)?;
    Ok(found)
}

/// The place of a number from 1 among so many, from 0.
fn place_among(number: u32, count: u32) -> Result<u32, StoreError>
    ensures its { IfOk result (λ place. number ≡ place + 1) }
    ensures there { IfOk result (λ place. place < count) }
{
    if number == 0 || number > count {
        return Err(StoreError::Corrupt);
    }
    Ok(number - 1)
}

/// The choice of a number.
fn look_for_numbered<S: Store>(
    tables: &mut TreeTables<S>,
    summary: &Summary,
    number: u32,
) -> Result<Option<ListedRuling>, StoreError>
    ensures looks { Looks result (state_of tables.old) (state_of tables.new) (λ tables found.
        (0 < number) × (option_map ruling_shown found ≡ choice_read_at number tables.choices)) }
    ensures days { IfOk result ShowsDays }
{
    let place = place_among(number, summary.choices)?;
    let ruling = look_for_choice(tables, place)?;
    Ok(Some(ruling))
}

/// The credit of a number.
fn look_for_numbered_credit<S: Store>(
    tables: &mut TreeTables<S>,
    summary: &Summary,
    alloc: Global,
    number: u32,
) -> Result<Option<ListedRuling>, StoreError>
    ensures looks { Looks result (state_of tables.old) (state_of tables.new) (λ tables found.
        (0 < number) × (option_map ruling_shown found ≡ credit_read_at number tables.credits)) }
    ensures days { IfOk result ShowsDays }
{
    let place = place_among(number, summary.credits)?;
    let ruling = look_for_credit(tables, alloc, place)?;
    Ok(Some(ruling))
}

/// The ruling that stands at a place.
fn look_for_place<S: Store>(
    tables: &mut TreeTables<S>,
    summary: &Summary,
    alloc: Global,
    place: Place,
) -> Result<Option<ListedRuling>, StoreError>
    ensures looks { Looks result (state_of tables.old) (state_of tables.new) (λ tables found.
        ShowsPlace summary.now (place_shown place) tables (option_map ruling_shown found)) }
    ensures days { IfOk result ShowsDays }
{
    match place {
        Place::Tariff(day) => look_for_brought(tables, summary, alloc, day, 0),
        Place::Close(period) => Ok(summary.rulings.listed_close(period)),
        Place::Choice(number) => look_for_numbered(tables, summary, number),
        Place::Adoption => Ok(summary.rulings.listed_adoption()),
        Place::Replacement(number) => look_for_replacement(tables, summary, alloc, number),
        Place::Credit(number) => look_for_numbered_credit(tables, summary, alloc, number),
    }
}

/// What an entry is about, as a list shows it.
fn look_for_act<S: Store>(
    tables: &mut TreeTables<S>,
    summary: &Summary,
    alloc: Global,
    act: &StoredAct,
) -> Result<ListedAct, StoreError>
    ensures looks { Looks result (state_of tables.old) (state_of tables.new) (λ tables shown.
        ShowsAct summary.now (act_stored act.now) tables (act_listed shown)) }
    ensures days { IfOk result ShowsActDays }
{
    match *act {
        StoredAct::Import(reading, ending, kept) => Ok(ListedAct::Import(reading, ending, kept)),
        StoredAct::Ruling(place) => {
            let found = look_for_place(tables, summary, alloc, place)?;
            Ok(ListedAct::Ruling(place, found))
        }
    }
}

/// The entry of a number, from 0, if there is one: a look at its row, and few at those of its
/// ruling.
pub(crate) fn try_entry<S: Store>(
    tables: &mut TreeTables<S>,
    summary: &Summary,
    alloc: Global,
    number: u64,
) -> Result<Result<Option<ListedEntry>, LedgerFault>, StoreError>
    ensures tries { (naming : Naming) → AttemptsOne (λ found. option_map entry_shown found) naming
        summary.now summary.now (state_of tables.old) (state_of tables.new)
        (entry_outcome naming number) result }
    ensures shown { IfOk result (λ answer. IfOk answer ShowsEntryDays) }
{
    let last = tables.last_entry()?;
    if number >= last {
        return Ok(Ok(None));
    }
    let Some(entry) = tables.find_entry(alloc, number + 1)? else {
        return Err(StoreError::Corrupt);
    };
    let act = look_for_act(tables, summary, alloc, &entry.act)?;
    Ok(Ok(Some(ListedEntry {
        number: number + 1,
        note: entry.note,
        act,
    })))
}
