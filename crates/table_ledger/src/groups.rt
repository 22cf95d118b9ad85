//! The entry of the journal that records join which are kept in one commit.

ghost use Rattle.std.specs.Prelude.{◌≡◌, ◌<◌, ◌∷◌, ◌^◌, ◌==◌, [], IfOk, None, if◌then◌else◌};
ghost use Rattle.std.specs.Prelude.{length, option_map};
ghost use Rattle.book_model.specs.Words.{ending_shown, read_with, reading_shown, stop_shown};
ghost use Rattle.tree_tables.specs.JournalColumns.{act_stored, entry_stored};
ghost use Rattle.tree_tables.specs.States.{state_of};
ghost use Rattle.tree_tables.specs.Steps.{Always, Does, Looks};
ghost use Rattle.table_ledger.specs.Groups.{FindsNewest, act_renewed, begun_row, going_on};
ghost use Rattle.table_ledger.specs.Groups.{joined_entry, joining, renewed};

use crate::newest::Newest;
use book_core::{Accepted, Note, Reading, Share, ending_of};
use book_model::Ending;
use sqlite_trees::error::StoreError;
use sqlite_trees::store::Store;
use std::alloc::Global;
use tree_tables::{StoredAct, TreeTables};

/// The entry that records join which are kept: its number and its note, and what its import had
/// read and kept before.
#[derive(Clone, Copy)]
pub(crate) struct Joined<'a> {
    pub(crate) number: u64,
    pub(crate) note: &'a Note,
    pub(crate) reading: Reading,
    pub(crate) kept: u64,
}

/// The newest entry of the journal: two looks, however many there are.
pub(crate) fn newest_entry<S: Store>(
    tables: &mut TreeTables<S>,
    alloc: Global,
) -> Result<Newest, StoreError>
    ensures { Looks result (state_of tables.old) (state_of tables.new) FindsNewest }
{
    let number = tables.last_entry()?;
    let entry = tables.find_entry(alloc, number)?;
    Ok(Newest { number, entry })
}

/// The newest entry, if its import goes on.
pub(crate) fn newest_joined(newest: &Newest) -> Option<Joined<'_>>
    ensures { option_map joined_entry result
        ≡ going_on newest.now.number (option_map entry_stored newest.now.entry) }
{
    let Some(entry) = &newest.entry else {
        return None;
    };
    match entry.act {
        StoredAct::Ruling(_) => None,
        StoredAct::Import(_, Some(_), _) => None,
        StoredAct::Import(reading, None, kept) => Some(Joined {
            number: newest.number,
            note: &entry.note,
            reading,
            kept,
        }),
    }
}

/// The entry that an import begins, after so many others.
fn begun_by(number: u64, share: &Share) -> Joined<'_>
    requires { number < 2 ^ 63 }
    ensures { joined_entry result ≡ begun_row number share.now }
{
    Joined {
        number: number + 1,
        note: &share.note,
        reading: share.reading,
        kept: 0,
    }
}

/// The entry that records join of an import, if they join one.
pub(crate) fn joined_of<'a>(newest: &'a Newest, import: &'a Option<Share>) -> Option<Joined<'a>>
    ensures { option_map joined_entry result
        ≡ joining import.now newest.now.number (option_map entry_stored newest.now.entry) }
{
    match import {
        None => newest_joined(newest),
        Some(share) => {
            if share.begun {
                newest_joined(newest)
            } else {
                Some(begun_by(newest.number, share))
            }
        }
    }
}

/// The number of the entry that records join.
pub(crate) fn number_of(joined: &Option<Joined<'_>>) -> Option<u64>
    ensures { result ≡ option_map (λ joined. joined.number) joined.now }
{
    match joined {
        None => None,
        Some(joined) => Some(joined.number),
    }
}

/// What was read, with one more answer counted.
fn with_answer(reading: Reading, answer: Accepted) -> Result<Reading, StoreError>
    ensures { IfOk result (λ more.
        reading_shown more ≡ read_with (answer ∷ []) (reading_shown reading)) }
{
    let mut more = reading;
    match answer {
        Accepted::Kept => Ok(more),
        Accepted::Known => {
            more.known = reading.known.checked_add(1).ok_or(StoreError::Unstorable)?;
            Ok(more)
        }
        Accepted::Unpriced => {
            more.unpriced = reading
                .unpriced
                .checked_add(1)
                .ok_or(StoreError::Unstorable)?;
            Ok(more)
        }
    }
}

/// What was read, with the answers to some more records counted.
fn read_on(reading: &Reading, answers: &[Accepted]) -> Result<Reading, StoreError>
    ensures { IfOk result (λ read.
        reading_shown read ≡ read_with answers.now (reading_shown reading.now)) }
{
    let mut read = *reading;
    for answer in answers {
        let more = with_answer(read, *answer)?;
        read = more;
    }
    Ok(read)
}

/// Why an import ends with these records, if it does and all of them were taken.
fn ending_with(share: &Share, whole: bool) -> Option<Ending>
    ensures { option_map ending_shown result
        ≡ (if whole then option_map stop_shown share.now.ending else None) }
{
    if !whole {
        return None;
    }
    match share.ending {
        None => None,
        Some(stop) => Some(ending_of(stop)),
    }
}

/// What the entry is about that records joined, so many of which were kept.
fn renewed_act(
    joined: &Joined<'_>,
    import: &Option<Share>,
    answers: &[Accepted],
    whole: bool,
    more: u64,
) -> Result<StoredAct, StoreError>
    ensures { IfOk result (λ act. act_stored act
        ≡ act_renewed joined.now import.now whole answers.now more) }
{
    let kept = joined.kept.checked_add(more).ok_or(StoreError::Unstorable)?;
    match import {
        None => Ok(StoredAct::Import(joined.reading, None, kept)),
        Some(share) => {
            let reading = read_on(&share.reading, answers)?;
            Ok(StoredAct::Import(reading, ending_with(share, whole), kept))
        }
    }
}

/// Writes what the entry is about that records joined, if they joined one and some were kept: it
/// kept so many more, and what its import has read by now is told. So many records are all.
pub(crate) fn renew<S: Store>(
    tables: &mut TreeTables<S>,
    joined: &Option<Joined<'_>>,
    import: &Option<Share>,
    answers: &[Accepted],
    count: usize,
    more: usize,
) -> Result<(), StoreError>
    ensures does { Does result (state_of tables.old) (state_of tables.new) Always
        (renewed joined.now import.now (length answers.now == count) answers.now more) }
{
    let Some(joined) = joined else {
        return Ok(());
    };
    if more == 0 {
        return Ok(());
    }
    let whole = answers.len() == count;
    let act = renewed_act(joined, import, answers, whole, more as u64)?;
    tables.put_entry(joined.number, joined.note, &act)
}
