//! Entries of the journal, which are written with what they are about.

ghost use Rattle.std.specs.Prelude.{Some};
ghost use Rattle.book_model.specs.Words.{note_given, note_shown, place_shown};
ghost use Rattle.tree_tables.specs.States.{state_of};
ghost use Rattle.tree_tables.specs.Steps.{Does};
ghost use Rattle.table_ledger.specs.Entries.{NumbersEntries, enter_row};

use book_model::{Note, Place};
use sqlite_trees::error::StoreError;
use sqlite_trees::store::Store;
use tree_tables::{StoredAct, TreeTables};

/// Writes the entry of a ruling with its note: it is the next one.
fn enter_noted<S: Store>(
    tables: &mut TreeTables<S>,
    note: &Note,
    place: Place,
) -> Result<(), StoreError>
    ensures { Does result (state_of tables.old) (state_of tables.new) NumbersEntries
        (enter_row (Some (note_shown note.now)) (place_shown place)) }
{
    let number = tables.last_entry()?;
    tables.put_entry(number + 1, note, &StoredAct::Ruling(place))
}

/// Writes the entry of a ruling, if it has a note.
pub(crate) fn enter<S: Store>(
    tables: &mut TreeTables<S>,
    note: &Option<Note>,
    place: Place,
) -> Result<(), StoreError>
    ensures { Does result (state_of tables.old) (state_of tables.new) NumbersEntries
        (enter_row (note_given note.now) (place_shown place)) }
{
    match note {
        None => Ok(()),
        Some(note) => enter_noted(tables, note, place),
    }
}
