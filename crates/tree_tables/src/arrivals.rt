//! Records by their names, with the entries of the journal by which they came.

ghost use Rattle.std.specs.Prelude.{◌≡◌, ℕ, IfOk, List, unwrap_or};
ghost use Rattle.std.specs.FinMap.{get};
ghost use Rattle.table_model.specs.Tables.{CameTable, RecordRow};
ghost use Rattle.tree_tables.specs.Columns.{record_columns};

use crate::column_values::hash_at;
use crate::columns::RECORD_NAME;
use crate::keys::bytes_key;
use crate::stored_record::read_came;
use crate::tables::TreeTables;
use crate::trees::RECORDS;
use book_model::Arrival;
use sqlite_trees::error::StoreError;
use sqlite_trees::store::Store;
use sqlite_value::row::Row;
use tree_rows::first_from;

/// The number of an entry, or 0 where there is none.
fn number_or_0(came: Option<u64>) -> u64
    ensures { result ≡ unwrap_or came 0 }
{
    match came {
        None => 0,
        Some(number) => number,
    }
}

/// The name of the record of a row, and by which entry it came: 0 where it came by none.
fn read_arrival(row: &Row) -> Result<Arrival, StoreError>
    ensures name { IfOk result (λ arrival. (came : CameTable) (entry : List ℕ × RecordRow)
        → row.now ≡ record_columns came entry → arrival.name ≡ entry.0) }
    ensures came { IfOk result (λ arrival. (came : CameTable) (entry : List ℕ × RecordRow)
        → row.now ≡ record_columns came entry
        → arrival.entry ≡ unwrap_or (get came entry.0) 0) }
{
    let name = hash_at(row, RECORD_NAME)?;
    let came = read_came(row)?;
    let entry = number_or_0(came);
    Ok(Arrival { name, entry })
}

impl<S: Store> TreeTables<S> {
    ghost use Rattle.tree_tables.specs.Answers.{FindsArrival};
    ghost use Rattle.tree_tables.specs.States.{state_of};
    ghost use Rattle.tree_tables.specs.Steps.{Looks};

    /// The record with the least name that is these bytes or comes after them: one look, however
    /// many there are.
    pub fn find_arrival(&mut self, from: &[u8]) -> Result<Option<Arrival>, StoreError>
        ensures looks { Looks result (state_of self.old) (state_of self.new)
            (FindsArrival from.now) }
    {
        bytes_key(&mut self.key, from)?;
        if !first_from(&mut self.store, RECORDS, &self.key, &mut self.row)? {
            return Ok(None);
        }
        let arrival = read_arrival(&self.row)?;
        Ok(Some(arrival))
    }
}
