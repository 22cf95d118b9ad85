//! Names of records, as the rows say that find them by their identities or by their marks.

ghost use Rattle.std.specs.Prelude.{◌≡◌, length, ◌-◌};
ghost use Rattle.sqlite_value.specs.Order.{column};
ghost use Rattle.sqlite_value.specs.declared.value.Value.TheVariants.{Blob};

use crate::column_values::hash_at;
use crate::stored_record::StoredRecord;
use crate::tables::TreeTables;
use sqlite_trees::error::StoreError;
use sqlite_trees::store::Store;
use sqlite_value::row::Row;
use std::alloc::Global;
use tree_rows::ReadRow;

/// The name of a record, which ends the row that finds it.
#[derive(Clone, Copy, Drop)]
pub struct FoundName {
    /// The name of the record's data.
    pub name: [u8; 32],
}

impl ReadRow for FoundName {
    ghost says = { λ row found. column row (length row - 1) ≡ Blob found.name };

    fn read(row: &Row, _alloc: Global) -> Result<FoundName, StoreError> {
        Ok(FoundName {
            name: hash_at(row, row.len().saturating_sub(1))?,
        })
    }
}

impl<S: Store> TreeTables<S> {
    ghost use Rattle.std.specs.Prelude.{Some};
    ghost use Rattle.tree_tables.specs.Answers.{FindsNamed, FindsRecord};
    ghost use Rattle.tree_tables.specs.States.{state_of};
    ghost use Rattle.tree_tables.specs.Steps.{Looks};

    /// The record of a name that a row says. Where there is none, it is an error: `Corrupt`.
    pub fn record_named(&mut self, alloc: Global, name: &[u8]) -> Result<StoredRecord, StoreError>
        ensures looks { Looks result (state_of self.old) (state_of self.new)
            (λ tables stored. FindsRecord name.now tables (Some stored)) }
    {
        let Some(record) = self.find_record(alloc, name)? else {
            return Err(StoreError::Corrupt);
        };
        Ok(record)
    }

    /// The records of these names, in their order.
    pub(crate) fn read_named(
        &mut self,
        alloc: Global,
        names: &[FoundName],
    ) -> Result<Vec<StoredRecord>, StoreError>
        ensures looks { Looks result (state_of self.old) (state_of self.new)
            (λ tables found. FindsNamed names.now tables found.items) }
    {
        let mut all = Vec::new(alloc);
        for named in names {
            let record = self.record_named(alloc, &named.name)?;
            all.push(record)?;
        }
        Ok(all)
    }
}
