//! Choices by their numbers, and the tree that finds them by the names of the records.

ghost use Rattle.std.specs.Prelude.{◌≡◌, IfOk, OnOk};
ghost use Rattle.tree_tables.specs.Columns.{choice_columns, choice_name_columns};
ghost use Rattle.tree_tables.specs.Stored.{SaysChoice};

use crate::chosen_numbers::ChosenNumber;
use crate::column_values::{hash_at, mark_at, number_at, period_at};
use crate::columns::{CHOICE_COUNTS, CHOICE_NAME, CHOICE_NUMBER, CHOICE_PERIOD};
use crate::keys::{bytes_key, ruling_key};
use crate::tables::TreeTables;
use crate::trees::{CHOICE_NAMES, CHOICES};
use sqlite_trees::error::StoreError;
use sqlite_trees::store::Store;
use sqlite_value::row::Row;
use sqlite_value::value::ValueRef;
use std::alloc::Global;
use tree_rows::{ReadRow, add_row, find_row, last_row, list_run};

/// A choice as its row says.
#[derive(Clone, Copy, Drop)]
pub struct StoredChoice {
    /// Its number among all choices, from 1.
    pub number: u32,
    /// The name of the data of the record that was named.
    pub name: [u8; 32],
    /// It counts from then on; else no record of its work does.
    pub counts: bool,
    /// The period that was open then.
    pub period: u16,
}

/// Makes the row of a choice.
pub(crate) fn choice_row(
    row: &mut Row,
    number: u32,
    name: &[u8],
    counts: bool,
    period: u16,
) -> Result<(), StoreError>
    ensures { OnOk result (row.new
        ≡ choice_columns (number, record { name = name.now; counts = counts; period = period })) }
{
    ruling_key(row, number)?;
    row.push(ValueRef::Blob(name))?;
    row.push(ValueRef::Int(i64::from(period)))?;
    row.push(ValueRef::Int(i64::from(counts)))?;
    Ok(())
}

/// Makes the row that finds a choice by the name of its record.
fn choice_name_row(row: &mut Row, name: &[u8], number: u32) -> Result<(), StoreError>
    ensures { OnOk result (row.new ≡ choice_name_columns ((name.now, number), tt)) }
{
    bytes_key(row, name)?;
    row.push(ValueRef::Int(i64::from(number)))?;
    Ok(())
}

/// What the row of a choice says.
fn read_choice(row: &Row) -> Result<StoredChoice, StoreError>
    ensures says { IfOk result (SaysChoice row.now) }
{
    Ok(StoredChoice {
        number: number_at(row, CHOICE_NUMBER)?,
        name: hash_at(row, CHOICE_NAME)?,
        counts: mark_at(row, CHOICE_COUNTS)?,
        period: period_at(row, CHOICE_PERIOD)?,
    })
}

impl ReadRow for StoredChoice {
    ghost says = { SaysChoice };

    fn read(row: &Row, _alloc: Global) -> Result<StoredChoice, StoreError> {
        read_choice(row)
    }
}

impl<S: Store> TreeTables<S> {
    ghost use Rattle.std.specs.Prelude.{◌≡◌, None};
    ghost use Rattle.std.specs.FinMap.{get};
    ghost use Rattle.table_model.specs.Steps as step;
    ghost use Rattle.std.specs.Prelude.{Some};
    ghost use Rattle.tree_tables.specs.Answers.{FindsChoice, HasChoice, ListsChoices, ListsChosen};
    ghost use Rattle.tree_tables.specs.Answers.{FindsNumbered, last_number};
    ghost use Rattle.tree_tables.specs.States.{state_of};
    ghost use Rattle.tree_tables.specs.Steps.{Does, Looks};

    /// A record that was named, by its name, whether it counts, and the period that was open then
    /// are kept under the number of the choice, which is new, and the choice is found by the name.
    /// What is under the number, if anything is, is not looked at.
    pub fn put_choice(
        &mut self,
        number: u32,
        name: &[u8],
        counts: bool,
        period: u16,
    ) -> Result<(), StoreError>
        ensures does { Does result (state_of self.old) (state_of self.new)
            (λ tables. get tables.choices number ≡ None)
            (step.put_named_row number name.now counts period) }
    {
        choice_row(&mut self.row, number, name, counts, period)?;
        add_row(&mut self.store, CHOICES, &self.row)?;
        choice_name_row(&mut self.row, name, number)?;
        add_row(&mut self.store, CHOICE_NAMES, &self.row)
    }

    /// Whether some choice names the record of a name: one look, and no choice is read, however
    /// many there are.
    pub fn has_choice(&mut self, name: &[u8]) -> Result<bool, StoreError>
        ensures looks { Looks result (state_of self.old) (state_of self.new) (HasChoice name.now) }
    {
        bytes_key(&mut self.key, name)?;
        find_row(&mut self.store, CHOICE_NAMES, &self.key, &mut self.row)
    }

    /// The choice of a number, if there is one: one look, however many there are.
    pub fn find_choice(&mut self, number: u32) -> Result<Option<StoredChoice>, StoreError>
        ensures looks { Looks result (state_of self.old) (state_of self.new) (FindsChoice number) }
    {
        ruling_key(&mut self.key, number)?;
        if !find_row(&mut self.store, CHOICES, &self.key, &mut self.row)? {
            return Ok(None);
        }
        Ok(Some(read_choice(&self.row)?))
    }

    /// The choice of a number that a row says. Where there is none, it is an error: `Corrupt`.
    fn choice_numbered(&mut self, number: u32) -> Result<StoredChoice, StoreError>
        ensures looks { Looks result (state_of self.old) (state_of self.new)
            (λ tables stored. FindsChoice number tables (Some stored)) }
    {
        let Some(choice) = self.find_choice(number)? else {
            return Err(StoreError::Corrupt);
        };
        Ok(choice)
    }

    /// The choices of these numbers, in their order.
    fn read_numbered(
        &mut self,
        alloc: Global,
        numbers: &[ChosenNumber],
    ) -> Result<Vec<StoredChoice>, StoreError>
        ensures looks { Looks result (state_of self.old) (state_of self.new)
            (λ tables found. FindsNumbered numbers.now tables found.items) }
    {
        let mut all = Vec::new(alloc);
        for one in numbers {
            let choice = self.choice_numbered(one.number)?;
            all.push(choice)?;
        }
        Ok(all)
    }

    /// The choices that name the record of a name, by their numbers: they are found by the name,
    /// and no others are read.
    pub fn list_chosen(
        &mut self,
        alloc: Global,
        name: &[u8],
    ) -> Result<Vec<StoredChoice>, StoreError>
        ensures looks { Looks result (state_of self.old) (state_of self.new)
            (λ tables list. ListsChosen name.now tables list.items) }
    {
        bytes_key(&mut self.key, name)?;
        let numbers = list_run(
            &mut self.store,
            CHOICE_NAMES,
            &self.key,
            &mut self.row,
            alloc,
        )?;
        self.read_numbered(alloc, &numbers)
    }

    /// All choices, by their numbers.
    pub fn list_choices(&mut self, alloc: Global) -> Result<Vec<StoredChoice>, StoreError>
        ensures looks { Looks result (state_of self.old) (state_of self.new)
            (λ tables list. ListsChoices tables list.items) }
    {
        self.list_all(CHOICES, alloc)
    }

    /// The number of the last choice, or 0 where there is none: one look at the end of the tree,
    /// however many choices there are.
    pub fn last_choice(&mut self) -> Result<u32, StoreError>
        ensures looks { Looks result (state_of self.old) (state_of self.new)
            (λ tables number. number ≡ last_number tables.choices) }
    {
        if !last_row(&mut self.store, CHOICES, &mut self.row)? {
            return Ok(0);
        }
        number_at(&self.row, CHOICE_NUMBER)
    }
}
