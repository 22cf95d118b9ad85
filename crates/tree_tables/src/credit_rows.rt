//! Credits by their numbers.

ghost use Rattle.std.specs.Prelude.{◌≡◌, IfOk, OnOk};
ghost use Rattle.tree_tables.specs.Columns.{credit_columns};
ghost use Rattle.tree_tables.specs.Stored.{SaysCredit, credit_given};

use crate::column_values::{int_at, make_row, name_at, number_at, period_at, text_at};
use crate::columns::{CREDIT_AMOUNT, CREDIT_CENTRE, CREDIT_NUMBER, CREDIT_PERIOD, CREDIT_REASON};
use crate::keys::ruling_key;
use crate::tables::TreeTables;
use crate::trees::CREDITS;
use smf_text::Name;
use sqlite_trees::error::StoreError;
use sqlite_trees::store::Store;
use sqlite_value::row::Row;
use sqlite_value::value::ValueRef;
use std::alloc::Global;
use tree_rows::{ReadRow, find_row, last_row, put_row};

/// A credit that is to be kept.
#[derive(Clone, Copy)]
pub struct CreditText<'a> {
    /// The period that is open.
    pub period: u16,
    pub centre: Name,
    /// In ten-thousandths of the money unit. One below 0 is added to what the centre owes.
    pub amount: i64,
    pub reason: &'a str,
}

/// A credit as its row says.
#[derive(Drop)]
pub struct StoredCredit {
    /// Its number among all credits, from 1.
    pub number: u32,
    /// The period that was open then.
    pub period: u16,
    pub centre: Name,
    /// In ten-thousandths of the money unit. One below 0 is added to what the centre owes.
    pub amount: i64,
    pub reason: String,
}

/// Makes the row of a credit.
fn credit_row(row: &mut Row, number: u32, credit: &CreditText<'_>) -> Result<(), StoreError>
    ensures { OnOk result (row.new ≡ credit_columns (number, credit_given credit.now)) }
{
    make_row(
        row,
        &[
            ValueRef::Int(i64::from(number)),
            ValueRef::Int(i64::from(credit.period)),
            ValueRef::Text(credit.centre.text().as_bytes()),
            ValueRef::Int(credit.amount),
            ValueRef::Text(credit.reason.as_bytes()),
        ],
    )
}

/// What the row of a credit says.
fn read_credit(row: &Row, alloc: Global) -> Result<StoredCredit, StoreError>
    ensures says { IfOk result (SaysCredit row.now) }
{
    Ok(StoredCredit {
        number: number_at(row, CREDIT_NUMBER)?,
        period: period_at(row, CREDIT_PERIOD)?,
        centre: name_at(row, CREDIT_CENTRE)?,
        amount: int_at(row, CREDIT_AMOUNT)?,
        reason: text_at(row, CREDIT_REASON, alloc)?,
    })
}

impl ReadRow for StoredCredit {
    ghost says = { SaysCredit };

    fn read(row: &Row, alloc: Global) -> Result<StoredCredit, StoreError> {
        read_credit(row, alloc)
    }
}

impl<S: Store> TreeTables<S> {
    ghost use Rattle.std.specs.Prelude.{◌≡◌};
    ghost use Rattle.table_model.specs.Steps as step;
    ghost use Rattle.tree_tables.specs.Answers.{FindsCredit, ListsCredits, last_number};
    ghost use Rattle.tree_tables.specs.States.{state_of};
    ghost use Rattle.tree_tables.specs.Steps.{Always, Does, Looks};
    ghost use Rattle.tree_tables.specs.Stored.{credit_given};

    /// A credit is kept under its number.
    pub fn put_credit(&mut self, number: u32, credit: &CreditText<'_>) -> Result<(), StoreError>
        ensures does { Does result (state_of self.old) (state_of self.new) Always
            (step.put_credit_row number (credit_given credit.now)) }
    {
        ruling_key(&mut self.key, number)?;
        credit_row(&mut self.row, number, credit)?;
        put_row(
            &mut self.store,
            CREDITS,
            &self.key,
            &self.row,
            &mut self.before,
        )
    }

    /// The credit of a number, if there is one: one look, however many there are.
    pub fn find_credit(
        &mut self,
        alloc: Global,
        number: u32,
    ) -> Result<Option<StoredCredit>, StoreError>
        ensures looks { Looks result (state_of self.old) (state_of self.new) (FindsCredit number) }
    {
        ruling_key(&mut self.key, number)?;
        if !find_row(&mut self.store, CREDITS, &self.key, &mut self.row)? {
            return Ok(None);
        }
        Ok(Some(read_credit(&self.row, alloc)?))
    }

    /// All credits, by their numbers.
    pub fn list_credits(&mut self, alloc: Global) -> Result<Vec<StoredCredit>, StoreError>
        ensures looks { Looks result (state_of self.old) (state_of self.new)
            (λ tables list. ListsCredits tables list.items) }
    {
        self.list_all(CREDITS, alloc)
    }

    /// The number of the last credit, or 0 where there is none: one look at the end of the tree,
    /// however many credits there are.
    pub fn last_credit(&mut self) -> Result<u32, StoreError>
        ensures looks { Looks result (state_of self.old) (state_of self.new)
            (λ tables number. number ≡ last_number tables.credits) }
    {
        if !last_row(&mut self.store, CREDITS, &mut self.row)? {
            return Ok(0);
        }
        number_at(&self.row, CREDIT_NUMBER)
    }
}
