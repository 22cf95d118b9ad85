//! The one row of the book.

ghost use Rattle.std.specs.Prelude.{◌≡◌, ◌<◌, ◌^◌, IfOk, OnOk, pos};
ghost use Rattle.sqlite_value.specs.Order.{column};
ghost use Rattle.sqlite_value.specs.declared.value.Value.TheVariants.{Int};
ghost use Rattle.tree_tables.specs.Columns.{book_columns};
ghost use Rattle.tree_tables.specs.Stored.{book_entry};

use crate::column_values::{count_at, make_row};
use crate::columns::{BOOK_ADOPTED, BOOK_AMOUNT, BOOK_HELD, BOOK_RULE};
use crate::keys::number_key;
use crate::tables::TreeTables;
use crate::trees::BOOK;
use sqlite_trees::error::StoreError;
use sqlite_trees::store::Store;
use sqlite_value::row::Row;
use sqlite_value::value::ValueRef;
use tree_rows::{change_row, find_row};

/// The number of the one row.
const FIRST: i64 = 1;

/// The rule of identity under which books begin.
pub const FIRST_RULE: u64 = 1;

/// The rule of identity that they adopt.
pub const SECOND_RULE: u64 = 2;

/// The period of adoption where no rule was adopted.
pub const NEVER_ADOPTED: u64 = 0;

/// The sums of the book's records.
#[derive(Clone, Copy)]
pub struct Sums {
    /// How many records are held.
    pub held: u64,
    /// What they cost together, in ten-thousandths of the money unit.
    pub amount: u64,
}

/// The row of the book, as it was kept: the rule of identity, its adoption, and the sums.
#[derive(Clone, Copy, Drop)]
pub struct StoredBook {
    /// The rule of identity in force: `FIRST_RULE` or `SECOND_RULE`.
    pub rule: u64,
    /// The period in which the second rule was adopted, or `NEVER_ADOPTED`.
    pub adopted: u64,
    /// How many records are held.
    pub held: u64,
    /// What they cost together, in ten-thousandths of the money unit.
    pub amount: u64,
}

/// Makes the row of the book.
fn book_row(row: &mut Row, book: &StoredBook) -> Result<(), StoreError>
    requires rule { book.now.rule < 2 ^ 63 }
    requires adopted { book.now.adopted < 2 ^ 63 }
    requires held { book.now.held < 2 ^ 63 }
    requires amount { book.now.amount < 2 ^ 63 }
    ensures made { OnOk result (row.new ≡ book_columns (book_entry book.now)) }
{
    make_row(
        row,
        &[
            ValueRef::Int(FIRST),
            ValueRef::Int(book.rule as i64),
            ValueRef::Int(book.adopted as i64),
            ValueRef::Int(book.held as i64),
            ValueRef::Int(book.amount as i64),
        ],
    )
}

/// What the row of the book says.
fn read_book(row: &Row) -> Result<StoredBook, StoreError>
    ensures rule { IfOk result (λ book. column row.now 1 ≡ Int (pos book.rule)) }
    ensures adopted { IfOk result (λ book. column row.now 2 ≡ Int (pos book.adopted)) }
    ensures held { IfOk result (λ book. column row.now 3 ≡ Int (pos book.held)) }
    ensures amount { IfOk result (λ book. column row.now 4 ≡ Int (pos book.amount)) }
    ensures small { IfOk result (λ book. (book.rule < 2 ^ 63) × (book.adopted < 2 ^ 63)) }
    ensures few { IfOk result (λ book. (book.held < 2 ^ 63) × (book.amount < 2 ^ 63)) }
{
    Ok(StoredBook {
        rule: count_at(row, BOOK_RULE)?,
        adopted: count_at(row, BOOK_ADOPTED)?,
        held: count_at(row, BOOK_HELD)?,
        amount: count_at(row, BOOK_AMOUNT)?,
    })
}

/// The row with other sums.
fn with_sums(book: &StoredBook, sums: &Sums) -> StoredBook
    ensures rule { result.rule ≡ book.now.rule }
    ensures adopted { result.adopted ≡ book.now.adopted }
    ensures held { result.held ≡ sums.now.held }
    ensures amount { result.amount ≡ sums.now.amount }
{
    StoredBook {
        rule: book.rule,
        adopted: book.adopted,
        held: sums.held,
        amount: sums.amount,
    }
}

/// The row under another rule of identity.
fn with_rule(book: &StoredBook, rule: u64, period: u16) -> StoredBook
    ensures rule { result.rule ≡ rule }
    ensures adopted { result.adopted ≡ period }
    ensures held { result.held ≡ book.now.held }
    ensures amount { result.amount ≡ book.now.amount }
{
    StoredBook {
        rule,
        adopted: u64::from(period),
        held: book.held,
        amount: book.amount,
    }
}

impl<S: Store> TreeTables<S> {
    ghost use Rattle.std.specs.Prelude.{◌≡◌, ◌<◌, ◌^◌, is_some, IfOk};
    ghost use Rattle.table_model.specs.Steps as step;
    ghost use Rattle.tree_tables.specs.Answers.{FindsBook};
    ghost use Rattle.tree_tables.specs.Holds.{has_book};
    ghost use Rattle.tree_tables.specs.States.{HasCleanDisk, state_of};
    ghost use Rattle.tree_tables.specs.Steps.{Always, Does, Looks, Makes};

    /// The row of the book, if it is there.
    pub fn find_book(&mut self) -> Result<Option<StoredBook>, StoreError>
        ensures looks { Looks result (state_of self.old) (state_of self.new) FindsBook }

        // Whatever the trees hold, it says whether the row is there.
        ensures row { IfOk result (λ found. HasCleanDisk (state_of self.new)
            → is_some found ≡ has_book (state_of self.old).view.trees) }
    {
        number_key(&mut self.key, FIRST)?;
        if !find_row(&mut self.store, BOOK, &self.key, &mut self.row)? {
            return Ok(None);
        }
        Ok(Some(read_book(&self.row)?))
    }

    /// The row of new books joins trees that have no rows.
    pub fn make_book(&mut self) -> Result<(), StoreError>
        ensures makes { Makes result (state_of self.old) (state_of self.new) }
    {
        let book = StoredBook {
            rule: FIRST_RULE,
            adopted: NEVER_ADOPTED,
            held: 0,
            amount: 0,
        };
        book_row(&mut self.row, &book)?;
        self.store.insert(BOOK, &self.row)
    }

    /// The book has these sums.
    pub fn set_sums(&mut self, sums: &Sums) -> Result<(), StoreError>
        requires held { sums.now.held < 2 ^ 63 }
        requires amount { sums.now.amount < 2 ^ 63 }
        ensures does { Does result (state_of self.old) (state_of self.new) Always
            (step.set_sums sums.now.held sums.now.amount) }
    {
        number_key(&mut self.key, FIRST)?;
        if !find_row(&mut self.store, BOOK, &self.key, &mut self.before)? {
            return Err(StoreError::Corrupt);
        }
        let book = with_sums(&read_book(&self.before)?, sums);
        book_row(&mut self.row, &book)?;
        change_row(&mut self.store, BOOK, &self.before, &self.row)
    }

    /// The book is under this rule of identity, since a period.
    pub fn set_rule(&mut self, rule: u64, period: u16) -> Result<(), StoreError>
        requires { rule < 2 ^ 63 }
        ensures does { Does result (state_of self.old) (state_of self.new) Always
            (step.set_rule rule period) }
    {
        number_key(&mut self.key, FIRST)?;
        if !find_row(&mut self.store, BOOK, &self.key, &mut self.before)? {
            return Err(StoreError::Corrupt);
        }
        let book = with_rule(&read_book(&self.before)?, rule, period);
        book_row(&mut self.row, &book)?;
        change_row(&mut self.store, BOOK, &self.before, &self.row)
    }
}
