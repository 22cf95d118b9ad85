//! The credits, one after the other.

ghost use Rattle.std.specs.Prelude.{◌≡◌, ◌<◌, ◌≤◌, IfOk, length, true};
ghost use Rattle.consistent_tables.specs.Consistent.{IsOwnCredit};
ghost use Rattle.tree_tables.specs.Columns.{credit_columns};
ghost use Rattle.tree_tables.specs.Stored.{credit_entry};
ghost use Rattle.book_audit.specs.KeptRulings.{AreCredits, IsCreditRow};
ghost use Rattle.book_audit.specs.Looks.{Looks, Tells};

use crate::finding::{Place, Tree, Wrong};
use crate::stop::{Stop, met, unsound};
use crate::trees::Trees;
use crate::walk::{MOST_ROWS, Walk, endless};
use book_core::{is_credit_amount, is_reason};
use sqlite_trees::error::StoreError;
use sqlite_trees::store::Store;
use sqlite_value::row::Row;
use std::alloc::Global;
use tree_tables::{StoredCredit, int_at, name_at, number_at, period_at, text_at};

/// The most credits that there are.
const MAX_CREDITS: u32 = 10_000;

/// What the row of a credit says.
fn credit_in(alloc: Global, row: &Row) -> Result<StoredCredit, StoreError>
    requires { length row.now ≡ 5 }
    ensures read { IfOk result (λ credit. row.now ≡ credit_columns (credit_entry credit)) }
{
    Ok(StoredCredit {
        number: number_at(row, 0)?,
        period: period_at(row, 1)?,
        centre: name_at(row, 2)?,
        amount: int_at(row, 3)?,
        reason: text_at(row, 4, alloc)?,
    })
}

/// A period has begun.
fn has_begun(period: u16, open_period: u16) -> bool
    ensures { result ≡ true → (0 < period) × (period ≤ open_period) }
{
    0 < period && period <= open_period
}

/// The credit is one that can have been given, in a period that has begun.
fn may_be_given(credit: &StoredCredit, open_period: u16) -> bool
    ensures { result ≡ true → IsOwnCredit open_period (credit_entry credit.now).1 }
{
    // The text of a centre is a name, so it needs no test.
    let _centre = credit.centre.text();
    if !has_begun(credit.period, open_period) {
        return false;
    }
    if !is_credit_amount(credit.amount) {
        return false;
    }
    is_reason(credit.reason.as_str())
}

/// The row is that of the next credit after so many.
fn check_credit(alloc: Global, row: &Row, count: u32, open_period: u16) -> Result<(), Stop>
    requires { length row.now ≡ 5 }
    ensures { IfOk result (λ done. IsCreditRow count open_period row.now) }
{
    let credit = match credit_in(alloc, row) {
        Ok(credit) => credit,
        Err(error) => return Err(met(Tree::Credits, error)),
    };
    let place = Place::Credit(credit.number);
    if count >= MAX_CREDITS {
        return Err(unsound(Place::Tree(Tree::Credits), Wrong::Rulings));
    }
    if credit.number != count + 1 {
        return Err(unsound(place, Wrong::ChoiceNumber));
    }
    if !may_be_given(&credit, open_period) {
        return Err(unsound(place, Wrong::Credit));
    }
    Ok(())
}

/// Reads all credits, each of which was given in the open period or before it.
pub(crate) fn read_credits<S: Store>(
    alloc: Global,
    trees: &mut Trees<S>,
    walk: &mut Walk,
    open_period: u16,
) -> Result<(), Stop>
    ensures credits { Tells result trees.old trees.new (λ all done.
        AreCredits open_period (all 11)) }
    ensures looks { Looks result trees.old trees.new }
{
    walk.begin(Tree::Credits);
    let mut count = 0u32;
    'credits: for _steps in 0..MOST_ROWS {
        if !walk.next(trees)? {
            return Ok(());
        }
        check_credit(alloc, walk.row(), count, open_period)?;
        count += 1;
    }
    Err(endless())
}
