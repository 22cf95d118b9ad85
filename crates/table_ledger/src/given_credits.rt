//! A credit by its number.

ghost use Rattle.std.specs.FinMap.{get};
ghost use Rattle.std.specs.Prelude.{◌≡◌, ◌<◌, ◌+◌, Some, option_map};
ghost use Rattle.book_model.specs.Words.{Naming, credit_given_outcome, credit_shown, most_credits};
ghost use Rattle.tree_tables.specs.States.{state_of};
ghost use Rattle.tree_tables.specs.Steps.{Looks};
ghost use Rattle.tree_tables.specs.Stored.{credit_entry};
ghost use Rattle.table_ledger.specs.Stages.{AttemptsOne};

use crate::summary::Summary;
use book_core::{Credit, LedgerFault};
use sqlite_trees::error::StoreError;
use sqlite_trees::store::Store;
use std::alloc::Global;
use tree_tables::{StoredCredit, TreeTables};

/// A credit as its row has it.
fn credit_in(stored: StoredCredit) -> Credit
    ensures { credit_shown result ≡ (credit_entry stored).1 }
{
    Credit {
        period: stored.period,
        centre: stored.centre,
        amount: stored.amount,
        reason: stored.reason,
    }
}

/// The credit at a place, from 0, which is there.
pub(crate) fn look_for_given<S: Store>(
    tables: &mut TreeTables<S>,
    alloc: Global,
    place: u32,
) -> Result<Credit, StoreError>
    requires { place < most_credits }
    ensures { Looks result (state_of tables.old) (state_of tables.new) (λ tables credit.
        get tables.credits (place + 1) ≡ Some (credit_shown credit)) }
{
    let Some(stored) = tables.find_credit(alloc, place + 1)? else {
        return Err(StoreError::Corrupt);
    };
    Ok(credit_in(stored))
}

/// The credit of a number, from 0, if there is one: it takes one look.
pub(crate) fn try_credit_given<S: Store>(
    tables: &mut TreeTables<S>,
    summary: &Summary,
    alloc: Global,
    number: u64,
) -> Result<Result<Option<Credit>, LedgerFault>, StoreError>
    ensures { (naming : Naming) → AttemptsOne (λ found. option_map credit_shown found) naming
        summary.now summary.now (state_of tables.old) (state_of tables.new)
        (credit_given_outcome number) result }
{
    let count = u64::from(summary.credits);
    if number >= count {
        return Ok(Ok(None));
    }
    let credit = look_for_given(tables, alloc, number as u32)?;
    Ok(Ok(Some(credit)))
}
