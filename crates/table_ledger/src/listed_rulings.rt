//! The list of the office's rulings.

ghost use Rattle.std.specs.Prelude.{◌≡◌, ◌<◌, ◌+◌, IfOk, Some, option_map};
ghost use Rattle.book_model.specs.Words.{Naming, ShowsDays, HasDays, most_choices, most_credits};
ghost use Rattle.book_model.specs.Words.{credit_seen, credit_shown, most_replaced, ruling_outcome};
ghost use Rattle.book_model.specs.Words.{ruling_shown};
ghost use Rattle.table_model.specs.ListsRead.{choice_read_at, choice_shown};
ghost use Rattle.tree_tables.specs.States.{state_of};
ghost use Rattle.tree_tables.specs.Steps.{Looks};
ghost use Rattle.tree_tables.specs.Stored.{choice_entry, replaced_entry};
ghost use Rattle.table_ledger.specs.RulingLooks.{credit_read_at, replaced_read_at, replaced_shown};
ghost use Rattle.table_ledger.specs.Stages.{AttemptsOne};

use crate::days::is_day;
use crate::given_credits::look_for_given;
use crate::summary::Summary;
use book_core::{Credit, LedgerFault, ListedAt, ListedRuling, RulingCounts};
use sqlite_trees::error::StoreError;
use sqlite_trees::store::Store;
use std::alloc::Global;
use tree_tables::{StoredChoice, StoredReplaced, TreeTables};

/// A choice as the list shows it.
fn listed_choice(choice: &StoredChoice) -> ListedRuling
    ensures shown { ruling_shown result ≡ choice_shown (choice_entry choice.now) }
    ensures days { HasDays (ruling_shown result) }
{
    let number = choice.number;
    let period = choice.period;
    let name = choice.name;
    if choice.counts {
        ListedRuling::Choice {
            number,
            period,
            name,
        }
    } else {
        ListedRuling::Withheld {
            number,
            period,
            name,
        }
    }
}

/// The choice at a place among the choices, from 0, which is there.
pub(crate) fn look_for_choice<S: Store>(
    tables: &mut TreeTables<S>,
    place: u32,
) -> Result<ListedRuling, StoreError>
    requires { place < most_choices }
    ensures looks { Looks result (state_of tables.old) (state_of tables.new)
        (λ tables ruling. choice_read_at (place + 1) tables.choices ≡ Some (ruling_shown ruling)) }
    ensures days { IfOk result (λ ruling. HasDays (ruling_shown ruling)) }
{
    let Some(choice) = tables.find_choice(place + 1)? else {
        return Err(StoreError::Corrupt);
    };
    Ok(listed_choice(&choice))
}

/// A tariff that was replaced, as the list shows it.
fn listed_replaced(tariff: StoredReplaced) -> ListedRuling
    ensures { ruling_shown result ≡ replaced_shown (replaced_entry tariff).1 }
{
    ListedRuling::Replaced {
        day: tariff.day,
        period: tariff.period,
        text: tariff.body,
    }
}

/// The tariff at a place among those that were replaced, from 0, which is there.
fn look_for_replaced<S: Store>(
    tables: &mut TreeTables<S>,
    alloc: Global,
    place: u32,
) -> Result<ListedRuling, StoreError>
    requires { place < most_replaced }
    ensures looks { Looks result (state_of tables.old) (state_of tables.new) (λ tables ruling.
        replaced_read_at (place + 1) tables.replaced ≡ Some (ruling_shown ruling)) }
    ensures days { IfOk result (λ ruling. HasDays (ruling_shown ruling)) }
{
    let Some(tariff) = tables.find_replaced(alloc, place + 1)? else {
        return Err(StoreError::Corrupt);
    };
    if !is_day(tariff.day) {
        return Err(StoreError::Corrupt);
    }
    Ok(listed_replaced(tariff))
}

/// A credit as the list shows it, by its number.
fn listed_credit(number: u32, credit: Credit) -> ListedRuling
    ensures shown { ruling_shown result ≡ credit_seen number (credit_shown credit) }
    ensures days { HasDays (ruling_shown result) }
{
    ListedRuling::Credit {
        number,
        period: credit.period,
        centre: credit.centre,
        amount: credit.amount,
        reason: credit.reason,
    }
}

/// The credit at a place among the credits, from 0, which is there.
pub(crate) fn look_for_credit<S: Store>(
    tables: &mut TreeTables<S>,
    alloc: Global,
    place: u32,
) -> Result<ListedRuling, StoreError>
    requires { place < most_credits }
    ensures looks { Looks result (state_of tables.old) (state_of tables.new)
        (λ tables ruling. credit_read_at (place + 1) tables.credits ≡ Some (ruling_shown ruling)) }
    ensures days { IfOk result (λ ruling. HasDays (ruling_shown ruling)) }
{
    let credit = look_for_given(tables, alloc, place)?;
    Ok(listed_credit(place + 1, credit))
}

/// The ruling of a number in the list, if there is one: a choice, a replaced tariff or a credit
/// takes one look, and all others are remembered.
pub(crate) fn try_ruling<S: Store>(
    tables: &mut TreeTables<S>,
    summary: &Summary,
    alloc: Global,
    number: u64,
) -> Result<Result<Option<ListedRuling>, LedgerFault>, StoreError>
    ensures tries { (naming : Naming) → AttemptsOne (λ found. option_map ruling_shown found) naming
        summary.now summary.now (state_of tables.old) (state_of tables.new)
        (ruling_outcome naming number) result }
    ensures shown { IfOk result (λ answer. IfOk answer ShowsDays) }
{
    let counts = RulingCounts {
        choices: summary.choices,
        replaced: summary.replaced,
        credits: summary.credits,
    };
    let listed = summary.rulings.listed_at(alloc, &counts, number)?;
    match listed {
        ListedAt::Choice(place) => Ok(Ok(Some(look_for_choice(tables, place)?))),
        ListedAt::Replaced(place) => Ok(Ok(Some(look_for_replaced(tables, alloc, place)?))),
        ListedAt::Credit(place) => Ok(Ok(Some(look_for_credit(tables, alloc, place)?))),
        ListedAt::Other(found) => Ok(Ok(found)),
    }
}
