//! Works that are withheld, as the choices among the records of an identity say.

ghost use Rattle.std.specs.Prelude.{◌≡◌, None, false, not};
ghost use Rattle.std.specs.List.{last_or, list_any};
ghost use Rattle.std.specs.Option.{option_map_or};
ghost use Rattle.table_model.specs.RulingsRead.{was_withheld_in};
ghost use Rattle.table_model.specs.TrailRead.{choices_with};
ghost use Rattle.table_model.specs.Views.{is_withheld_in};
ghost use Rattle.tree_tables.specs.States.{state_of};
ghost use Rattle.tree_tables.specs.Steps.{Looks};

use crate::trails::choices_among;
use book_core::NamedChoice;
use sqlite_trees::error::StoreError;
use sqlite_trees::store::Store;
use std::alloc::Global;
use tree_tables::TreeTables;

/// The last of some choices, if there is one.
#[tactic(auto, using(book_core::proofs::RulingLemmas::last_found))]
fn last_of(choices: &[NamedChoice]) -> Option<NamedChoice>
    ensures { result ≡ last_or None choices.now }
{
    choices.last().copied()
}

/// The last of some choices says that none of the records counts.
fn ends_in_none(choices: &[NamedChoice]) -> bool
    ensures { result
        ≡ option_map_or (λ choice. not choice.counts) (last_or None choices.now) false }
{
    match last_of(choices) {
        Some(choice) => !choice.counts,
        None => false,
    }
}

/// A choice says that none of the records counts.
fn is_none(choice: &NamedChoice) -> bool
    ensures { result ≡ not choice.now.counts }
{
    !choice.counts
}

/// One of some choices says that none of the records counts.
fn has_none(choices: &[NamedChoice]) -> bool
    ensures { result ≡ list_any (λ choice. not choice.counts) choices.now }
{
    for choice in choices {
        if is_none(choice) {
            return true;
        }
    }
    false
}

/// The choices that name a record of an identity, by their numbers.
fn choices_of<S: Store>(
    tables: &mut TreeTables<S>,
    alloc: Global,
    identity: &[u8],
) -> Result<Vec<NamedChoice>, StoreError>
    ensures looks { Looks result (state_of tables.old) (state_of tables.new)
        (λ tables choices. choices.items ≡ choices_with identity.now tables) }
{
    let rows = tables.list_sharing(alloc, identity)?;
    choices_among(tables, alloc, &rows)
}

/// The work of an identity is withheld: of the choices among its records the last is one of none.
pub(crate) fn is_withheld<S: Store>(
    tables: &mut TreeTables<S>,
    alloc: Global,
    identity: &[u8],
) -> Result<bool, StoreError>
    ensures looks { Looks result (state_of tables.old) (state_of tables.new)
        (λ tables withheld. withheld ≡ is_withheld_in tables identity.now) }
{
    let choices = choices_of(tables, alloc, identity)?;
    Ok(ends_in_none(&choices))
}

/// The work of an identity was withheld, whether or not it is now.
pub(crate) fn was_withheld<S: Store>(
    tables: &mut TreeTables<S>,
    alloc: Global,
    identity: &[u8],
) -> Result<bool, StoreError>
    ensures looks { Looks result (state_of tables.old) (state_of tables.new)
        (λ tables withheld. withheld ≡ was_withheld_in tables identity.now) }
{
    let choices = choices_of(tables, alloc, identity)?;
    Ok(has_none(&choices))
}
