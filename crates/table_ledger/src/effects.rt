//! What a new record changes besides its own row, by the records that share its identity.

ghost use Rattle.std.specs.Prelude.{◌≡◌, IfOk, Some, map};
ghost use Rattle.tree_tables.specs.States.{state_of};
ghost use Rattle.book_core.specs.Effects.{HasOnly, effects_of};
ghost use Rattle.tree_tables.specs.Stored.{stored_entry};
ghost use Rattle.table_model.specs.Views.{member_at, member_in, rows_with};
ghost use Rattle.table_model.specs.AcceptRead.{view_with};
ghost use Rattle.tree_tables.specs.Steps.{Looks};
ghost use Rattle.table_ledger.specs.NamedViews.{view_named};

use book_core::{Effects, Member, View, plan};
use sqlite_trees::error::StoreError;
use sqlite_trees::store::Store;
use std::alloc::Global;
use tariff_rules::Priced;
use tree_tables::{FoundName, StoredRecord, TreeTables};

/// A record as a member of its identity.
pub(crate) fn member_of(stored: &StoredRecord) -> Member
    ensures { result ≡ member_at (stored_entry stored.now) }
{
    Member {
        name: stored.name,
        priced: stored.priced,
        charged: stored.charged,
        posted: stored.posted,
    }
}

/// How much a record that is alone in its identity counts if it was chosen: no new record changes
/// whether it is charged.
const CHOSEN_MEMBERS: u64 = 2;

/// The record of a name that a row says, as a member of its identity.
fn look_for_member<S: Store>(
    tables: &mut TreeTables<S>,
    alloc: Global,
    name: &[u8; 32],
) -> Result<Member, StoreError>
    ensures looks { Looks result (state_of tables.old) (state_of tables.new)
        (λ tables member. member_in tables name.now ≡ Some member) }
{
    let stored = tables.record_named(alloc, name)?;
    Ok(member_of(&stored))
}

/// The view of records that share an identity, by the names of at most two of them. Only one that
/// is alone, and that no choice names, is read.
fn look_for_view<S: Store>(
    tables: &mut TreeTables<S>,
    alloc: Global,
    through: Option<i32>,
    names: &[FoundName],
) -> Result<View, StoreError>
    ensures looks { Looks result (state_of tables.old) (state_of tables.new)
        (λ tables view. view ≡ view_named through tables (map (λ one. one.name) names.now)) }
    ensures only { IfOk result HasOnly }
{
    let [one] = names else {
        return Ok(View {
            through,
            members: names.len() as u64,
            only: None,
        });
    };
    if tables.has_choice(&one.name)? {
        return Ok(View {
            through,
            members: CHOSEN_MEMBERS,
            only: None,
        });
    }
    let member = look_for_member(tables, alloc, &one.name)?;
    Ok(View {
        through,
        members: 1,
        only: Some(member),
    })
}

/// What a record of this identity changes, by its name and its price.
pub(crate) fn look_for_effects<S: Store>(
    tables: &mut TreeTables<S>,
    alloc: Global,
    through: Option<i32>,
    identity: &[u8],
    name: [u8; 32],
    priced: &Priced,
) -> Result<Effects, StoreError>
    ensures looks { Looks result (state_of tables.old) (state_of tables.new)
        (λ tables effects. effects ≡ effects_of
        (view_with through tables.choices (rows_with identity.now tables.records)) name
        priced.now) }
{
    let names = tables.names_sharing(alloc, identity)?;
    let view = look_for_view(tables, alloc, through, &names)?;
    Ok(plan(&view, name, priced))
}
