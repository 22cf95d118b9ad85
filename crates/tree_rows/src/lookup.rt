//! Rows are looked up by a key.

ghost use Rattle.std.specs.Prelude.{◌≡◌, IfOk, IfErr, OnErr, OnOk, reverse};
ghost use Rattle.sqlite_trees.specs.Tree.{from_key};
ghost use Rattle.sqlite_trees.specs.View.{IsClean, KeepsSchema};
ghost use Rattle.sqlite_value.specs.Keys.{plain, prefix_cmp};
ghost use Rattle.std.specs.Ordering.{is_eq};
ghost use Rattle.tree_rows.specs.Calls.{CommitsNothing, FailsAsStore};
ghost use Rattle.tree_rows.specs.Calls.{IsSorted, LeavesCommitted, OnlyLooks};
ghost use Rattle.tree_rows.specs.Rows.{Finds, IsFirst, past_key};

use sqlite_trees::error::StoreError;
use sqlite_trees::store::{Direction, Store};
use sqlite_value::keys::Order;
use sqlite_value::row::Row;

/// The cursor of a look-up.
const LOOK: u16 = 0;

/// The cursor of a walk.
const WALK: u16 = 1;

/// Writes the first row that is not below the key over `row`, or answers that there is none. The
/// key is the first columns of a row. Nothing is written to the store; an error is the store's own.
#[tactic(auto, using(crate::proofs::Calls::calls_in_turn))]
pub fn first_from<S: Store>(
    store: &mut S,
    tree: u32,
    key: &Row,
    row: &mut Row,
) -> Result<bool, StoreError>
    requires { IsSorted S.Store store.old tree }
    ensures found { IfOk result (λ there. IsClean (S.Store.view store.new)
        → IsFirst (from_key plain key.now ((S.Store.view store.old).trees tree)) row.new there) }
    ensures same { OnOk result (OnlyLooks S.Store store.old store.new) }
    ensures schema { KeepsSchema (S.Store.view store.old) (S.Store.view store.new) }
    ensures err { IfErr result (FailsAsStore S.Store store.old store.new) }
    ensures quiet { CommitsNothing S.Store store.old store.new }
{
    store.seek(LOOK, tree, key, Direction::Forward)?;
    match store.next(LOOK, row) {
        Ok(there) => Ok(there),
        Err(error) => Err(error),
    }
}

/// Whether a row has the key, and writes the first that has it over `row`. Nothing is written to
/// the store; an error is the store's own.
pub fn find_row<S: Store>(
    store: &mut S,
    tree: u32,
    key: &Row,
    row: &mut Row,
) -> Result<bool, StoreError>
    requires { IsSorted S.Store store.old tree }
    ensures found { IfOk result (λ hit. IsClean (S.Store.view store.new)
        → Finds key.now ((S.Store.view store.old).trees tree) row.new hit) }
    ensures same { OnOk result (OnlyLooks S.Store store.old store.new) }
    ensures schema { KeepsSchema (S.Store.view store.old) (S.Store.view store.new) }
    ensures err { IfErr result (FailsAsStore S.Store store.old store.new) }
    ensures quiet { CommitsNothing S.Store store.old store.new }
{
    let there = first_from(store, tree, key, row)?;
    Ok(there && has_key(row, key))
}

/// Writes the first row after those of the key over `row`, or answers that there is none:
/// a step of a walk by key, where no two rows have one key. Nothing is written to the store; an
/// error is the store's own.
#[tactic(auto, using(crate::proofs::Calls::calls_in_turn))]
pub fn first_after<S: Store>(
    store: &mut S,
    tree: u32,
    key: &Row,
    row: &mut Row,
) -> Result<bool, StoreError>
    requires { IsSorted S.Store store.old tree }
    ensures found { IfOk result (λ there. IsClean (S.Store.view store.new)
        → IsFirst (past_key key.now (from_key plain key.now
        ((S.Store.view store.old).trees tree))) row.new there) }
    ensures same { OnOk result (OnlyLooks S.Store store.old store.new) }
    ensures kept { OnErr result (LeavesCommitted S.Store store.old store.new) }
    ensures schema { KeepsSchema (S.Store.view store.old) (S.Store.view store.new) }
    ensures quiet { CommitsNothing S.Store store.old store.new }
{
    store.seek(WALK, tree, key, Direction::Forward)?;
    let there = store.next(WALK, row)?;
    if !there {
        return Ok(false);
    }
    if !has_key(row, key) {
        return Ok(true);
    }
    match store.next(WALK, row) {
        Ok(there) => Ok(there),
        Err(error) => Err(error),
    }
}

/// Writes the last row of all over `row`, or answers that there is none. Nothing is written to the
/// store; an error is the store's own, and what is in `row` is lost then.
#[tactic(auto, using(crate::proofs::Calls::calls_in_turn))]
pub fn last_row<S: Store>(store: &mut S, tree: u32, row: &mut Row) -> Result<bool, StoreError>
    requires { IsSorted S.Store store.old tree }
    ensures found { IfOk result (λ there. IsClean (S.Store.view store.new)
        → IsFirst (reverse ((S.Store.view store.old).trees tree)) row.new there) }
    ensures same { OnOk result (OnlyLooks S.Store store.old store.new) }
    ensures kept { OnErr result (LeavesCommitted S.Store store.old store.new) }
    ensures schema { KeepsSchema (S.Store.view store.old) (S.Store.view store.new) }
    ensures quiet { CommitsNothing S.Store store.old store.new }
{
    // No row is above the key of no columns, so the walk back begins with the last of all.
    row.clear();
    store.seek(WALK, tree, row, Direction::Backward)?;
    match store.next(WALK, row) {
        Ok(there) => Ok(there),
        Err(error) => Err(error),
    }
}

/// Whether a row has the key: whether its first columns are the key's.
pub fn has_key(row: &Row, key: &Row) -> bool
    ensures { result ≡ is_eq (prefix_cmp plain row.now key.now) }
{
    row.cmp_prefix(Order::PLAIN, key).is_eq()
}
