//! Books of an older form get the tables that they have not.

ghost use Rattle.std.specs.Prelude.{◌≡◌, OnOk, false};
ghost use Rattle.sqlite_trees.specs.View.{IsClean};
ghost use Rattle.tree_rows.specs.Calls.{CommitsNothing};
ghost use Rattle.book_trees.specs.OldForms.{AddsTables, GrowsOn, HasGrown, HasGrownTo};
ghost use Rattle.book_trees.specs.OldForms.{HasOldTrees, form_by};

use crate::schema::{
    OlderForm, choice_object, credit_object, detail_object, journal_object, record_object,
    replaced_object,
};
use sqlite_trees::error::StoreError;
use sqlite_trees::store::{Alter, Shape, Store};
use tree_tables::trees::{CHOICES, CREDITS, DETAILS, JOURNAL, RECORDS, REPLACED};

/// The older form by the shape of the tree of details.
fn form_by(shape: Shape) -> OlderForm
    ensures { result ≡ form_by shape }
{
    match shape {
        Shape::Index(_order) => OlderForm::Second,
        _ => OlderForm::First,
    }
}

/// The older form whose trees a store has.
pub fn old_form<S: Store>(store: &S) -> OlderForm
    ensures { result ≡ form_by ((S.Store.view store.now).shape 10) }
{
    form_by(store.shape(DETAILS))
}

/// Books of the first form get a tree for details, which has no row.
fn add_details<S: Alter>(store: &mut S) -> Result<(), StoreError>
    requires { IsClean (S.Store.view store.old) → HasOldTrees (S.Store.view store.old) }
    ensures done { OnOk result (IsClean (S.Store.view store.new)
        → (old : HasOldTrees (S.Store.view store.old))
        → HasGrown 11 old.form (S.Store.view store.old) (S.Store.view store.new)) }
    ensures quiet { CommitsNothing S.Store store.old store.new }
{
    match old_form(store) {
        OlderForm::First => store.create(DETAILS, &detail_object()),
        OlderForm::Second => Ok(()),
    }
}

/// The choices are listed with the column that says whether they count. Their rows are left alone.
fn list_choices<S: Alter>(store: &mut S) -> Result<(), StoreError>
    requires { IsClean (S.Store.view store.old) → HasGrownTo 11 (S.Store.view store.old) }
    ensures done { OnOk result (IsClean (S.Store.view store.new)
        → GrowsOn 11 11 (S.Store.view store.old) (S.Store.view store.new)) }
    ensures quiet { CommitsNothing S.Store store.old store.new }
{
    store.relist(&[(CHOICES, choice_object())])
}

/// The records are listed with the column that says by which entries they came. Their rows are left
/// alone.
fn list_records<S: Alter>(store: &mut S) -> Result<(), StoreError>
    requires { IsClean (S.Store.view store.old) → HasGrownTo 11 (S.Store.view store.old) }
    ensures done { OnOk result (IsClean (S.Store.view store.new)
        → GrowsOn 11 11 (S.Store.view store.old) (S.Store.view store.new)) }
    ensures quiet { CommitsNothing S.Store store.old store.new }
{
    store.relist(&[(RECORDS, record_object())])
}

/// A tree for credits is made.
fn add_credits<S: Alter>(store: &mut S) -> Result<(), StoreError>
    requires { IsClean (S.Store.view store.old) → HasGrownTo 11 (S.Store.view store.old) }
    ensures done { OnOk result (IsClean (S.Store.view store.new)
        → GrowsOn 11 12 (S.Store.view store.old) (S.Store.view store.new)) }
    ensures quiet { CommitsNothing S.Store store.old store.new }
{
    store.create(CREDITS, &credit_object())
}

/// A tree for tariffs that were replaced is made.
fn add_replaced<S: Alter>(store: &mut S) -> Result<(), StoreError>
    requires { IsClean (S.Store.view store.old) → HasGrownTo 12 (S.Store.view store.old) }
    ensures done { OnOk result (IsClean (S.Store.view store.new)
        → GrowsOn 12 13 (S.Store.view store.old) (S.Store.view store.new)) }
    ensures quiet { CommitsNothing S.Store store.old store.new }
{
    store.create(REPLACED, &replaced_object())
}

/// A tree for the journal is made.
fn add_journal<S: Alter>(store: &mut S) -> Result<(), StoreError>
    requires { IsClean (S.Store.view store.old) → HasGrownTo 13 (S.Store.view store.old) }
    ensures done { OnOk result (IsClean (S.Store.view store.new)
        → GrowsOn 13 14 (S.Store.view store.old) (S.Store.view store.new)) }
    ensures sound { OnOk result (IsClean (S.Store.view store.new)
        → (S.Store.view store.old).is_broken ≡ false) }
    ensures quiet { CommitsNothing S.Store store.old store.new }
{
    store.create(JOURNAL, &journal_object())
}

/// Books of an older form get all trees of this one: those that they had not have no row, and the
/// rows of records and choices say no more than they did. Nothing is committed.
pub fn add_tables<S: Alter>(store: &mut S) -> Result<(), StoreError>
    requires { IsClean (S.Store.view store.old) → HasOldTrees (S.Store.view store.old) }
    ensures done { OnOk result (IsClean (S.Store.view store.new)
        → (old : HasOldTrees (S.Store.view store.old))
        → AddsTables old.form (S.Store.view store.old) (S.Store.view store.new)) }
    ensures quiet { CommitsNothing S.Store store.old store.new }
{
    add_details(store)?;
    list_choices(store)?;
    list_records(store)?;
    add_credits(store)?;
    add_replaced(store)?;
    add_journal(store)
}
