//! The trees of books, which are read and never written.

ghost use Rattle.sqlite_trees.specs.View.{IsClean};
ghost use Rattle.tree_tables.specs.Holds.{HasShapes};

use crate::finding::{DetailKey, Tree};
use crate::keys::{
    bytes_key, choice_name_key, detail_key, identity_key, line_key, mark_key, number_key,
};
use crate::record_row::record_in;
use crate::stop::{Stop, met};
use sqlite_trees::error::StoreError;
use sqlite_trees::store::Store;
use sqlite_value::row::Row;
use std::alloc::Global;
use tree_rows::{find_row, first_after, first_from, has_key};
use tree_tables::{StoredRecord, bytes_at, mark_at};

/// The tree that finds records by their identities.
const IDENTITIES: u32 = 6;

/// The trees in a store.
#[derive(Drop)]
pub(crate) struct Trees<S: Store> {
    pub(crate) store: S,
    /// The key that is looked for.
    key: Row,
    /// The row that was found.
    found: Row,
    ghost shaped: { IsClean (S.Store.view store) → HasShapes (S.Store.view store) },
}

impl<S: Store> Trees<S> {
    ghost use Rattle.std.specs.Prelude.{◌≡◌, ◌∷◌, [], IfOk, IfSome, OnOk, is_some, pos, true};
    ghost use Rattle.sqlite_trees.specs.View.{IsClean};
    ghost use Rattle.sqlite_value.specs.Order.{column};
    ghost use Rattle.sqlite_value.specs.declared.value.Value.TheVariants.{Blob, Int};
    ghost use Rattle.tree_rows.specs.Calls.{CommitsNothing, OnlyLooks};
    ghost use Rattle.tree_rows.specs.Rows.{Finds, IsFirst};
    ghost use Rattle.tree_tables.specs.Columns.{flag};
    ghost use Rattle.tree_tables.specs.Holds.{HasShapes};
    ghost use Rattle.tree_tables.specs.Stored.{stored_entry};
    ghost use Rattle.tree_tables.specs.Walks.{rows_past};
    ghost use Rattle.book_audit.specs.Looks.{Looks, Tells, TellsIfSome};
    ghost use Rattle.book_audit.specs.Records as spec;
    ghost use Rattle.book_audit.specs.Records.{IsHeld};
    ghost use Rattle.book_audit.specs.Trees.{FindsTwo, tree_number};

    /// The trees in a store that has them.
    pub(crate) fn over(alloc: Global, store: S) -> Trees<S>
        requires { IsClean (S.Store.view store) → HasShapes (S.Store.view store) }
        ensures { result.store ≡ store }
    {
        Trees {
            store,
            key: Row::new(alloc),
            found: Row::new(alloc),
        }
    }

    /// The store.
    pub(crate) fn into_store(self) -> S
        ensures { result ≡ self.store }
    {
        self.store
    }

    /// Reads the first row after that of a key into `row`, or the very first if the key has no
    /// columns; or answers that there is none.
    pub(crate) fn row_past(
        &mut self,
        tree: Tree,
        key: &Row,
        row: &mut Row,
    ) -> Result<bool, StoreError>
        ensures found { Tells result self.old self.new (λ all there.
            IsFirst (rows_past key.now (all (tree_number tree))) row.new there) }
        ensures same { OnOk result (OnlyLooks S.Store self.old.store self.new.store) }
        ensures quiet { CommitsNothing S.Store self.old.store self.new.store }
    {
        let number = tree.number();
        if key.is_empty() {
            return first_from(&mut self.store, number, key, row);
        }
        first_after(&mut self.store, number, key, row)
    }

    /// Whether a row of a tree has the key; it is then found.
    fn finds(&mut self, tree: Tree) -> Result<bool, Stop>
        ensures found { Tells result self.old self.new (λ all hit.
            Finds self.old.key (all (tree_number tree)) self.new.found hit) }
        ensures looks { Looks result self.old self.new }
    {
        match find_row(&mut self.store, tree.number(), &self.key, &mut self.found) {
            Ok(hit) => Ok(hit),
            Err(error) => Err(met(tree, error)),
        }
    }

    /// Whether a row of a tree has a number as its key.
    pub(crate) fn has_number(&mut self, tree: Tree, number: i64) -> Result<bool, Stop>
        ensures found { Tells result self.old self.new (λ all hit.
            Finds (Int number ∷ []) (all (tree_number tree)) self.new.found hit) }
        ensures looks { Looks result self.old self.new }
    {
        number_key(&mut self.key, number)?;
        self.finds(tree)
    }

    /// Whether a record is found by its identity.
    pub(crate) fn has_identity(&mut self, stored: &StoredRecord) -> Result<bool, Stop>
        ensures found { Tells result self.old self.new (λ all hit.
            Finds (Blob stored.now.identity.items ∷ Blob stored.now.name ∷ []) (all 6)
            self.new.found hit) }
        ensures looks { Looks result self.old self.new }
    {
        identity_key(&mut self.key, stored)?;
        self.finds(Tree::Identities)
    }

    /// Whether a record is found by its mark and its identity.
    pub(crate) fn has_mark(&mut self, stored: &StoredRecord) -> Result<bool, Stop>
        ensures found { Tells result self.old self.new (λ all hit.
            Finds (Int (pos (flag stored.now.charged)) ∷ Blob stored.now.identity.items
            ∷ Blob stored.now.name ∷ []) (all 7) self.new.found hit) }
        ensures looks { Looks result self.old self.new }
    {
        mark_key(&mut self.key, stored)?;
        self.finds(Tree::Marks)
    }

    /// Whether a choice is found by the record that it names.
    pub(crate) fn has_choice_name(&mut self, name: &[u8; 32], number: u32) -> Result<bool, Stop>
        ensures found { Tells result self.old self.new (λ all hit.
            Finds (Blob name.now ∷ Int (pos number) ∷ []) (all 9) self.new.found hit) }
        ensures looks { Looks result self.old self.new }
    {
        choice_name_key(&mut self.key, name, number)?;
        self.finds(Tree::ChoiceNames)
    }

    /// Whether a row of details is at a place.
    pub(crate) fn has_detail(&mut self, spot: &DetailKey) -> Result<bool, Stop>
        ensures found { Tells result self.old self.new (λ all hit.
            Finds (spec.detail_key spot.now) (all 10) self.new.found hit) }
        ensures looks { Looks result self.old self.new }
    {
        detail_key(&mut self.key, spot)?;
        self.finds(Tree::Details)
    }

    /// Whether two or more entries have an identity: whether the row after the first that has it
    /// has it too.
    pub(crate) fn is_shared(&mut self, identity: &[u8]) -> Result<bool, Stop>
        ensures found { Tells result self.old self.new (λ all shared.
            FindsTwo (Blob identity.now ∷ []) (all 6) self.new.found shared) }
        ensures looks { Looks result self.old self.new }
    {
        bytes_key(&mut self.key, identity)?;
        let there = match first_after(&mut self.store, IDENTITIES, &self.key, &mut self.found) {
            Ok(there) => there,
            Err(error) => return Err(met(Tree::Identities, error)),
        };
        if !there {
            return Ok(false);
        }
        Ok(has_key(&self.found, &self.key))
    }

    /// Whether a period's line for a record adds it, if there is a line.
    pub(crate) fn line_of(&mut self, period: u16, name: &[u8; 32]) -> Result<Option<bool>, Stop>
        ensures found { Tells result self.old self.new (λ all line.
            Finds (Int (pos period) ∷ Blob name.now ∷ []) (all 5) self.new.found (is_some line)) }
        ensures read { IfOk result (λ line. IfSome line (λ plus.
            column self.new.found 2 ≡ Int (pos (flag plus)))) }
        ensures looks { Looks result self.old self.new }
    {
        line_key(&mut self.key, period, name)?;
        if !self.finds(Tree::Lines)? {
            return Ok(None);
        }
        match mark_at(&self.found, 2) {
            Ok(plus) => Ok(Some(plus)),
            Err(error) => Err(met(Tree::Lines, error)),
        }
    }

    /// The identity of the record of a name, if there is one.
    pub(crate) fn identity_of(
        &mut self,
        alloc: Global,
        name: &[u8; 32],
    ) -> Result<Option<Vec<u8>>, Stop>
        ensures found { Tells result self.old self.new (λ all identity.
            Finds (Blob name.now ∷ []) (all 3) self.new.found (is_some identity)) }
        ensures read { IfOk result (λ identity. IfSome identity (λ bytes.
            column self.new.found 1 ≡ Blob bytes.items)) }
        ensures looks { Looks result self.old self.new }
    {
        bytes_key(&mut self.key, name)?;
        if !self.finds(Tree::Records)? {
            return Ok(None);
        }
        match bytes_at(&self.found, 1, alloc) {
            Ok(identity) => Ok(Some(identity)),
            Err(error) => Err(met(Tree::Records, error)),
        }
    }

    /// The record of a name, if there is one.
    pub(crate) fn record_of(
        &mut self,
        alloc: Global,
        name: &[u8; 32],
    ) -> Result<Option<StoredRecord>, Stop>
        ensures held { TellsIfSome result self.old self.new (λ all stored.
            IsHeld (all 3) name.now (stored_entry stored)) }
        ensures looks { Looks result self.old self.new }
    {
        bytes_key(&mut self.key, name)?;
        if !self.finds(Tree::Records)? {
            return Ok(None);
        }
        match record_in(alloc, &self.found) {
            Ok(one) => Ok(Some(one.record)),
            Err(error) => Err(met(Tree::Records, error)),
        }
    }
}
