//! The last choices, by identity, as the choices of the tables say.

ghost use Rattle.tree_tables.specs.States.{state_of};
ghost use Rattle.tree_tables.specs.Steps.{Looks};
ghost use Rattle.table_ledger.specs.Adoptions.{IsLast, IsLastOf, JoinsLast};

use sqlite_trees::error::StoreError;
use sqlite_trees::store::Store;
use std::alloc::{AllocError, Global};
use std::collections::BTreeMap;
use tree_tables::{StoredChoice, TreeTables};

/// The last choices of identities: there are no more of them than choices.
#[derive(Drop)]
pub(crate) struct Chosen {
    lasts: BTreeMap<Vec<u8>, StoredChoice>,
}

impl Chosen {
    ghost use Rattle.std.specs.Prelude.{◌≡◌, ℕ, List, None, OnOk, Some, if◌then◌else◌};
    ghost use Rattle.book_model.specs.Words.{same_bytes};
    ghost use Rattle.table_ledger.specs.Adoptions.{is_last, last_chosen, withholds};

    /// None yet.
    fn new(alloc: Global) -> Chosen
        ensures { (identity : List ℕ) → last_chosen result identity ≡ None }
    {
        Chosen {
            lasts: BTreeMap::new(alloc),
        }
    }

    /// Makes a choice the last of an identity.
    fn put(&mut self, identity: Vec<u8>, choice: StoredChoice) -> Result<(), AllocError>
        ensures { OnOk result ((other : List ℕ) → last_chosen self.new other
            ≡ if same_bytes other identity.items then Some choice else last_chosen self.old other) }
    {
        self.lasts.insert(identity, choice)?;
        Ok(())
    }

    /// Whether the last choice of an identity says that none of its records counts.
    pub(crate) fn withholds(&self, identity: &[u8]) -> bool
        ensures { result ≡ withholds self.now identity.now }
    {
        match self.lasts.get(identity) {
            Some(last) => !last.counts,
            None => false,
        }
    }

    /// Whether the last choice of its identity names a record.
    pub(crate) fn is_last(&self, identity: &[u8], name: &[u8; 32]) -> bool
        ensures { result ≡ is_last self.now identity.now name.now }
    {
        match self.lasts.get(identity) {
            Some(last) => *name == last.name,
            None => false,
        }
    }
}

/// One more choice is the last of the identity of its record, if there is one of the name.
fn join<S: Store>(
    tables: &mut TreeTables<S>,
    alloc: Global,
    chosen: &mut Chosen,
    choice: &StoredChoice,
) -> Result<(), StoreError>
    ensures looks { Looks result (state_of tables.old) (state_of tables.new)
        (λ tables joined. JoinsLast choice.now tables.records chosen.old chosen.new) }
{
    if let Some(stored) = tables.find_record(alloc, &choice.name)? {
        chosen.put(stored.identity, *choice)?;
    }
    Ok(())
}

/// From some choices, the last of each identity.
fn last_of<S: Store>(
    tables: &mut TreeTables<S>,
    alloc: Global,
    choices: &[StoredChoice],
) -> Result<Chosen, StoreError>
    ensures looks { Looks result (state_of tables.old) (state_of tables.new)
        (λ tables chosen. IsLastOf choices.now tables.records chosen) }
{
    let mut chosen = Chosen::new(alloc);
    for choice in choices {
        join(tables, alloc, &mut chosen, choice)?;
    }
    Ok(chosen)
}

/// The last choices of all identities. The memory for them grows with the choices, and not with
/// the records.
pub(crate) fn look_for_chosen<S: Store>(
    tables: &mut TreeTables<S>,
    alloc: Global,
) -> Result<Chosen, StoreError>
    ensures looks { Looks result (state_of tables.old) (state_of tables.new)
        (λ tables chosen. IsLast chosen tables) }
{
    let choices = tables.list_choices(alloc)?;
    last_of(tables, alloc, &choices)
}
