//! The choices: which record was named last of each identity, and whether it counts.

ghost use Rattle.std.specs.Prelude.{◌≡◌, ◌≤◌, ◌+◌, ◌||◌, IfOk, None, is_some, length, not};
ghost use Rattle.book_audit.specs.Choices.{last_chosen};
ghost use Rattle.tree_tables.specs.Columns.{choice_columns};
ghost use Rattle.book_audit.specs.ChoiceRows.{AreChoices, Chooses, IsChosenAmong, entry_of, row_of};
ghost use Rattle.book_audit.specs.Entries.{AreCounted};
ghost use Rattle.book_audit.specs.Looks.{Looks, Tells};

use crate::entry_counts::check_entries;
use crate::finding::{Place, Tree, Wrong};
use crate::identity_rule::IdentityRule;
use crate::stop::{Stop, met, unsound};
use crate::trees::Trees;
use crate::walk::Walk;
use crate::watch::Watch;
use sqlite_trees::error::StoreError;
use sqlite_trees::store::Store;
use sqlite_value::row::Row;
use std::alloc::{AllocError, Global};
use std::collections::BTreeMap;
use tree_tables::{hash_at, mark_at, number_at, period_at};

/// The most choices that there are.
const MAX_CHOICES: u64 = 1_000_000;

/// A choice as its row says.
#[derive(Clone, Copy)]
pub(crate) struct Choice {
    number: u32,
    /// The name of the record that was named.
    name: [u8; 32],
    /// It counts from then on; else no record of its work does.
    counts: bool,
    /// The period that was open then.
    period: u16,
}

/// What the row of a choice says.
fn choice_in(row: &Row) -> Result<Choice, StoreError>
    requires { length row.now ≡ 4 }
    ensures read { IfOk result (λ choice. row.now ≡ choice_columns (entry_of choice)) }
{
    Ok(Choice {
        number: number_at(row, 0)?,
        name: hash_at(row, 1)?,
        counts: mark_at(row, 3)?,
        period: period_at(row, 2)?,
    })
}

/// The record that a choice names, and whether it counts from then on.
#[derive(Clone, Copy, Drop)]
pub(crate) struct Named {
    name: [u8; 32],
    counts: bool,
}

/// The choices so far.
#[derive(Drop)]
pub(crate) struct Chosen {
    /// How many there are: the number of the last one.
    pub(crate) count: u32,
    /// The period of the last one; 1 where there is none.
    since: u16,
    /// The record that was named last, by identity.
    lasts: BTreeMap<Vec<u8>, Named>,
}

impl Chosen {
    ghost use Rattle.std.specs.Prelude.{◌≡◌, ℕ, List, None, OnOk, Some, if◌then◌else◌};
    ghost use Rattle.book_model.specs.Words.{same_bytes};
    ghost use Rattle.book_audit.specs.Choices.{is_last, last_chosen, withholds};
    ghost use Rattle.book_audit.specs.ChoiceRows.{named_in, row_of};
    ghost use Rattle.std.specs.Prelude.{is_some};

    /// No choices.
    fn new(alloc: Global) -> Chosen
        ensures none { (identity : List ℕ) → last_chosen result identity ≡ None }
        ensures count { result.count ≡ 0 }
        ensures since { result.since ≡ 1 }
    {
        Chosen {
            count: 0,
            since: 1,
            lasts: BTreeMap::new(alloc),
        }
    }

    /// What is wrong with the number or the period of the next choice.
    fn wrong_with(&self, choice: &Choice, open_period: u16) -> Option<Wrong>
        ensures number { result ≡ None → choice.now.number ≡ self.now.count + 1 }
        ensures since { result ≡ None → self.now.since ≤ choice.now.period }
        ensures open { result ≡ None → choice.now.period ≤ open_period }
    {
        if choice.number == 0 || choice.number - 1 != self.count {
            return Some(Wrong::ChoiceNumber);
        }
        if choice.period < self.since || open_period < choice.period {
            return Some(Wrong::ChoicePeriod);
        }
        None
    }

    /// Makes the record of the next choice the last of its identity.
    fn put(&mut self, identity: Vec<u8>, choice: &Choice) -> Result<(), AllocError>
        ensures count { OnOk result (self.new.count ≡ choice.now.number) }
        ensures since { OnOk result (self.new.since ≡ choice.now.period) }
        ensures names { OnOk result ((other : List ℕ) → last_chosen self.new other
            ≡ if same_bytes other identity.items then Some (named_in (row_of choice.now))
            else last_chosen self.old other) }
    {
        let named = Named {
            name: choice.name,
            counts: choice.counts,
        };
        self.lasts.insert(identity, named)?;
        self.count = choice.number;
        self.since = choice.period;
        Ok(())
    }

    /// Whether the last choice of an identity says that none of its records counts.
    pub(crate) fn withholds(&self, identity: &[u8]) -> bool
        ensures { result ≡ withholds self.now identity.now }
    {
        match self.lasts.get(identity) {
            Some(last) => !last.counts,
            None => false,
        }
    }

    /// Whether some choice names a record of an identity.
    fn has(&self, identity: &[u8]) -> bool
        ensures { result ≡ is_some (last_chosen self.now identity.now) }
    {
        match self.lasts.get(identity) {
            Some(_) => true,
            None => false,
        }
    }

    /// Whether a record was the last that was named of its identity.
    pub(crate) fn is_last(&self, identity: &[u8], name: &[u8; 32]) -> bool
        ensures { result ≡ is_last self.now identity.now name.now }
    {
        match self.lasts.get(identity) {
            Some(last) => *name == last.name,
            None => false,
        }
    }
}

/// Whether a record may have been named: if an adoption can have parted it from the others of its
/// identity since, or it still shares it; or alone, by a choice of none, or by one behind others.
fn may_be_chosen(is_parted: bool, is_shared: bool, may_be_alone: bool) -> bool
    ensures { result ≡ (is_parted || is_shared || may_be_alone) }
{
    is_parted || is_shared || may_be_alone
}

/// A choice may name a record that is alone in its identity: it is one of none, or comes behind
/// another of the identity.
fn may_be_alone(choice: &Choice, is_behind: bool) -> bool
    ensures { result ≡ (not choice.now.counts || is_behind) }
{
    !choice.counts || is_behind
}

/// The identity of the record that a choice names. It is held, and is not alone in its identity
/// unless an adoption can have parted it from the others, or the choice may name such a record.
fn chosen_identity<S: Store>(
    alloc: Global,
    trees: &mut Trees<S>,
    rule: IdentityRule,
    chosen: &Chosen,
    choice: &Choice,
) -> Result<Vec<u8>, Stop>
    ensures among { Tells result trees.old trees.new (λ all identity. IsChosenAmong all rule
        (is_some (last_chosen chosen.now identity.items)) (row_of choice.now) identity.items) }
    ensures looks { Looks result trees.old trees.new }
{
    let place = Place::Choice(choice.number);
    let Some(identity) = trees.identity_of(alloc, &choice.name)? else {
        return Err(unsound(place, Wrong::NotHeld));
    };
    let is_shared = trees.is_shared(&identity)?;
    let alone = may_be_alone(choice, chosen.has(&identity));
    if !may_be_chosen(rule.may_split(choice.period), is_shared, alone) {
        return Err(unsound(place, Wrong::ChosenAlone));
    }
    Ok(identity)
}

/// A choice follows the one before, names a record that could be chosen, and is found by it.
fn check_choice<S: Store>(
    alloc: Global,
    trees: &mut Trees<S>,
    rule: IdentityRule,
    open_period: u16,
    chosen: &mut Chosen,
    choice: &Choice,
) -> Result<(), Stop>
    ensures chooses { Tells result trees.old trees.new (λ all _.
        Chooses all rule open_period chosen.old chosen.new choice.now) }
    ensures looks { Looks result trees.old trees.new }
{
    let place = Place::Choice(choice.number);
    if let Some(wrong) = chosen.wrong_with(choice, open_period) {
        return Err(unsound(place, wrong));
    }
    let identity = chosen_identity(alloc, trees, rule, chosen, choice)?;
    if !trees.has_choice_name(&choice.name, choice.number)? {
        return Err(unsound(place, Wrong::NoChoiceName));
    }
    chosen.put(identity, choice)?;
    Ok(())
}

/// Reads all choices, the last of which was made in the open period or before it, and the tree that
/// finds them. The memory for them grows with the identities that were chosen among, and not with
/// the records.
pub(crate) fn read_choices<S: Store, W: Watch>(
    alloc: Global,
    trees: &mut Trees<S>,
    walk: &mut Walk,
    rule: IdentityRule,
    open_period: u16,
    watch: &mut W,
) -> Result<Chosen, Stop>
    ensures choices { Tells result trees.old trees.new (λ all chosen.
        AreChoices all rule open_period chosen
        × AreCounted Tree.ChoiceNames (all 9) chosen.count) }
    ensures looks { Looks result trees.old trees.new }
{
    let tree = Tree::Choices;
    walk.begin(tree);
    let mut chosen = Chosen::new(alloc);
    'choices: for count in 0..MAX_CHOICES + 1 {
        watch.read(tree, count);
        if !walk.next(trees)? {
            check_entries(trees, walk, Tree::ChoiceNames, count, watch)?;
            return Ok(chosen);
        }
        let choice = match choice_in(walk.row()) {
            Ok(choice) => choice,
            Err(error) => return Err(met(tree, error)),
        };
        check_choice(alloc, trees, rule, open_period, &mut chosen, &choice)?;
    }
    Err(unsound(Place::Tree(tree), Wrong::Choices))
}
