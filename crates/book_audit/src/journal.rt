//! The entries of the journal, one after the other.

ghost use Rattle.std.specs.Prelude.{◌≡◌, ◌+◌, IfOk, Some, option_map, true};
ghost use Rattle.sqlite_value.specs.Order.{column};
ghost use Rattle.sqlite_value.specs.declared.value.Value.TheVariants.{Null};
ghost use Rattle.book_model.specs.Words.{place_shown};
ghost use Rattle.tree_tables.specs.JournalColumns.{act_stored, journal_columns};
ghost use Rattle.book_audit.specs.Journal as spec;
ghost use Rattle.book_audit.specs.Journal.{AreEntered, IsEntryRow, IsPlaced, IsThere, IsWhole};
ghost use Rattle.book_audit.specs.Journal.{kept_in, numbered, ruled_in};
ghost use Rattle.book_audit.specs.Looks.{Looks, Tells};

use crate::due::Due;
use crate::finding::{Place, Tree, Wrong};
use crate::identity_rule::IdentityRule;
use crate::stop::{Stop, met, unsound};
use crate::trees::Trees;
use crate::walk::{MOST_ROWS, Walk, endless};
use crate::watch::Watch;
use book_model::Place as RulingPlace;
use sqlite_trees::error::StoreError;
use sqlite_trees::store::Store;
use sqlite_value::row::Row;
use sqlite_value::value::ValueRef;
use std::alloc::Global;
use tree_tables::{StoredAct, StoredEntry, count_at, place_number, read_entry};

/// An entry as its row says, with its number.
#[derive(Drop)]
pub(crate) struct NumberedEntry {
    number: u64,
    entry: StoredEntry,
}

/// Whether a column has nothing.
fn is_null(row: &Row, at: usize) -> bool
    ensures { result ≡ true → column row.now at ≡ Null }
{
    match row.get(at) {
        ValueRef::Null => true,
        _ => false,
    }
}

/// Whether a row has the columns of what it is about, and no others.
fn is_whole(row: &Row, act: &StoredAct) -> bool
    ensures { result ≡ true → IsWhole row.now act.now }
{
    match *act {
        StoredAct::Ruling(_) => row.len() == 7,
        StoredAct::Import(_, _, _) => row.len() == 20 && is_null(row, 6),
    }
}

/// What the row of an entry says, which has that and no more.
fn entry_in(alloc: Global, row: &Row) -> Result<NumberedEntry, StoreError>
    ensures read { IfOk result (λ one. row.now ≡ journal_columns (numbered one)) }
{
    let number = count_at(row, 0)?;
    let entry = read_entry(row, alloc)?;
    if !is_whole(row, &entry.act) {
        return Err(StoreError::Corrupt);
    }
    Ok(NumberedEntry { number, entry })
}

/// Whether a number is the next one after so many.
fn is_next(number: u64, before: u64) -> bool
    ensures { result ≡ true → number ≡ before + 1 }
{
    number != 0 && number - 1 == before
}

/// The ruling that an entry is of, by its place.
fn ruling_in(act: &StoredAct) -> Option<RulingPlace>
    ensures { option_map place_shown result ≡ ruled_in (act_stored act.now) }
{
    match *act {
        StoredAct::Ruling(place) => Some(place),
        StoredAct::Import(_, _, _) => None,
    }
}

/// How many records an entry says that it kept.
fn kept_by(act: &StoredAct) -> u64
    ensures { result ≡ kept_in (act_stored act.now) }
{
    match *act {
        StoredAct::Ruling(_) => 0,
        StoredAct::Import(_, _, kept) => kept,
    }
}

/// The tree that has the row of a ruling; the adoption stands in the row of the book.
fn tree_of(place: RulingPlace) -> Option<Tree>
    ensures { result ≡ spec.tree_of (place_shown place) }
{
    match place {
        RulingPlace::Tariff(_) => Some(Tree::Tariffs),
        RulingPlace::Close(_) => Some(Tree::Closes),
        RulingPlace::Choice(_) => Some(Tree::Choices),
        RulingPlace::Adoption => None,
        RulingPlace::Replacement(_) => Some(Tree::Replaced),
        RulingPlace::Credit(_) => Some(Tree::Credits),
    }
}

/// Whether the ruling of a place is there.
fn is_there<S: Store>(
    trees: &mut Trees<S>,
    rule: IdentityRule,
    place: RulingPlace,
) -> Result<bool, Stop>
    ensures there { Tells result trees.old trees.new (λ all there.
        there ≡ true → IsThere all rule (Some (place_shown place))) }
    ensures looks { Looks result trees.old trees.new }
{
    let Some(tree) = tree_of(place) else {
        return Ok(rule.is_adopted());
    };
    let has = trees.has_number(tree, place_number(place))?;
    Ok(has)
}

/// The ruling that an entry is of is there.
fn check_ruling<S: Store>(
    trees: &mut Trees<S>,
    rule: IdentityRule,
    place: Place,
    act: &StoredAct,
) -> Result<(), Stop>
    ensures placed { Tells result trees.old trees.new (λ all _.
        IsPlaced all rule (act_stored act.now)) }
    ensures looks { Looks result trees.old trees.new }
{
    let Some(ruling) = ruling_in(act) else {
        return Ok(());
    };
    if !is_there(trees, rule, ruling)? {
        return Err(unsound(place, Wrong::NoRuling));
    }
    Ok(())
}

/// A row is that of the next entry after so many, and its ruling is there if it is of one. Returns
/// how many records it says that it kept.
fn check_entry<S: Store>(
    alloc: Global,
    trees: &mut Trees<S>,
    rule: IdentityRule,
    row: &Row,
    before: u64,
) -> Result<u64, Stop>
    ensures entry { Tells result trees.old trees.new (λ all kept.
        IsEntryRow all rule before row.now kept) }
    ensures looks { Looks result trees.old trees.new }
{
    let one = match entry_in(alloc, row) {
        Ok(one) => one,
        Err(error) => return Err(met(Tree::Journal, error)),
    };
    let place = Place::Entry(one.number);
    if !is_next(one.number, before) {
        return Err(unsound(place, Wrong::ChoiceNumber));
    }
    check_ruling(trees, rule, place, &one.entry.act)?;
    Ok(kept_by(&one.entry.act))
}

/// Reads all entries. Returns how many records each says that it kept.
pub(crate) fn read_journal<S: Store, W: Watch>(
    alloc: Global,
    trees: &mut Trees<S>,
    walk: &mut Walk,
    rule: IdentityRule,
    watch: &mut W,
) -> Result<Due, Stop>
    ensures entered { Tells result trees.old trees.new (λ all due.
        AreEntered all rule due.left.items) }
    ensures looks { Looks result trees.old trees.new }
{
    let tree = Tree::Journal;
    walk.begin(tree);
    let mut due = Due::new(alloc);
    'entries: for count in 0..MOST_ROWS {
        watch.read(tree, count);
        if !walk.next(trees)? {
            return Ok(due);
        }
        let kept = check_entry(alloc, trees, rule, walk.row(), count)?;
        due.push(kept)?;
    }
    Err(endless())
}
