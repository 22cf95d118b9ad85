//! Choices as older forms have them: their rows do not say whether they count, and each does.

ghost use Rattle.std.specs.FinMap.{insert};
ghost use Rattle.sqlite_trees.specs.View.{KeepsSchema};
ghost use Rattle.tree_rows.specs.Calls.{IsSorted};
ghost use Rattle.tree_tables.specs.OldChoices.{Marks, MarksAll, SaysOldChoice, mark_each, marked};
ghost use Rattle.tree_tables.specs.States.{state};

use crate::choice_rows::choice_row;
use crate::column_values::{hash_at, number_at, period_at};
use crate::columns::{CHOICE_NAME, CHOICE_NUMBER, CHOICE_PERIOD};
use crate::keys::ruling_key;
use crate::trees::CHOICES;
use sqlite_trees::error::StoreError;
use sqlite_trees::store::Store;
use sqlite_value::row::Row;
use std::alloc::Global;
use tree_rows::{ReadRow, list_run, put_row};

/// A choice as its row says in an older form.
#[derive(Clone, Copy, Drop)]
pub(crate) struct OldChoice {
    pub(crate) number: u32,
    pub(crate) name: [u8; 32],
    pub(crate) period: u16,
}

impl ReadRow for OldChoice {
    ghost says = { SaysOldChoice };

    fn read(row: &Row, _alloc: Global) -> Result<OldChoice, StoreError> {
        Ok(OldChoice {
            number: number_at(row, CHOICE_NUMBER)?,
            name: hash_at(row, CHOICE_NAME)?,
            period: period_at(row, CHOICE_PERIOD)?,
        })
    }
}

/// What a row is marked with: its key, the row with its mark, and the row that was there before.
#[derive(Drop)]
struct MarkScratch {
    key: Row,
    row: Row,
    before: Row,
}

/// A choice gets the mark that it counts.
fn mark_one<S: Store>(
    store: &mut S,
    scratch: &mut MarkScratch,
    one: &OldChoice,
) -> Result<(), StoreError>
    requires { IsSorted S.Store store.old CHOICES }
    ensures marks { Marks result (state S.Store store.old) (state S.Store store.new)
        (λ choices. insert choices one.now.number (marked one.now)) }
    ensures schema { KeepsSchema (S.Store.view store.old) (S.Store.view store.new) }
{
    ruling_key(&mut scratch.key, one.number)?;
    choice_row(&mut scratch.row, one.number, &one.name, true, one.period)?;
    put_row(
        store,
        CHOICES,
        &scratch.key,
        &scratch.row,
        &mut scratch.before,
    )
}

/// Choices get it, one after the other.
fn mark_these<S: Store>(store: &mut S, alloc: Global, all: &[OldChoice]) -> Result<(), StoreError>
    requires { IsSorted S.Store store.old CHOICES }
    ensures marks { Marks result (state S.Store store.old) (state S.Store store.new)
        (mark_each all.now) }
    ensures schema { KeepsSchema (S.Store.view store.old) (S.Store.view store.new) }
{
    let mut scratch = MarkScratch {
        key: Row::new(alloc),
        row: Row::new(alloc),
        before: Row::new(alloc),
    };
    for one in all {
        mark_one(store, &mut scratch, one)?;
    }
    Ok(())
}

/// The rows of all choices of an older form get the mark that they count. Nothing is committed.
pub fn mark_choices<S: Store>(alloc: Global, store: &mut S) -> Result<(), StoreError>
    requires { IsSorted S.Store store.old CHOICES }
    ensures marks { MarksAll result (state S.Store store.old) (state S.Store store.new) }
    ensures schema { KeepsSchema (S.Store.view store.old) (S.Store.view store.new) }
{
    let key = Row::new(alloc);
    let mut row = Row::new(alloc);
    let all: Vec<OldChoice> = list_run(store, CHOICES, &key, &mut row, alloc)?;
    mark_these(store, alloc, &all)
}
