//! The details of books that had none: a row for each record that the charge rows of some period
//! count. They are told by the marks and the lines, and written into a tree that was just made.

ghost use Rattle.std.specs.Prelude.{◌≡◌, ◌+◌, ◌∷◌, [], ℕ, pos, IfOk, List, OnErr, OnOk, length};
ghost use Rattle.std.specs.Prelude.{option_copied};
ghost use Rattle.std.specs.BTreeMap.{get};
ghost use Rattle.std.specs.FinMap.{entries};
ghost use Rattle.std.specs.List.Sorted.{IsPermutation};
ghost use Rattle.sqlite_trees.specs.View.{IsClean, KeepsSchema};
ghost use Rattle.sqlite_value.specs.declared.value.Value.TheVariants.{Int};
ghost use Rattle.book_model.specs.Words.{by_bytes};
ghost use Rattle.table_model.specs.CountedRead.{charged_before_lines, first_line};
ghost use Rattle.table_model.specs.Tables.{CameTable, RecordRow};
ghost use Rattle.tree_rows.specs.Calls.{CommitsNothing, IsSorted, LeavesCommitted, OnlyLooks};
ghost use Rattle.tree_tables.specs.Columns.{record_columns};
ghost use Rattle.tree_tables.specs.Holds.{has_book};
ghost use Rattle.tree_tables.specs.States.{state};
ghost use Rattle.tree_tables.specs.Steps.{Always, Does, Looks};
ghost use Rattle.table_ledger.specs.OldForms.{AddsCounted, count_each, names_by, names_of};
ghost use Rattle.table_ledger.specs.OldForms.{names_read, uncounted, with_details};

use crate::count_test::add_first;
use book_core::LAST_PERIOD;
use sqlite_trees::error::StoreError;
use sqlite_trees::store::Store;
use sqlite_value::row::Row;
use sqlite_value::value::ValueRef;
use std::alloc::{AllocError, Global};
use std::collections::BTreeMap;
use tree_rows::find_row;
use tree_tables::trees::{BOOK, CLOSES, DETAILS, LINES, RECORDS};
use tree_tables::{
    Close, DetailScratch, MOST_STEPS, closes_in, count_in, lines_in, next_record_in, read_mark,
    start_records,
};

/// The number of the book's one row.
const FIRST: i64 = 1;

/// A record that is counted, and its day: details are written day by day, so that few pages of
/// their tree are changed at a time.
#[derive(Clone, Copy, Drop)]
pub(crate) struct Counted {
    day: i32,
    name: [u8; 32],
}

/// The key of the book's row.
fn book_key(alloc: Global) -> Result<Row, AllocError>
    ensures { IfOk result (λ key. key ≡ Int (pos 1) ∷ []) }
{
    let mut key = Row::new(alloc);
    key.push(ValueRef::Int(FIRST))?;
    Ok(key)
}

/// Whether the row of the book is there.
pub fn has_book_row<S: Store>(alloc: Global, store: &mut S) -> Result<bool, StoreError>
    requires { IsSorted S.Store store.old BOOK }
    ensures row { IfOk result (λ there. IsClean (S.Store.view store.new)
        → there ≡ has_book (S.Store.view store.old).trees) }
    ensures same { OnOk result (OnlyLooks S.Store store.old store.new) }
    ensures schema { KeepsSchema (S.Store.view store.old) (S.Store.view store.new) }
    ensures kept { OnErr result (LeavesCommitted S.Store store.old store.new) }
    ensures quiet { CommitsNothing S.Store store.old store.new }
{
    let key = book_key(alloc)?;
    let mut row = Row::new(alloc);
    find_row(store, BOOK, &key, &mut row)
}

/// By name, the first line of each record that has one in the periods up to the last: whether it
/// is a plus line. Few records have lines.
fn first_lines<S: Store>(
    store: &mut S,
    alloc: Global,
    last: u16,
) -> Result<BTreeMap<[u8; 32], bool>, StoreError>
    requires { IsSorted S.Store store.old LINES }
    ensures looks { Looks result (state S.Store store.old) (state S.Store store.new)
        (λ tables lines. (name : List ℕ) → get by_bytes lines name
        ≡ first_line tables.lines name 1 last) }
    ensures schema { KeepsSchema (S.Store.view store.old) (S.Store.view store.new) }
{
    let mut lines = BTreeMap::new(alloc);
    let mut period = 0;
    while period < last {
        period += 1;
        let found = lines_in(store, alloc, period)?;
        add_first(&mut lines, &found)?;
    }
    Ok(lines)
}

/// Whether a record is counted, by its mark and by its first line: before a plus line it was not
/// charged, and before a minus line it was.
fn is_counted(line: Option<&bool>, charged: bool) -> bool
    ensures { result ≡ charged_before_lines (option_copied line.entry) charged }
{
    match line {
        Some(plus) => !*plus,
        None => charged,
    }
}

/// A record joins those that are counted, where it is.
fn add_counted(
    all: &mut Vec<Counted>,
    lines: &BTreeMap<[u8; 32], bool>,
    row: &Row,
) -> Result<(), StoreError>
    ensures { OnOk result ((came : CameTable) (entry : List ℕ × RecordRow)
        → row.now ≡ record_columns came entry → AddsCounted (get by_bytes lines.now entry.0) entry
        (names_of all.old.items) (names_of all.new.items)) }
{
    let mark = read_mark(row)?;
    if !is_counted(lines.get(&mark.name), mark.charged) {
        return Ok(());
    }
    all.push(Counted {
        day: mark.day,
        name: mark.name,
    })?;
    Ok(())
}

/// Records in the order of their days.
fn by_day(all: Vec<Counted>) -> Vec<Counted>
    ensures { IsPermutation all.items result.items }
{
    let mut all = all;
    all.sort_unstable_by_key(|one| one.day);
    all
}

/// The records that are counted, by day.
fn list_counted<S: Store>(
    store: &mut S,
    alloc: Global,
    lines: &BTreeMap<[u8; 32], bool>,
) -> Result<Vec<Counted>, StoreError>
    requires { IsSorted S.Store store.old RECORDS }
    ensures looks { Looks result (state S.Store store.old) (state S.Store store.new)
        (λ tables all. IsPermutation (names_of all.items)
        (names_by (λ name. get by_bytes lines.now name) (entries tables.records))) }
    ensures schema { KeepsSchema (S.Store.view store.old) (S.Store.view store.new) }
{
    let mut all = Vec::new(alloc);
    let mut row = Row::new(alloc);
    start_records(store, &mut row)?;
    'records: for _steps in 0..MOST_STEPS {
        let there = next_record_in(store, &mut row)?;
        if !there {
            return Ok(by_day(all));
        }
        add_counted(&mut all, lines, &row)?;
    }
    // Only a disk that lies has more rows.
    Err(StoreError::Corrupt)
}

/// The number of the open period, by the closes.
fn open_number(closes: &[Close]) -> Result<u16, StoreError>
    ensures { IfOk result (λ number. number ≡ length closes.now + 1) }
{
    if closes.len() >= LAST_PERIOD as usize {
        return Err(StoreError::Corrupt);
    }
    Ok(closes.len() as u16 + 1)
}

/// The records that some period counts, day by day.
fn find_counted<S: Store>(store: &mut S, alloc: Global) -> Result<Vec<Counted>, StoreError>
    requires closes { IsSorted S.Store store.old CLOSES }
    requires lines { IsSorted S.Store store.old LINES }
    requires records { IsSorted S.Store store.old RECORDS }
    ensures looks { Looks result (state S.Store store.old) (state S.Store store.new)
        (λ tables all. IsPermutation (names_of all.items) (names_read tables)) }
    ensures schema { KeepsSchema (S.Store.view store.old) (S.Store.view store.new) }
{
    let closes = closes_in(store, alloc)?;
    let last = open_number(&closes)?;
    let lines = first_lines(store, alloc, last)?;
    list_counted(store, alloc, &lines)
}

/// The records of a list are counted from now on, one after the other.
fn count_each<S: Store>(store: &mut S, alloc: Global, all: &[Counted]) -> Result<(), StoreError>
    requires records { IsSorted S.Store store.old RECORDS }
    requires details { IsSorted S.Store store.old DETAILS }
    ensures does { Does result (state S.Store store.old) (state S.Store store.new)
        Always (count_each (names_of all.now)) }
    ensures schema { KeepsSchema (S.Store.view store.old) (S.Store.view store.new) }
{
    let mut scratch = DetailScratch::new(alloc);
    for one in all {
        count_in(store, &mut scratch, &one.name)?;
    }
    Ok(())
}

/// Each record that is counted gets its row, in a tree of details that has none. Nothing is
/// committed.
pub fn fill_details<S: Store>(alloc: Global, store: &mut S) -> Result<(), StoreError>
    requires closes { IsSorted S.Store store.old CLOSES }
    requires lines { IsSorted S.Store store.old LINES }
    requires records { IsSorted S.Store store.old RECORDS }
    requires details { IsSorted S.Store store.old DETAILS }
    ensures does { Does result (state S.Store store.old) (state S.Store store.new)
        (λ tables. tables ≡ uncounted tables) with_details }
    ensures schema { KeepsSchema (S.Store.view store.old) (S.Store.view store.new) }
{
    let all = find_counted(store, alloc)?;
    count_each(store, alloc, &all)
}
