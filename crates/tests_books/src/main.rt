//! Worked rows on books. A word that ends with a colon names a section, and each word after it a
//! script in the folder where the program runs:
//!
//! | Section | Its rows are |
//! |---|---|
//! | `memory:` | on books in memory |
//! | `tables:` | on books in the trees of a store, opened for each line and closed after it |
//! | `stops:` | as those of `tables:`; it is separate because disks that stop take the longest |
//!
//! A row on books begins with
//!
//! | Words | Books |
//! |---|---|
//! | `new` | new ones |
//! | `one-name` | new ones that give every record one name |
//! | `flat CPU BLOCKS`, `one-name CPU BLOCKS` | the same in memory, under a tariff of two rates |
//! | `empty` | none, in trees without rows |
//!
//! Its lines are those of `tests_ledgers`. It may also serve its books to clients, as the program does
//! over HTTP, but that they are opened once for a line, and not for each client:
//!
//! | A line on books | Is answered with |
//! |---|---|
//! | `serve`, with a body of clients | the program's line of each that is served, and how many are left; then of each the first line that it got, and whether what it still sent was read |
//! | `serve refused COUNT`, with such a body | the same, by books that refuse the call after so many for lack of memory |
//! | `serve room SIZE`, with such a body | the same, by way of an output that takes so many bytes, and fails then |
//!
//! In tables there are also
//!
//! | A line | Is answered with |
//! |---|---|
//! | `rows`, `lines`, `marks`, `closed`, `choices`, `tariffs`, `detail`, `book`, `credits`, `replaced`, `entries` | the rows of a table, in the order of their keys |
//! | `identities` | of each record its name and its identity |
//! | `index NAME` | the rows of a tree that finds others, by its name in the file |
//! | `set day_sum.COLUMN NUMBER` | how many charge rows were changed behind the books' back |
//! | `empty TABLE` | how many rows were removed behind the books' back |
//! | `stops log`, `stops database` | what was found when the disk stopped at each call of that file, and lost what was not synced |
//! | `stops FILE written` | the same, where what was written was not lost |
//! | `stops FILE torn` | the same, where the first half of the write in progress got there |
//! | `stops FILE twice`, also with `written` or `torn` after it | the same, where the disk stopped again at each call on the way back into the books |
//! | `stops FILE all-again` | the same, where the books then got all commands once more, and not from the one in hand on |
//! | `refuses memory` | what was found when the store answered each of its calls in turn that memory ran out |
//! | `refuses memory files` | the same, where the books were in two files |
//!
//! The body of `stops` and of `refuses` is a run of commands. The row continues with the books
//! after it. Each word of an import names one record there. A run may also give the groups of an
//! import one by one: `group first PARTS..` is the first that keeps a record, `group next PARTS..`
//! one after it, and `ended` says that the import came to its end.
#![tactic(auto)]

mod changed_rows;
mod client;
mod empty_store;
mod names;
mod open_shelf;
mod plain_books;
mod refusals;
mod refusing_store;
mod restart;
mod rows;
mod run;
mod serving;
mod shown_rows;
mod stopping_disk;
mod stops;
mod sweep;
mod tree_books;
mod tree_numbers;
mod trees;
mod uninterrupted;

use names::Names;
use plain_ledger::PlainLedger;
use rows::BookRows;
use std::env;
use std::test::Fail;
use tests_scripts::play_files;
use tree_books::TreeBooks;

/// Plays the scripts of a section.
fn play_section(rt: &HostRuntime, section: &str, names: &[String]) -> Result<(), Fail> {
    println!(rt; "{section}")?;
    let alloc = rt.alloc();
    match section {
        "memory:" => play_files(rt, BookRows::<PlainLedger<Names>>::new(alloc), names),
        "tables:" | "stops:" => play_files(rt, BookRows::<TreeBooks>::new(alloc), names),
        _ => Err("no section has this name")?,
    }
}

fn main(rt: HostRuntime) -> Result<(), Fail> {
    let mut words = env::args(&rt)?;
    words.next();
    let words: Vec<String> = words.collect(rt.alloc())?;
    for part in words.chunk_by(|_, next| !next.as_str().ends_with(':')) {
        if let [section, names @ ..] = part {
            play_section(&rt, section.as_str(), names)?;
        }
    }
    Ok(())
}
