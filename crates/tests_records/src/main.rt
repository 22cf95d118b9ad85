//! Worked rows below the books: texts and days, dumps, records, tariff files, prices, and what a new
//! record changes in kept tables. Each word that is given names a script in the folder where the
//! program runs.
//!
//! A DUMP is put together from parts, and so is a RECORD. A TEXT is the words of a line, a blank
//! between two, where `\n` is a line's end and `\s` a blank.
//!
//! | A line | Is answered with |
//! |---|---|
//! | `packed HEX`, `day TEXT`, `date NUMBER` | a day: its number, its text, its weekday |
//! | `show HEX` | bytes as people read them, in quotes |
//! | `encode SIZE TEXT` | a buffer of 09 that begins with the text's bytes |
//! | `name TEXT` | the name with that text |
//! | `reader`, `reader bdw` | nothing: from here on dumps are segments, or blocks |
//! | `split DUMP` | how many records it has, and the fault after them |
//! | `pieces SIZE,.. DUMP` | the sizes of pieces of which a joiner makes what `split` does |
//! | `pieces SIZE,.. DUMP : DUMP` | the same, where `split` gets the second |
//! | `joiner` | nothing: a joiner begins |
//! | `feed DUMP`, `finish` | how much it took, or its fault |
//! | `record RECORD` | how long the record at which it stands is, and whether it is this one |
//! | `next` | nothing: the joiner moves past that record |
//! | `header RECORD` | the standard header |
//! | `class RECORD` | its class, by a word of the check list |
//! | `field NAME RECORD` | a field of a usage record: see `fields.rt` |
//! | `work DUMP` | a line for each step or job |
//! | `file NAME..` | what is read of a tariff file: the body, and texts after it |
//! | `changed NAME TEXT -> TEXT` | the same of a text with one place changed, its first |
//! | `repeated COUNT PIECE NAME..` | the same of texts and that many copies of a piece |
//! | `line TEXT` | the same of the row's lines so far |
//! | `entry LINE` | the entry at fault of the file of such a line: `file`, `changed`, `repeated` |
//! | `say memory` | what is said where there is no memory for a tariff file |
//! | `flat CPU EXCP RECORD DUMP` | the tariff of three rates, and what records cost by it |
//! | `price NAME DUMP` | what records cost by a tariff file |
//! | `plan NAME CLOSE HELD.. new NEW..` | what each new record changes under a tariff file |
#![tactic(auto)]

mod dump_reader;
mod dumps;
mod effects;
mod fields;
mod joiner_calls;
mod lines;
mod pieces;
mod spelled_words;
mod tariffs;
mod texts;

use lines::RecordLines;
use std::env;
use std::test::Fail;
use tests_scripts::play_files;

fn main(rt: HostRuntime) -> Result<(), Fail> {
    let mut words = env::args(&rt)?;
    words.next();
    let names: Vec<String> = words.collect(rt.alloc())?;
    play_files(&rt, RecordLines::new(rt.alloc()), &names)
}
