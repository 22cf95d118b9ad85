//! Lines of scripts on books, over any ledger, by calls of it or by requests over HTTP, and lines
//! that need none. `PARTS` are parts of a dump, `RECORD` is a part that is one record, `TEXT` is a
//! text that is named, and a body follows its line.
//!
//! | A line on books | Is answered with |
//! |---|---|
//! | `tariff TEXT..`, with a body before the texts | `DONE`, `ALREADY` or the fault's line |
//! | `close PERIOD DAY` | the same |
//! | `closes FROM..END DAY`: a period a day | how many were done, after the first other answer |
//! | `replace TEXT..`, with a body before the texts | the same: a tariff in the place of another |
//! | `choose RECORD`, or 64 hexadecimal digits | the same |
//! | `withhold RECORD`, or 64 hexadecimal digits | the same: of its work no record counts |
//! | `credit PERIOD CENTRE AMOUNT REASON`, in ten-thousandths, a reason of one word | the same |
//! | `adopt RULE`: the number of a rule of identity | the same |
//! | `noted TIME PERSON REMARK FILE LINE`: one of these, or `import PARTS..`, with a note for the journal: seconds since 1970, and words, of which `-` is none | the answer to the line |
//! | `import PARTS..` | the receipt |
//! | `accept PARTS..` | `KEPT`, `KNOWN`, `UNPRICED` or the fault's line, of each usage record |
//! | `import-each-read PARTS..` | the receipts where each read fails in turn |
//! | `list`, with a body of `import` and of rulings, as they stand above | the answer to each |
//! | `list TIMES`, with such a body, all of it that many times in one list | the same |
//! | `statement PERIOD`, `table PERIOD`, `adjustments PERIOD`, `disputes`, `periods` | the text |
//! | `details PERIOD`, `details-table PERIOD` | the text, and its comma-separated values |
//! | `bill PERIOD`, `bill-table PERIOD` | the same |
//! | these four and the first three with `PERIOD CENTRE` | the text of the centre |
//! | `bill-page PERIOD [CENTRE]` | the page of a bill |
//! | `focus PERIOD` | the table of cost and usage |
//! | `coverage PERIOD`, `coverage-table PERIOD` | the text, and its comma-separated values |
//! | `page PERIOD`, `office-page` | the page as HTML |
//! | `record RECORD`, or 64 hexadecimal digits | the record's trail |
//! | `journal`, `journal-table` | the journal, and its comma-separated values |
//! | `what-if PERIOD TEXT..`, with a body before the texts | what it would have cost by that |
//! | `what-if-table PERIOD TEXT..` | the same as comma-separated values |
//! | these two with `PERIOD/CENTRE` | the same of the centre |
//! | `changes` | each text, but for tables, that is not as at the last `changes` of the row |
//! | `each-call LINE` | the line, asked of books that refuse its first call for lack of memory, then its second one, and so on up to where none is refused; and each time the texts of the books that it changed |
//!
//! | A line that needs no books | Is answered with |
//! |---|---|
//! | `split PARTS..` | how many records there are, the fault's number, and whether that stays |
//! | `records PARTS..` | the same, and each record's descriptor and name |
//! | `check PARTS..` | the check list |
//! | `layout PARTS..` | `BLOCKS` where the dump looks to have blocks and is read without, else `AS READ` |
//! | `trial CPU EXCP RECORD PARTS..` | the texts of a trial under these rates |
//! | `receipt COUNT.. STOP`, nine counts | the receipt line |
//! | `write`, with a body | the body |
//! | `say report FAULT`, `say stop STOP`, `say words ..` | what the program says, and its status |
//! | `say layout`, `say far` | what the program says |
//!
//! From here on in the row dumps are read as `reader WORD..` says: `bdw`, at most `pieces:BYTES` a
//! read, failing after `fails:READS`, with `reads:READS` allowed, `endless` copies of the dump, and
//! the reads `counted`. Texts are written as `writer SIZE WRITES` says: at most SIZE bytes in each
//! of WRITES writes, or `all`; then how much was taken, and in how many writes, is shown. With
//! `writer SIZE FROM..END` a text is written again and again, and only that is shown of each.
//!
//! `import-each-read` imports a dump from a reader whose first read fails, and then whole; then
//! from one whose second read fails, and so on up to one whose reads all succeed. A word
//! `at:PLACE` among the parts puts the number of the turn into two bytes there, so that each dump
//! is a different one.
//!
//! What is taken of an answer over HTTP is shown byte for byte, a carriage return as `\r`; after it
//! comes what was served: `SERVED` and the status, `CLOSED`, `READ`, or `WRITE` with how many writes
//! were asked for.
//!
//! - `get PATH` asks for a report.
//! - `post PATH PARTS..` submits a dump.
//! - `post-text PATH TEXT..` submits a body, and the texts that are named after it.
//! - `request PARTS..` sends a head whose lines are its body, and after it the dump of the parts.
//! - `send PARTS..` sends the lines of its body and the parts, with no end of a head between.
//! - `each-length REQUEST` sends each prefix of such a request that is not all of it.
//! - `each-read REQUEST` sends it once for each count of reads after which reading fails.
//! - `each-write at:PLACE REQUEST` sends it once for each count of writes after which writing
//!   fails, and each time once more. At the place in the dump is the count, if a place is given.
//! - `connection sends:SIZE pieces:SIZE reads:COUNT takes:SIZE writes:COUNT` sets how many bytes of a
//!   request come at all, how many a read gives and a write takes, and after how many each fails. What
//!   is left out is not limited.
//!
//! Clients that are served one after the other (`read_clients`) are such lines too, each of a request.
//! For them `connection` may also have `soon:SIZE`: so many bytes of a request are there while the books
//! are open for the client before it.
//! Turns, calls, lengths and counts, and commands of a list that is repeated, are counted from 0 on,
//! and shown as one where they follow each other and had the same answers.
#![tactic(auto)]

mod answers;
mod asked;
mod books;
mod changed_texts;
mod commands;
mod connection;
mod day;
mod dump_reading;
mod dumps;
mod each_call;
mod exchange;
mod failing_reads;
mod faults;
mod groups;
mod http_lines;
mod layouts;
mod lines;
mod lost_answers;
mod messages;
mod names;
mod receipts;
mod refusing_ledger;
mod request_lists;
mod scripted_client;
mod scripted_request;
mod standalone;
mod standalone_texts;
mod text_writing;
mod texts;

pub use answers::push_fault;
pub use asked::ask_of;
pub use books::answer;
pub use changed_texts::all_texts;
pub use commands::{Reported, command};
pub use connection::Connection;
pub use lines::BookLines;
pub use refusing_ledger::RefusingLedger;
pub use scripted_client::{ScriptedClient, read_clients};
pub use standalone::answer_standalone;
