//! Imports whose reading fails at each read in turn.

use crate::answers::push_receipt;
use crate::dump_reading::Reading;
use book_core::{Ledger, Source};
use book_import::{Receipt, Stop, import};
use std::alloc::Global;
use tests_scripts::{AnswerText, Cases, LineResult, Named};

/// More reads than a dump of a script takes.
const ENOUGH: u16 = 10_000;

/// Reads a dump into books.
fn import_once<L: Ledger>(alloc: Global, ledger: &mut L, reading: Reading, dump: &[u8]) -> Receipt {
    let mut source = Source::new(reading.reader(dump));
    let reads = reading.allowed();
    import(alloc, &mut source, reading.layout, reads, None, ledger)
}

/// Imports a dump from a reader that fails after a given number of reads, and once more whole. Adds
/// both receipts, and answers whether the first import came to the failing read.
fn push_turn<L: Ledger>(
    alloc: Global,
    ledger: &mut L,
    reading: Reading,
    reads: u16,
    dump: &[u8],
    out: &mut AnswerText,
) -> bool {
    let receipt = import_once(alloc, ledger, reading.failing(reads), dump);
    push_receipt(out, &receipt);
    out.line("AGAIN");
    push_receipt(out, &import_once(alloc, ledger, reading.whole(), dump));
    receipt.stop == Stop::Read
}

/// Imports a dump from a reader that fails at its first read, then from one that fails at its
/// second, and so on up to the first that does not fail; and each time once more, whole.
pub(crate) fn import_each_read<L: Ledger>(
    named: &Named,
    ledger: &mut L,
    reading: Reading,
    words: &[&str],
    out: &mut AnswerText,
) -> LineResult {
    let alloc = named.alloc();
    let mut cases = Cases::new(out, "READS");
    for reads in 0..ENOUGH {
        let dump = named.read_numbered(words, reads)?;
        let mut text = AnswerText::new(alloc);
        let has_failed = push_turn(alloc, ledger, reading, reads, &dump, &mut text);
        cases.take(text);
        if !has_failed {
            break;
        }
    }
    cases.say();
    Ok(())
}
