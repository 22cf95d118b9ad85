//! How an import is ended.

ghost use Rattle.book_core.specs.Transition.{IsTransition};
ghost use Rattle.book_import.specs.EntryWork.{Ends, note_of};
ghost use Rattle.book_import.specs.Reach.{EndsAs};

use crate::import_entry::ImportEntry;
use crate::receipt::Receipt;
use book_core::{Ledger, Stop};

/// The receipt of an import that is over. If it has an entry, that ends with the stop; if the books
/// cannot take that word, theirs is the stop.
pub(crate) fn end_import<L: Ledger>(
    ledger: &mut L,
    entry: &ImportEntry,
    receipt: Receipt,
    stop: Stop,
) -> Receipt
    ensures ends { IsTransition (L.seen ledger.old) (L.seen ledger.new)
        (Ends entry.now receipt stop result) }
    ensures told { EndsAs (note_of entry.now) (record receipt { stop = stop }) result }
{
    if !entry.is_to_end(stop) {
        return receipt.stopped_by(stop);
    }
    match ledger.end_import(stop) {
        Ok(()) => receipt.stopped_by(stop),
        Err(fault) => receipt.stopped_by(Stop::Ledger(fault)),
    }
}
