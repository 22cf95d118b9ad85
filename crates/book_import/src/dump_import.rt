ghost use Rattle.std.specs.Prelude.{◌≡◌, ◌+◌, ◌<◌, ◌≤◌, ◌^◌, ℕ, Option, None, false, length};
ghost use Rattle.streams.specs.Sources.{reader_of, reads_of, has_failed, has_ended};
ghost use Rattle.streams.specs.AnswerFlags.{NothingUnread};
ghost use Rattle.streams.specs.InputOutput.{input};
ghost use Rattle.book_model.specs.Words.{note_given};
ghost use Rattle.book_core.specs.Transition.{IsTransition};
ghost use Rattle.book_import.specs.ImportEntries.{BooksInPieces, BooksInputOf, ImportsOf};
ghost use Rattle.book_import.specs.Imports.{BooksInput};
ghost use Rattle.book_import.specs.ReadLimits.{cut_of, most_reads, piece_length, read_length};

use crate::ending::end_import;
use crate::import_entry::ImportEntry;
use crate::parts::next_part;
use crate::pieces::import_piece;
use crate::receipt::Receipt;
use crate::source_reads::{PIECE, READ, read_into};
use crate::stop::{dump_end, reading_end};
use book_core::{Ledger, LedgerFault, Note, Source, Stop};
use smf_frames::{Joiner, Layout};
use std::alloc::Global;
use streams::Reader;

/// Imports a dump by reads that ask for as many bytes as this room has. That a group is the last is
/// seen only by the next read, so an entry ends with a word of its own.
fn import_with<R: Reader + Drop, L: Ledger>(
    alloc: Global,
    source: &mut Source<R>,
    layout: Layout,
    reads: u64,
    note: Option<Note>,
    ledger: &mut L,
    piece: &mut [u8],
) -> Receipt
    ghost most: { ℕ }
    requires asked { reads_of source.old ≤ 2 ^ 62 }
    requires failed { has_failed source.old ≡ false }
    requires ended { has_ended source.old ≡ false }
    requires reads { reads ≤ most_reads }
    requires room { length piece.old ≡ most }
    requires some { 0 < most }
    requires few { most ≤ read_length }
    ensures booked { BooksInputOf (note_given note) most layout reads (L.seen ledger.old)
        (L.seen ledger.new) (cut_of source.new) (input R.remaining source.old source.new) result }
    ensures left { NothingUnread
        (has_ended source.new) (R.remaining (reader_of source.new)) }
    ensures asked { reads_of source.new ≤ reads_of source.old + reads }
{
    let Ok(mut joiner) = Joiner::new(alloc, layout) else {
        return Receipt::stopped(Stop::Ledger(LedgerFault::Memory));
    };
    let mut receipt = Receipt::stopped(Stop::End);
    let mut entry = ImportEntry::new(note);
    for _ in 0..reads {
        let Some(count) = read_into(source, piece) else {
            return end_import(ledger, &entry, receipt, reading_end(source, &joiner));
        };
        if let Some(stop) = import_piece(
            alloc,
            ledger,
            &mut joiner,
            &mut receipt,
            &mut entry,
            &piece[..count],
            false,
        ) {
            return end_import(ledger, &entry, receipt, stop);
        }
    }
    end_import(ledger, &entry, receipt, reading_end(source, &joiner))
}

/// Reads a dump to its end, in at most so many reads, and submits its records to the books in
/// order: those that one read completed together, before the next read. If it stops before the end,
/// nothing more is read. At most the bytes of two reads and two records are held at a time. With a
/// note the import has an entry in the journal from the first record on that the books keep.
pub fn import<R: Reader + Drop, L: Ledger>(
    alloc: Global,
    source: &mut Source<R>,
    layout: Layout,
    reads: u64,
    note: Option<Note>,
    ledger: &mut L,
) -> Receipt
    requires asked { reads_of source.old ≤ 2 ^ 62 }
    requires failed { has_failed source.old ≡ false }
    requires ended { has_ended source.old ≡ false }
    requires reads { reads ≤ most_reads }

    // The bytes that came were booked, up to the stop and no further; and the entry says so.
    ensures booked { BooksInputOf (note_given note) read_length layout reads (L.seen ledger.old)
        (L.seen ledger.new) (cut_of source.new) (input R.remaining source.old source.new) result }
    ensures left { NothingUnread
        (has_ended source.new) (R.remaining (reader_of source.new)) }
    ensures asked { reads_of source.new ≤ reads_of source.old + reads }
{
    let Ok(mut piece) = vec![in alloc; 0u8; READ] else {
        return Receipt::stopped(Stop::Ledger(LedgerFault::Memory));
    };
    import_with(
        alloc,
        source,
        layout,
        reads,
        note,
        ledger,
        piece.as_mut_slice(),
    )
}

/// The same by shorter reads, as of a trial: its books commit nothing, and have no journal.
pub fn import_by_pieces<R: Reader + Drop, L: Ledger>(
    alloc: Global,
    source: &mut Source<R>,
    layout: Layout,
    reads: u64,
    ledger: &mut L,
) -> Receipt
    requires asked { reads_of source.old ≤ 2 ^ 62 }
    requires failed { has_failed source.old ≡ false }
    requires ended { has_ended source.old ≡ false }
    requires reads { reads ≤ most_reads }
    ensures booked { BooksInput piece_length layout reads (L.seen ledger.old) (L.seen ledger.new)
        (cut_of source.new) (input R.remaining source.old source.new) result }
    ensures left { NothingUnread
        (has_ended source.new) (R.remaining (reader_of source.new)) }
    ensures asked { reads_of source.new ≤ reads_of source.old + reads }
{
    let mut piece = [0u8; PIECE];
    import_with(alloc, source, layout, reads, None, ledger, &mut piece)
}

/// Submits the records of a dump to the books, in order, as if it was read. These bytes are the
/// whole dump. The entry of the import ends with its last records, in the same change.
pub fn import_bytes<L: Ledger>(
    alloc: Global,
    ledger: &mut L,
    layout: Layout,
    note: Option<Note>,
    bytes: &[u8],
) -> Receipt
    ensures booked { IsTransition (L.seen ledger.old) (L.seen ledger.new) (ImportsOf
        (note_given note) (L.seen ledger.old).naming layout None bytes.now result) }

    // As many records are counted, at least, as were whole before the last part. Where a store
    // failed, `booked` leaves open how many of those that were kept were counted.
    ensures pieces { BooksInPieces (note_given note) layout bytes.now (L.seen ledger.old)
        (L.seen ledger.new) result }
{
    let Ok(mut joiner) = Joiner::new(alloc, layout) else {
        return Receipt::stopped(Stop::Ledger(LedgerFault::Memory));
    };
    let mut receipt = Receipt::stopped(Stop::End);
    let mut entry = ImportEntry::new(note);
    let mut rest = bytes;
    while !rest.is_empty() {
        let (piece, later) = next_part(rest, READ);
        let is_last = later.is_empty();
        match import_piece(
            alloc,
            ledger,
            &mut joiner,
            &mut receipt,
            &mut entry,
            piece,
            is_last,
        ) {
            Some(stop) => return end_import(ledger, &entry, receipt, stop),
            None => rest = later,
        }
    }
    end_import(ledger, &entry, receipt, dump_end(&joiner))
}
