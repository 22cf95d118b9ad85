//! Checks: what every record of a dump is, and why there are no more.

ghost use Rattle.std.specs.Prelude.{◌≡◌, ℕ, ◌+◌, ◌<◌, ◌≤◌, ◌^◌, false, true, List, None, length};
ghost use Rattle.std.specs.Prelude.{IfErr, IfOk, OnOk, []};
ghost use Rattle.std.specs.Io.KnownBytes.{Appends};
ghost use Rattle.book_model.specs.Words.{HasTaken};
ghost use Rattle.streams.specs.Sinks.{writer_of, has_failed};
ghost use Rattle.streams.specs.AnswerFlags.{NothingUnread};
ghost use Rattle.streams.specs.InputOutput.{input};
ghost use Rattle.streams.specs.Sources as sources;
ghost use Rattle.book_import.specs.ReadLimits.{cut_of, most_reads};
ghost use Rattle.book_import.specs.Receipts.{is_stop_of_books};
ghost use Rattle.program_output.specs.Checks.{IsCheck};
ghost use Rattle.program_output.specs.Listings.{waiting, listed_count, HasRoom, ListsPiece};
ghost use Rattle.program_output.specs.Listings.{TakesOrBreaks};
ghost use Rattle.program_output.specs.Readings.{reading};
ghost use Rattle.book_lists.specs.Writing.{is_write_fault, is_write_or_memory};

use crate::listing::{Checked, Listing};
use book_core::{Sink, Source};
use book_import::{PIECE, Stop, read_piece, reading_end};
use book_reports::ReportFault;
use smf_frames::{FrameFault, Joiner, Layout};
use std::alloc::Global;
use streams::{Reader, Writer};

/// Adds the lines of the records that a piece completes. Gives the fault of a descriptor, where one
/// comes.
fn list_records<W: Writer + Drop>(
    names: bool,
    joiner: &mut Joiner,
    piece: &[u8],
    listing: &mut Listing,
    sink: &mut Sink<W>,
) -> Result<Option<FrameFault>, ReportFault>
    requires stands { (text : List ℕ) × HasTaken text joiner.old }
    requires none { joiner.old.ready ≡ None }
    requires few { listed_count listing.old + length piece.now < 2 ^ 63 }
    requires room { HasRoom listing.old }
    requires unwritten { has_failed sink.old ≡ false }
    ensures listed { ListsPiece names joiner.old piece.now listing.old listing.new
        (W.contents (writer_of sink.old)) (W.contents (writer_of sink.new)) result }
    ensures grown { (more : List ℕ)
        × Appends (W.contents (writer_of sink.old)) (W.contents (writer_of sink.new)) more }
    ensures taken { IfOk result (λ found. TakesOrBreaks joiner.old piece.now found joiner.new) }
    ensures count { OnOk result (listed_count listing.new ≤ listed_count listing.old + length piece.now) }
    ensures room { OnOk result (HasRoom listing.new) }
    ensures failed { has_failed sink.new ≡ is_write_fault result }
    ensures fault { IfErr result (λ fault. is_write_or_memory fault ≡ true) }
{
    let mut rest = piece;
    loop {
        let taken = match joiner.feed(rest) {
            Err(fault) => return Ok(Some(fault)),
            Ok(taken) => taken,
        };
        let (_, later) = rest.split_at(taken);
        rest = later;
        let Some(bytes) = joiner.record() else {
            return Ok(None);
        };
        listing.push_line(names, bytes, sink)?;
        joiner.next();
    }
}

/// Writes the lines of the records that a piece completes. Gives the fault of a descriptor, where
/// one comes.
fn list_piece<W: Writer + Drop>(
    names: bool,
    joiner: &mut Joiner,
    piece: &[u8],
    listing: &mut Listing,
    sink: &mut Sink<W>,
) -> Result<Option<FrameFault>, ReportFault>
    requires stands { (text : List ℕ) × HasTaken text joiner.old }
    requires none { joiner.old.ready ≡ None }
    requires few { listed_count listing.old + length piece.now < 2 ^ 63 }
    requires room { HasRoom listing.old }
    requires unwritten { has_failed sink.old ≡ false }
    ensures listed { ListsPiece names joiner.old piece.now listing.old listing.new
        (W.contents (writer_of sink.old)) (W.contents (writer_of sink.new)) result }
    ensures waits { OnOk result (waiting listing.new ≡ []) }
    ensures grown { (more : List ℕ)
        × Appends (W.contents (writer_of sink.old)) (W.contents (writer_of sink.new)) more }
    ensures taken { IfOk result (λ found. TakesOrBreaks joiner.old piece.now found joiner.new) }
    ensures count { OnOk result (listed_count listing.new ≤ listed_count listing.old + length piece.now) }
    ensures failed { has_failed sink.new ≡ is_write_fault result }
    ensures fault { IfErr result (λ fault. is_write_or_memory fault ≡ true) }
{
    let found = list_records(names, joiner, piece, listing, sink)?;
    listing.flush(sink)?;
    Ok(found)
}

/// Writes what every record of a dump is, with the names of those that could be kept or without, and
/// why there are no more. The lines of a piece are
/// written before the next one is read; it holds a piece, a record, and the lines that are written
/// at once. After a fault at a descriptor, or a write that failed, nothing more is read. After a
/// fault the writer has a prefix of the list that is not the whole.
pub fn check_list<R: Reader + Drop, W: Writer + Drop>(
    alloc: Global,
    source: &mut Source<R>,
    layout: Layout,
    names: bool,
    reads: u64,
    sink: &mut Sink<W>,
) -> Result<Checked, ReportFault>
    requires asked { sources.reads_of source.old ≤ 2 ^ 62 }
    requires unread { sources.has_failed source.old ≡ false }
    requires unended { sources.has_ended source.old ≡ false }
    requires reads { reads ≤ most_reads }
    requires unwritten { has_failed sink.old ≡ false }

    // What was read, how far the reading went, and what was written.
    ensures check { IsCheck names
        (reading layout (cut_of source.new) reads (input R.remaining source.old source.new))
        (W.contents (writer_of sink.old)) (W.contents (writer_of sink.new)) result }

    // Where the source has ended, no bytes are left of a reader whose bytes are known.
    ensures left { NothingUnread (sources.has_ended source.new)
        (R.remaining (sources.reader_of source.new)) }

    ensures asked { sources.reads_of source.new ≤ sources.reads_of source.old + reads }

    // A fault is a failed write, or a lack of memory; Write is answered only where a write failed.
    // That one did is shown by the sink, as that a read did is by the source (`cause`). No books are
    // asked, so none stop the list or refuse it.
    ensures failed { has_failed sink.new ≡ is_write_fault result }
    ensures fault { IfErr result (λ fault. is_write_or_memory fault ≡ true) }
    ensures stop { IfOk result (λ told. is_stop_of_books told.stop ≡ false) }
{
    let mut joiner = Joiner::new(alloc, layout)?;
    let mut listing = Listing::new(alloc)?;
    let mut piece = [0u8; PIECE];
    for _ in 0..reads {
        let Some(count) = read_piece(source, &mut piece) else {
            return listing.end(reading_end(source, &joiner), sink);
        };
        match list_piece(names, &mut joiner, &piece[..count], &mut listing, sink) {
            Ok(None) => {}
            Ok(Some(fault)) => return listing.end(Stop::Frame(fault), sink),
            Err(fault) => return Err(fault),
        }
    }
    listing.end(reading_end(source, &joiner), sink)
}
