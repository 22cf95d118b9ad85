ghost use Rattle.std.specs.Prelude.{◌≡◌, ◌+◌, ◌≤◌, ◌^◌, false, true, IfErr};
ghost use Rattle.streams.specs.Sinks.{writer_of, has_failed};
ghost use Rattle.streams.specs.AnswerFlags.{NothingUnread};
ghost use Rattle.streams.specs.InputOutput.{input};
ghost use Rattle.streams.specs.Sources as sources;
ghost use Rattle.book_import.specs.ReadLimits.{cut_of, most_reads};
ghost use Rattle.book_lists.specs.Writing.{is_write_fault, is_write_or_memory};
ghost use Rattle.program_output.specs.Readings.{reading};
ghost use Rattle.program_output.specs.Trials.{IsTrial};

use book_core::{ShaNames, Sink, Source};
use book_import::{Receipt, import_by_pieces};
use book_reports::{ReportFault, dispute_list, receipt_line, statement};
use plain_ledger::PlainLedger;
use smf_frames::Layout;
use std::alloc::Global;
use streams::{Reader, Writer};
use tariff_rules::Tariff;

/// Imports a dump into new books under one tariff, and writes the receipt line, the statement of
/// their one period and their disputes, whatever stopped the import. Where memory runs out the
/// texts before that are written; a failed write leaves a prefix of its text.
pub fn trial<R: Reader + Drop, W: Writer + Drop>(
    alloc: Global,
    source: &mut Source<R>,
    layout: Layout,
    reads: u64,
    tariff: Tariff,
    sink: &mut Sink<W>,
) -> Result<Receipt, ReportFault>
    requires asked { sources.reads_of source.old ≤ 2 ^ 62 }
    requires unread { sources.has_failed source.old ≡ false }
    requires unended { sources.has_ended source.old ≡ false }
    requires reads { reads ≤ most_reads }
    requires unwritten { has_failed sink.old ≡ false }

    // What was read, how far the reading went, what was booked, and what was written.
    ensures trial { IsTrial tariff
        (reading layout (cut_of source.new) reads (input R.remaining source.old source.new))
        (W.contents (writer_of sink.old)) (W.contents (writer_of sink.new)) result }

    // Where the source has ended, no bytes are left of a reader whose bytes are known.
    ensures left { NothingUnread (sources.has_ended source.new)
        (R.remaining (sources.reader_of source.new)) }

    ensures asked { sources.reads_of source.new ≤ sources.reads_of source.old + reads }

    // A fault is a failed write, or a lack of memory; Write is answered only where a write failed.
    // That one did is shown by the sink, as that a read did is by the source (`cause`).
    ensures failed { has_failed sink.new ≡ is_write_fault result }
    ensures fault { IfErr result (λ fault. is_write_or_memory fault ≡ true) }
{
    let mut ledger = PlainLedger::flat(alloc, ShaNames, tariff)?;
    let receipt = import_by_pieces(alloc, source, layout, reads, &mut ledger);
    receipt_line(&receipt, sink)?;
    statement(alloc, &mut ledger, 1, sink)?;
    dispute_list(alloc, &mut ledger, sink)?;
    Ok(receipt)
}
