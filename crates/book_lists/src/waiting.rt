//! What waits to be written, of a text that is written while it is made.

ghost use Rattle.std.specs.Prelude.{◌≡◌, ◌++◌, ◌<◌, [], IfErr, OnOk, false, length, true};
ghost use Rattle.streams.specs.Sinks.{has_failed, writer_of};
ghost use Rattle.book_lists.specs.Streamed.{LeavesSome, WritesAllBut};
ghost use Rattle.book_lists.specs.Writing.{WritesPrefix, WritesUntil, is_write_fault};
ghost use Rattle.book_lists.specs.Writing.{is_write_or_memory};

use crate::fault::ReportFault;
use crate::output::write_bytes;
use book_core::Sink;
use streams::Writer;

/// How many bytes wait to be written, at most, before those of one more part.
const MOST_WAITING: usize = 65_536;

/// Writes what waits.
pub(crate) fn flush<W: Writer + Drop>(
    waiting: &mut Vec<u8>,
    sink: &mut Sink<W>,
) -> Result<(), ReportFault>
    requires { has_failed sink.old ≡ false }
    ensures written { WritesPrefix waiting.old.items
        (W.contents (writer_of sink.old)) (W.contents (writer_of sink.new)) result }
    ensures until { WritesUntil waiting.old.items
        (W.contents (writer_of sink.old)) (W.contents (writer_of sink.new)) result }
    ensures waits { OnOk result (waiting.new.items ≡ []) }
    ensures failed { has_failed sink.new ≡ is_write_fault result }
    ensures fault { IfErr result (λ fault. fault ≡ ReportFault.Write) }
{
    write_bytes(sink, waiting.as_slice())?;
    waiting.clear();
    Ok(())
}

/// Writes what waits, where it is much.
fn flush_much<W: Writer + Drop>(
    waiting: &mut Vec<u8>,
    sink: &mut Sink<W>,
) -> Result<(), ReportFault>
    requires { has_failed sink.old ≡ false }
    ensures written { WritesAllBut waiting.old.items waiting.new.items
        (W.contents (writer_of sink.old)) (W.contents (writer_of sink.new)) result }
    ensures failed { has_failed sink.new ≡ is_write_fault result }
    ensures fault { IfErr result (λ fault. fault ≡ ReportFault.Write) }
{
    if waiting.len() > MOST_WAITING {
        flush(waiting, sink)?;
    }
    Ok(())
}

/// Adds a part to what waits. Where much waits, that is written before a part that has bytes: so
/// something waits until the end of a text.
pub(crate) fn push_part<W: Writer + Drop>(
    waiting: &mut Vec<u8>,
    part: &[u8],
    sink: &mut Sink<W>,
) -> Result<(), ReportFault>
    requires { has_failed sink.old ≡ false }
    ensures written { WritesAllBut (waiting.old.items ++ part.now) waiting.new.items
        (W.contents (writer_of sink.old)) (W.contents (writer_of sink.new)) result }
    ensures left { 0 < length waiting.old.items
        → LeavesSome (waiting.old.items ++ part.now) waiting.new.items
        (W.contents (writer_of sink.old)) (W.contents (writer_of sink.new)) result }
    ensures failed { has_failed sink.new ≡ is_write_fault result }
    ensures fault { IfErr result (λ fault. is_write_or_memory fault ≡ true) }
{
    if part.is_empty() {
        return Ok(());
    }
    flush_much(waiting, sink)?;
    waiting.extend_from_slice(part)?;
    Ok(())
}
