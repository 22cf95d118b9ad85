//! How texts are written.

ghost use Rattle.std.specs.Prelude.{◌≡◌, ◌<◌, ℕ, IfErr, OnErr, OnOk, false, length, take, true};
ghost use Rattle.std.specs.Io.KnownBytes.{Appends};
ghost use Rattle.streams.specs.Sinks.{writer_of, has_failed};

use crate::fault::ReportFault;
use book_core::Sink;
use streams::Writer;

/// Writes the bytes of a text, in as many writes as the writer needs. After a write that failed,
/// or that took nothing, there are no more: the writer has a prefix of the text, and not the
/// whole.
#[tactic(auto, using(crate::proofs::WritingLemmas::taken_more))]
pub fn write_bytes<W: Writer + Drop>(sink: &mut Sink<W>, bytes: &[u8]) -> Result<(), ReportFault>
    requires { has_failed sink.old ≡ false }
    ensures whole { OnOk result (Appends
        (W.contents (writer_of sink.old)) (W.contents (writer_of sink.new)) bytes.now
        × has_failed sink.new ≡ false) }

    // Only a write that fails, or that takes nothing, keeps a text from being written.
    ensures fault { IfErr result (λ fault. fault ≡ ReportFault.Write) }
    ensures failed { OnErr result (has_failed sink.new ≡ true) }
    ensures prefix { OnErr result ((n : ℕ) × (n < length bytes.now) × Appends
        (W.contents (writer_of sink.old)) (W.contents (writer_of sink.new)) (take n bytes.now)) }
{
    let mut written = 0;
    'writes: while written < bytes.len() {
        match sink.write(&bytes[written..]) {
            Ok(0) | Err(_) => return Err(ReportFault::Write),
            Ok(count) => written += count,
        }
    }
    Ok(())
}

/// Writes a text, as its bytes are written.
pub fn write_text<W: Writer + Drop>(sink: &mut Sink<W>, text: &str) -> Result<(), ReportFault>
    requires { has_failed sink.old ≡ false }
    ensures whole { OnOk result (Appends
        (W.contents (writer_of sink.old)) (W.contents (writer_of sink.new)) text.now
        × has_failed sink.new ≡ false) }

    // Only a write that fails, or that takes nothing, keeps a text from being written.
    ensures fault { IfErr result (λ fault. fault ≡ ReportFault.Write) }
    ensures failed { OnErr result (has_failed sink.new ≡ true) }
    ensures prefix { OnErr result ((n : ℕ) × (n < length text.now) × Appends
        (W.contents (writer_of sink.old)) (W.contents (writer_of sink.new)) (take n text.now)) }
{
    write_bytes(sink, text.as_bytes())
}
