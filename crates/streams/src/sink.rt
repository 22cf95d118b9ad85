ghost use Rattle.std.specs.Prelude.{◌≡◌, ◌≤◌, IfOk, false, length, true};
ghost use Rattle.std.specs.Io.KnownBytes.{WriteAppends};
ghost use Rattle.streams.specs.AnswerFlags.{is_failed_write};
ghost use Rattle.streams.specs.Failures.{HasFailed};

use crate::writer::Writer;
use std::io;

/// A writer, and whether a write failed.
#[derive(Drop)]
pub struct Sink<W: Writer + Drop> {
    inner: W,
    failed: bool,
    // Where one is said to have failed, one did, and nothing was written after it.
    ghost cause: { failed ≡ true → ∥ HasFailed W.may_answer inner ∥₁ },
}

/// A write of these bytes that answered so failed, or took none of one or more.
fn is_failed(answer: &io::Result<usize>, bytes: &[u8]) -> bool
    ensures { result ≡ is_failed_write answer.now (length bytes.now) }
{
    match answer {
        Ok(count) => *count == 0 && !bytes.is_empty(),
        Err(_) => true,
    }
}

impl<W: Writer + Drop> Sink<W> {
    ghost use Rattle.streams.specs.Sinks.{writer_of, has_failed};

    /// Over a writer that was not written to yet.
    pub fn new(inner: W) -> Sink<W>
        ensures writer { writer_of result ≡ inner }
        ensures failed { has_failed result ≡ false }
    {
        Sink {
            inner,
            failed: false,
        }
    }

    /// A write failed, or took none of one or more bytes.
    pub fn failed(&self) -> bool
        ensures { result ≡ has_failed self.now }
    {
        self.failed
    }

    /// The writer, as the writes left it.
    pub fn into_inner(self) -> W
        ensures writer { result ≡ writer_of self }

        // That a write failed is shown by one that did, and left the writer so.
        ensures cause { has_failed self ≡ true → ∥ HasFailed W.may_answer result ∥₁ }
    {
        self.inner
    }

    /// Writes once, and answers how many bytes the writer took. After a write that failed, nothing
    /// is written.
    pub fn write(&mut self, bytes: &[u8]) -> io::Result<usize>
        requires { has_failed self.old ≡ false }

        // One write, and its very answer.
        ensures answer { W.may_answer
            (writer_of self.old) bytes.now result (writer_of self.new) }
        ensures bound { IfOk result (λ count. count ≤ length bytes.now) }
        ensures bytes { WriteAppends (W.contents (writer_of self.old))
            (W.contents (writer_of self.new)) result bytes.now }
        ensures failed { has_failed self.new ≡ is_failed_write result (length bytes.now) }
    {
        let answer = self.inner.hand(bytes);
        let failed = is_failed(&answer, bytes);
        self.failed = failed;
        answer
    }
}
