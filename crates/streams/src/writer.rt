ghost use Rattle.std.specs.Prelude.{ℕ, Err, IfErr, List, [], Result};
ghost use Rattle.std.specs.declared.io.Error.{Error};
ghost use Rattle.std.specs.Io.{WritesAtMost};
ghost use Rattle.std.specs.Io.KnownBytes.{Keeps, WriteAppends};

use std::io;
use std::io::Write;

/// A writer, with a word for what one write to it may answer. In code that knows a writer by this
/// trait alone, a write alone shows such an answer; so a clause can say that there was one write,
/// and that what it answered was passed on.
pub trait Writer: Write {
    // A write of these bytes may answer so, and leave such a writer.
    ghost may_answer: { Self → List ℕ → Result ℕ Error → Self → Type 0 };

    /// Writes once.
    fn hand(&mut self, bytes: &[u8]) -> io::Result<usize>
        ensures bound { WritesAtMost result bytes.now }
        ensures bytes { WriteAppends
            (Self.contents self.old) (Self.contents self.new) result bytes.now }
        ensures answer { may_answer self.old bytes.now result self.new };

    /// Sees to it that what was written has left the writer. A failure is answered as that of a
    /// write of no bytes may be.
    fn let_go(&mut self) -> io::Result<()>
        ensures bytes { Keeps (Self.contents self.old) (Self.contents self.new) }
        ensures failed { IfErr result (λ error. may_answer self.old [] (Err error) self.new) };
}

/// Of one write to any writer as much is known as std says.
impl<W: Write> Writer for W {
    ghost use Rattle.streams.specs.Answers.{MayWrite};

    ghost may_answer = { λ before bytes answer after.
        MayWrite (W.contents before) (W.contents after) answer bytes };

    fn hand(&mut self, bytes: &[u8]) -> io::Result<usize> {
        self.write(bytes)
    }

    fn let_go(&mut self) -> io::Result<()> {
        self.flush()
    }
}
