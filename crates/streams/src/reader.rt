ghost use Rattle.std.specs.Prelude.{ℕ, List, Result};
ghost use Rattle.std.specs.declared.io.Error.{Error};
ghost use Rattle.std.specs.Io.{ReadsAtMost};
ghost use Rattle.std.specs.Io.KnownBytes.{ReadConsumes};

use std::io;
use std::io::Read;

/// A reader, with a word for what one read of it may answer. In code that knows a reader by this
/// trait alone, a read alone shows such an answer; so a clause can say that there was one read, and
/// that what it answered was passed on.
pub trait Reader: Read {
    // A read with this room may answer so, and leave such a reader, with these bytes in the room.
    ghost may_answer: { Self → List ℕ → Result ℕ Error → Self → List ℕ → Type 0 };

    /// Reads once.
    fn ask(&mut self, room: &mut [u8]) -> io::Result<usize>
        ensures bound { ReadsAtMost result room.new }
        ensures bytes { ReadConsumes
            (Self.remaining self.old) (Self.remaining self.new) result room.new }
        ensures answer { may_answer self.old room.old result self.new room.new };
}

/// Of one read of any reader as much is known as std says.
impl<R: Read> Reader for R {
    ghost use Rattle.streams.specs.Answers.{MayRead};

    ghost may_answer = { λ before room answer after given.
        MayRead (R.remaining before) (R.remaining after) answer given };

    fn ask(&mut self, room: &mut [u8]) -> io::Result<usize> {
        self.read(room)
    }
}
