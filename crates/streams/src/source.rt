ghost use Rattle.std.specs.Prelude.{◌≡◌, ◌+◌, ◌<◌, ◌^◌, false, length, true};
ghost use Rattle.std.specs.Io.{ReadsAtMost};
ghost use Rattle.std.specs.Io.KnownBytes.{ReadConsumes};
ghost use Rattle.streams.specs.AnswerFlags.{is_failed_read, is_end, NothingUnread, at_end_once};
ghost use Rattle.streams.specs.Failures.{HasFailedToRead};

use crate::reader::Reader;
use std::io;

/// A reader, and what became of the reads so far.
#[derive(Drop)]
pub struct Source<R: Reader + Drop> {
    inner: R,
    asked: u64,
    failed: bool,
    ended: bool,
    ghost at_end: { NothingUnread ended (R.remaining inner) } by { Prim.hlevel at_end_once },
    // Where one is said to have failed, one did, and nothing was read after it.
    ghost cause: { failed ≡ true → ∥ HasFailedToRead R.may_answer inner ∥₁ },
}

impl<R: Reader + Drop> Source<R> {
    ghost use Rattle.streams.specs.Sources.{reader_of, reads_of, has_failed, has_ended};

    /// Over a reader that was not asked yet.
    pub fn new(inner: R) -> Source<R>
        ensures reader { reader_of result ≡ inner }
        ensures asked { reads_of result ≡ 0 }
        ensures failed { has_failed result ≡ false }
        ensures ended { has_ended result ≡ false }
    {
        Source {
            inner,
            asked: 0,
            failed: false,
            ended: false,
        }
    }

    /// How often the reader was asked.
    pub fn asked(&self) -> u64
        ensures { result ≡ reads_of self.now }
    {
        self.asked
    }

    /// A read failed. That is shown by one that did, and left the reader so.
    pub fn failed(&self) -> bool
        ensures failed { result ≡ has_failed self.now }
        ensures cause { result ≡ true → ∥ HasFailedToRead R.may_answer (reader_of self.now) ∥₁ }
    {
        self.failed
    }

    /// A read into one or more bytes gave none.
    pub fn ended(&self) -> bool
        ensures ended { result ≡ has_ended self.now }
        ensures left { NothingUnread result (R.remaining (reader_of self.now)) }
    {
        self.ended
    }

    /// The reader, as the reads left it.
    pub fn into_inner(self) -> R
        ensures reader { result ≡ reader_of self }
        ensures left { NothingUnread (has_ended self) (R.remaining result) }
    {
        self.inner
    }

    /// Asks the reader once. After its end, or after a read that failed, nothing is read.
    pub fn read(&mut self, buffer: &mut [u8]) -> io::Result<usize>
        requires asked { reads_of self.old < 2 ^ 63 }
        requires failed { has_failed self.old ≡ false }
        requires ended { has_ended self.old ≡ false }

        // One read, and its very answer.
        ensures answer { R.may_answer
            (reader_of self.old) buffer.old result (reader_of self.new) buffer.new }
        ensures bound { ReadsAtMost result buffer.new }
        ensures bytes { ReadConsumes (R.remaining (reader_of self.old))
            (R.remaining (reader_of self.new)) result buffer.new }
        ensures asked { reads_of self.new ≡ reads_of self.old + 1 }
        ensures failed { has_failed self.new ≡ is_failed_read result }
        ensures ended { has_ended self.new ≡ is_end result (length buffer.old) }
        ensures left { NothingUnread (has_ended self.new) (R.remaining (reader_of self.new)) }
    {
        self.asked += 1;
        let answer = self.inner.ask(buffer);
        match answer {
            Ok(count) => self.ended = count == 0 && !buffer.is_empty(),
            Err(_) => self.failed = true,
        }
        answer
    }
}
