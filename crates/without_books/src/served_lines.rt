//! The lines of a service on their way to the output. A client is answered whether or not somebody
//! reads what is said of it: a closed output ends no service.

ghost use Rattle.std.specs.Prelude.{◌≡◌, true};
ghost use Rattle.streams.specs.Failures.{HasFailed};

use crate::printed_text::fails_to_write;
use streams::Writer;

/// An output that takes lines up to the first write that fails.
#[derive(Drop)]
pub struct ServedLines<O: Writer + Drop> {
    output: O,
    has_failed: bool,
    // Where one is said to have failed, one did, and nothing was written after it.
    ghost cause: { has_failed ≡ true → ∥ HasFailed O.may_answer output ∥₁ },
}

impl<O: Writer + Drop> ServedLines<O> {
    ghost use Rattle.without_books.specs.ServedLines.{Gains, seen_of, unfailed};

    /// Over an output to which no write has failed.
    pub fn new(output: O) -> ServedLines<O>
        ensures { seen_of O.contents result ≡ unfailed (O.contents output) }
    {
        ServedLines {
            output,
            has_failed: false,
        }
    }

    /// A write failed, or took nothing.
    pub fn has_failed(&self) -> bool
        ensures { result ≡ (seen_of O.contents self.now).has_failed }
    {
        self.has_failed
    }

    /// The output, as the lines left it.
    pub fn into_inner(self) -> O
        ensures holds { O.contents result ≡ (seen_of O.contents self).holds }

        // That a write failed is shown by one that did, or by a flush, which left the output so.
        ensures cause { (seen_of O.contents self).has_failed ≡ true
            → ∥ HasFailed O.may_answer result ∥₁ }
    {
        self.output
    }

    /// Writes a line, which leaves the program at once. Where a write fails the rest of it is lost,
    /// and so are all lines after it.
    pub fn write(&mut self, line: &str)
        ensures { Gains (seen_of O.contents self.old) (seen_of O.contents self.new) line.now }
    {
        if self.has_failed {
            return;
        }
        let failed = fails_to_write(&mut self.output, line.as_bytes());
        self.has_failed = failed;
    }
}
