//! Lines on standard error. They are made in a buffer of fixed size: a line takes no memory, so a
//! lack of it can be said.

ghost use Rattle.std.specs.Prelude.{◌≡◌, ◌<◌, ◌≤◌, [], ◌∷◌, length, take};
ghost use Rattle.std.specs.Io.KnownBytes.{Appends};
ghost use Rattle.streams.specs.Failures.{FailsToWrite};
ghost use Rattle.program_output.specs.Messages.{AreSaid, IsHanded, line_at, line_of};

use arrayvec::ArrayString;
use itoa::Buffer;
use streams::Writer;

/// The name by which the program speaks of itself.
pub const PROGRAM: &str = "chargectl";

/// Room for a line: the program's name, what it says, and what stands around that.
type Line = ArrayString<80>;

/// Room for a line that also has the number of a line of a file, of up to 20 digits.
type NumberedLine = ArrayString<112>;

/// Writes once, and answers how many bytes were taken: none where the write failed.
fn write_once<E: Writer>(writer: &mut E, bytes: &[u8]) -> usize
    requires { 0 < length bytes.now }
    ensures bound { result ≤ length bytes.now }
    ensures taken { Appends (E.contents writer.old) (E.contents writer.new) (take result bytes.now) }
    ensures failed { result ≡ 0 → FailsToWrite E.may_answer bytes.now writer.old writer.new }
{
    match writer.hand(bytes) {
        Ok(count) => count,
        Err(_) => 0,
    }
}

/// Hands bytes to a writer, in as many writes as it needs, and answers how many it took. After a
/// write that failed, or that took nothing, there are no more.
pub fn hand_all<E: Writer>(writer: &mut E, bytes: &[u8]) -> usize
    ensures { IsHanded E.contents E.may_answer bytes.now result writer.old writer.new }
{
    let mut written = 0;
    'writes: while written < bytes.len() {
        let count = write_once(writer, &bytes[written..]);
        if count == 0 {
            return written;
        }
        written += count;
    }
    written
}

/// Says a text.
pub fn say<E: Writer>(errors: &mut E, text: &str)
    ensures { AreSaid E.contents E.may_answer (text.now ∷ []) errors.old errors.new }
{
    let bytes = text.as_bytes();
    hand_all(errors, bytes);
}

/// Says a line that has this after the program's name.
pub(crate) fn say_line<E: Writer>(errors: &mut E, what: &str)
    requires { length what.now ≤ 64 }
    ensures { AreSaid E.contents E.may_answer (line_of what.now ∷ []) errors.old errors.new }
{
    let mut line = Line::new();
    line.push_str(PROGRAM);
    line.push_str(": ");
    line.push_str(what);
    line.push_str("\n");
    say(errors, line.as_str());
}

/// Says the same of a line of a file, which has this number.
pub(crate) fn say_at<E: Writer>(errors: &mut E, what: &str, number: usize)
    requires { length what.now ≤ 64 }
    ensures { AreSaid E.contents E.may_answer (line_at what.now number ∷ []) errors.old errors.new }
{
    let mut digits = Buffer::new();
    let mut line = NumberedLine::new();
    line.push_str(PROGRAM);
    line.push_str(": ");
    line.push_str(what);
    line.push_str(" line ");
    line.push_str(digits.format(number));
    line.push_str("\n");
    say(errors, line.as_str());
}
