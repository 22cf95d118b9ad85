//! Lists of the names of records.

ghost use Rattle.std.specs.Prelude.{◌≡◌, ◌++◌, [], ◌∷◌, ℕ, List, Ok, IfErr, IfOk, OnOk};
ghost use Rattle.std.specs.Str.Lines.{strip_carriage_return};
ghost use Rattle.program_output.specs.Names.{HasRead, IsNamesFault, IsNoLine, KeepsLine, names_in};
ghost use Rattle.program_output.specs.Names.{numbers_in};

use crate::listed_line::{ListedLine, read_line};
use std::alloc::{AllocFailed, Global};

/// The most lines of a list: books take no more choices.
const MAX_NAMES: usize = 1_000_000;

/// How many bytes of a list are read: one more than a list has that is as long as it may be, for each
/// line its bytes and the two of its end. So many have a line that is too long, or one too many.
pub const MAX_LIST: u64 = 130 * MAX_NAMES as u64 + 1;

/// Why there are no names of a list.
#[derive(Clone, Copy)]
pub enum NamesFault {
    /// There was no memory for them.
    Memory,
    /// The line of this number is the first that says anything but a name.
    Line(usize),
    /// There is a line after the last that a list may have.
    TooMany,
}

impl<T: Drop> From<AllocFailed<T>> for NamesFault {
    ghost use Rattle.program_output.specs.declared.names.NamesFault.TheVariants.{Memory};

    ghost from_gives = { λ _ fault. fault ≡ Memory };

    fn from(_: AllocFailed<T>) -> NamesFault {
        NamesFault::Memory
    }
}

/// The names of a list.
#[derive(Drop)]
pub struct Listed {
    /// The names, in the order of their lines.
    pub names: Vec<[u8; 32]>,
    /// The number of the line of each: others may be blank.
    pub lines: Vec<usize>,
}

/// A line without the carriage return before its line feed, if there is one.
fn without_return(line: &[u8]) -> &[u8]
    ensures { result.now ≡ strip_carriage_return line.now }
{
    let count = line.len();
    if count > 0 && line[count - 1] == b'\r' {
        &line[..count - 1]
    } else {
        line
    }
}

/// Keeps what the line says after so many that have ended. Gives how many have ended with it.
fn keep_line(listed: &mut Listed, ended: usize, line: &[u8]) -> Result<usize, NamesFault>
    ensures kept { IfOk result (KeepsLine listed.old ended line.now listed.new) }
    ensures refused { IfErr result (IsNoLine ended line.now) }
{
    if ended >= MAX_NAMES {
        return Err(NamesFault::TooMany);
    }
    match read_line(line) {
        ListedLine::Blank => Ok(ended + 1),
        ListedLine::Name(name) => {
            listed.names.push(name)?;
            listed.lines.push(ended + 1)?;
            Ok(ended + 1)
        }
        ListedLine::Other => Err(NamesFault::Line(ended + 1)),
    }
}

/// The names of a list that has one a line, as its bytes come.
#[derive(Drop)]
pub struct NameList {
    listed: Listed,
    /// How many lines have ended.
    ended: usize,
    /// The bytes of the line that has not ended yet.
    line: Vec<u8>,
}

impl NameList {
    /// No byte yet.
    pub fn new(alloc: Global) -> NameList
        ensures { HasRead [] result }
    {
        NameList {
            listed: Listed {
                names: Vec::new(alloc),
                lines: Vec::new(alloc),
            },
            ended: 0,
            line: Vec::new(alloc),
        }
    }

    /// One more byte.
    pub fn push(&mut self, byte: u8) -> Result<(), NamesFault>
        ensures read { OnOk result ((text : List ℕ) → HasRead text self.old
            → HasRead (text ++ byte ∷ []) self.new) }
        // Whatever comes after it.
        ensures refused { IfErr result (λ fault. (text more : List ℕ) → HasRead text self.old
            → IsNamesFault (names_in (text ++ byte ∷ more)) fault) }
    {
        if byte == b'\n' {
            let ended = keep_line(&mut self.listed, self.ended, without_return(&self.line))?;
            self.ended = ended;
            self.line.clear();
        } else {
            self.line.push(byte)?;
        }
        Ok(())
    }

    /// All names, where no more bytes come.
    pub fn end(self) -> Result<Listed, NamesFault>
        ensures names { IfOk result (λ listed. (text : List ℕ) → HasRead text self
            → names_in text ≡ Ok listed.names.items) }
        ensures lines { IfOk result (λ listed. (text : List ℕ) → HasRead text self
            → numbers_in text ≡ listed.lines.items) }
        ensures refused { IfErr result (λ fault. (text : List ℕ) → HasRead text self
            → IsNamesFault (names_in text) fault) }
    {
        let NameList {
            mut listed,
            ended,
            line,
        } = self;
        let last = line.as_slice();
        if last.is_empty() {
            return Ok(listed);
        }
        keep_line(&mut listed, ended, last)?;
        Ok(listed)
    }
}
