//! Files in memory, by their names.

ghost use Rattle.memory_books.specs.Files.{files_on};

use crate::places::{Kept, find};
use std::io;
use std::io::ErrorKind;
use without_books::Inputs;

/// Files in memory, on a day.
#[derive(Clone, Copy)]
pub struct MemoryInputs<'a> {
    files: &'a [Kept<Vec<u8>>],
    today: Option<i32>,
}

impl<'a> MemoryInputs<'a> {
    ghost use Rattle.std.specs.Prelude.{◌≡◌};
    ghost use Rattle.memory_books.specs.Files.{held_in};

    /// These, of which the first of a name counts, on this day.
    pub fn of(files: &'a [Kept<Vec<u8>>], today: Option<i32>) -> MemoryInputs<'a>
        ensures { held_in result ≡ files_on today files.now }
    {
        MemoryInputs { files, today }
    }
}

impl<'a> Inputs for MemoryInputs<'a> {
    ghost use Rattle.memory_books.specs.Files.{held_in};

    type Input = &'a [u8];

    ghost held = { held_in };

    fn today(&self) -> Option<i32> {
        self.today
    }

    fn is_kept(&self, _name: &str) -> bool {
        true
    }

    fn open(&self, name: &str) -> io::Result<&'a [u8]> {
        match find(self.files, name) {
            Some(text) => Ok(text.as_slice()),
            None => Err(ErrorKind::NotFound.into()),
        }
    }
}
