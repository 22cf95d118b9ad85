//! The result of a line, or why there is none.

use std::alloc::{AllocError, AllocFailed, Global};
use std::io;
use std::num::ParseIntError;

/// Why a line is not answered.
#[derive(Clone, Copy)]
pub enum LineFault {
    /// It can't be read.
    NotUnderstood,
    /// There is no memory for what it names.
    Memory,
}

/// The result of a line.
pub type LineResult<T = ()> = Result<T, LineFault>;

/// The words of a line.
pub fn words_of<'a>(alloc: Global, line: &'a str) -> LineResult<Vec<&'a str>> {
    let words: Vec<&str> = line.split_whitespace().collect(alloc)?;
    Ok(words)
}

/// The value that a word names.
pub fn value_of<T: Copy>(values: &[(&str, T)], word: &str) -> LineResult<T> {
    for (name, value) in values {
        if *name == word {
            return Ok(*value);
        }
    }
    Err(LineFault::NotUnderstood)
}

impl From<ParseIntError> for LineFault {
    fn from(_: ParseIntError) -> LineFault {
        LineFault::NotUnderstood
    }
}

impl From<AllocError> for LineFault {
    fn from(_: AllocError) -> LineFault {
        LineFault::Memory
    }
}

impl<T: Drop> From<AllocFailed<T>> for LineFault {
    fn from(_: AllocFailed<T>) -> LineFault {
        LineFault::Memory
    }
}

/// What is written is written to memory.
impl From<io::Error> for LineFault {
    fn from(_: io::Error) -> LineFault {
        LineFault::Memory
    }
}
