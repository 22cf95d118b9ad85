//! What files of books begin with.

use std::io;
use std::io::{ErrorKind, Read};

/// What every database of SQLite begins with, and so each file of books from the first on.
const MAGIC: [u8; 16] = *b"SQLite format 3\0";

/// Whether a file begins as books do.
pub(crate) fn begins_as_books<R: Read>(file: &mut R) -> io::Result<bool> {
    let mut first = [0; 16];
    match file.read_exact(&mut first) {
        Ok(()) => Ok(first == MAGIC),
        Err(error) if error.kind() == ErrorKind::UnexpectedEof => Ok(false),
        Err(error) => Err(error),
    }
}
