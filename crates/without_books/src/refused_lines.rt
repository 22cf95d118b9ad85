//! What a line of a list says that was refused, by a second look at its file.

use crate::causes::is_file;
use program_output::MAX_LIST;
use std::alloc::Global;
use std::fs;
use std::io::{BufReader, Read};

/// How many bytes of a line are shown.
const MOST_SHOWN: usize = 80;

/// The first bytes of the line of a number, counted from 1, in the file at a path. None come of what is
/// no file, as of a pipe, or can't be read again; and where memory runs out, fewer may.
pub(crate) fn line_in_file(rt: &HostRuntime, path: &str, number: usize) -> Vec<u8> {
    if is_file(rt, path) {
        if let Ok(file) = fs::open(rt, path) {
            return line_of(rt.alloc(), file, number);
        }
    }
    Vec::new(rt.alloc())
}

/// The first bytes of the line of a number that a reader gives.
fn line_of<R: Read + Drop>(alloc: Global, reader: R, number: usize) -> Vec<u8> {
    let mut text = Vec::new(alloc);
    let Ok(buffered) = BufReader::new(alloc, reader) else {
        return text;
    };
    let mut line: usize = 1;
    for byte in buffered.take(MAX_LIST).bytes() {
        let Ok(byte) = byte else {
            return text;
        };
        if byte == b'\n' {
            if line == number {
                return text;
            }
            line = line.saturating_add(1);
        } else if line == number && text.len() < MOST_SHOWN {
            let _ = text.push(byte);
        }
    }
    text
}
