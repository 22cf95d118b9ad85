//! The text of an answer, written piece by piece.

use crate::line_result::{LineFault, LineResult};
use hex::{encode, encode_upper};
use std::alloc::{AllocError, Global};
use std::fmt::Display;
use std::io;
use std::io::Write;

/// The answer to a line, as far as it is written. A piece for which there is no memory is left out,
/// and the text remembers that: so nothing that is added has a result, and the player asks once.
#[derive(Drop)]
pub struct AnswerText {
    alloc: Global,
    bytes: Vec<u8>,
    /// A piece is left out.
    is_cut: bool,
}

impl AnswerText {
    /// Nothing is written yet.
    pub fn new(alloc: Global) -> AnswerText {
        AnswerText {
            alloc,
            bytes: Vec::new(alloc),
            is_cut: false,
        }
    }

    /// What its own memory comes from.
    pub fn alloc(&self) -> Global {
        self.alloc
    }

    /// What is written.
    pub fn as_bytes(&self) -> &[u8] {
        &self.bytes
    }

    /// What is written, by itself.
    pub fn into_bytes(self) -> Vec<u8> {
        self.bytes
    }

    /// The same, if there was memory for all of it.
    pub fn into_whole(self) -> LineResult<Vec<u8>> {
        if self.is_cut {
            return Err(LineFault::Memory);
        }
        Ok(self.bytes)
    }

    /// A piece is left out of it.
    pub fn is_cut(&self) -> bool {
        self.is_cut
    }

    /// Says that a piece is left out of it, for which there was no memory.
    pub fn cut(&mut self) {
        self.is_cut = true;
    }

    /// Adds bytes as they are.
    pub fn bytes(&mut self, bytes: &[u8]) {
        if self.bytes.extend_from_slice(bytes).is_err() {
            self.is_cut = true;
        }
    }

    /// Adds what another one says, and is cut where that is.
    pub fn add(&mut self, other: &AnswerText) {
        self.bytes(other.as_bytes());
        self.is_cut = self.is_cut || other.is_cut;
    }

    /// Adds a text.
    pub fn text(&mut self, text: &str) {
        self.bytes(text.as_bytes());
    }

    /// Adds a text and a line's end.
    pub fn line(&mut self, text: &str) {
        self.text(text);
        self.bytes(b"\n");
    }

    /// Adds a text that was made for it, if there was memory to make it.
    pub fn made(&mut self, text: Result<String, AllocError>) {
        match text {
            Ok(text) => self.text(text.as_str()),
            Err(_) => self.is_cut = true,
        }
    }

    /// Adds a value, with a text before it.
    pub fn value<D: Display + Drop>(&mut self, before: &str, value: D) {
        self.text(before);
        if write!(self.bytes, "{value}").is_err() {
            self.is_cut = true;
        }
    }

    /// Adds a line of a value, with a text before it.
    pub fn value_line<D: Display + Drop>(&mut self, before: &str, value: D) {
        self.value(before, value);
        self.bytes(b"\n");
    }

    /// Adds bytes, two capital digits each, with a text before them.
    pub fn digits(&mut self, before: &str, bytes: &[u8]) {
        self.text(before);
        let digits = encode_upper(self.alloc, bytes);
        self.made(digits);
    }

    /// Adds a line of bytes, two capital digits each, with a text before them.
    pub fn digits_line(&mut self, before: &str, bytes: &[u8]) {
        self.digits(before, bytes);
        self.bytes(b"\n");
    }

    /// Adds bytes, two small digits each, with a text before them.
    pub fn small_digits(&mut self, before: &str, bytes: &[u8]) {
        self.text(before);
        let digits = encode(self.alloc, bytes);
        self.made(digits);
    }
}

impl Write for AnswerText {
    fn write(&mut self, bytes: &[u8]) -> io::Result<usize> {
        self.bytes(bytes);
        Ok(bytes.len())
    }

    fn flush(&mut self) -> io::Result<()> {
        Ok(())
    }
}
