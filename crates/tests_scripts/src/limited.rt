//! A reader that gives bytes in pieces, and a writer that takes them in pieces. Either may fail.

use std::alloc::Global;
use std::io;
use std::io::{ErrorKind, Read, Write};

/// What the calls of a reader or a writer are limited to.
#[derive(Clone, Copy)]
pub struct Limits {
    /// How many bytes go over in one call, at most.
    pub size: usize,
    /// Each call after this many fails.
    pub calls: u32,
}

impl Limits {
    /// Everything goes over in one call, and none fails.
    pub fn none() -> Limits {
        Limits {
            size: usize::MAX,
            calls: u32::MAX,
        }
    }
}

/// Gives bytes.
#[derive(Drop)]
pub struct LimitedReader<'a> {
    bytes: &'a [u8],
    left: &'a [u8],
    limits: Limits,
    is_endless: bool,
}

impl<'a> LimitedReader<'a> {
    /// Gives these bytes once, or, where it is endless, again and again.
    pub fn new(bytes: &'a [u8], limits: Limits, is_endless: bool) -> LimitedReader<'a> {
        LimitedReader {
            bytes,
            left: bytes,
            limits,
            is_endless,
        }
    }
}

impl Read for LimitedReader<'_> {
    fn read(&mut self, buffer: &mut [u8]) -> io::Result<usize> {
        if self.limits.calls == 0 {
            return Err(ErrorKind::BrokenPipe.into());
        }
        self.limits.calls -= 1;
        if self.is_endless && self.left.is_empty() {
            self.left = self.bytes;
        }
        let count = self.limits.size.min(buffer.len()).min(self.left.len());
        let (piece, later) = self.left.split_at(count);
        buffer[..count].copy_from_slice(piece);
        self.left = later;
        Ok(count)
    }
}

/// Takes bytes.
#[derive(Drop)]
pub struct LimitedWriter {
    limits: Limits,
    /// What it took.
    pub taken: Vec<u8>,
    /// How often it was asked.
    pub asked: u32,
}

impl LimitedWriter {
    /// It has taken nothing yet.
    pub fn new(alloc: Global, limits: Limits) -> LimitedWriter {
        LimitedWriter {
            limits,
            taken: Vec::new(alloc),
            asked: 0,
        }
    }
}

impl Write for LimitedWriter {
    fn write(&mut self, bytes: &[u8]) -> io::Result<usize> {
        self.asked = self.asked.saturating_add(1);
        if self.asked > self.limits.calls {
            return Err(ErrorKind::StorageFull.into());
        }
        let count = bytes.len().min(self.limits.size);
        self.taken.extend_from_slice(&bytes[..count])?;
        Ok(count)
    }

    fn flush(&mut self) -> io::Result<()> {
        Ok(())
    }
}

/// Counts a call, and answers whether it is the one to fail: that after a given number, and none
/// where there is no number.
pub fn is_due(calls_left: &mut Option<u32>) -> bool {
    match *calls_left {
        None => false,
        Some(0) => {
            *calls_left = None;
            true
        }
        Some(calls) => {
            *calls_left = Some(calls - 1);
            false
        }
    }
}
