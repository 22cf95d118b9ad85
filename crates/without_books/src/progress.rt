//! How far a long command is, on one line of standard error, where that is a terminal. How wide it is
//! can't be asked; a line has at most 39 characters, so that none is wrapped, and left behind, at 40.

ghost use Rattle.std.specs.Prelude.{◌≡◌, ◌≤◌, IfOk};
ghost use Rattle.without_books.specs.Inputs.{watched_remaining};

use crate::inputs::Inputs;
use std::io;
use std::io::{Read, Write};
use std::time::{Duration, Instant};

/// How long a line stays at least, in milliseconds.
const LEAST_SHOWN: u64 = 500;

/// The bytes of a megabyte.
const MEGABYTE: u64 = 1_000_000;

/// Carriage return, and the terminal's order to clear the line.
const CLEAR_LINE: &str = "\r\x1b[K";

/// The line.
#[derive(Drop)]
pub struct ProgressLine<'a> {
    rt: &'a HostRuntime,
    /// When it was last written.
    shown: Instant,
}

impl<'a> ProgressLine<'a> {
    /// Not written yet. None where there is no clock: then nothing is shown.
    pub fn started(rt: &'a HostRuntime) -> Option<ProgressLine<'a>> {
        let shown = Instant::now(rt).ok()?;
        Some(ProgressLine { rt, shown })
    }

    /// It has stayed long enough.
    pub fn is_due(&self) -> bool {
        match self.shown.elapsed(self.rt) {
            Ok(time) => time >= Duration::from_millis(LEAST_SHOWN),
            Err(_) => false,
        }
    }

    /// Writes a word.
    pub fn show(&mut self, word: &str) {
        let _ = write!(self.rt.stderr(), "{CLEAR_LINE}{word}");
        self.mark_shown();
    }

    /// Writes how many rows of a table were read.
    pub fn show_rows(&mut self, table: &str, rows: u64) {
        let _ = write!(self.rt.stderr(), "{CLEAR_LINE}{table}, {rows} rows");
        self.mark_shown();
    }

    /// It was written just now.
    fn mark_shown(&mut self) {
        if let Ok(now) = Instant::now(self.rt) {
            self.shown = now;
        }
    }

    /// Removes it.
    pub fn clear(&self) {
        let _ = write!(self.rt.stderr(), "{CLEAR_LINE}");
    }
}

/// How far a file was read.
#[derive(Drop)]
struct Progress<'a> {
    line: ProgressLine<'a>,
    bytes: u64,
    /// The bytes of the whole file, where it has a fixed size.
    size: Option<u64>,
}

impl<'a> Progress<'a> {
    /// Nothing yet. None where there is no clock.
    fn started(rt: &'a HostRuntime, size: Option<u64>) -> Option<Progress<'a>> {
        Some(Progress {
            line: ProgressLine::started(rt)?,
            bytes: 0,
            size,
        })
    }

    /// Counts what was read, and shows the line where the last one has stayed long enough.
    fn count(&mut self, count: usize) {
        self.bytes = self.bytes.saturating_add(count as u64);
        if self.line.is_due() {
            self.show();
        }
    }

    fn show(&mut self) {
        let mut terminal = self.line.rt.stderr();
        let _ = match self.size {
            Some(size) => {
                let (part, all) = (percent_of(self.bytes, size), megabytes_of(size));
                write!(terminal, "{CLEAR_LINE}{part} % of {all} MB")
            }
            None => {
                let read = megabytes_of(self.bytes);
                write!(terminal, "{CLEAR_LINE}{read} MB")
            }
        };
        self.line.mark_shown();
    }
}

/// The part of a file that was read, in hundredths. A file may grow while it is read.
fn percent_of(bytes: u64, size: u64) -> u64
    ensures { result ≤ 100 }
{
    let hundredth = (size / 100).max(1);
    (bytes / hundredth).min(100)
}

/// Bytes in megabytes, rounded up.
fn megabytes_of(bytes: u64) -> u64 {
    bytes.div_ceil(MEGABYTE)
}

/// A reader that shows how far it was read, up to its end or a failure.
#[derive(Drop)]
pub struct WatchedReader<'a, R: Read + Drop> {
    inner: R,
    progress: Option<Progress<'a>>,
}

/// Opens the file of a dump, whose progress is shown where that is asked for.
pub fn open_watched<'a, F: Inputs>(
    rt: &'a HostRuntime,
    inputs: &F,
    file: &str,
    is_shown: bool,
) -> io::Result<WatchedReader<'a, F::Input>>
    ensures { IfOk result (λ watched. watched_remaining F.Input.remaining watched
        ≡ (F.held inputs.now).holds file.now) }
{
    let inner = inputs.open(file)?;
    let progress = if is_shown {
        Progress::started(rt, inputs.size_of(&inner))
    } else {
        None
    };
    Ok(WatchedReader { inner, progress })
}

impl<R: Read + Drop> Read for WatchedReader<'_, R> {
    ghost remaining = { watched_remaining R.remaining };

    fn read(&mut self, buffer: &mut [u8]) -> io::Result<usize> {
        let answer = self.inner.read(buffer);
        show_read(&mut self.progress, &answer);
        answer
    }
}

/// Shows what a read came to, where that is shown: how far the file was read, or nothing any more.
fn show_read(progress: &mut Option<Progress<'_>>, answer: &io::Result<usize>) {
    let Some(progress) = progress else {
        return;
    };
    match answer {
        Ok(count) if *count > 0 => progress.count(*count),
        _ => progress.line.clear(),
    }
}

/// Removes the line that showed how far a dump was read, wherever the reading stopped.
pub fn clear_line(rt: &HostRuntime, is_shown: bool) {
    if is_shown {
        let _ = write!(rt.stderr(), "{CLEAR_LINE}");
    }
}
