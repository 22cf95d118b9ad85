//! How dumps are read.

ghost use Rattle.std.specs.Prelude.{◌≤◌};
ghost use Rattle.book_import.specs.ReadLimits.{most_reads};

use book_import::MAX_READS;
use smf_frames::Layout;
use tests_scripts::{AnswerText, LimitedReader, Limits, LineFault, LineResult};

/// How a dump is read from here on.
#[derive(Clone, Copy)]
pub(crate) struct Reading {
    pub(crate) layout: Layout,
    /// What a reader of it gives.
    limits: Limits,
    /// How many reads are allowed.
    reads: u32,
    /// The dump begins anew at its end.
    is_endless: bool,
    /// How often the reader was asked is shown.
    is_counted: bool,
}

impl Reading {
    /// As segments, whole, up to the end.
    pub(crate) fn plain() -> Reading {
        Reading {
            layout: Layout::Rdw,
            limits: Limits::none(),
            reads: u32::MAX,
            is_endless: false,
            is_counted: false,
        }
    }

    /// The reading that a line asks for: `bdw`, `pieces:SIZE`, `fails:READS`, `reads:READS`,
    /// `endless`, `counted`.
    pub(crate) fn of(words: &[&str]) -> LineResult<Reading> {
        let mut reading = Reading::plain();
        for word in words {
            reading.set(word)?;
        }
        Ok(reading)
    }

    /// Sets what a word says.
    fn set(&mut self, word: &str) -> LineResult {
        match word {
            "bdw" => self.layout = Layout::Bdw,
            "endless" => self.is_endless = true,
            "counted" => self.is_counted = true,
            _ => return self.set_number(word),
        }
        Ok(())
    }

    /// Sets the number that a word says.
    fn set_number(&mut self, word: &str) -> LineResult {
        let (key, number) = word.split_once(':').ok_or(LineFault::NotUnderstood)?;
        let number = number.parse::<u32>()?;
        match key {
            "pieces" => self.limits.size = number as usize,
            "fails" => self.limits.calls = number,
            "reads" => self.reads = number,
            _ => return Err(LineFault::NotUnderstood),
        }
        Ok(())
    }

    /// The same, except that each read after a given number fails.
    pub(crate) fn failing(self, reads: u16) -> Reading {
        let limits = Limits {
            calls: u32::from(reads),
            ..self.limits
        };
        Reading { limits, ..self }
    }

    /// Of the same layout, whole, up to the end.
    pub(crate) fn whole(self) -> Reading {
        Reading {
            layout: self.layout,
            ..Reading::plain()
        }
    }

    /// The reader of a dump.
    pub(crate) fn reader(self, dump: &[u8]) -> LimitedReader<'_> {
        LimitedReader::new(dump, self.limits, self.is_endless)
    }

    /// How many reads are allowed.
    pub(crate) fn allowed(self) -> u64
        ensures { result ≤ most_reads }
    {
        u64::from(self.reads).min(MAX_READS)
    }

    /// Adds how often the reader was asked, if that is to be shown.
    pub(crate) fn push_asked(self, out: &mut AnswerText, asked: u64) {
        if self.is_counted {
            out.value_line("READS ", asked);
        }
    }
}
