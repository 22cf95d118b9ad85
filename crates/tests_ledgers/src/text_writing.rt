//! How texts are written.

use book_core::Sink;
use book_import::Stop;
use book_reports::ReportFault;
use program_output::{report_failed, stopped};
use std::alloc::Global;
use tests_scripts::{AnswerText, LimitedWriter, Limits, LineFault, LineResult};

/// Where texts are written from here on.
#[derive(Clone, Copy)]
pub(crate) enum Writing {
    /// To a writer that takes all of them.
    Whole,
    /// To a limited one. What it took is counted.
    To(Limits),
    /// To one after another, each with one more write, before this number. What each took is
    /// counted, and not shown.
    Each { limits: Limits, end: u32 },
}

/// A number of a writer's line: `all` is no limit.
fn number_of(word: &str) -> LineResult<u32> {
    match word {
        "all" => Ok(u32::MAX),
        _ => Ok(word.parse::<u32>()?),
    }
}

impl Writing {
    /// The writing that a line asks for: none, `SIZE WRITES` or `SIZE FROM..END`.
    pub(crate) fn of(words: &[&str]) -> LineResult<Writing> {
        let (size, writes) = match *words {
            [] => return Ok(Writing::Whole),
            [size, writes] => (number_of(size)? as usize, writes),
            _ => return Err(LineFault::NotUnderstood),
        };
        let (from, end) = writes.split_once("..").unwrap_or((writes, ""));
        let calls = number_of(from)?;
        let limits = Limits { size, calls };
        if from == writes {
            return Ok(Writing::To(limits));
        }
        let end = number_of(end)?;
        Ok(Writing::Each { limits, end })
    }
}

/// What came of a text that was written.
#[derive(Drop)]
pub(crate) struct Written {
    pub(crate) writer: LimitedWriter,
    /// A write failed.
    failed: bool,
    /// What the program says of it on standard error, if anything.
    pub(crate) message: AnswerText,
}

impl Written {
    /// What a sink shows of a text, and what the program says of it.
    pub(crate) fn of(
        alloc: Global,
        sink: Sink<LimitedWriter>,
        answer: Result<Stop, ReportFault>,
    ) -> Written {
        let mut message = AnswerText::new(alloc);
        let _ = match answer {
            Ok(stop) => stopped(&mut message, stop),
            Err(fault) => report_failed(&mut message, fault),
        };
        let failed = sink.failed();
        Written {
            writer: sink.into_inner(),
            failed,
            message,
        }
    }
}

/// A text that can be written, again and again.
pub(crate) trait Writes {
    /// Writes it to a limited writer.
    fn write_to(&mut self, alloc: Global, limits: Limits) -> Written;
}

/// Adds how much a writer took.
fn push_took(out: &mut AnswerText, written: &Written) {
    out.value("TOOK ", written.writer.taken.len());
    out.value(" IN ", written.writer.asked);
    if written.failed {
        out.text(" FAILED");
    }
}

/// Writes to one writer after another, and adds how much each took, and whether that is no prefix
/// of what the first of all took.
fn push_each<T: Writes>(
    alloc: Global,
    text: &mut T,
    limits: Limits,
    end: u32,
    out: &mut AnswerText,
) {
    let whole = text.write_to(alloc, Limits::none());
    for calls in limits.calls..end {
        let written = text.write_to(alloc, Limits { calls, ..limits });
        push_took(out, &written);
        let is_prefix = whole.writer.taken.starts_with(&written.writer.taken);
        out.line(if is_prefix { "" } else { " NO FRONT" });
    }
}

/// Adds what a writer took, in whole lines.
fn push_taken(out: &mut AnswerText, taken: &[u8]) {
    out.bytes(taken);
    if !matches!(taken.last(), None | Some(b'\n')) {
        out.line("");
    }
}

/// Writes as was set, and adds the result.
pub(crate) fn push_text<T: Writes>(
    alloc: Global,
    text: &mut T,
    writing: Writing,
    out: &mut AnswerText,
) {
    let limits = match writing {
        Writing::Whole => Limits::none(),
        Writing::To(limits) => limits,
        Writing::Each { limits, end } => {
            push_each(alloc, text, limits, end, out);
            return;
        }
    };
    let written = text.write_to(alloc, limits);
    push_taken(out, &written.writer.taken);
    if let Writing::To(_) = writing {
        push_took(out, &written);
        out.line("");
    }
    out.add(&written.message);
}
