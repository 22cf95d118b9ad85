//! What a joiner that lasts over the lines of a row answers.

use smf_frames::{FrameFault, Joiner};
use tests_scripts::{AnswerText, LineFault, LineResult};

/// Adds the number of a fault.
fn push_fault(out: &mut AnswerText, fault: FrameFault) {
    out.value_line("FAULT ", fault.number());
}

/// Adds how much of a dump the joiner took, or its fault.
fn push_taken(out: &mut AnswerText, joiner: &mut Joiner, dump: &[u8]) {
    match joiner.feed(dump) {
        Ok(taken) => out.value_line("TOOK ", taken),
        Err(fault) => push_fault(out, fault),
    }
}

/// Adds how long the record at which the joiner stands is, and whether it is this one.
fn push_record(out: &mut AnswerText, joiner: &Joiner, expected: &[u8]) {
    let Some(bytes) = joiner.record() else {
        out.line("NO RECORD");
        return;
    };
    out.value("RECORD ", bytes.len());
    out.line(if bytes == expected { " SAME" } else { " OTHER" });
}

/// Adds what the end of the dump leaves undone.
fn push_end(out: &mut AnswerText, joiner: &Joiner) {
    match joiner.finish() {
        Ok(()) => out.line("END"),
        Err(fault) => push_fault(out, fault),
    }
}

/// Does what a verb says with a joiner and a dump, and adds the result.
pub(crate) fn push_joined(
    out: &mut AnswerText,
    joiner: &mut Joiner,
    verb: &str,
    dump: &[u8],
) -> LineResult {
    match verb {
        "feed" => push_taken(out, joiner, dump),
        "record" => push_record(out, joiner, dump),
        _ if !dump.is_empty() => return Err(LineFault::NotUnderstood),
        "finish" => push_end(out, joiner),
        _ => joiner.next(),
    }
    Ok(())
}
