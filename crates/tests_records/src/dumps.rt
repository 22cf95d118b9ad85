//! What a dump is cut into, and the class and the header of a record.

use crate::dump_reader::work_lines;
use smf_frames::{Header, Split};
use smf_type30::{Class, Damage, class};
use tests_scripts::AnswerText;

/// Adds how many records a dump has, the number of the fault after them, or 0, and whether that
/// stays whatever follows.
pub(crate) fn push_parts(out: &mut AnswerText, parts: &Split) {
    let fault = match parts.fault {
        Some(fault) => fault.number(),
        None => 0,
    };
    out.value("RECORDS ", parts.records.len());
    out.value(" FAULT ", fault);
    out.line(if parts.is_broken { " BROKEN" } else { "" });
}

/// Adds the header of a record, if it has one.
pub(crate) fn push_header(out: &mut AnswerText, bytes: &[u8]) {
    let Some(header) = Header::read(bytes) else {
        out.line("NO HEADER");
        return;
    };
    out.value("TYPE ", header.kind);
    out.value(" TIME ", header.time);
    out.digits(" DATE ", &header.date);
    out.digits_line(" SYSTEM ", &header.system);
}

/// Adds the number of a record's damage.
pub(crate) fn push_damage(out: &mut AnswerText, damage: Damage) {
    out.value_line("DAMAGED ", damage.number());
}

/// Adds the class of a record, by the words of the check list.
pub(crate) fn push_class(out: &mut AnswerText, bytes: &[u8]) {
    match class(bytes) {
        Class::DumpHeader => out.line("HEADER"),
        Class::DumpTrailer => out.line("TRAILER"),
        Class::DataLost => out.line("LOST"),
        Class::Other => out.line("OTHER"),
        Class::Continuation => out.line("CONTINUED"),
        Class::Usage => out.line("USAGE"),
        Class::Damaged(damage) => push_damage(out, damage),
    }
}

/// Adds a line for each step or job of a dump.
pub(crate) fn push_work(out: &mut AnswerText, dump: &[u8]) {
    let lines = work_lines(out.alloc(), dump);
    out.made(lines);
}
