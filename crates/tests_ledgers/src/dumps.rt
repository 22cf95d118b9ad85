//! What a dump is cut into.

use book_core::{Naming, ShaNames};
use smf_frames::{Layout, split};
use std::alloc::Global;
use tests_scripts::{AnswerText, LineResult};

/// Adds the descriptor of a record, and the name of its data.
fn push_record(out: &mut AnswerText, bytes: &[u8]) {
    match bytes.split_at_checked(4) {
        None => out.line("NO RECORD"),
        Some((descriptor, data)) => {
            out.small_digits("", descriptor);
            out.small_digits(" ", &ShaNames.name(data));
            out.line("");
        }
    }
}

/// Adds how many records a dump has, the number of the fault after them, or 0, and whether that
/// stays whatever follows. Then come the records, if these are asked for.
pub(crate) fn push_split(
    alloc: Global,
    layout: Layout,
    dump: &[u8],
    with_records: bool,
    out: &mut AnswerText,
) -> LineResult {
    let parts = split(alloc, layout, dump)?;
    let fault = match parts.fault {
        Some(fault) => fault.number(),
        None => 0,
    };
    out.value("RECORDS ", parts.records.len());
    out.value(" FAULT ", fault);
    out.line(if parts.is_broken { " BROKEN" } else { "" });
    if with_records {
        for bytes in &parts.records {
            push_record(out, bytes);
        }
    }
    Ok(())
}
