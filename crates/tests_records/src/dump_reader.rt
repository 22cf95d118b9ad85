//! A reader of dumps without any books, as the README of smf_type30 shows it.

use smf_frames::{Layout, split};
use smf_text::{day_text, show};
use smf_type30::{Class, Type30, class};
use std::alloc::{AllocError, Global};
use std::fmt::Write;

/// A line for each step or job of a dump: its job, its day, and its CPU time in hundredths of a
/// second.
pub(crate) fn work_lines(alloc: Global, dump: &[u8]) -> Result<String, AllocError> {
    let mut lines = String::new(alloc);
    for bytes in &split(alloc, Layout::Rdw, dump)?.records {
        if class(bytes) != Class::Usage {
            continue;
        }
        if let Ok(usage) = Type30::read(bytes) {
            let job = show(alloc, usage.job())?;
            let day = day_text(alloc, usage.moment().day)?;
            writeln!(lines, "{job} {day} {}", usage.cpu())?;
        }
    }
    Ok(lines)
}
