//! Whether a dump looks to be read in the wrong layout.

use program_output::is_misread;
use smf_frames::Layout;
use tests_scripts::{AnswerText, LineResult, Named};

/// Adds whether the dump of parts is one in blocks, and is read in the other layout.
pub(crate) fn push_layout(
    named: &Named,
    layout: Layout,
    parts: &[&str],
    out: &mut AnswerText,
) -> LineResult {
    let dump = named.read_dump(parts)?;
    let is_misread = is_misread(named.alloc(), layout, &dump)?;
    out.line(if is_misread { "BLOCKS" } else { "AS READ" });
    Ok(())
}
