//! A dump that is read in one layout, and looks like one in the other.

ghost use Rattle.std.specs.Prelude.{◌≡◌, ◌↔◌, true, IfOk};
ghost use Rattle.smf_frames.specs.Texts.{front_of};
ghost use Rattle.program_output.specs.Layouts as spec;
ghost use Rattle.program_output.specs.Layouts.{FirstBytesTell, HasBlockFirst};

use smf_frames::{FrameFault, Layout, Split, split};
use std::alloc::{AllocError, Global};

/// The length of a descriptor, of a segment or a block.
const DESCRIPTOR: usize = 4;

/// Whether a dump was whole segments up to its end.
fn is_filled(found: &Split) -> bool
    ensures { result ≡ spec.is_filled (front_of found.now) }
{
    if found.is_broken {
        return false;
    }
    match found.fault {
        None => true,
        Some(fault) => fault == FrameFault::MissingLast,
    }
}

/// Whether bytes are more than a descriptor, and segments up to their end.
fn is_dump(alloc: Global, layout: Layout, bytes: &[u8]) -> Result<bool, AllocError>
    ensures { IfOk result (λ looks. looks ≡ spec.looks_like layout bytes.now) }
{
    let found = split(alloc, layout, bytes)?;
    Ok(bytes.len() > DESCRIPTOR && is_filled(&found))
}

/// Whether a dump of which these are the first bytes is read in the wrong layout: what is taken for
/// its first record is a block, with all of its segments. The office has then forgotten to say that
/// it has blocks, and the records of a block are taken for one of a type that is not charged.
pub fn is_misread(alloc: Global, layout: Layout, bytes: &[u8]) -> Result<bool, AllocError>
    ensures misread { IfOk result (λ is. is ≡ spec.is_misread layout bytes.now) }
    ensures first { IfOk result (λ is. FirstBytesTell layout bytes.now is) }

    // By the public standard.
    ensures standard { IfOk result (λ is. (is ≡ true) ↔ HasBlockFirst layout bytes.now) }
{
    match layout {
        Layout::Rdw => has_block_first(alloc, bytes),
        Layout::Bdw => Ok(false),
    }
}

/// Whether the first record of segments that lie one after another looks like a block.
fn has_block_first(alloc: Global, bytes: &[u8]) -> Result<bool, AllocError>
    ensures { IfOk result (λ is. is ≡ spec.is_misread Layout.Rdw bytes.now) }
{
    let found = split(alloc, Layout::Rdw, bytes)?;
    match found.records.first() {
        Some(record) => is_dump(alloc, Layout::Bdw, record),
        None => Ok(false),
    }
}
