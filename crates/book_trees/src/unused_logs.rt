//! A log of which books take nothing.

ghost use Rattle.std.specs.Prelude.{◌≡◌, ◌↔◌, IfErr, IfOk, IsTrue, ⊤};
ghost use Rattle.sqlite_wal.specs.Reads.{IsClean};
ghost use Rattle.sqlite_wal.specs.Recovery.{Image, Replays};
ghost use Rattle.book_trees.specs.Copies.{IsOnlyRead};
ghost use Rattle.book_trees.specs.LedgerFiles.{page_size, HoldsAlone, IsUnused};
ghost use Rattle.book_trees.specs.Refusals.{probe_answer, IsToldWithout};

use crate::faults::OpenFault;
use crate::unopened::size_of_a_page;
use sqlite_disk::Disk;
use sqlite_wal::{Error, probe_frames};
use std::alloc::Global;

/// The length of what a close leaves of a log, in bytes: its header, and what shuts it.
const CLOSED_LOG: usize = 41;

/// Whether recovery passes over a log of which it does not say what it would take.
fn probe_answer(error: Error) -> Result<bool, OpenFault>
    ensures { result ≡ probe_answer error }
{
    match error {
        Error::Corrupt => Ok(false),
        Error::OutOfMemory => Err(OpenFault::Memory),
        _ => Err(OpenFault::Store),
    }
}

/// Whether recovery passes over a log. It does not pass over one that it refuses.
fn has_no_frame<D: Disk>(alloc: Global, log: &mut D) -> Result<bool, OpenFault>
    requires { IsTrue (D.Disk.is_usable log.old) }
    ensures none { IfOk result (λ is. IsClean D.Disk log.new
        → (IsTrue is ↔ Replays page_size (D.Disk.seen log.old) 0)) }
    ensures kinds { IfErr result (IsToldWithout ⊤) }
    ensures read { IsOnlyRead D.Disk log.old log.new }
{
    match probe_frames(alloc, log, size_of_a_page()) {
        Ok(pages) => Ok(pages.is_empty()),
        Err(error) => probe_answer(error),
    }
}

/// Whether a log is longer than what a close leaves, and recovery passes over it. The file alone then
/// holds the same tables. Nothing is written; an open would write over such a log.
pub fn is_unused<D: Disk>(alloc: Global, log: &mut D) -> Result<bool, OpenFault>
    requires { IsTrue (D.Disk.is_usable log.old) }
    ensures unused { IfOk result (λ is. IsClean D.Disk log.new
        → (IsTrue is ↔ IsUnused (D.Disk.seen log.old))) }
    ensures alone { IfOk result (λ is. IsClean D.Disk log.new → IsTrue is → (image : Image)
        → image.log ≡ D.Disk.seen log.old → HoldsAlone image) }

    // That there are no books is never told of a log.
    ensures kinds { IfErr result (IsToldWithout ⊤) }
    ensures read { IsOnlyRead D.Disk log.old log.new }
{
    let len = match log.len() {
        Ok(len) => len,
        Err(_error) => return Err(OpenFault::Store),
    };
    if len <= CLOSED_LOG {
        return Ok(false);
    }
    has_no_frame(alloc, log)
}
