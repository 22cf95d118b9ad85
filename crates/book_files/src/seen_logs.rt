//! What a log is seen to be.

ghost use Rattle.std.specs.Prelude.{IfOk, IsTrue};
ghost use Rattle.book_files.specs.Logs.{IsOfNoUse, LooksShort};

use book_trees::{OpenFault, is_short, is_unused};
use sqlite_disk::{Disk, Files};
use sqlite_format::bytes::get_u32;
use sqlite_wal::checksum_of;
use std::alloc::Global;

/// What each log of books begins with: what it is, its version, and the size of its pages.
const OF_BOOKS: [u8; 12] = [
    0x37, 0x7F, 0x06, 0x82, 0x00, 0x2D, 0xE2, 0x18, 0x00, 0x00, 0x10, 0x00,
];

/// Where a log has the number of times that it was begun anew. Its salt follows.
const ROUND: usize = 12;

/// That number in the log of a file of books that is begun.
const BEGUN: u32 = 0xFFFF_FFFF;

/// Where a log has the sum of all that stands before it.
const SUM: usize = 24;

/// A log begins as one of books does that was begun anew, once its pages were moved into their file.
fn is_renewed(head: &[u8; 32]) -> bool {
    let round = get_u32(head, ROUND);
    let sum = checksum_of(false, (0, 0), &head[..SUM]);
    head[..ROUND] == OF_BOOKS[..]
        && round != 0
        && round != BEGUN
        && sum == (get_u32(head, SUM), get_u32(head, SUM + 4))
}

/// Whether a log begins so. It is the program's own, which could not cut it off.
pub(crate) fn was_emptied<D: Disk>(log: &mut D) -> bool
    requires { IsTrue (D.Disk.is_usable log.old) }
    ensures { IsTrue (D.Disk.is_usable log.new) }
{
    let mut head = [0u8; 32];
    match log.read_at(0, &mut head) {
        Ok(()) => is_renewed(&head),
        Err(_error) => false,
    }
}

/// Whether a log is of no use to books.
pub(crate) fn is_of_no_use<D: Disk>(alloc: Global, log: &mut D) -> Result<bool, OpenFault>
    requires { IsTrue (D.Disk.is_usable log.old) }
    ensures { IfOk result (λ is. IsTrue is → IsOfNoUse D.Disk log.new) }
{
    is_unused(alloc, log)
}

/// Whether the log of files is seen to be too short to hold anything.
pub(crate) fn looks_short<D: Disk>(files: &mut Files<D>) -> bool
    ensures { IsTrue result → LooksShort D.Disk files.old }
{
    is_short(&mut files.log)
}
