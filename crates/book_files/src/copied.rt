//! What came of a copy of books, and what it means that there is none.

ghost use Rattle.std.specs.Prelude.{◌≡◌};
ghost use Rattle.book_files.specs.Faults.{not_copied, tried_answer, whole_copy};

use book_core::LedgerFault;
use book_sessions::{Ended, refused};
use book_trees::LookFault;
use named_books::RepositoryFault;
use sqlite_disk::{Disk, Files};

/// Why there is no copy of books.
#[derive(Clone, Copy)]
pub enum CopyFault {
    /// The pages of the copy are not those of books.
    Pages,
    /// The books were not opened, or not copied.
    Refused(RepositoryFault),
}

/// What came of a copy, with the files that were copied.
#[derive(Drop)]
pub struct Copied<T: Drop, A: Disk, B: Disk> {
    /// What the visit of the copy answered, or why it was not visited.
    pub answer: Result<T, CopyFault>,
    /// None are in hand where they were not opened.
    pub original: Option<Files<A>>,
    pub copy: Ended<B>,
}

/// What it means that a copy was not looked through.
pub(crate) fn copy_fault(fault: LookFault) -> CopyFault
    ensures { result ≡ not_copied fault }
{
    match fault {
        LookFault::Pages => CopyFault::Pages,
        LookFault::Open(fault) => CopyFault::Refused(refused(fault)),
    }
}

/// What is answered of a copy that was visited in place of the books. Pages that are wrong are a
/// store that can't be read.
pub(crate) fn tried_answer<T: Drop>(answer: Result<T, CopyFault>) -> Result<T, RepositoryFault>
    ensures { result ≡ tried_answer answer }
{
    match answer {
        Ok(answer) => Ok(answer),
        Err(CopyFault::Pages) => Err(RepositoryFault::Ledger(LedgerFault::Store)),
        Err(CopyFault::Refused(fault)) => Err(fault),
    }
}

/// A copy is whole where its files were closed, and it needs no log.
pub(crate) fn whole(closed: Result<(), RepositoryFault>, has_log: bool) -> Result<(), CopyFault>
    ensures { result ≡ whole_copy closed has_log }
{
    match closed {
        Ok(()) if has_log => Err(CopyFault::Refused(RepositoryFault::Ledger(LedgerFault::Store))),
        Ok(()) => Ok(()),
        Err(fault) => Err(CopyFault::Refused(fault)),
    }
}
