//! What the faults of stores and of openings mean.

ghost use Rattle.std.specs.Prelude.{◌≡◌};
ghost use Rattle.book_sessions.specs.Faults.{open_fault, store_fault};

use book_core::LedgerFault;
use book_trees::OpenFault;
use named_books::RepositoryFault;
use sqlite_trees::error::StoreError;

/// What a fault of the store means.
pub(crate) fn fault_of(error: StoreError) -> RepositoryFault
    ensures { result ≡ store_fault error }
{
    RepositoryFault::Ledger(match error {
        StoreError::OutOfMemory => LedgerFault::Memory,
        _ => LedgerFault::Store,
    })
}

/// What it means that books were not opened or made.
pub fn refused(fault: OpenFault) -> RepositoryFault
    ensures { result ≡ open_fault fault }
{
    match fault {
        OpenFault::NotBooks => RepositoryFault::Ledger(LedgerFault::NotBooks),
        OpenFault::OldForm => RepositoryFault::Ledger(LedgerFault::OldForm),
        OpenFault::NewForm => RepositoryFault::Ledger(LedgerFault::NewForm),
        OpenFault::Memory => RepositoryFault::Ledger(LedgerFault::Memory),
        OpenFault::Store => RepositoryFault::Ledger(LedgerFault::Store),
        OpenFault::Busy => RepositoryFault::Busy,
        OpenFault::Path => RepositoryFault::Io,
    }
}
