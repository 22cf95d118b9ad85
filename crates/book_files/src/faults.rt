//! What the failure of a file means.

ghost use Rattle.std.specs.Prelude.{◌≡◌};
ghost use Rattle.std.specs.IoError.{error_kind};
ghost use Rattle.book_files.specs.Faults.{file_answer, file_fault};

use book_core::LedgerFault;
use named_books::RepositoryFault;
use std::io;
use std::io::ErrorKind;

/// What the failure of a file means.
pub(crate) fn failed(error: &io::Error) -> RepositoryFault
    ensures { result ≡ file_fault (error_kind error.now) }
{
    match error.kind() {
        ErrorKind::AlreadyExists => RepositoryFault::Exists,
        ErrorKind::OutOfMemory => RepositoryFault::Ledger(LedgerFault::Memory),
        _ => RepositoryFault::Io,
    }
}

/// What a call on a file gave, or what its failure means.
pub(crate) fn of_file<T>(told: io::Result<T>) -> Result<T, RepositoryFault>
    ensures { result ≡ file_answer told }
{
    match told {
        Ok(given) => Ok(given),
        Err(error) => Err(failed(&error)),
    }
}
