//! Why an audit stops early.

use crate::finding::{Finding, Place, Tree, Wrong};
use book_model::LedgerFault;
use sqlite_trees::error::StoreError;
use std::alloc::{AllocError, AllocFailed};

/// Why nothing more is read.
#[derive(Clone, Copy, Drop)]
pub(crate) enum Stop {
    /// The books are unsound.
    Unsound(Finding),
    /// Memory or the store failed, or there are no books.
    Fault(LedgerFault),
}

/// Something is wrong at a place.
pub(crate) fn unsound(place: Place, wrong: Wrong) -> Stop {
    Stop::Unsound(Finding { place, wrong })
}

/// What an error of the store at a tree stands for. A damaged page, and a row that is not of its
/// table, are unsound; what the disk refuses says nothing about the books.
pub(crate) fn met(tree: Tree, error: StoreError) -> Stop {
    match error {
        StoreError::OutOfMemory => Stop::Fault(LedgerFault::Memory),
        StoreError::Corrupt => unsound(Place::Tree(tree), Wrong::Unreadable),
        _ => Stop::Fault(LedgerFault::Store),
    }
}

impl From<AllocError> for Stop {
    fn from(_: AllocError) -> Stop {
        Stop::Fault(LedgerFault::Memory)
    }
}

impl<T: Drop> From<AllocFailed<T>> for Stop {
    fn from(_: AllocFailed<T>) -> Stop {
        Stop::Fault(LedgerFault::Memory)
    }
}
