//! What the files of a ledger hold as they are opened.

ghost use Rattle.std.proofs.Common.{refl, inl};
ghost use Rattle.sqlite_wal.specs.Files.{image_at};
ghost use Rattle.book_trees.specs.StoreView.{AreLeft};

use sqlite_disk::{Start, Unknown};

/// What two files held as they were opened: what a ledger left, or anything that does not list the
/// tables of books, like the file of another program.
pub trait LeftByLedger: Start {
    ghost left: { AreLeft (image_at Self.Start) };
}

/// For `main` to name, as ever: at this type a clause on values says nothing of a file that is not
/// empty.
impl LeftByLedger for Unknown {
    ghost left = { record { left = λ lists. inl (inl (inl refl)) } };
}
