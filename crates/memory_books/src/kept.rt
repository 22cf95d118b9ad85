//! Ledgers that a place in memory can keep.

use book_audit::Counts;
use book_core::Ledger;
use std::alloc::Global;

/// Books that are kept in memory while nobody visits them. No store of theirs fails.
pub trait KeptLedger: Ledger + Drop {
    ghost use Rattle.std.specs.Prelude.{IfSome};
    ghost use Rattle.book_model.specs.Words.{Naming, new_book};
    ghost use Rattle.book_core.specs.Ledgers.{IsOpenAt};
    ghost use Rattle.book_audit.specs.Counts.{AreCountsOf};

    /// How they name records, all of them.
    ghost names: { Naming };

    /// New books; `None` where there is no memory for them.
    fn begun(alloc: Global) -> Option<Self>
        ensures { IfSome result (λ books. IsOpenAt names new_book (Self.Ledger.seen books)) };

    /// The same books once more; `None` where there is no memory for them.
    fn copied(&self, alloc: Global) -> Option<Self>
        ensures { IfSome result (λ copy. IsOpenAt names (Self.Ledger.seen self.now).book
            (Self.Ledger.seen copy)) };

    /// How much they have; `None` where there is no memory to count it.
    fn counted(&self, alloc: Global) -> Option<Counts>
        ensures { IfSome result (AreCountsOf (Self.Ledger.seen self.now).book) };

    /// They are open, whatever was done with them.
    ghost stays: { (books : Self)
        → IsOpenAt names (Self.Ledger.seen books).book (Self.Ledger.seen books) };
}
