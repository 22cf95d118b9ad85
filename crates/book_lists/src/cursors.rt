//! A list that books answer, read one item at a time: it is never held whole.

ghost use Rattle.std.specs.Prelude.{◌≡◌, ◌<◌, ℕ, List, Option, Result, IfOk, IfSome, false, option_map};
ghost use Rattle.book_model.specs.declared.fault.LedgerFault.{LedgerFault};
ghost use Rattle.book_model.specs.Words.{Book, Naming, no_event};
ghost use Rattle.book_core.specs.Calls.{IsCall};
ghost use Rattle.book_lists.specs.Cursors.{IsNext};

use book_core::{Ledger, LedgerFault};

/// More items than any books have.
pub(crate) const MOST_ITEMS: u64 = 1 << 32;

/// A list of the books, and the call that reads one item of it.
pub trait Cursor<L: Ledger> {
    /// An item, as a ledger returns it.
    type Item: Drop;

    /// An item, as the definitions see it.
    ghost Entry: { Type 0 };

    ghost shown: { Self.Item → Entry };

    /// What is known of each item.
    ghost IsSound: { Self.Item → Type 0 };

    /// The list of a book, or what refuses it.
    ghost all: { Self → Naming → Book → Result (List Entry) LedgerFault };

    /// What a book answers after so many items, of which this is the last.
    ghost asked: { Self → Naming → ℕ → Option Entry → Book → Result (Option Entry) LedgerFault };

    /// The first item, or the one after so many, of which this is the last; `None` where there are
    /// no more.
    fn next(
        &self,
        ledger: &mut L,
        count: u64,
        last: Option<Self::Item>,
    ) -> Result<Option<Self::Item>, LedgerFault>
        requires { 0 < count → (L.seen ledger.old).must_reopen ≡ false }
        ensures item { IsCall (option_map shown) (L.seen ledger.old) (L.seen ledger.new) result
            (λ book. no_event (asked self.now (L.seen ledger.old).naming count
            (option_map shown last) book)) }
        ensures sound { IfOk result (λ found. IfSome found IsSound) };

    /// So the items come in turn.
    ghost in_turn: { (cursor : Self) (naming : Naming) (book : Book) (count : ℕ)
        (last : Option Entry)
        → IsNext (all cursor naming book) count last (asked cursor naming count last book) };
}
