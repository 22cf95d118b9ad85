//! The entries of the journal, read one at a time.

use crate::cursors::Cursor;
use book_core::{Ledger, LedgerFault, ListedEntry};

/// The entries of the journal, the oldest first.
pub struct EntryCursor;

impl<L: Ledger> Cursor<L> for EntryCursor {
    ghost use Rattle.std.specs.Prelude.{◌≡◌, ◌<◌, IfOk, IfSome, Ok, false, option_map, refl};
    ghost use Rattle.book_model.specs.Words.{EntrySeen, ShowsActDays, entries_listed};
    ghost use Rattle.book_model.specs.Words.{entry_outcome, entry_shown};
    ghost use Rattle.book_core.specs.Calls.{IsCall};

    type Item = ListedEntry;

    ghost Entry = { EntrySeen };

    ghost shown = { entry_shown };

    ghost IsSound = { λ entry. ShowsActDays entry.act };

    ghost all = { λ cursor naming book. Ok (entries_listed naming book.rulings book.journal) };

    ghost asked = { λ cursor naming count last book. (entry_outcome naming count book).answer };

    fn next(
        &self,
        ledger: &mut L,
        count: u64,
        _last: Option<ListedEntry>,
    ) -> Result<Option<ListedEntry>, LedgerFault>
        requires { 0 < count → (L.seen ledger.old).must_reopen ≡ false }
        ensures item { IsCall (option_map entry_shown) (L.seen ledger.old) (L.seen ledger.new)
            result (entry_outcome (L.seen ledger.old).naming count) }
        ensures sound { IfOk result (λ found. IfSome found (λ entry. ShowsActDays entry.act)) }
    {
        ledger.entry(count)
    }

    ghost in_turn = { λ cursor naming book count last known. refl };
}
