//! The rulings of the books, read one at a time.

use crate::cursors::Cursor;
use book_core::{Ledger, LedgerFault, ListedRuling};

/// The rulings of the books, by their numbers.
pub struct RulingCursor;

impl<L: Ledger> Cursor<L> for RulingCursor {
    ghost use Rattle.std.specs.Prelude.{◌≡◌, ◌<◌, IfOk, IfSome, Ok, false, option_map, refl};
    ghost use Rattle.book_model.specs.Words.{HasDays, RulingSeen, ruling_outcome, ruling_shown};
    ghost use Rattle.book_model.specs.Words.{rulings_listed};
    ghost use Rattle.book_core.specs.Calls.{IsCall};

    type Item = ListedRuling;

    ghost Entry = { RulingSeen };

    ghost shown = { ruling_shown };

    ghost IsSound = { λ ruling. HasDays (ruling_shown ruling) };

    ghost all = { λ cursor naming book. Ok (rulings_listed naming book.rulings) };

    ghost asked = { λ cursor naming count last book. (ruling_outcome naming count book).answer };

    fn next(
        &self,
        ledger: &mut L,
        count: u64,
        _last: Option<ListedRuling>,
    ) -> Result<Option<ListedRuling>, LedgerFault>
        requires { 0 < count → (L.seen ledger.old).must_reopen ≡ false }
        ensures item { IsCall (option_map ruling_shown) (L.seen ledger.old) (L.seen ledger.new)
            result (ruling_outcome (L.seen ledger.old).naming count) }
        ensures sound { IfOk result (λ found. IfSome found (λ ruling. HasDays (ruling_shown ruling))) }
    {
        ledger.ruling(count)
    }

    ghost in_turn = { λ cursor naming book count last known. refl };
}
