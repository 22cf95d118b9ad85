//! The credits of the books, read one at a time.

use crate::cursors::Cursor;
use book_core::{Credit, Ledger, LedgerFault};

/// The credits of the books, in the order in which they were given.
pub struct CreditCursor;

impl<L: Ledger> Cursor<L> for CreditCursor {
    ghost use Rattle.std.specs.Prelude.{◌≡◌, ◌<◌, IfOk, IfSome, Ok, false, option_map, refl};
    ghost use Rattle.book_model.specs.Words.{Credit, credit_given_outcome, credit_shown};
    ghost use Rattle.book_core.specs.Calls.{IsCall};

    type Item = Credit;

    ghost Entry = { Credit };

    ghost shown = { credit_shown };

    ghost IsSound = { λ credit. Unit {0} };

    ghost all = { λ cursor naming book. Ok book.rulings.credits };

    ghost asked = { λ cursor naming count last book. (credit_given_outcome count book).answer };

    fn next(
        &self,
        ledger: &mut L,
        count: u64,
        _last: Option<Credit>,
    ) -> Result<Option<Credit>, LedgerFault>
        requires { 0 < count → (L.seen ledger.old).must_reopen ≡ false }
        ensures item { IsCall (option_map credit_shown) (L.seen ledger.old) (L.seen ledger.new)
            result (credit_given_outcome count) }
        ensures sound { IfOk result (λ found. IfSome found (λ credit. Unit {0})) }
    {
        ledger.credit_given(count)
    }

    ghost in_turn = { λ cursor naming book count last known. refl };
}
