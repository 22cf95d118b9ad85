//! The details of a period, read one at a time.

use crate::cursors::Cursor;
use book_core::{Detail, Ledger, LedgerFault};
use smf_text::Name;

/// The details of a period, of the centre that is named or of the whole office.
#[derive(Drop)]
pub struct DetailCursor {
    /// The number of the period.
    pub period: u16,
    /// The centre, `None` for the whole office.
    pub centre: Option<Name>,
}

impl<L: Ledger> Cursor<L> for DetailCursor {
    ghost use Rattle.std.specs.Prelude.{◌≡◌, ◌<◌, IfOk, IfSome, false, option_map};
    ghost use Rattle.book_core.specs.Calls.{IsCall};
    ghost use Rattle.book_model.specs.declared.detail.Detail.{Detail};
    ghost use Rattle.book_model.specs.Words.{IsDay, details_outcome, next_detail_outcome};
    ghost use Rattle.book_lists.specs.DetailsInTurn.{details_in_turn};

    type Item = Detail;

    ghost Entry = { Detail };

    ghost shown = { λ detail. detail };

    ghost IsSound = { λ detail. IsDay detail.priced.day };

    ghost all = { λ cursor naming book.
        (details_outcome naming cursor.period cursor.centre book).answer };

    ghost asked = { λ cursor naming count last book.
        (next_detail_outcome naming cursor.period cursor.centre last book).answer };

    fn next(
        &self,
        ledger: &mut L,
        count: u64,
        last: Option<Detail>,
    ) -> Result<Option<Detail>, LedgerFault>
        requires { 0 < count → (L.seen ledger.old).must_reopen ≡ false }
        ensures item { IsCall (option_map (λ detail. detail)) (L.seen ledger.old) (L.seen ledger.new)
            result (next_detail_outcome (L.seen ledger.old).naming self.now.period self.now.centre
            (option_map (λ detail. detail) last)) }
        ensures sound { IfOk result (λ found. IfSome found (λ detail. IsDay detail.priced.day)) }
    {
        ledger.next_detail(self.period, self.centre, last)
    }

    ghost in_turn = { λ cursor naming book count last.
        details_in_turn cursor.period cursor.centre naming book count last };
}
