//! The tariffs that came as texts, read one at a time. They come before all other rulings.

ghost use Rattle.std.specs.Prelude.{◌≡◌, IfOk, IfSome, option_map};
ghost use Rattle.book_model.specs.Words.{IsDay, ShowsDays, ruling_shown};
ghost use Rattle.book_core.specs.Calls.{IsCall};
ghost use Rattle.book_lists.specs.TariffsInTurn.{tariff_among, tariff_outcome, tariff_shown};

use crate::cursors::Cursor;
use book_core::{Ledger, LedgerFault, ListedRuling};

/// A tariff that came as a text.
#[derive(Drop)]
pub struct ListedTariff {
    /// Its first day, counted from 1970-01-01.
    pub day: i32,
    /// The text of its file.
    pub text: String,
}

/// A ruling that was found, if it is a tariff.
fn tariff_in(ruling: Option<ListedRuling>) -> Option<ListedTariff>
    requires { ShowsDays ruling }
    ensures tariff { option_map tariff_shown result ≡ tariff_among (option_map ruling_shown ruling) }
    ensures day { IfSome result (λ tariff. IsDay tariff.day) }
{
    match ruling? {
        ListedRuling::Tariff { day, text } => Some(ListedTariff { day, text }),
        _ => None,
    }
}

/// The tariff of a number, from 0, in the order of their first days; `None` where there are no more.
pub fn tariff_at<L: Ledger>(
    ledger: &mut L,
    number: u64,
) -> Result<Option<ListedTariff>, LedgerFault>
    ensures tariff { IsCall (option_map tariff_shown) (L.seen ledger.old) (L.seen ledger.new) result
        (tariff_outcome (L.seen ledger.old).naming number) }
    ensures day { IfOk result (λ found. IfSome found (λ tariff. IsDay tariff.day)) }
{
    let ruling = ledger.ruling(number)?;
    Ok(tariff_in(ruling))
}

/// The tariffs of the books that came as texts, in the order of their first days.
pub struct TariffCursor;

impl<L: Ledger> Cursor<L> for TariffCursor {
    ghost use Rattle.std.specs.Prelude.{◌≡◌, ◌<◌, IfOk, IfSome, Ok, false, option_map};
    ghost use Rattle.book_model.specs.Words.{IsDay, RulingSeen, tariffs_seen};
    ghost use Rattle.book_core.specs.Calls.{IsCall};
    ghost use Rattle.book_lists.specs.TariffsInTurn.{tariff_outcome, tariff_shown, tariffs_in_turn};

    type Item = ListedTariff;

    ghost Entry = { RulingSeen };

    ghost shown = { tariff_shown };

    ghost IsSound = { λ tariff. IsDay tariff.day };

    ghost all = { λ cursor naming book. Ok (tariffs_seen book.rulings.tariffs) };

    ghost asked = { λ cursor naming count last book. (tariff_outcome naming count book).answer };

    fn next(
        &self,
        ledger: &mut L,
        count: u64,
        _last: Option<ListedTariff>,
    ) -> Result<Option<ListedTariff>, LedgerFault>
        requires { 0 < count → (L.seen ledger.old).must_reopen ≡ false }
        ensures item { IsCall (option_map tariff_shown) (L.seen ledger.old) (L.seen ledger.new)
            result (tariff_outcome (L.seen ledger.old).naming count) }
        ensures sound { IfOk result (λ found. IfSome found (λ tariff. IsDay tariff.day)) }
    {
        tariff_at(ledger, count)
    }

    ghost in_turn = { λ cursor naming book count last. tariffs_in_turn naming book count last };
}
