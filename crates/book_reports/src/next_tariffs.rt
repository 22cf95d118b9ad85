//! The first day of the tariff that begins after a day. Tariffs are read one at a time, in the order
//! of their first days.

ghost use Rattle.std.specs.Prelude.{◌≡◌};
ghost use Rattle.book_core.specs.Calls.{IsCall};
ghost use Rattle.book_reports.specs.NextTariffs as spec;

use book_core::{Ledger, LedgerFault};
use book_lists::{ListedTariff, Step, TariffCursor, fold};
use std::alloc::{AllocError, Global};

/// Looks for the first tariff that begins after this day.
#[derive(Drop)]
struct NextStep {
    day: i32,
}

/// The first day that was found, with one more tariff.
fn next_with(found: Option<i32>, step: &NextStep, first: i32) -> Option<i32>
    ensures { result ≡ spec.next_with found step.now.day first }
{
    match found {
        Some(found) => Some(found),
        None => { if step.day < first { Some(first) } else { None } }
    }
}

impl Step<ListedTariff> for NextStep {
    ghost use Rattle.std.specs.Prelude.{◌≡◌, map};
    ghost use Rattle.book_model.specs.Words.{IsDay};
    ghost use Rattle.book_lists.specs.TariffsInTurn.{tariff_shown};
    ghost use Rattle.report_texts.specs.Figures.{next_begin};

    type State = Option<i32>;

    ghost Takes = { λ step tariff. IsDay tariff.day };

    ghost Has = { λ step found tariffs. found ≡ next_begin step.day (map tariff_shown tariffs) };

    fn begin(&self, _alloc: Global) -> Result<Option<i32>, AllocError> {
        Ok(None)
    }

    fn add(
        &self,
        _alloc: Global,
        found: &mut Option<i32>,
        tariff: &ListedTariff,
    ) -> Result<(), LedgerFault> {
        *found = next_with(*found, self, tariff.day);
        Ok(())
    }
}

/// The first day of the tariff that begins after a day, if one does. Days are counted from
/// 1970-01-01.
pub(crate) fn next_tariff<L: Ledger>(
    alloc: Global,
    ledger: &mut L,
    day: i32,
) -> Result<Option<i32>, LedgerFault>
    ensures { IsCall (λ found. found) (L.seen ledger.old) (L.seen ledger.new) result
        (spec.next_outcome day) }
{
    fold(alloc, ledger, &TariffCursor, &NextStep { day })
}
