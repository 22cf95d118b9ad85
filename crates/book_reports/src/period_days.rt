//! The closes between which a period lies.

ghost use Rattle.std.specs.Prelude.{◌≡◌, All, IfOk, is_some};
ghost use Rattle.std.specs.Option.{ForSome};
ghost use Rattle.book_model.specs.Words.{IsDay};
ghost use Rattle.book_core.specs.Calls.{IsCall};
ghost use Rattle.book_reports.specs.PeriodDays as spec;

use book_core::{Ledger, LedgerFault};
use page_texts::close_of;

/// The days of the closes of a period and of the one before it, counted from 1970-01-01.
#[derive(Clone, Copy)]
pub(crate) struct PeriodDays {
    /// The day that the period before it was closed through, if there is one.
    pub(crate) before: Option<i32>,
    /// The day that it was closed through, `None` if it is open.
    pub(crate) through: Option<i32>,
}

/// The days of a period, by those of all closes.
fn days_by(closes: &[i32], number: u16) -> PeriodDays
    requires { All IsDay closes.now }
    ensures days { result ≡ spec.days_by number closes.now }
    ensures before { ForSome result.before IsDay }
{
    let number = usize::from(number);
    PeriodDays {
        before: close_of(closes, number.saturating_sub(1)),
        through: close_of(closes, number),
    }
}

/// The period is closed.
pub(crate) fn is_closed(days: PeriodDays) -> bool
    ensures { result ≡ is_some days.through }
{
    days.through.is_some()
}

/// The days of a period.
pub(crate) fn period_days<L: Ledger>(ledger: &mut L, number: u16) -> Result<PeriodDays, LedgerFault>
    ensures days { IsCall (λ days. days) (L.seen ledger.old) (L.seen ledger.new) result
        (spec.days_outcome number) }
    ensures before { IfOk result (λ days. ForSome days.before IsDay) }
{
    let closes = ledger.periods()?;
    Ok(days_by(&closes, number))
}
