//! Copies of credits.

ghost use Rattle.std.specs.Prelude.{◌≡◌, IfOk};
ghost use Rattle.book_model.specs.Words.{credit_shown};

use book_model::Credit;
use std::alloc::AllocError;

/// A copy of a credit.
pub fn copied_credit(credit: &Credit) -> Result<Credit, AllocError>
    ensures { IfOk result (λ copy. credit_shown copy ≡ credit_shown credit.now) }
{
    Ok(Credit {
        period: credit.period,
        centre: credit.centre,
        amount: credit.amount,
        reason: credit.reason.clone()?,
    })
}
