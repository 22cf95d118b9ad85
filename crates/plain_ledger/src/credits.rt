//! Credits that a plain ledger keeps.

ghost use Rattle.std.specs.Prelude.{◌≡◌, IfOk, map, nat_le, option_map, slice_get};
ghost use Rattle.std.specs.List.{list_any};
ghost use Rattle.book_model.specs.Words.{credit_shown, is_credit, most_credits};
ghost use Rattle.plain_ledger.specs.Plain.{credit_with};

use book_core::{MAX_CREDITS, copied_credit};
use book_model::Credit;
use smf_text::Name;
use std::alloc::{AllocError, Global};

/// A credit of a period, which has this number.
pub(crate) fn new_credit(
    alloc: Global,
    period: u16,
    centre: Name,
    amount: i64,
    reason: &str,
) -> Result<Credit, AllocError>
    ensures { IfOk result (λ credit. credit_shown credit ≡ credit_with period centre amount
        reason.now) }
{
    let reason = String::from_str(alloc, reason)?;
    Ok(Credit {
        period,
        centre,
        amount,
        reason,
    })
}

/// A copy of the credit at a place, from 0, if there is one.
pub(crate) fn credit_at(credits: &[Credit], place: u64) -> Result<Option<Credit>, AllocError>
    ensures { IfOk result (λ found. option_map credit_shown found
        ≡ slice_get (map credit_shown credits.now) place) }
{
    let count = credits.len() as u64;
    if place >= count {
        return Ok(None);
    }
    let at = place as usize;
    let copy = copied_credit(&credits[at])?;
    Ok(Some(copy))
}

/// No more credits can be given.
pub(crate) fn has_most(count: usize) -> bool
    ensures { result ≡ nat_le most_credits count }
{
    count >= MAX_CREDITS
}

/// The credit is this one, in the period of that number.
fn is_same(credit: &Credit, period: u16, centre: Name, amount: i64, reason: &str) -> bool
    ensures { result ≡ is_credit period centre amount reason.now (credit_shown credit.now) }
{
    credit.period == period
        && credit.centre == centre
        && credit.amount == amount
        && credit.reason.as_str() == reason
}

/// One of the credits is this one, in the period of that number.
pub(crate) fn is_given(
    credits: &[Credit],
    period: u16,
    centre: Name,
    amount: i64,
    reason: &str,
) -> bool
    ensures { result
        ≡ list_any (is_credit period centre amount reason.now) (map credit_shown credits.now) }
{
    for credit in credits {
        if is_same(credit, period, centre, amount, reason) {
            return true;
        }
    }
    false
}
