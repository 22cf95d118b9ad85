//! The credits of a bill: those of its period. Credits are read one at a time.

ghost use Rattle.std.specs.Prelude.{◌≡◌, ◌+◌, ◌++◌, [], IfOk, IfSome, OnOk, map, option_map};
ghost use Rattle.std.specs.List.{cons_option};
ghost use Rattle.book_model.specs.Words.{credit_shown};
ghost use Rattle.book_core.specs.Calls.{IsCall};
ghost use Rattle.report_texts.specs.Charges.{FitCredits, plain_credits};
ghost use Rattle.book_reports.specs.BillCredits as spec;

use book_core::{Ledger, LedgerFault, copied_credit};
use book_lists::{CreditCursor, Step, fold};
use book_model::Credit;
use report_texts::plain_credit;
use smf_text::Name;
use std::alloc::{AllocError, Global};

/// The first number that 62 bits do not hold. No credits of sound books come to so much.
const CREDITS_END: u64 = 1 << 62;

/// Keeps the credits of a period, for the centre that is named or for the whole office.
#[derive(Drop)]
pub(crate) struct CreditStep {
    pub(crate) period: u16,
    pub(crate) centre: Option<Name>,
}

/// The centre is the one that is named, or none is.
fn is_asked_of(named: &Option<Name>, centre: Name) -> bool
    ensures { result ≡ spec.is_asked_of named.now centre }
{
    match *named {
        Some(named) => centre == named,
        None => true,
    }
}

/// A credit of that period to that centre is kept.
fn is_billed(step: &CreditStep, credit: &Credit) -> bool
    ensures { result ≡ spec.is_billed step.now.period step.now.centre (credit_shown credit.now) }
{
    credit.period == step.period && is_asked_of(&step.centre, credit.centre)
}

/// A copy of a credit, if it is kept.
pub(crate) fn credit_of(step: &CreditStep, credit: &Credit) -> Result<Option<Credit>, AllocError>
    ensures { IfOk result (λ found. option_map credit_shown found
        ≡ spec.credit_of step.now.period step.now.centre (credit_shown credit.now)) }
{
    if !is_billed(step, credit) {
        return Ok(None);
    }
    let copy = copied_credit(credit)?;
    Ok(Some(copy))
}

/// One more joins the others, if there is one.
pub(crate) fn push_found(credits: &mut Vec<Credit>, found: Option<Credit>) -> Result<(), AllocError>
    ensures { OnOk result (map credit_shown credits.new.items
        ≡ map credit_shown credits.old.items ++ cons_option (option_map credit_shown found) []) }
{
    let Some(credit) = found else {
        return Ok(());
    };
    credits.push(credit)?;
    Ok(())
}

impl Step<Credit> for CreditStep {
    ghost use Rattle.std.specs.Prelude.{◌≡◌, map};
    ghost use Rattle.book_model.specs.Words.{credit_shown};
    ghost use Rattle.book_reports.specs.BillCredits.{credits_of, credits_shown};

    type State = Vec<Credit>;

    ghost Takes = { λ step credit. Unit {0} };

    ghost Has = { λ step credits read.
        credits_shown credits ≡ credits_of step.period step.centre (map credit_shown read) };

    fn begin(&self, alloc: Global) -> Result<Vec<Credit>, AllocError> {
        Ok(Vec::new(alloc))
    }

    fn add(
        &self,
        _alloc: Global,
        credits: &mut Vec<Credit>,
        credit: &Credit,
    ) -> Result<(), LedgerFault> {
        let found = credit_of(self, credit)?;
        push_found(credits, found)?;
        Ok(())
    }
}

/// The credits of a period, in the order in which they were given.
pub(crate) fn billed_credits<L: Ledger>(
    alloc: Global,
    ledger: &mut L,
    period: u16,
    centre: &Option<Name>,
) -> Result<Vec<Credit>, LedgerFault>
    ensures { IsCall spec.credits_shown (L.seen ledger.old) (L.seen ledger.new) result
        (spec.credits_outcome period centre.now) }
{
    let step = CreditStep {
        period,
        centre: *centre,
    };
    fold(alloc, ledger, &CreditCursor, &step)
}

/// A sum with what a credit comes to, whatever its sign, if 64 bits hold it.
fn with_size(sum: u64, credit: &Credit) -> Option<u64>
    ensures { IfSome result (λ more. more ≡ sum + spec.size_of (credit_shown credit.now)) }
{
    let plain = plain_credit(credit);
    let more = sum.checked_add(plain.credited)?;
    more.checked_add(plain.debited)
}

/// Credits come to so little that a bill can show them, or there is no room for it.
pub(crate) fn fit_credits(credits: &[Credit]) -> Result<(), AllocError>
    ensures { OnOk result (FitCredits (plain_credits (map credit_shown credits.now))) }
{
    let mut sum: u64 = 0;
    for credit in credits {
        let Some(more) = with_size(sum, credit) else {
            return Err(AllocError);
        };
        sum = more;
    }
    if sum >= CREDITS_END {
        return Err(AllocError);
    }
    Ok(())
}

/// The credits of a period, which a bill can show.
pub(crate) fn shown_credits<L: Ledger>(
    alloc: Global,
    ledger: &mut L,
    period: u16,
    centre: &Option<Name>,
) -> Result<Vec<Credit>, LedgerFault>
    ensures credits { IsCall spec.credits_shown (L.seen ledger.old) (L.seen ledger.new) result
        (spec.credits_outcome period centre.now) }
    ensures fit { IfOk result (λ credits. FitCredits (plain_credits (spec.credits_shown credits))) }
{
    let credits = billed_credits(alloc, ledger, period, centre)?;
    fit_credits(&credits)?;
    Ok(credits)
}
