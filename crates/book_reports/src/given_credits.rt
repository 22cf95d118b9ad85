//! All credits of the books, and those of a period among them. Credits are read one at a time.

ghost use Rattle.std.specs.Prelude.{◌≡◌, ◌++◌, ◌∷◌, [], IfOk, None, OnOk, map};
ghost use Rattle.book_model.specs.Words.{credit_shown};
ghost use Rattle.book_core.specs.Calls.{IsCall};
ghost use Rattle.report_texts.specs.Charges.{FitCredits, plain_credits};
ghost use Rattle.book_reports.specs.BillCredits as spec;

use crate::bill_credits::{CreditStep, credit_of, fit_credits, push_found};
use book_core::{Ledger, LedgerFault, copied_credit};
use book_lists::{CreditCursor, Step, fold};
use book_model::Credit;
use std::alloc::{AllocError, Global};

/// A copy of a credit joins the others.
fn push_copy(credits: &mut Vec<Credit>, credit: &Credit) -> Result<(), AllocError>
    ensures { OnOk result (map credit_shown credits.new.items
        ≡ map credit_shown credits.old.items ++ credit_shown credit.now ∷ []) }
{
    let copy = copied_credit(credit)?;
    credits.push(copy)?;
    Ok(())
}

/// Keeps each credit.
struct EveryCredit;

impl Step<Credit> for EveryCredit {
    ghost use Rattle.std.specs.Prelude.{◌≡◌, map};
    ghost use Rattle.book_model.specs.Words.{credit_shown};
    ghost use Rattle.book_reports.specs.BillCredits.{credits_shown};

    type State = Vec<Credit>;

    ghost Takes = { λ step credit. Unit {0} };

    ghost Has = { λ step credits read. credits_shown credits ≡ map credit_shown read };

    fn begin(&self, alloc: Global) -> Result<Vec<Credit>, AllocError> {
        Ok(Vec::new(alloc))
    }

    fn add(
        &self,
        _alloc: Global,
        credits: &mut Vec<Credit>,
        credit: &Credit,
    ) -> Result<(), LedgerFault> {
        push_copy(credits, credit)?;
        Ok(())
    }
}

/// All credits, in the order in which they were given.
pub(crate) fn given_credits<L: Ledger>(
    alloc: Global,
    ledger: &mut L,
) -> Result<Vec<Credit>, LedgerFault>
    ensures { IsCall spec.credits_shown (L.seen ledger.old) (L.seen ledger.new) result
        spec.given_outcome }
{
    fold(alloc, ledger, &CreditCursor, &EveryCredit)
}

/// Those of a period, which a page can show.
pub(crate) fn credits_of_period(
    alloc: Global,
    credits: &[Credit],
    period: u16,
) -> Result<Vec<Credit>, AllocError>
    ensures credits { IfOk result (λ own. spec.credits_shown own
        ≡ spec.credits_of period None (map credit_shown credits.now)) }
    ensures fit { IfOk result (λ own. FitCredits (plain_credits (spec.credits_shown own))) }
{
    let step = CreditStep {
        period,
        centre: None,
    };
    let mut own = Vec::new(alloc);
    for credit in credits {
        let found = credit_of(&step, credit)?;
        push_found(&mut own, found)?;
    }
    fit_credits(&own)?;
    Ok(own)
}
