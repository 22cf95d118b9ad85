//! Credits that an office gives its centres.

use super::PlainBooks;
use crate::credits::{has_most, is_given, new_credit};
use book_core::is_done;
use book_model::{LedgerFault, Naming, Ruled};
use smf_text::Name;
use std::alloc::AllocError;

impl<N: Naming + Drop> PlainBooks<N> {
    ghost use Rattle.std.specs.Prelude.{◌≡◌, ◌<◌, None, OnErr, OnOk, length};
    ghost use Rattle.book_model.specs.Words.{CreditGiven, credit_answer, credit_outcome, give};
    ghost use Rattle.book_model.specs.Words.{most_credits};
    ghost use Rattle.plain_ledger.specs.PlainBook.{IsPlainCall, book_in, naming_in};

    /// What is answered to a credit.
    fn answer_to_credit(
        &self,
        period: u16,
        centre: Name,
        amount: i64,
        reason: &str,
    ) -> Result<Ruled, LedgerFault>
        ensures { result
            ≡ credit_answer (book_in self.now).rulings period centre amount reason.now }
    {
        let given = is_given(&self.credits, period, centre, amount, reason);
        let full = has_most(self.credits.len());
        self.rulings.credit_answer(period, centre, given, full)
    }

    /// Keeps a credit of the open period. Lack of memory leaves the books as they were.
    fn keep_credit(&mut self, centre: Name, amount: i64, reason: &str) -> Result<(), AllocError>
        requires room { length (book_in self.old).rulings.credits < most_credits }
        ensures book { OnOk result
            (book_in self.new ≡ give (CreditGiven centre amount reason.now) (book_in self.old)) }
        ensures refused { OnErr result (book_in self.new ≡ book_in self.old) }
        ensures naming { naming_in self.new ≡ naming_in self.old }
    {
        let period = self.rulings.open_number();
        let credit = new_credit(self.alloc, period, centre, amount, reason)?;
        self.credits.push(credit)?;
        Ok(())
    }

    /// Gives a credit, where it is a new one of the open period for a centre that is there.
    pub(super) fn give_credit(
        &mut self,
        period: u16,
        centre: Name,
        amount: i64,
        reason: &str,
    ) -> Result<Ruled, LedgerFault>
        ensures { IsPlainCall (λ ruled. ruled) self.old self.new result
            (credit_outcome None period centre amount reason.now) }
    {
        let answer = self.answer_to_credit(period, centre, amount, reason);
        if !is_done(&answer) {
            return answer;
        }
        self.keep_credit(centre, amount, reason)?;
        Ok(Ruled::Done)
    }
}
