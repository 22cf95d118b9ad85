//! Rulings that a plain ledger is asked for: tariffs, and closes.

ghost use Rattle.book_model.specs.RulingAnswers as spec;

use super::PlainBooks;
use crate::repricing::{cost_under, reprice};
use crate::treatment::ClosedPeriod;
use book_core::is_done;
use book_model::{LedgerFault, Naming, Ruled, Ruling};
use std::alloc::AllocError;
use tariff_rules::Tariff;

impl<N: Naming + Drop> PlainBooks<N> {
    ghost use Rattle.std.specs.Prelude.{◌≡◌, ◌<◌, IfOk, IfSome, None, Ok, OnErr, OnOk, Some};
    ghost use Rattle.std.specs.BTreeMap.{values};
    ghost use Rattle.book_model.specs.Words.{IsDay, TariffAccepted, close, give, last_period};
    ghost use Rattle.book_model.specs.Words.{MayBeAsked, close_outcome, open_number, rule_outcome};
    ghost use Rattle.book_model.specs.Words.{ruling_asked, tariff_outcome};
    ghost use Rattle.plain_ledger.specs.PlainBook.{IsPlainCall, book_in, naming_in};
    ghost use Rattle.plain_ledger.specs.Repricing.{cost_anew, ruled_by_cost};

    /// Makes a ruling.
    pub(crate) fn make_ruling(&mut self, ruling: &Ruling<'_>) -> Result<Ruled, LedgerFault>
        requires { MayBeAsked (ruling_asked ruling.now) }
        ensures { IsPlainCall (λ ruled. ruled) self.old self.new result
            (rule_outcome (N.name_of (naming_in self.old)) None (ruling_asked ruling.now)) }
    {
        match *ruling {
            Ruling::Tariff(text) => self.put_in_force(text),
            Ruling::Close { period, through } => self.close_period(period, through),
            Ruling::Choose(name) => self.choose_named(name),
            Ruling::Adopt(rule) => self.adopt_rule(rule),
            Ruling::Replace(text) => self.replace_in_force(text),
            Ruling::Withhold(name) => self.withhold_named(name),
            Ruling::Credit {
                period,
                centre,
                amount,
                reason,
            } => self.give_credit(period, centre, amount, reason),
        }
    }

    /// Puts the tariff of a file in force.
    fn put_in_force(&mut self, text: &str) -> Result<Ruled, LedgerFault>
        ensures { IsPlainCall (λ ruled. ruled) self.old self.new result
            (tariff_outcome None text.now) }
    {
        let tariff = Tariff::parse(self.alloc, text)?;
        match self.cost_in_force(text, &tariff)? {
            None => Ok(Ruled::Already),
            Some(total) => {
                self.keep_tariff(text, tariff, total)?;
                Ok(Ruled::Done)
            }
        }
    }

    /// What all records cost under a tariff that can be put in force; none where it is already.
    fn cost_in_force(&self, text: &str, tariff: &Tariff) -> Result<Option<u64>, LedgerFault>
        ensures answer { ruled_by_cost result
            ≡ spec.terms_answer (book_in self.now) text.now tariff.now }
        ensures cost { IfOk result (λ found. IfSome found
            (λ cost. cost ≡ cost_anew tariff.now (values self.now.held))) }
    {
        match self.rulings.tariff_answer(text, tariff)? {
            Ruled::Already => return Ok(None),
            Ruled::Done => {}
        }
        let Some(cost) = cost_under(&self.held, tariff) else {
            return Err(LedgerFault::Full);
        };
        Ok(Some(cost))
    }

    /// Keeps a tariff, with its text, and prices the records anew. Lack of memory leaves the books
    /// as they were.
    fn keep_tariff(&mut self, text: &str, tariff: Tariff, total: u64) -> Result<(), AllocError>
        requires done { spec.terms_answer (book_in self.old) text.now tariff ≡ Ok Ruled.Done }
        requires total { total ≡ cost_anew tariff (values self.old.held) }
        ensures book { OnOk result
            (book_in self.new ≡ give (TariffAccepted (Some text.now) tariff) (book_in self.old)) }
        ensures refused { OnErr result (book_in self.new ≡ book_in self.old) }
        ensures naming { naming_in self.new ≡ naming_in self.old }
    {
        let text = String::from_str(self.alloc, text)?;
        // There is room before the first price is written: a refusal leaves each as it was.
        self.rulings.reserve_tariff()?;
        reprice(&mut self.held, &tariff);
        self.total = total;
        self.rulings.put_tariff(text, tariff);
        Ok(())
    }

    /// Closes the open period.
    fn close_period(&mut self, period: u16, through: i32) -> Result<Ruled, LedgerFault>
        requires { IsDay through }
        ensures { IsPlainCall (λ ruled. ruled) self.old self.new result
            (close_outcome None period through) }
    {
        let answer = self.rulings.close_answer(period, through);
        if !is_done(&answer) {
            return answer;
        }
        self.end_period(through)?;
        Ok(Ruled::Done)
    }

    /// Ends the open period through a day. A lack of memory leaves the books as they were.
    fn end_period(&mut self, through: i32) -> Result<(), AllocError>
        requires day { IsDay through }
        requires few { open_number (book_in self.old) < last_period }
        ensures book { OnOk result (book_in self.new ≡ close through (book_in self.old)) }
        ensures refused { OnErr result (book_in self.new ≡ book_in self.old) }
        ensures naming { naming_in self.new ≡ naming_in self.old }
    {
        let alloc = self.alloc;
        let period_end = self.period_end(Some(through))?;
        let posted = period_end.charged_names(alloc, &self.held)?;
        let treatments = period_end.treatments(alloc, &self.held, &self.posted)?;
        // There is room before the period is kept: a refusal leaves each as it was.
        self.rulings.reserve_close()?;
        self.closed.push(ClosedPeriod { treatments })?;
        self.rulings.put_close(through);
        self.posted = posted;
        Ok(())
    }
}
