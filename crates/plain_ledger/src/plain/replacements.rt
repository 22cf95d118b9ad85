//! Tariffs that take the place of others.

ghost use Rattle.book_model.specs.RulingAnswers as spec;

use super::PlainBooks;
use crate::replaced::ReplacedTariff;
use crate::repricing::{cost_in_place, replace_prices};
use book_core::MAX_REPLACED;
use book_model::{LedgerFault, Naming, Ruled};
use std::alloc::AllocError;
use tariff_rules::Tariff;

impl<N: Naming + Drop> PlainBooks<N> {
    ghost use Rattle.std.specs.Prelude.{◌≡◌, IfOk, IfSome, None, Ok, OnErr, OnOk};
    ghost use Rattle.std.specs.BTreeMap.{values};
    ghost use Rattle.book_model.specs.Words.{TariffReplaced, give, replace_outcome};
    ghost use Rattle.book_core.specs.OfficeRulings.{ruled_in};
    ghost use Rattle.plain_ledger.specs.PlainBook.{IsPlainCall, book_in, naming_in};
    ghost use Rattle.plain_ledger.specs.Repricing.{cost_replaced, ruled_by_cost};

    /// Puts the tariff of a file in the place of the one that begins on its first day.
    pub(super) fn replace_in_force(&mut self, text: &str) -> Result<Ruled, LedgerFault>
        ensures { IsPlainCall (λ ruled. ruled) self.old self.new result
            (replace_outcome None text.now) }
    {
        let tariff = Tariff::parse(self.alloc, text)?;
        match self.cost_in_its_place(text, &tariff)? {
            None => Ok(Ruled::Already),
            Some(total) => {
                self.keep_replacement(text, tariff, total)?;
                Ok(Ruled::Done)
            }
        }
    }

    /// What all records cost under a tariff that can take the place of another; none where it is in
    /// force already.
    fn cost_in_its_place(&self, text: &str, tariff: &Tariff) -> Result<Option<u64>, LedgerFault>
        ensures answer { ruled_by_cost result
            ≡ spec.replace_answer (book_in self.now) text.now tariff.now }
        ensures cost { IfOk result (λ found. IfSome found (λ cost. cost
            ≡ cost_replaced (ruled_in self.now.rulings).tariffs tariff.now
            (values self.now.held))) }
    {
        match self.rulings.replacing_answer(text, tariff)? {
            Ruled::Already => return Ok(None),
            Ruled::Done => {}
        }
        if self.replaced.len() >= MAX_REPLACED {
            return Err(LedgerFault::Full);
        }
        let Some(cost) = cost_in_place(&self.held, self.rulings.tariffs(), tariff) else {
            return Err(LedgerFault::Full);
        };
        Ok(Some(cost))
    }

    /// Keeps a tariff in the place of another, and that one beside it, and prices the records anew.
    /// Lack of memory leaves the books as they were.
    fn keep_replacement(&mut self, text: &str, tariff: Tariff, total: u64) -> Result<(), AllocError>
        requires done { spec.replace_answer (book_in self.old) text.now tariff ≡ Ok Ruled.Done }
        requires total { total ≡ cost_replaced (ruled_in self.old.rulings).tariffs tariff
            (values self.old.held) }
        ensures book { OnOk result
            (book_in self.new ≡ give (TariffReplaced text.now tariff) (book_in self.old)) }
        ensures refused { OnErr result (book_in self.new ≡ book_in self.old) }
        ensures naming { naming_in self.new ≡ naming_in self.old }
    {
        let text = String::from_str(self.alloc, text)?;
        // There is room before the first price is written: a refusal leaves each as it was.
        self.rulings.reserve_tariff()?;
        self.replaced.reserve(1)?;
        replace_prices(&mut self.held, self.rulings.tariffs(), &tariff);
        self.total = total;
        let period = self.rulings.open_number();
        let was = self.rulings.put_replacement(text, tariff);
        self.replaced.push_reserved(ReplacedTariff {
            tariff: was,
            period,
        });
        Ok(())
    }
}
