//! Records that an operator chooses among those of their identity, and works of which none counts.

use super::PlainBooks;
use crate::choices::{is_current, is_withheld};
use crate::chosen::ChosenRecord;
use crate::identities::is_unopposed;
use book_core::MAX_CHOICES;
use book_model::{LedgerFault, Naming, Ruled};

impl<N: Naming + Drop> PlainBooks<N> {
    ghost use Rattle.std.specs.Prelude.{None};
    ghost use Rattle.book_model.specs.Words.{choose_outcome, withhold_outcome};
    ghost use Rattle.plain_ledger.specs.PlainBook.{IsPlainCall, naming_in};

    /// Chooses the record that is held under a name, where it is not alone in its identity, or its
    /// work was withheld, and it is not the choice already.
    pub(super) fn choose_named(&mut self, name: [u8; 32]) -> Result<Ruled, LedgerFault>
        ensures { IsPlainCall (λ ruled. ruled) self.old self.new result
            (choose_outcome (N.name_of (naming_in self.old)) None name) }
    {
        let Some(held) = self.held.get(&name) else {
            return Err(LedgerFault::NoSuchRecord);
        };
        let adopted = self.rulings.adopted();
        if is_unopposed(&self.held, &self.choices, adopted, held) {
            return Err(LedgerFault::NotDisputed);
        }
        if is_current(&self.choices, adopted, held) {
            return Ok(Ruled::Already);
        }
        if self.choices.len() >= MAX_CHOICES {
            return Err(LedgerFault::Full);
        }
        let choice = ChosenRecord::new(held, true, self.rulings.open_number())?;
        self.choices.push(choice)?;
        Ok(Ruled::Done)
    }

    /// Chooses none of the work of the record that is held under a name, where it is not withheld
    /// already.
    pub(super) fn withhold_named(&mut self, name: [u8; 32]) -> Result<Ruled, LedgerFault>
        ensures { IsPlainCall (λ ruled. ruled) self.old self.new result
            (withhold_outcome (N.name_of (naming_in self.old)) None name) }
    {
        let Some(held) = self.held.get(&name) else {
            return Err(LedgerFault::NoSuchRecord);
        };
        let adopted = self.rulings.adopted();
        if is_withheld(&self.choices, adopted, held) {
            return Ok(Ruled::Already);
        }
        if self.choices.len() >= MAX_CHOICES {
            return Err(LedgerFault::Full);
        }
        let choice = ChosenRecord::new(held, false, self.rulings.open_number())?;
        self.choices.push(choice)?;
        Ok(Ruled::Done)
    }
}
