//! The trail of a record, and the period that a line speaks of, as they are read of a plain ledger.

use super::PlainBooks;
use crate::choices::choices_with;
use crate::held::HeldRecord;
use crate::identities::members_with;
use crate::life::{closed_turns, push_turn};
use book_core::{charged_before, reckon_in};
use book_model::{LedgerFault, Line, Naming, Trail, Turn};
use std::alloc::{AllocError, Global};

impl<N: Naming + Drop> PlainBooks<N> {
    ghost use Rattle.std.specs.Prelude.{◌≡◌, IfOk, Some};
    ghost use Rattle.book_model.specs.Words.{Answers, IsTrail, life_of, line_period_outcome};
    ghost use Rattle.book_model.specs.Words.{trail_outcome, trail_shown};
    ghost use Rattle.plain_ledger.specs.Plain.{record_of};
    ghost use Rattle.plain_ledger.specs.PlainBook.{book_in, naming_in};
    ghost use Rattle.plain_ledger.specs.Treatments.{under_name};

    /// What the periods did with the record that is held under a name, the open one as if it ended
    /// now.
    fn life(
        &self,
        alloc: Global,
        name: &[u8; 32],
        held: &HeldRecord,
    ) -> Result<Vec<Turn>, AllocError>
        requires { under_name name.now self.now.held.entries ≡ Some held.now }
        ensures { IfOk result (λ life.
            life.items ≡ life_of (book_in self.now) (record_of held.now)) }
    {
        let mut life = closed_turns(alloc, &self.closed, name)?;
        let period_end = self.period_end(None)?;
        let share = period_end.treatment(self.posted.contains(name), held);
        push_turn(&mut life, self.rulings.open_number(), share)?;
        Ok(life)
    }

    /// The period that a line of a period speaks of, by the record that is held under its name.
    pub(crate) fn line_period(&self, number: u16, line: &Line) -> Result<Option<u16>, LedgerFault>
        ensures { Answers (λ period. period) result (line_period_outcome
            (N.name_of (naming_in self.now)) number line.now (book_in self.now)).answer }
    {
        let Some(held) = self.held.get(&line.name) else {
            return Ok(None);
        };
        if line.plus {
            return Ok(Some(self.rulings.period_of_day(&held.priced.day)));
        }
        let life = self.life(self.alloc, &line.name, held)?;
        Ok(charged_before(number, &life))
    }

    /// The trail of the record that is held under a name.
    pub(crate) fn trail_held(&self, alloc: Global, name: &[u8; 32]) -> Result<Trail, LedgerFault>
        ensures trail { Answers trail_shown result (trail_outcome
            (N.name_of (naming_in self.now)) name.now (book_in self.now)).answer }
        ensures shown { IfOk result (λ trail. IsTrail (trail_shown trail)) }
    {
        let Some(held) = self.held.get(name) else {
            return Err(LedgerFault::NoSuchRecord);
        };
        let Some(reckoning) = reckon_in(self.rulings.tariffs(), &held.usage()) else {
            return Err(LedgerFault::NoSuchRecord);
        };
        let adopted = self.rulings.adopted();
        let identity = held.identity_by(adopted);
        Ok(Trail {
            bytes: Vec::from_slice(alloc, &held.bytes)?,
            period: self.rulings.period_of_day(&held.priced.day),
            reckoning,
            members: members_with(alloc, &self.held, adopted, &identity)?,
            choices: choices_with(alloc, &self.naming, &self.choices, adopted, &identity)?,
            life: self.life(alloc, name, held)?,
        })
    }
}
