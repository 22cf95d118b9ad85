//! The rule of identity that an office adopts.

use super::PlainBooks;
use book_core::is_done;
use book_model::{LedgerFault, Naming, Ruled};

impl<N: Naming + Drop> PlainBooks<N> {
    ghost use Rattle.std.specs.Prelude.{None};
    ghost use Rattle.book_model.specs.Words.{adopt_outcome};
    ghost use Rattle.plain_ledger.specs.PlainBook.{IsPlainCall};

    /// Adopts a rule of identity: the second one, where it is not in force.
    #[tactic(auto, using(crate::proofs::BookLemmas::kept_ruled))]
    pub(super) fn adopt_rule(&mut self, rule: u8) -> Result<Ruled, LedgerFault>
        ensures { IsPlainCall (λ ruled. ruled) self.old self.new result (adopt_outcome None rule) }
    {
        let answer = self.rulings.adopt_answer(rule);
        if !is_done(&answer) {
            return answer;
        }
        self.rulings.adopt();
        Ok(Ruled::Done)
    }
}
