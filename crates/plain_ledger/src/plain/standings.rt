//! Where a ruling will stand among those of a plain ledger.

use super::PlainBooks;
use crate::journal::Standing;
use book_model::{Naming, Ruling};
use std::alloc::AllocError;

impl<N: Naming + Drop> PlainBooks<N> {
    ghost use Rattle.std.specs.Prelude.{◌≡◌, IfOk, length};
    ghost use Rattle.book_model.specs.Words.{ruling_asked};
    ghost use Rattle.plain_ledger.specs.Journals.{place_asked, place_by};
    ghost use Rattle.plain_ledger.specs.PlainBook.{book_in};

    /// How many choices there are.
    pub(super) fn choice_count(&self) -> u32
        ensures { result ≡ length (book_in self.now).rulings.choices }
    {
        self.choices.len() as u32
    }

    /// How many tariffs were replaced.
    pub(super) fn replaced_count(&self) -> u32
        ensures { result ≡ length (book_in self.now).rulings.replaced }
    {
        self.replaced.len() as u32
    }

    /// How many credits there are.
    pub(super) fn credit_count(&self) -> u32
        ensures { result ≡ length (book_in self.now).rulings.credits }
    {
        self.credits.len() as u32
    }

    /// Where a ruling will stand, if it is done.
    pub(crate) fn standing_of(&self, ruling: &Ruling<'_>) -> Result<Standing, AllocError>
        ensures { IfOk result (λ standing. place_by standing
            ≡ place_asked (ruling_asked ruling.now) (book_in self.now).rulings) }
    {
        match *ruling {
            Ruling::Tariff(text) => Ok(Standing::Tariff(String::from_str(self.alloc, text)?)),
            Ruling::Close { .. } => Ok(Standing::Close(self.rulings.open_number())),
            Ruling::Choose(_) => Ok(Standing::Choice(self.choice_count())),
            Ruling::Adopt(_) => Ok(Standing::Adoption),
            Ruling::Replace(_) => Ok(Standing::Replacement(self.replaced_count())),
            Ruling::Withhold(_) => Ok(Standing::Choice(self.choice_count())),
            Ruling::Credit { .. } => Ok(Standing::Credit(self.credit_count())),
        }
    }
}
