//! What a ledger in tables remembers of its book, so that it looks up no more than it has to.

ghost use Rattle.std.specs.Prelude.{◌≤◌};
ghost use Rattle.book_model.specs.Words.{most_choices, most_cost, most_credits, most_held};
ghost use Rattle.book_model.specs.Words.{most_replaced};

use book_core::Rulings;

/// The office's rulings, and the sums of the records that are held.
#[derive(Drop)]
pub(crate) struct Summary {
    /// The tariffs, the closes and the rule of identity.
    pub(crate) rulings: Rulings,
    /// How many choices were made.
    pub(crate) choices: u32,
    /// How many tariffs were replaced.
    pub(crate) replaced: u32,
    /// How many credits were given.
    pub(crate) credits: u32,
    /// How many records are held.
    pub(crate) held: usize,
    /// What they cost together.
    pub(crate) total: u64,
    ghost chosen: { choices ≤ most_choices },
    ghost others: { replaced ≤ most_replaced },
    ghost given: { credits ≤ most_credits },
    ghost room: { held ≤ most_held },
    ghost small: { total ≤ most_cost },
}

impl Summary {
    ghost use Rattle.std.specs.Prelude.{◌≡◌};
    ghost use Rattle.table_model.specs.ListsRead.{is_period};
    ghost use Rattle.book_core.specs.OfficeRulings.{ruled_in};

    /// There is a period of this number, closed or open.
    pub(crate) fn has_period(&self, number: u16) -> bool
        ensures { result ≡ is_period number (ruled_in self.now.rulings) }
    {
        number != 0 && number <= self.rulings.open_number()
    }
}
