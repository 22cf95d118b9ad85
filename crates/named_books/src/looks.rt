//! A visit to books that are only to be opened.

use crate::repository::Visit;
use book_core::Ledger;

/// A visit that asks the books nothing.
#[derive(Drop)]
pub struct Look;

impl Visit for Look {
    ghost use Rattle.book_core.specs.Transition.{NoEvent};
    ghost use Rattle.book_core.proofs.FollowLemmas.{none_answered};

    /// They were opened.
    type Answer = ();

    ghost work = { λ _ _ _ _. NoEvent };

    ghost comes = { λ _ _ _. Unit {0} };

    ghost answered = { λ naming _ _ _. none_answered naming };

    fn visit<L: Ledger>(&mut self, _books: &mut L) {}
}
