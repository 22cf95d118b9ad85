//! A shelf with books that are open already.

use book_core::Ledger;
use named_books::{Opened, Repository, RepositoryFault, Upgraded, Visit};

/// Open books, whatever they are called: each visit finds them as the one before it left them.
#[derive(Drop)]
pub(crate) struct OpenShelf<'a, L: Ledger> {
    pub(crate) ledger: &'a mut L,
}

#[tactic(auto, using(named_books::proofs::ShelfLemmas::unknown_found, named_books::proofs::ShelfLemmas::unknown_made, named_books::proofs::ShelfLemmas::unknown_opened, named_books::proofs::ShelfLemmas::unknown_refused, named_books::proofs::ShelfLemmas::unknown_tried, named_books::proofs::ShelfLemmas::unknown_there, named_books::proofs::ShelfLemmas::unknown_untouched, named_books::proofs::ShelfLemmas::unknown_upgraded, named_books::proofs::ShelfLemmas::came_by, named_books::proofs::ShelfLemmas::same_by))]
impl<L: Ledger> Repository for OpenShelf<'_, L> {
    ghost use Rattle.std.specs.Prelude.{replicate};
    ghost use Rattle.named_books.specs.Shelves.{unknown};

    ghost shelf = { λ _. unknown (λ _. replicate 32 0) };

    fn expect(&self, _book: &str) -> Result<(), RepositoryFault> {
        Ok(())
    }

    fn make(&mut self, _book: &str) -> Result<(), RepositoryFault> {
        Err(RepositoryFault::Exists)
    }

    fn open<V: Visit>(&mut self, _book: &str, visit: &mut V) -> Opened<V::Answer> {
        Opened {
            answer: Ok(visit.visit(&mut *self.ledger)),
            has_log: false,
        }
    }

    fn try_out<V: Visit>(&mut self, _book: &str, _visit: &mut V) -> Opened<V::Answer> {
        Opened {
            answer: Err(RepositoryFault::Io),
            has_log: false,
        }
    }

    fn upgrade(&mut self, _book: &str) -> Opened<Upgraded> {
        Opened {
            answer: Ok(Upgraded::Already),
            has_log: false,
        }
    }
}
