//! Clients that come while the books are open.

ghost use Rattle.std.specs.Prelude.{◌≡◌, ◌+◌, IfOk, OnErr, length, reverse};
ghost use Rattle.book_core.specs.Transition.{IsTransition};
ghost use Rattle.request_bursts.specs.Bursts.{AnswersMore};

use book_core::Ledger;
use book_http::{Routes, Served};
use std::alloc::AllocError;

/// A given number of clients, one after the other.
pub trait Arrivals {
    ghost use Rattle.std.specs.Prelude.{ℕ, ◌≡◌, ◌+◌, MatchOption};
    ghost use Rattle.book_core.specs.Transition.{IsTransition};
    ghost use Rattle.request_bursts.specs.Bursts.{AnswersOne, LooksOnly};

    /// How many are left to be answered.
    ghost left: { Self → ℕ };

    /// Answers the next one from open books, if one is left and comes soon, what it asks is there by
    /// then, and the answer is short. `None`: the books are to be closed, and all are left as they were.
    fn next_open<L: Ledger>(&mut self, routes: &mut Routes, books: &mut L) -> Option<Served>
        ensures left { MatchOption result (left self.new ≡ left self.old)
            (λ _. left self.new + 1 ≡ left self.old) }
        ensures answered { MatchOption result
            (IsTransition (L.seen books.old) (L.seen books.new) LooksOnly)
            (λ what. IsTransition (L.seen books.old) (L.seen books.new)
            (AnswersOne (L.seen books.old).naming what)) };
}

/// Nobody: the next client is read once the books are closed.
#[derive(Clone, Copy)]
pub struct Nobody;

impl Arrivals for Nobody {
    ghost left = { λ _. 0 };

    fn next_open<L: Ledger>(&mut self, _routes: &mut Routes, _books: &mut L) -> Option<Served> {
        None
    }
}

/// The most clients that are answered behind the first one while the books are open: each is kept
/// until they are closed.
const MOST_LATER: usize = 200;

/// Answers clients from open books, one after the other, until one is not answered so. Gives what
/// became of them, in their order. Without memory for that none is answered.
pub fn answer_more<A: Arrivals, L: Ledger>(
    routes: &mut Routes,
    arrivals: &mut A,
    books: &mut L,
) -> Result<Vec<Served>, AllocError>
    ensures answered { IfOk result (λ later. IsTransition (L.seen books.old) (L.seen books.new)
        (AnswersMore (L.seen books.old).naming (reverse later.items))) }
    ensures left { IfOk result (λ later.
        A.left arrivals.new + length later.items ≡ A.left arrivals.old) }
    ensures books { OnErr result (books.new ≡ books.old) }
    ensures none { OnErr result (arrivals.new ≡ arrivals.old) }
{
    // The room is taken first: whoever is answered is told of.
    let mut later = Vec::with_capacity(routes.alloc(), MOST_LATER)?;
    for _ in 0..MOST_LATER {
        match arrivals.next_open(routes, books) {
            Some(what) => later.push(what)?,
            None => return Ok(later),
        }
    }
    Ok(later)
}
