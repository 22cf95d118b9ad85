//! Answers of the books that wait to be counted.

ghost use Rattle.std.specs.Prelude.{◌≤◌, length};

use book_core::Accepted;
use std::alloc::Global;

/// The answers of the books to some records, and which of them is counted next.
#[derive(Drop)]
pub(crate) struct Pending {
    answers: Vec<Accepted>,
    next: usize,
    ghost within: { next ≤ length answers.items },
}

impl Pending {
    ghost use Rattle.std.specs.Prelude.{◌≡◌, ◌<◌, ◌∷◌, [], MatchOption};
    ghost use Rattle.book_import.specs.Groups.{left_in};

    /// No answer.
    pub(crate) fn new(alloc: Global) -> Pending
        ensures { left_in result ≡ [] }
    {
        Pending {
            answers: Vec::new(alloc),
            next: 0,
        }
    }

    /// Takes the next answer, if one is left.
    pub(crate) fn pop(&mut self) -> Option<Accepted>
        ensures { MatchOption result ((left_in self.old ≡ []) × (left_in self.new ≡ []))
            (λ answer. left_in self.old ≡ answer ∷ left_in self.new) }
    {
        if self.next < self.answers.len() {
            let answer = self.answers[self.next];
            self.next += 1;
            return Some(answer);
        }
        None
    }

    /// Takes the first of new answers, in place of those that were left.
    pub(crate) fn refill(&mut self, answers: Vec<Accepted>) -> Accepted
        requires { 0 < length answers.items }
        ensures { answers.items ≡ result ∷ left_in self.new }
    {
        let first = answers[0];
        self.answers = answers;
        self.next = 1;
        first
    }
}
