//! What a draft was to say. It has no bytes, and only clauses read it.

ghost use Rattle.std.specs.Prelude.{◌≡◌, ℕ, ◌++◌, List, []};
ghost use Rattle.std.specs.Borrow.{ftrue};

use std::marker::Model;

/// The bytes that a draft was to say.
#[derive(Drop)]
pub(crate) struct Meant {
    pub ghost bytes: { List ℕ },
}

impl Model for Meant {
    ghost also_owns = { λ _. ftrue };
}

impl Meant {
    /// Nothing so far.
    pub(crate) fn new() -> Meant
        ensures { result.bytes ≡ [] }
    {
        Meant {}
    }

    /// The same, and then a piece.
    fn then(&self) -> Meant
        ghost piece: { List ℕ }
        ensures { result.bytes ≡ self.now.bytes ++ piece }
    {
        Meant {}
    }
}

/// The same, and then the piece that a value stands for.
pub(crate) fn then_of<T>(meant: &Meant, _value: &T) -> Meant
    ghost piece: { List ℕ }
    ensures { result.bytes ≡ meant.now.bytes ++ piece }
{
    meant.then()
}
