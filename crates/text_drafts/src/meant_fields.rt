//! What a row was to have. It has no bytes, and only clauses read it.

ghost use Rattle.std.specs.Prelude.{◌≡◌, ℕ, ◌++◌, List, [], ◌∷◌};
ghost use Rattle.std.specs.Borrow.{ftrue};

use std::marker::Model;

/// The fields that a row was to have.
#[derive(Drop)]
pub(crate) struct MeantFields {
    pub ghost fields: { List (List ℕ) },
}

impl Model for MeantFields {
    ghost also_owns = { λ _. ftrue };
}

impl MeantFields {
    /// None so far.
    pub(crate) fn new() -> MeantFields
        ensures { result.fields ≡ [] }
    {
        MeantFields {}
    }

    /// The same, and then a field.
    fn then(&self) -> MeantFields
        ghost field: { List ℕ }
        ensures { result.fields ≡ self.now.fields ++ field ∷ [] }
    {
        MeantFields {}
    }
}

/// The same, and then the field that a value stands for.
pub(crate) fn then_field<T>(meant: &MeantFields, _value: &T) -> MeantFields
    ghost field: { List ℕ }
    ensures { result.fields ≡ meant.now.fields ++ field ∷ [] }
{
    meant.then()
}
