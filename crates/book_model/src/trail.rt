ghost use Rattle.std.specs.Prelude.{◌≡◌};
ghost use Rattle.book_model.specs.Lives as lives;

use crate::dispute::Variant;
use tariff_rules::Reckoning;

/// What a period did with a record.
#[derive(Clone, Copy, PartialEq, Eq)]
pub enum Deed {
    /// Its rows count the record.
    Charged,
    /// It charges the record late, by a plus line.
    Added,
    /// It takes an earlier charge back, by a minus line.
    Reversed,
}

impl Deed {
    /// The record is charged by it; else a charge is reversed.
    pub fn is_charge(self) -> bool
        ensures { result ≡ lives.is_charge self }
    {
        match self {
            Deed::Charged | Deed::Added => true,
            Deed::Reversed => false,
        }
    }
}

/// One of these, and the number of the period.
#[derive(Clone, Copy)]
pub struct Turn {
    pub period: u16,
    pub deed: Deed,
}

/// A choice: the period that was open then, the name of the record that was named, and whether it
/// counts from then on, or no record of its work does.
#[derive(Clone, Copy)]
pub struct NamedChoice {
    pub period: u16,
    pub name: [u8; 32],
    pub counts: bool,
}

/// What stands behind the price of a record that is held, and what became of the record.
#[derive(Drop)]
pub struct Trail {
    /// The record, its descriptor included.
    pub bytes: Vec<u8>,
    /// The number of the period that its day belongs to.
    pub period: u16,
    /// How its price came about.
    pub reckoning: Reckoning,
    /// The records of its identity, by name; it is one of them.
    pub members: Vec<Variant>,
    /// The choices of records of its identity, in the order in which they came.
    pub choices: Vec<NamedChoice>,
    /// What the periods did with it, one after another.
    pub life: Vec<Turn>,
}
