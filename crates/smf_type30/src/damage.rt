ghost use Rattle.std.specs.Prelude.{◌≡◌};

use thiserror::Error;

/// What is wrong with a record. Where more than one thing is, the first in this order is reported.
#[derive(Clone, Copy, Debug, PartialEq, Eq, Error)]
pub enum Damage {
    /// The record is shorter than its header, the descriptor included: than the 18 bytes of the
    /// standard header; or, of type 30, than the 24 up to the end of its subtype; or, of a step's
    /// or a job's end, than the 72 up to the end of the last triplet that is read.
    #[error("the record lacks a whole header")]
    Short,
    /// The header's date is no date.
    #[error("the header has no date")]
    Date,
    /// The header's time is 24 hours or more.
    #[error("the header has no time of day")]
    Time,
    /// There is no identification section.
    #[error("there is no identification section")]
    NoIdentification,
    /// The identification section is shorter than its fields, or ends outside the record.
    #[error("the identification section does not fit")]
    Identification,
    /// The processor section is shorter than its fields, or ends outside the record.
    #[error("the processor section does not fit")]
    Processor,
    /// The I/O activity section is shorter than its fields, or ends outside the record.
    #[error("the I/O activity section does not fit")]
    InputOutput,
    /// The completion section is shorter than its fields, or ends outside the record.
    #[error("the completion section does not fit")]
    Completion,
    /// The accounting fields do not lie inside the record.
    #[error("the accounting fields do not fit")]
    Accounting,
}

impl Damage {
    ghost use Rattle.smf_type30.specs.Damage.{damage_number};

    /// The number that reports and messages show.
    pub fn number(self) -> u8
        ensures { result ≡ damage_number self }
    {
        match self {
            Damage::Short => 1,
            Damage::Date => 2,
            Damage::Time => 3,
            Damage::NoIdentification => 4,
            Damage::Identification => 5,
            Damage::Processor => 6,
            Damage::InputOutput => 7,
            Damage::Completion => 8,
            Damage::Accounting => 9,
        }
    }
}
