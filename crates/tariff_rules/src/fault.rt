//! What is wrong with a tariff file.

ghost use Rattle.std.specs.Prelude.{◌≡◌};
ghost use Rattle.tariff_rules.specs.Faults.{tariff_number};

use crate::key::Key;
use std::alloc::{AllocError, AllocFailed};
use thiserror::Error;

/// Why a text is no tariff. Where several reasons apply, the first in the order of the file's keys
/// is given.
#[derive(Clone, Copy, Debug, PartialEq, Eq, Error)]
pub enum TariffFault {
    /// The text is no TOML document.
    #[error("the tariff is not a TOML document")]
    Syntax,
    /// A key is not there that has to be.
    #[error("the tariff has no key {0}")]
    Missing(Key),
    /// A key has a value of another type, or one that is out of its range.
    #[error("the tariff's key {0} is out of range")]
    Range(Key),
    /// The name of a shift or a centre is a text, but no name.
    #[error("the tariff has a name of the wrong form")]
    Name,
    /// Two shifts of one name have different percents, or one named `BASE` has another than 100.
    #[error("the tariff gives two percents for one shift")]
    ShiftConflict,
    /// The text is too long, or has too many shifts or centres.
    #[error("the tariff is too large")]
    TooMany,
    /// There was not enough memory to read the text.
    #[error("out of memory")]
    Memory,
}

impl TariffFault {
    /// The number that messages show.
    pub fn number(self) -> u8
        ensures { result ≡ tariff_number self }
    {
        match self {
            TariffFault::Syntax => 1,
            TariffFault::Missing(_) => 2,
            TariffFault::Range(_) => 3,
            TariffFault::Name => 4,
            TariffFault::ShiftConflict => 5,
            TariffFault::TooMany => 6,
            TariffFault::Memory => 7,
        }
    }
}

impl From<AllocError> for TariffFault {
    ghost use Rattle.tariff_rules.specs.declared.fault.TariffFault.TheVariants.{Memory};

    ghost from_gives = { λ _ fault. fault ≡ Memory };

    fn from(_: AllocError) -> TariffFault {
        TariffFault::Memory
    }
}

impl<T: Drop> From<AllocFailed<T>> for TariffFault {
    ghost use Rattle.tariff_rules.specs.declared.fault.TariffFault.TheVariants.{Memory};

    ghost from_gives = { λ _ fault. fault ≡ Memory };

    fn from(_: AllocFailed<T>) -> TariffFault {
        TariffFault::Memory
    }
}
