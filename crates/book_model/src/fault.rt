ghost use Rattle.std.specs.Prelude.{◌≡◌};
ghost use Rattle.book_model.specs.Faults.{ledger_number};

use std::alloc::{AllocError, AllocFailed};
use tariff_rules::TariffFault;
use thiserror::Error;

/// Why a call of a ledger was refused. A refused call leaves the books as they were.
#[derive(Clone, Copy, Debug, PartialEq, Eq, Error)]
pub enum LedgerFault {
    /// A request for memory was refused.
    #[error("out of memory")]
    Memory,
    /// The store refused a call for another cause than memory.
    #[error("the store failed")]
    Store,
    /// An earlier call was answered `Store`: the books are to be opened again.
    #[error("the books have to be opened again")]
    Reopen,
    /// The books have no room: for a record, its amount, a period, a choice, a credit, or what
    /// records would cost under a tariff.
    #[error("the books are full")]
    Full,
    /// A record that is held has the name of this one, and other bytes.
    #[error("two records have the same name")]
    DigestClash,
    /// A tariff's effective day is not after the last close, or not after the last tariff.
    #[error("the tariff comes into force too early")]
    TariffDate,
    /// Another tariff comes into force on that day.
    #[error("another tariff comes into force on that day")]
    TariffExists,
    /// Records that are held are dated on the tariff's effective day or after it. It is not
    /// answered any more: they are priced anew.
    #[error("records are dated after the tariff")]
    RecordsDated,
    /// Another period is open: this one.
    #[error("the open period is {0}")]
    WrongPeriod(u16),
    /// A close's day is not later than that of the close before.
    #[error("the day is not later than the last close")]
    NotLater,
    /// The books have no such period.
    #[error("no such period")]
    NoSuchPeriod,
    /// No record of that name is held.
    #[error("no such record")]
    NoSuchRecord,
    /// The record is alone in its identity, and its work was never withheld.
    #[error("the record is not disputed")]
    NotDisputed,
    /// A later rule of identity is in force.
    #[error("a later rule of identity is in force")]
    OldRule,
    /// The text is no tariff.
    #[error("the tariff is refused: {0}")]
    TariffRefused(TariffFault),
    /// The database holds no books.
    #[error("no books")]
    NotBooks,
    /// The file has an older form, which only its upgrade reads.
    #[error("the books are of an older form")]
    OldForm,
    /// The file has a form that is newer than this program.
    #[error("the books are of a newer form")]
    NewForm,
    /// No tariff that came as a text begins on that day.
    #[error("no tariff begins on that day")]
    NoSuchTariff,
    /// No tariff has a rule for that centre.
    #[error("no such centre")]
    NoSuchCentre,
}

impl LedgerFault {
    /// The number that reports and messages show.
    pub fn number(self) -> u8
        ensures { result ≡ ledger_number self }
    {
        match self {
            LedgerFault::Memory => 1,
            LedgerFault::Store => 2,
            LedgerFault::Reopen => 3,
            LedgerFault::Full => 4,
            LedgerFault::DigestClash => 5,
            LedgerFault::TariffDate => 6,
            LedgerFault::TariffExists => 7,
            LedgerFault::RecordsDated => 8,
            LedgerFault::WrongPeriod(_) => 9,
            LedgerFault::NotLater => 10,
            LedgerFault::NoSuchPeriod => 11,
            LedgerFault::NoSuchRecord => 12,
            LedgerFault::NotDisputed => 13,
            LedgerFault::OldRule => 14,
            LedgerFault::TariffRefused(_) => 15,
            LedgerFault::NotBooks => 16,
            LedgerFault::OldForm => 17,
            LedgerFault::NewForm => 18,
            LedgerFault::NoSuchTariff => 19,
            LedgerFault::NoSuchCentre => 20,
        }
    }
}

impl From<AllocError> for LedgerFault {
    ghost use Rattle.book_model.specs.declared.fault.LedgerFault.TheVariants.{Memory};

    ghost from_gives = { λ _ fault. fault ≡ Memory };

    fn from(_: AllocError) -> Self {
        LedgerFault::Memory
    }
}

impl<T: Drop> From<AllocFailed<T>> for LedgerFault {
    ghost use Rattle.book_model.specs.declared.fault.LedgerFault.TheVariants.{Memory};

    ghost from_gives = { λ _ fault. fault ≡ Memory };

    fn from(_: AllocFailed<T>) -> Self {
        LedgerFault::Memory
    }
}

impl From<TariffFault> for LedgerFault {
    ghost use Rattle.book_model.specs.Faults.{refusal_of};

    ghost from_gives = { λ refused fault. fault ≡ refusal_of refused };

    fn from(refused: TariffFault) -> Self {
        match refused {
            TariffFault::Memory => LedgerFault::Memory,
            _ => LedgerFault::TariffRefused(refused),
        }
    }
}
