ghost use Rattle.std.specs.Prelude.{◌≡◌};
ghost use Rattle.book_lists.specs.Faults.{report_number};

use book_core::LedgerFault;
use std::alloc::AllocError;
use thiserror::Error;

/// Why a report was not written whole.
#[derive(Clone, Copy, Debug, PartialEq, Eq, Error)]
pub enum ReportFault {
    /// A write failed, or took none of the bytes that were left: the writer has a prefix of the
    /// text, and not all of it.
    #[error("a write failed")]
    Write,
    /// A request for memory was refused, by the books or here.
    #[error("out of memory")]
    Memory,
    /// The books refused what the report asks of them.
    #[error("the books refused: {0}")]
    Ledger(LedgerFault),
}

impl ReportFault {
    /// The number that messages show.
    pub fn number(self) -> u8
        ensures { result ≡ report_number self }
    {
        match self {
            ReportFault::Write => 1,
            ReportFault::Memory => 2,
            ReportFault::Ledger(_) => 3,
        }
    }
}

impl From<AllocError> for ReportFault {
    ghost use Rattle.book_lists.specs.declared.fault.ReportFault.TheVariants.{Memory};

    ghost from_gives = { λ _ fault. fault ≡ Memory };

    fn from(_: AllocError) -> Self {
        ReportFault::Memory
    }
}

impl From<LedgerFault> for ReportFault {
    ghost use Rattle.book_lists.specs.Faults.{report_fault_of};

    ghost from_gives = { λ ledger_fault fault. fault ≡ report_fault_of ledger_fault };

    fn from(fault: LedgerFault) -> Self {
        match fault {
            LedgerFault::Memory => ReportFault::Memory,
            _ => ReportFault::Ledger(fault),
        }
    }
}
