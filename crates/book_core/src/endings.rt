//! Ends of imports.

ghost use Rattle.std.specs.Prelude.{◌≡◌};
ghost use Rattle.book_model.specs.Words.{ending_shown, stop_shown};

use book_model::{Ending, Stop};

/// Why an import ended, as the journal has it.
pub fn ending_of(stop: Stop) -> Ending
    ensures { ending_shown result ≡ stop_shown stop }
{
    match stop {
        Stop::End => Ending::End,
        Stop::Frame(fault) => Ending::Frame(fault.number()),
        Stop::Read => Ending::Read,
        Stop::ReadLimit => Ending::ReadLimit,
        Stop::Ledger(fault) => Ending::Ledger(fault.number()),
    }
}
