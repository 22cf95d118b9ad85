//! Rulings by where they stand, as the list of rulings shows them.

ghost use Rattle.std.specs.Prelude.{◌≡◌, find, option_copied};
ghost use Rattle.book_model.specs.Words.{is_effective};

use crate::accepted_tariff::AcceptedTariff;
use crate::listed_rulings::close_at;
use crate::rulings::Rulings;
use book_model::ListedRuling;
use std::alloc::{AllocError, Global};

/// The first of some tariffs that begins on a day.
fn begun_on(tariffs: &[AcceptedTariff], day: i32) -> Option<&AcceptedTariff>
    ensures { option_copied result ≡ find (is_effective day) tariffs.now }
{
    tariffs.iter().find(|accepted| accepted.begins_on(day))
}

impl Rulings {
    ghost use Rattle.std.specs.Prelude.{◌≡◌, IfOk, find, option_and_then, option_map};
    ghost use Rattle.book_model.specs.Words.{AdoptionSeen, CloseSeen, ShowsDays, is_effective};
    ghost use Rattle.book_model.specs.Words.{ruling_shown, tariff_seen, through_of};
    ghost use Rattle.book_core.specs.OfficeRulings.{ruled_in};

    /// The tariff in force that begins on a day: not at all where it came with no text.
    pub fn listed_on(&self, alloc: Global, day: i32) -> Result<Option<ListedRuling>, AllocError>
        ensures shown { IfOk result (λ found. option_map ruling_shown found
            ≡ option_and_then tariff_seen (find (is_effective day) (ruled_in self.now).tariffs)) }
        ensures days { IfOk result ShowsDays }
    {
        let Some(accepted) = begun_on(self.tariffs(), day) else {
            return Ok(None);
        };
        let found = accepted.listed(alloc)?;
        Ok(found)
    }

    /// The close of a period, if it was closed.
    pub fn listed_close(&self, period: u16) -> Option<ListedRuling>
        ensures shown { option_map ruling_shown result
            ≡ option_map (CloseSeen period) (through_of period (ruled_in self.now)) }
        ensures days { ShowsDays result }
    {
        if period == 0 {
            return None;
        }
        match close_at(self.closes(), period as u64 - 1) {
            Ok(found) => found,
            Err(_) => None,
        }
    }

    /// The adoption of the second rule of identity, if it was adopted.
    pub fn listed_adoption(&self) -> Option<ListedRuling>
        ensures shown { option_map ruling_shown result
            ≡ option_map AdoptionSeen (ruled_in self.now).adopted }
        ensures days { ShowsDays result }
    {
        match self.adopted() {
            None => None,
            Some(period) => Some(ListedRuling::Adoption { period }),
        }
    }
}
