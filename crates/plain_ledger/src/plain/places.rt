//! The rulings of a plain ledger, by where they stand.

ghost use Rattle.std.specs.Prelude.{◌≡◌, ◌<◌, ◌+◌, IfOk, option_map};
ghost use Rattle.book_model.specs.Words.{ShowsDays, is_effective, ruling_shown};
ghost use Rattle.book_core.specs.OfficeRulings.{ruled_in};
ghost use Rattle.plain_ledger.specs.Plain.{replaced_of};
ghost use Rattle.plain_ledger.specs.Replacements.{brought_of};

use super::PlainBooks;
use crate::arrivals::arrival_among;
use crate::made_entries::{MadeAct, MadeEntry, count_kept};
use crate::replaced::ReplacedTariff;
use book_core::Rulings;
use book_model::{Arrival, ListedAct, ListedRuling, Naming, Place};
use std::alloc::{AllocError, Global};

/// It begins on the day.
fn began_on(replaced: &ReplacedTariff, day: i32) -> bool
    ensures { result ≡ is_effective day (replaced_of replaced.now).tariff }
{
    replaced.tariff.begins_on(day)
}

/// The first tariff of a day behind so many that were replaced, or the one in force.
fn listed_behind(
    alloc: Global,
    replaced: &[ReplacedTariff],
    rulings: &Rulings,
    day: i32,
    number: u32,
) -> Result<Option<ListedRuling>, AllocError>
    ensures shown { IfOk result (λ found. option_map ruling_shown found
        ≡ brought_of replaced.now (ruled_in rulings.now).tariffs day number) }
    ensures days { IfOk result ShowsDays }
{
    for at in number as usize..replaced.len() {
        let one = &replaced[at];
        if began_on(one, day) {
            return one.tariff.listed(alloc);
        }
    }
    rulings.listed_on(alloc, day)
}

/// The place of a number from 1 among so many, from 0. A ruling that an entry is about has one.
fn place_among(number: u32, count: u32) -> Result<u32, AllocError>
    ensures its { IfOk result (λ place. number ≡ place + 1) }
    ensures there { IfOk result (λ place. place < count) }
{
    if number == 0 || number > count {
        return Err(AllocError);
    }
    Ok(number - 1)
}

impl<N: Naming + Drop> PlainBooks<N> {
    ghost use Rattle.std.specs.Prelude.{◌≡◌, ◌<◌, IfOk, Some, length, option_map, slice_get};
    ghost use Rattle.book_model.specs.JournalLists.{act_seen, ruling_at, tariff_brought};
    ghost use Rattle.book_model.specs.Journal.{ChoiceOf, CreditOf, ReplacementOf};
    ghost use Rattle.book_model.specs.Words.{ShowsActDays, ShowsDays, act_listed, place_shown};
    ghost use Rattle.book_model.specs.Words.{ruling_shown};
    ghost use Rattle.book_model.specs.Words.{arrival_from, arrivals};
    ghost use Rattle.plain_ledger.specs.LedgerBook.{with_entries};
    ghost use Rattle.plain_ledger.specs.MadeEntries.{act_of, count_made, entries_made};
    ghost use Rattle.plain_ledger.specs.PlainBook.{book_in, naming_in};

    /// The tariff of a day that came first, or in the place of the one that was replaced under a
    /// number: it is the next of that day that was replaced, or the one in force.
    fn listed_brought(&self, day: i32, number: u32) -> Result<Option<ListedRuling>, AllocError>
        ensures shown { IfOk result (λ found. option_map ruling_shown found
            ≡ tariff_brought day number (book_in self.now).rulings) }
        ensures days { IfOk result ShowsDays }
    {
        let found = listed_behind(self.alloc, &self.replaced, &self.rulings, day, number)?;
        Ok(found)
    }

    /// The first day of the tariff at a place among those that were replaced, from 0.
    fn replaced_day(&self, place: u32) -> i32
        requires { place < length (book_in self.now).rulings.replaced }
        ensures { Some result ≡ option_map (λ replaced. replaced.tariff.terms.effective)
            (slice_get (book_in self.now).rulings.replaced place) }
    {
        self.replaced[place as usize].tariff.tariff.effective()
    }

    /// The tariff that came in the place of the one that was replaced under a number.
    fn listed_replacement(&self, number: u32) -> Result<Option<ListedRuling>, AllocError>
        ensures shown { IfOk result (λ found. option_map ruling_shown found
            ≡ ruling_at (N.name_of (naming_in self.now)) (book_in self.now).rulings
            (ReplacementOf number)) }
        ensures days { IfOk result ShowsDays }
    {
        let count = self.replaced_count();
        let place = place_among(number, count)?;
        let day = self.replaced_day(place);
        let found = self.listed_brought(day, number)?;
        Ok(found)
    }

    /// The choice of a number.
    fn listed_choice(&self, number: u32) -> Result<Option<ListedRuling>, AllocError>
        ensures shown { IfOk result (λ found. option_map ruling_shown found
            ≡ ruling_at (N.name_of (naming_in self.now)) (book_in self.now).rulings
            (ChoiceOf number)) }
        ensures days { IfOk result ShowsDays }
    {
        let count = self.choice_count();
        let place = place_among(number, count)?;
        let ruling = self.choice_listed(place);
        Ok(Some(ruling))
    }

    /// The credit of a number.
    fn listed_credit(&self, number: u32) -> Result<Option<ListedRuling>, AllocError>
        ensures shown { IfOk result (λ found. option_map ruling_shown found
            ≡ ruling_at (N.name_of (naming_in self.now)) (book_in self.now).rulings
            (CreditOf number)) }
        ensures days { IfOk result ShowsDays }
    {
        let count = self.credit_count();
        let place = place_among(number, count)?;
        let ruling = self.credit_listed(place)?;
        Ok(Some(ruling))
    }

    /// The ruling that stands at a place.
    fn listed_at_place(&self, place: Place) -> Result<Option<ListedRuling>, AllocError>
        ensures shown { IfOk result (λ found. option_map ruling_shown found
            ≡ ruling_at (N.name_of (naming_in self.now)) (book_in self.now).rulings
            (place_shown place)) }
        ensures days { IfOk result ShowsDays }
    {
        match place {
            Place::Tariff(day) => Ok(self.listed_brought(day, 0)?),
            Place::Close(period) => Ok(self.rulings.listed_close(period)),
            Place::Choice(number) => self.listed_choice(number),
            Place::Adoption => Ok(self.rulings.listed_adoption()),
            Place::Replacement(number) => self.listed_replacement(number),
            Place::Credit(number) => self.listed_credit(number),
        }
    }

    /// What an entry is about, as a list shows it.
    pub(crate) fn listed_act(&self, act: MadeAct) -> Result<ListedAct, AllocError>
        ensures shown { IfOk result (λ listed. act_listed listed
            ≡ act_seen (N.name_of (naming_in self.now)) (book_in self.now).rulings
            (count_made act) (act_of act)) }
        ensures days { IfOk result ShowsActDays }
    {
        match act {
            MadeAct::Ruling(place) => {
                let found = self.listed_at_place(place)?;
                Ok(ListedAct::Ruling(place, found))
            }
            MadeAct::Going(reading, kept) => {
                Ok(ListedAct::Import(reading, None, count_kept(&kept)))
            }
            MadeAct::Ended(reading, ending, kept) => {
                Ok(ListedAct::Import(reading, Some(ending), count_kept(&kept)))
            }
        }
    }

    /// The first record whose name is these bytes or comes after them, by the entries that were
    /// made.
    pub(crate) fn arrival_held(&self, made: &[MadeEntry], from: &[u8]) -> Option<Arrival>
        ensures { result ≡ arrival_from from.now (arrivals (N.name_of (naming_in self.now))
            (with_entries (book_in self.now) (entries_made made.now))) }
    {
        arrival_among(&self.held, made, from)
    }
}
