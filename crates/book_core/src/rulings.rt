//! The rulings of an office, and what is answered by them to a tariff, a close, a credit and a rule
//! of identity.

ghost use Rattle.std.specs.Prelude.{◌≡◌, ◌≢◌, ◌≤◌, ◌<◌, All, Ok, false, filter, int_lt, length};
ghost use Rattle.std.specs.Prelude.{true};
ghost use Rattle.book_model.specs.Words.{IsDay, are_rising, last_period};
ghost use Rattle.book_model.specs.RulingAnswers as spec;

use crate::accepted_tariff::{
    AcceptedTariff, are_before, has_centre, has_day_of, has_text, place_of, put_in_place,
};
use crate::close_days::is_after;
use crate::limits::LAST_PERIOD;
use book_model::{LedgerFault, Ruled};
use smf_text::Name;
use std::alloc::{AllocError, Global};
use tariff_rules::{Tariff, is_unassigned};

/// The rule of identity under which books begin.
const FIRST_RULE: u8 = 1;

/// The rule by which the moment of initiation is part of an identity.
const SECOND_RULE: u8 = 2;

/// The answer is that the ruling is done.
pub fn is_done(answer: &Result<Ruled, LedgerFault>) -> bool
    ensures done { result ≡ true → answer.now ≡ Ok Ruled.Done }
    ensures other { result ≡ false → answer.now ≢ Ok Ruled.Done }
{
    match answer {
        Ok(Ruled::Done) => true,
        _ => false,
    }
}

/// How many closes come before a day.
fn closes_before(closes: &[i32], day: &i32) -> usize
    ensures before { result ≡ length (filter (λ close. int_lt close day.now) closes.now) }
    ensures few { result ≤ length closes.now }
{
    closes.iter().filter(|close| **close < *day).count()
}

/// The rulings of the office: its tariffs, its closes and its rule of identity. Its choices, the
/// tariffs that were replaced and its credits are kept beside them.
#[derive(Drop)]
pub struct Rulings {
    /// In the order of their first days.
    tariffs: Vec<AcceptedTariff>,
    /// The days through which periods were closed, in order, counted from 1970-01-01.
    closes: Vec<i32>,
    /// The period that was open when the second rule of identity was adopted, if it was.
    adopted: Option<u16>,
    ghost rising: { are_rising tariffs.items ≡ true },
    ghost days: { All IsDay closes.items },
    ghost few: { length closes.items < last_period },
}

impl Rulings {
    ghost use Rattle.std.specs.Prelude.{◌≡◌, ◌≤◌, ◌<◌, [], ◌∷◌, All, OnOk, Some, filter, length};
    ghost use Rattle.std.specs.Prelude.{string_bytes, true};
    ghost use Rattle.std.specs.List.{list_any};
    ghost use Rattle.book_model.specs.Words.{IsDay, are_rising, last_period, no_rulings, open_by};
    ghost use Rattle.book_model.specs.Words.{period_on, with_close, with_second_rule, with_tariff};
    ghost use Rattle.book_model.specs.Rulings as ruling;
    ghost use Rattle.book_core.specs.OfficeRulings.{HasCloseRoom, HasTariffRoom, in_its_place};
    ghost use Rattle.book_core.specs.OfficeRulings.{ruled_in};

    /// No ruling yet.
    pub fn new(alloc: Global) -> Rulings
        ensures { ruled_in result ≡ no_rulings }
    {
        Rulings {
            tariffs: Vec::new(alloc),
            closes: Vec::new(alloc),
            adopted: None,
        }
    }

    /// These tariffs and closes, and the rule of identity by the period in which the second one was
    /// adopted.
    pub fn of(tariffs: Vec<AcceptedTariff>, closes: Vec<i32>, adopted: Option<u16>) -> Rulings
        requires rising { are_rising tariffs.items ≡ true }
        requires days { All IsDay closes.items }
        requires few { length closes.items < last_period }
        ensures { ruled_in result ≡ record no_rulings {
          tariffs = tariffs.items;
          closes = closes.items;
          adopted = adopted;
        } }
    {
        Rulings {
            tariffs,
            closes,
            adopted,
        }
    }

    /// The tariffs, in the order of their first days.
    pub fn tariffs(&self) -> &[AcceptedTariff]
        ensures { result.now ≡ (ruled_in self.now).tariffs }
    {
        &self.tariffs
    }

    /// The days through which periods were closed, in order, counted from 1970-01-01.
    pub fn closes(&self) -> &[i32]
        ensures { result.now ≡ (ruled_in self.now).closes }
    {
        &self.closes
    }

    /// The period that was open when the second rule of identity was adopted, if it was.
    pub fn adopted(&self) -> Option<u16>
        ensures { result ≡ (ruled_in self.now).adopted }
    {
        self.adopted
    }

    /// The day of the last close, if there was one, in days since 1970-01-01.
    #[tactic(auto, using(crate::proofs::RulingLemmas::last_found))]
    pub fn last_close(&self) -> Option<i32>
        ensures { result ≡ ruling.last_close (ruled_in self.now) }
    {
        self.closes.last().copied()
    }

    /// The number of the open period.
    pub fn open_number(&self) -> u16
        ensures number { result ≡ open_by (ruled_in self.now) }
        ensures few { result ≤ last_period }
    {
        self.closes.len() as u16 + 1
    }

    /// The number of the period that a day belongs to: each close before the day ended one.
    pub fn period_of_day(&self, day: &i32) -> u16
        ensures number { result ≡ period_on (ruled_in self.now).closes day.now }
        ensures begun { result ≤ open_by (ruled_in self.now) }
    {
        closes_before(&self.closes, day) as u16 + 1
    }

    /// The day through which a period was closed, if it was, in days since 1970-01-01.
    pub fn through_of(&self, period: u16) -> Option<i32>
        ensures { result ≡ spec.through_of period (ruled_in self.now) }
    {
        if period == 0 {
            return None;
        }
        self.closes.get(period as usize - 1).copied()
    }

    /// A tariff begins later than every other one, and after the last close.
    fn is_later(&self, tariff: &Tariff) -> bool
        ensures { result ≡ spec.is_later tariff.now.effective (ruled_in self.now) }
    {
        are_before(&self.tariffs, tariff) && is_after(self.last_close(), tariff.effective())
    }

    /// What is answered to a tariff. Whether the books can hold what their records cost under it is
    /// not asked here.
    pub fn tariff_answer(&self, text: &str, tariff: &Tariff) -> Result<Ruled, LedgerFault>
        ensures { result ≡ spec.terms_ruled (ruled_in self.now) false text.now tariff.now }
    {
        if has_text(&self.tariffs, text) {
            return Ok(Ruled::Already);
        }
        if has_day_of(&self.tariffs, tariff) {
            return Err(LedgerFault::TariffExists);
        }
        if !self.is_later(tariff) {
            return Err(LedgerFault::TariffDate);
        }
        Ok(Ruled::Done)
    }

    /// What is answered to a tariff in the place of the one that begins on its first day. Whether the
    /// books have room for it is not asked here.
    pub fn replacing_answer(&self, text: &str, tariff: &Tariff) -> Result<Ruled, LedgerFault>
        ensures { result ≡ spec.replace_ruled (ruled_in self.now) false text.now tariff.now }
    {
        if has_text(&self.tariffs, text) {
            return Ok(Ruled::Already);
        }
        if !has_day_of(&self.tariffs, tariff) {
            return Err(LedgerFault::NoSuchTariff);
        }
        if self.is_early(tariff.effective()) {
            return Err(LedgerFault::TariffDate);
        }
        Ok(Ruled::Done)
    }

    /// A tariff has a rule for the centre, or it is that of the records without one.
    fn is_known_centre(&self, centre: Name) -> bool
        ensures { result ≡ spec.is_known_centre (ruled_in self.now) centre }
    {
        is_unassigned(&centre) || has_centre(&self.tariffs, centre)
    }

    /// What is answered to a credit of a period to a centre, where it was given and where it was
    /// not, and where there is no room for one more and where there is.
    pub fn credit_answer(
        &self,
        period: u16,
        centre: Name,
        given: bool,
        full: bool,
    ) -> Result<Ruled, LedgerFault>
        ensures { result ≡ spec.credit_ruled (ruled_in self.now) given full period centre }
    {
        if given {
            return Ok(Ruled::Already);
        }
        if self.open_number() != period {
            return Err(LedgerFault::WrongPeriod(self.open_number()));
        }
        if !self.is_known_centre(centre) {
            return Err(LedgerFault::NoSuchCentre);
        }
        if full {
            return Err(LedgerFault::Full);
        }
        Ok(Ruled::Done)
    }

    /// A period was closed through this day.
    fn is_closed(&self, period: u16, day: i32) -> bool
        ensures { result ≡ spec.is_closed period day (ruled_in self.now) }
    {
        match self.through_of(period) {
            Some(through) => day == through,
            None => false,
        }
    }

    /// There was a close, and a day is not later than that of the last one.
    fn is_early(&self, day: i32) -> bool
        ensures { result ≡ spec.is_early day (ruled_in self.now) }
    {
        !is_after(self.last_close(), day)
    }

    /// What is answered to a close.
    pub fn close_answer(&self, period: u16, through: i32) -> Result<Ruled, LedgerFault>
        ensures { result ≡ spec.close_answer (ruled_in self.now) period through }
    {
        if self.is_closed(period, through) {
            return Ok(Ruled::Already);
        }
        let current = self.open_number();
        if period != current {
            return Err(LedgerFault::WrongPeriod(current));
        }
        if self.is_early(through) {
            return Err(LedgerFault::NotLater);
        }
        if period == LAST_PERIOD {
            return Err(LedgerFault::Full);
        }
        Ok(Ruled::Done)
    }

    /// The rule of identity that is in force.
    fn rule(&self) -> u8
        ensures { result ≡ spec.rule_by (ruled_in self.now) }
    {
        match self.adopted {
            None => FIRST_RULE,
            Some(_) => SECOND_RULE,
        }
    }

    /// What is answered to a rule of identity. The first one is never gone back to.
    pub fn adopt_answer(&self, rule: u8) -> Result<Ruled, LedgerFault>
        ensures { result ≡ spec.adopt_answer (ruled_in self.now) rule }
    {
        if rule == self.rule() {
            return Ok(Ruled::Already);
        }
        if rule == SECOND_RULE {
            return Ok(Ruled::Done);
        }
        Err(LedgerFault::OldRule)
    }

    /// Makes room for one more tariff.
    pub fn reserve_tariff(&mut self) -> Result<(), AllocError>
        ensures same { ruled_in self.new ≡ ruled_in self.old }
        ensures room { OnOk result (HasTariffRoom self.new) }
    {
        self.tariffs.reserve(1)
    }

    /// Puts a tariff in force that is later than all that was ruled. There is room for it.
    #[tactic(auto, using(crate::proofs::RulingLemmas::rising_with))]
    pub fn put_tariff(&mut self, text: String, tariff: Tariff)
        requires room { HasTariffRoom self.old }
        requires later { spec.is_later tariff.effective (ruled_in self.old) ≡ true }
        ensures { ruled_in self.new
            ≡ with_tariff (Some (string_bytes text)) tariff (ruled_in self.old) }
    {
        self.tariffs.push_reserved(AcceptedTariff {
            text: Some(text),
            tariff,
        });
    }

    /// Puts a text in the place of the tariff that begins on its first day, and gives that back.
    /// There is room for one more.
    pub fn put_replacement(&mut self, text: String, tariff: Tariff) -> AcceptedTariff
        requires room { HasTariffRoom self.old }
        requires there { list_any (ruling.is_effective tariff.effective)
            (ruled_in self.old).tariffs ≡ true }
        ensures put { ruled_in self.new ≡ in_its_place
            (record { text = Some (string_bytes text); terms = tariff }) (ruled_in self.old) }
        ensures was { filter (ruling.is_effective tariff.effective) (ruled_in self.old).tariffs
            ≡ result ∷ [] }
    {
        let place = place_of(&self.tariffs, &tariff);
        let accepted = AcceptedTariff {
            text: Some(text),
            tariff,
        };
        put_in_place(&mut self.tariffs, place, accepted)
    }

    /// Makes room for one more close.
    pub fn reserve_close(&mut self) -> Result<(), AllocError>
        ensures same { ruled_in self.new ≡ ruled_in self.old }
        ensures room { OnOk result (HasCloseRoom self.new) }
    {
        self.closes.reserve(1)
    }

    /// Closes the open period through a day. There is room for it, and a period after it.
    pub fn put_close(&mut self, through: i32)
        requires room { HasCloseRoom self.old }
        requires day { IsDay through }
        requires few { open_by (ruled_in self.old) < last_period }
        ensures { ruled_in self.new ≡ with_close through (ruled_in self.old) }
    {
        self.closes.push_reserved(through);
    }

    /// Adopts the second rule of identity. A period in which it was adopted stays.
    pub fn adopt(&mut self)
        ensures { ruled_in self.new ≡ with_second_rule (ruled_in self.old) }
    {
        self.adopted = Some(self.adopted.unwrap_or(self.open_number()));
    }
}
