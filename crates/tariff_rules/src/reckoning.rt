//! How the price of a record came about.

ghost use Rattle.std.specs.Prelude.{◌≡◌};
ghost use Rattle.smf_text.specs.Day.{IsDay};
ghost use Rattle.tariff_rules.specs.Price.{IsPriced};
ghost use Rattle.tariff_rules.specs.Reckoning.{reckoning_by};

use crate::priced::{Priced, price};
use crate::tariff::Tariff;
use smf_type30::Type30;

/// How the price of a record came about: by which tariff, by which of its rules, and from which
/// numbers. A rule's number is its place in the tariff's file, from 1.
#[derive(Clone, Copy)]
pub struct Reckoning {
    /// The first day of the tariff, in days since 1970-01-01.
    pub effective: i32,
    /// The shift rule that decided. Where none did, the shift is BASE.
    pub shift_rule: Option<u64>,
    /// The centre rule that decided. Where none did, the centre is UNASSIGNED.
    pub centre_rule: Option<u64>,
    /// The rate of a CPU second, in ten-thousandths of the money unit.
    pub cpu_rate: u64,
    /// The rate of 1,000 blocks.
    pub excp_rate: u64,
    /// The rate of the record itself.
    pub record_fee: u64,
    /// What the shift charges, in percent of the rates.
    pub percent: u16,
    /// What these come to.
    pub priced: Priced,
}

/// How the record's price by the tariff comes about, whether or not the tariff is in force on its
/// day.
pub fn reckon(tariff: &Tariff, usage: &Type30<'_>) -> Reckoning
    ensures value { result ≡ reckoning_by tariff.now usage.now }
    ensures day { IsDay result.effective }
    ensures bounds { IsPriced result.priced }
{
    let moment = usage.moment();
    let rates = tariff.rates_for(usage.subtype());
    Reckoning {
        effective: tariff.effective(),
        shift_rule: tariff.shift_rule(moment),
        centre_rule: tariff.centre_rule(usage),
        cpu_rate: rates.cpu(),
        excp_rate: rates.excp(),
        record_fee: rates.record_fee(),
        percent: tariff.shift_at(moment).percent,
        priced: price(tariff, usage),
    }
}
