//! What a record costs.

ghost use Rattle.std.specs.Prelude.{◌≡◌};
ghost use Rattle.tariff_rules.specs.Price.{IsPriced, price_by};

use crate::tariff::Tariff;
use smf_text::Name;
use smf_type30::Type30;

/// What a record costs, where, and by what it measures.
#[derive(Clone, Copy, PartialEq, Eq)]
pub struct Priced {
    /// The day of the record's header, in days since 1970-01-01.
    pub day: i32,
    /// The shift of the record's moment.
    pub shift: Name,
    /// The centre that pays.
    pub centre: Name,
    /// The CPU time, in hundredths of a second.
    pub cpu: u64,
    /// The blocks transferred, the EXCP count.
    pub excp: u64,
    /// The price, in ten-thousandths of the money unit.
    pub amount: u64,
}

/// What the record costs by the tariff, whether or not the tariff is in force on its day.
pub fn price(tariff: &Tariff, usage: &Type30<'_>) -> Priced
    ensures value { result ≡ price_by tariff.now usage.now }
    ensures bounds { IsPriced result }
{
    let moment = usage.moment();
    let shift = tariff.shift_at(moment);
    let rates = tariff.rates_for(usage.subtype());
    let cpu = usage.cpu();
    let excp = usage.excp();
    Priced {
        day: moment.day,
        shift: shift.name,
        centre: tariff.centre_of(usage),
        cpu,
        excp: u64::from(excp),
        amount: rates.amount(shift.percent, cpu, excp),
    }
}
