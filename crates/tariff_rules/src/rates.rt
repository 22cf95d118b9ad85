//! Rates, and the amount that they make of what a record measures.

ghost use Rattle.std.specs.Prelude.{◌≡◌, ◌≤◌, ◌<◌, ◌^◌, ◌↔◌, IsSome, IfSome};
ghost use Rattle.tariff_rules.specs.Limits.{most_percent};
ghost use Rattle.tariff_rules.specs.Price.{amount_of, most_amount};
ghost use Rattle.tariff_rules.specs.Terms.{AreRates, rates_of};

mod table;

use std::marker::Model;

/// The highest rate, in ten-thousandths of the money unit.
pub const MAX_RATE: u64 = 100_000_000;

/// The parts of a ten-thousandth of the money unit, in which the price's formula counts.
const WHOLE_PARTS: u128 = 100_000;

/// Half of these: an amount is rounded up from there on.
const HALF_PARTS: u128 = 50_000;

/// The parts that a hundredth of a second has, at one percent, by the rate of a CPU second.
const HUNDREDTH_PARTS: u128 = 10;

/// The parts that a record has, at one percent, by its own rate.
const RECORD_PARTS: u128 = 1000;

/// The rates of one kind of record, in ten-thousandths of the money unit: of a CPU second, of
/// 1,000 blocks, of the record itself.
#[derive(Clone, Copy)]
pub struct Rates {
    cpu: u64,
    excp: u64,
    record_fee: u64,
}

impl Model for Rates {
    ghost use Rattle.tariff_rules.specs.Terms.{AreRates, rates_of, RatesOf};

    ghost Value = { RatesOf };

    ghost view = { λ r. rates_of r.cpu r.excp r.record_fee };

    ghost invariant = { λ r. AreRates (rates_of r.cpu r.excp r.record_fee) };

    ghost inverse = { λ r. record { cpu = r.cpu; excp = r.excp; record_fee = r.record_fee } };
}

impl Rates {
    /// The three rates, in ten-thousandths of the money unit, or `None` where one is above the
    /// highest.
    pub(crate) fn new(cpu: u64, excp: u64, record_fee: u64) -> Option<Rates>
        ensures succeeds { IsSome result ↔ AreRates (rates_of cpu excp record_fee) }
        ensures value { IfSome result (λ made. made ≡ rates_of cpu excp record_fee) }
    {
        if cpu > MAX_RATE || excp > MAX_RATE || record_fee > MAX_RATE {
            return None;
        }
        Some(Rates {
            cpu,
            excp,
            record_fee,
        })
    }

    /// The rate of a CPU second, in ten-thousandths of the money unit.
    pub fn cpu(self) -> u64
        ensures { result ≡ self.cpu }
    {
        self.cpu
    }

    /// The rate of 1,000 blocks, in ten-thousandths of the money unit.
    pub fn excp(self) -> u64
        ensures { result ≡ self.excp }
    {
        self.excp
    }

    /// The rate of the record itself, in ten-thousandths of the money unit.
    pub fn record_fee(self) -> u64
        ensures { result ≡ self.record_fee }
    {
        self.record_fee
    }

    /// What a record costs at a shift's percent, in ten-thousandths of the money unit. Its CPU time
    /// is in hundredths of a second.
    pub(crate) fn amount(self, percent: u16, cpu: u64, excp: u32) -> u64
        requires percent { percent ≤ most_percent }
        requires cpu { cpu ≤ 2 ^ 33 }
        ensures value { result ≡ amount_of self percent cpu excp }
        ensures bound { result ≤ most_amount }
    {
        // All is added in parts before it is rounded, so that the price is rounded once.
        let parts = HUNDREDTH_PARTS * u128::from(cpu) * u128::from(self.cpu)
            + u128::from(excp) * u128::from(self.excp)
            + RECORD_PARTS * u128::from(self.record_fee);
        ((parts * u128::from(percent) + HALF_PARTS) / WHOLE_PARTS) as u64
    }
}
