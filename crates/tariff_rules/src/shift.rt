//! Shifts: what they charge, and when they are worked.

ghost use Rattle.std.specs.Prelude.{◌≡◌};
ghost use Rattle.smf_text.specs.Day.{IsDay, weekday_of};
ghost use Rattle.tariff_rules.specs.Price as spec;
ghost use Rattle.tariff_rules.specs.Reckoning.{rule_number};
ghost use Rattle.tariff_rules.specs.Terms.{IsShift};

mod conflict;
mod entry;

pub(crate) use conflict::has_conflict;
use smf_text::{MAX_NAME, Name, weekday};
use smf_type30::Moment;
use std::marker::Model;

/// The highest percent that a shift charges.
pub const MAX_PERCENT: u16 = 1000;

/// The percent that charges the rates as they are.
const BASE_PERCENT: u16 = 100;

/// The name of the shift of the moments that no rule has.
const BASE_LETTERS: [u8; MAX_NAME] = *b"BASE\0\0\0\0\0\0\0\0\0\0\0\0";

/// The hundredths of a second of a minute.
const HUNDREDTHS_PER_MINUTE: u32 = 6000;

/// A shift, and what it charges.
#[derive(Clone, Copy, PartialEq, Eq, PartialOrd, Ord)]
pub struct Shift {
    pub name: Name,
    /// In percent of the rates.
    pub percent: u16,
}

impl Shift {
    /// The shift of the moments that no rule has.
    pub fn base() -> Shift
        ensures { result ≡ spec.base_shift }
    {
        Shift {
            name: Name::of_letters(BASE_LETTERS, 4),
            percent: BASE_PERCENT,
        }
    }
}

/// When a shift is worked: its weekdays, Monday 1 to Sunday 7, its first minute of the day, and the
/// first after it.
#[derive(Drop)]
pub struct ShiftRule {
    shift: Shift,
    days: Vec<u8>,
    from: u32,
    to: u32,
}

impl Model for ShiftRule {
    ghost use Rattle.tariff_rules.specs.Terms.{IsShift, ShiftRule as Rule};

    ghost Value = { Rule };

    ghost view = { λ r. record { shift = r.shift; days = r.days.items; from = r.from; to = r.to } };

    ghost invariant = { λ r. IsShift r.shift };
}

impl ShiftRule {
    /// The shift that it is a rule of.
    pub fn shift(&self) -> Shift
        ensures { result ≡ self.now.shift }
    {
        self.shift
    }

    /// Whether the shift is worked in that minute of that weekday.
    fn has_moment(&self, weekday: u8, minute: u32) -> bool
        ensures { result ≡ spec.has_moment weekday minute self.now }
    {
        self.days.contains(&weekday) && self.from <= minute && minute < self.to
    }
}

/// The shift of a moment: that of the first rule that has it.
pub(crate) fn shift_at(rules: &[ShiftRule], moment: Moment) -> Shift
    requires { IsDay moment.day }
    ensures value { result ≡ spec.shift_at rules.now moment.day moment.time }
    ensures shift { IsShift result }
{
    let day = weekday(moment.day);
    let minute = moment.time / HUNDREDTHS_PER_MINUTE;
    for rule in rules {
        if rule.has_moment(day, minute) {
            return rule.shift;
        }
    }
    Shift::base()
}

/// The number, from 1, of the first rule that has the moment.
pub(crate) fn shift_rule(rules: &[ShiftRule], moment: Moment) -> Option<u64>
    requires { IsDay moment.day }
    ensures { result ≡ rule_number
        (spec.has_moment (weekday_of moment.day) (spec.minute_of moment.time)) rules.now }
{
    let day = weekday(moment.day);
    let minute = moment.time / HUNDREDTHS_PER_MINUTE;
    for (before, rule) in rules.iter().enumerate() {
        if rule.has_moment(day, minute) {
            return Some(before as u64 + 1);
        }
    }
    None
}
