//! Shift rules that do not agree on what a shift charges.

ghost use Rattle.std.specs.Prelude.{◌≡◌};
ghost use Rattle.std.specs.List.{list_any};
ghost use Rattle.tariff_rules.specs.ShiftConflict as spec;

use super::{Shift, ShiftRule};

impl Shift {
    /// Whether the two are one shift with two percents.
    fn disagrees_with(&self, other: &Shift) -> bool
        ensures { result ≡ spec.disagrees_with self.now other.now }
    {
        self.name == other.name && self.percent != other.percent
    }

    fn disagrees_with_any(&self, rules: &[ShiftRule]) -> bool
        ensures { result ≡ list_any (λ rule. spec.disagrees_with self.now rule.shift) rules.now }
    {
        for rule in rules {
            if self.disagrees_with(&rule.shift) {
                return true;
            }
        }
        false
    }

    /// Whether the shift disagrees with `BASE`, or with the shift of some rule.
    fn conflicts_with(&self, rules: &[ShiftRule]) -> bool
        ensures { result ≡ spec.conflicts_with rules.now self.now }
    {
        self.disagrees_with(&Shift::base()) || self.disagrees_with_any(rules)
    }
}

/// Whether the rules give one shift two percents; `BASE` has one already.
pub(crate) fn has_conflict(rules: &[ShiftRule]) -> bool
    ensures { result ≡ spec.has_conflict rules.now }
{
    for rule in rules {
        if rule.shift.conflicts_with(rules) {
            return true;
        }
    }
    false
}
