//! The rule of identity of books, by their row.

ghost use Rattle.book_audit.specs.Rules as spec;

use smf_type30::Type30;

/// The rule under which books begin.
const FIRST_RULE: u64 = 1;

/// The rule that is adopted later.
const SECOND_RULE: u64 = 2;

/// The period of its adoption, in books that did not adopt it.
const NEVER_ADOPTED: u64 = 0;

/// The last possible period.
const LAST_PERIOD: u64 = 9_999;

/// The rule of identity that is in force.
#[derive(Clone, Copy)]
pub(crate) enum IdentityRule {
    /// The one under which books begin.
    First,
    /// Time and date of the initiation are part of an identity. It was adopted while this period
    /// was open.
    SecondSince(u16),
}

impl IdentityRule {
    ghost use Rattle.std.specs.Prelude.{◌≡◌, true};

    /// The rule for a number and a period of adoption, if books may have both.
    pub(crate) fn of(number: u64, adopted: u64) -> Option<IdentityRule>
        ensures { result ≡ spec.rule_of number adopted }
    {
        if number == FIRST_RULE && adopted == NEVER_ADOPTED {
            return Some(IdentityRule::First);
        }
        if number == SECOND_RULE && 0 < adopted && adopted <= LAST_PERIOD {
            return Some(IdentityRule::SecondSince(adopted as u16));
        }
        None
    }

    /// Whether it was adopted.
    pub(crate) fn is_adopted(self) -> bool
        ensures { result ≡ spec.is_adopted self }
    {
        match self {
            IdentityRule::First => false,
            IdentityRule::SecondSince(_) => true,
        }
    }

    /// Whether it can be in force when this period is open: no adoption is still to come.
    pub(crate) fn is_by(self, open_period: u16) -> bool
        ensures { result ≡ spec.is_by open_period self }
    {
        match self {
            IdentityRule::First => true,
            IdentityRule::SecondSince(adopted) => adopted <= open_period,
        }
    }

    /// Whether a record that was chosen in a period may be alone in its identity: an adoption in
    /// that period or later can part it from all records among which it was chosen.
    pub(crate) fn may_split(self, period: u16) -> bool
        ensures { result ≡ spec.may_split period self }
    {
        match self {
            IdentityRule::First => false,
            IdentityRule::SecondSince(adopted) => period <= adopted,
        }
    }

    /// Whether that is the identity of usage.
    pub(crate) fn is_identity(self, identity: &[u8], usage: &Type30<'_>) -> bool
        ensures { result ≡ true → identity.now ≡ spec.identity_under self usage.now }
    {
        match self {
            IdentityRule::First => usage.identity().as_slice() == identity,
            IdentityRule::SecondSince(_) => usage.identity2().as_slice() == identity,
        }
    }
}
