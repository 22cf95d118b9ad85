//! What a period does with a record.

ghost use Rattle.std.specs.Prelude.{◌≡◌, not};
ghost use Rattle.plain_ledger.specs.Treatments as spec;

use std::collections::BTreeMap;

/// A period has a record in one of three ways, or in none.
#[derive(Clone, Copy)]
pub(crate) enum Treatment {
    /// Its rows count the record.
    Counted,
    /// A plus line charges the record, which came late.
    Added,
    /// A minus line reverses what the record was charged before.
    Taken,
}

/// What a closed period does with each record, by name. It never changes.
#[derive(Drop)]
pub(crate) struct ClosedPeriod {
    pub(crate) treatments: BTreeMap<[u8; 32], Treatment>,
}

/// The share of a record, by whether it is charged at the period's end, was charged at the close
/// before, and is dated after that close.
pub(crate) fn treatment_of(is_charged: bool, was_posted: bool, is_new: bool) -> Option<Treatment>
    ensures { result ≡ spec.treatment_of is_charged was_posted is_new }
{
    match (is_charged, was_posted, is_new) {
        (true, _, true) => Some(Treatment::Counted),
        (true, false, false) => Some(Treatment::Added),
        (false, true, _) => Some(Treatment::Taken),
        _ => None,
    }
}
