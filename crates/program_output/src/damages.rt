//! The damages of a record by their numbers, and what is said of each.

ghost use Rattle.std.specs.Prelude.{◌≡◌, Some};
ghost use Rattle.smf_type30.specs.Damage.{damage_number};
ghost use Rattle.program_output.specs.Explanations.{Explains, HasFaultNumber, texts_of};
ghost use Rattle.program_output.specs.Meanings as spec;

use crate::explanations::{Explanation, FaultKind};
use smf_type30::Damage;

/// What to do about a damage of a record, whichever it is.
const NOT_CHARGED: &str = "It is not charged; ask whoever writes the dumps.";

/// The damage of a record that has a number.
fn of_number(number: u16) -> Option<Damage>
    ensures { HasFaultNumber damage_number number result }
{
    match number {
        1 => Some(Damage::Short),
        2 => Some(Damage::Date),
        3 => Some(Damage::Time),
        4 => Some(Damage::NoIdentification),
        5 => Some(Damage::Identification),
        6 => Some(Damage::Processor),
        7 => Some(Damage::InputOutput),
        8 => Some(Damage::Completion),
        9 => Some(Damage::Accounting),
        _ => None,
    }
}

/// What a damage of a record means.
#[tactic(auto, unfolding(crate::specs::Meanings::damage_texts))]
fn meaning_of(damage: Damage) -> &'static str
    ensures { texts_of (damage_number damage) spec.damage_texts
        ≡ Some (result.now, spec.not_charged) }
{
    match damage {
        Damage::Short => {
            "The record ends before its header does; or it is of type 30, and ends before its \
             subtype does, or, as the end of a step or a job, before its triplets do."
        }
        Damage::Date => "The date in the record's header is not a valid date.",
        Damage::Time => "The time in the record's header is not before midnight.",
        Damage::NoIdentification => "The record has no identification section, so it names no job.",
        Damage::Identification => {
            "The identification section is too short, or runs past the end of the record."
        }
        Damage::Processor => {
            "The processor section is too short, or runs past the end of the record."
        }
        Damage::InputOutput => {
            "The section on I/O activity is too short, or runs past the end of the record."
        }
        Damage::Completion => {
            "The completion section is too short, or runs past the end of the record."
        }
        Damage::Accounting => "The accounting fields do not lie inside the record.",
    }
}

/// What a damage of a record means, and what to do about it.
fn explanation_of(damage: Damage) -> Explanation
    ensures { texts_of (damage_number damage) spec.damage_texts
        ≡ Some (result.meaning.now, result.advice.now) }
{
    Explanation {
        meaning: meaning_of(damage),
        advice: NOT_CHARGED,
    }
}

/// What the damage of a record with a number means, and what to do about it.
pub(crate) fn explained(number: u16) -> Option<Explanation>
    ensures { Explains FaultKind.Damage number result }
{
    let damage = of_number(number)?;
    Some(explanation_of(damage))
}
