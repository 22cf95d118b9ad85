//! The faults of a tariff file by their numbers, and what is said of each.

ghost use Rattle.std.specs.Prelude.{◌≡◌, Some};
ghost use Rattle.tariff_rules.specs.Faults.{tariff_number};
ghost use Rattle.program_output.specs.Explanations.{Explains, HasFaultNumber, texts_of};
ghost use Rattle.program_output.specs.Meanings as spec;

use crate::explanations::{Explanation, FaultKind};
use tariff_rules::{Key, TariffFault};

/// The fault of a tariff file that has a number.
fn of_number(number: u16) -> Option<TariffFault>
    ensures { HasFaultNumber tariff_number number result }
{
    match number {
        1 => Some(TariffFault::Syntax),
        2 => Some(TariffFault::Missing(Key::Name)),
        3 => Some(TariffFault::Range(Key::Name)),
        4 => Some(TariffFault::Name),
        5 => Some(TariffFault::ShiftConflict),
        6 => Some(TariffFault::TooMany),
        7 => Some(TariffFault::Memory),
        _ => None,
    }
}

const SYNTAX: Explanation = Explanation {
    meaning: "The text is not a TOML document in UTF-8.",
    advice: "Look for a missing quote or bracket, or a key that appears twice.",
};

const MISSING: Explanation = Explanation {
    meaning: "A key is missing; it follows this number.",
    advice: "Add it. The key effective stands above the first line in brackets.",
};

const RANGE: Explanation = Explanation {
    meaning: "The value of a key is of the wrong type or out of range; the key follows this \
         number.",
    advice: "Look up its range under Tariff files in FORMATS.md.",
};

const NAME: Explanation = Explanation {
    meaning: "A name has the wrong form: it must be 1 to 16 characters of A to Z, 0 to 9 and the \
         hyphen.",
    advice: "Change the name of that shift or centre.",
};

const SHIFT_CONFLICT: Explanation = Explanation {
    meaning: "Two shifts of the same name have different percents, or a shift named BASE has one \
         other than 100.",
    advice: "Give them the same percent, or different names.",
};

const TOO_MANY: Explanation = Explanation {
    meaning: "The text has more than 1,048,576 bytes, or more than 64 shifts or 2,000 centres.",
    advice: "Take some out.",
};

const MEMORY: Explanation = Explanation {
    meaning: "There was not enough memory to read the tariff.",
    advice: "Run the command again with more memory.",
};

/// What a fault of a tariff file means, and what to do about it.
#[tactic(auto, unfolding(crate::specs::Meanings::tariff_texts))]
fn explanation_of(fault: TariffFault) -> Explanation
    ensures { texts_of (tariff_number fault) spec.tariff_texts
        ≡ Some (result.meaning.now, result.advice.now) }
{
    match fault {
        TariffFault::Syntax => SYNTAX,
        TariffFault::Missing(_) => MISSING,
        TariffFault::Range(_) => RANGE,
        TariffFault::Name => NAME,
        TariffFault::ShiftConflict => SHIFT_CONFLICT,
        TariffFault::TooMany => TOO_MANY,
        TariffFault::Memory => MEMORY,
    }
}

/// What the fault of a tariff file with a number means, and what to do about it.
pub(crate) fn explained(number: u16) -> Option<Explanation>
    ensures { Explains FaultKind.Tariff number result }
{
    let fault = of_number(number)?;
    Some(explanation_of(fault))
}
