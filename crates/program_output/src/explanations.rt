//! What a number or a word on standard error or in a list means, and what to do.

ghost use Rattle.program_output.specs.Explanations.{Explains};

use crate::words::WordKind;
use crate::{damages, frame_faults, ledger_faults, tariff_faults, words};

/// What kind of thing a number stands for, or a word that has none.
#[derive(Clone, Copy)]
pub enum FaultKind {
    /// A fault of a dump's framing.
    Frame,
    /// A refusal of the books.
    Ledger,
    /// A fault of a tariff file.
    Tariff,
    /// What is wrong with a damaged record.
    Damage,
    /// A word that has no number. It is explained under 0.
    Word(WordKind),
}

/// What a number or a word means.
#[derive(Clone, Copy)]
pub struct Explanation {
    /// What happened, in one line.
    pub meaning: &'static str,
    /// What to do, in one line.
    pub advice: &'static str,
}

/// What a number means, and what to do. None where nothing of that kind has the number.
pub fn explained(kind: FaultKind, number: u16) -> Option<Explanation>
    ensures { Explains kind number result }
{
    match kind {
        FaultKind::Frame => frame_faults::explained(number),
        FaultKind::Ledger => ledger_faults::explained(number),
        FaultKind::Tariff => tariff_faults::explained(number),
        FaultKind::Damage => damages::explained(number),
        FaultKind::Word(kind) => words::explained(kind, number),
    }
}
