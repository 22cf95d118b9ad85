//! Works that are withheld, one change of the books after the other.

ghost use Rattle.std.specs.Prelude.{◌≡◌, ◌+◌, ◌<◌, ◌≤◌, ◌^◌};
ghost use Rattle.book_model.specs.Words.{note_given};
ghost use Rattle.book_core.specs.Transition.{IsTransition};
ghost use Rattle.office.specs.Withholdings as spec;
ghost use Rattle.office.specs.Withholdings.{WithholdsSo, answered};

use book_core::{Ledger, LedgerFault, Note, Withheld};

/// How works were answered that were to be withheld.
#[derive(Clone, Copy)]
pub struct WorkCounts {
    /// They are withheld, and were not before.
    pub withheld: usize,
    /// They were withheld already.
    pub already: usize,
    /// Their records are not held.
    pub not_held: usize,
}

/// What came of works that were to be withheld.
#[derive(Clone, Copy)]
pub struct WorksTold {
    pub counts: WorkCounts,
    /// The refusal of the one after those that were answered, if there is one.
    pub refusal: Option<LedgerFault>,
}

/// The counts with what one change took.
fn with_taken(counts: WorkCounts, told: Withheld) -> WorkCounts
    requires few { answered counts + told.taken < 2 ^ 63 }
    requires within { told.done + told.absent ≤ told.taken }
    ensures value { result ≡ spec.with_taken counts told }
    ensures answered { answered result ≡ answered counts + told.taken }
{
    WorkCounts {
        withheld: counts.withheld + told.done,
        already: counts.already + (told.taken - (told.done + told.absent)),
        not_held: counts.not_held + told.absent,
    }
}

/// Withholds the works of the records of these names, one change of the books after the other, up to
/// the first refusal, each with the note. Records that are not held are passed over.
pub fn withhold_each<L: Ledger>(
    ledger: &mut L,
    names: &[[u8; 32]],
    note: &Option<Note>,
) -> WorksTold
    ensures { IsTransition (L.seen ledger.old) (L.seen ledger.new)
        (WithholdsSo (note_given note.now) (L.seen ledger.old).naming names.now result.counts
        result.refusal) }
{
    let mut counts = WorkCounts {
        withheld: 0,
        already: 0,
        not_held: 0,
    };
    let mut rest = names;
    while !rest.is_empty() {
        match ledger.withhold_many(rest, note) {
            Ok(told) => {
                counts = with_taken(counts, told);
                let (_, later) = rest.split_at(told.taken);
                rest = later;
            }
            Err(fault) => {
                return WorksTold {
                    counts,
                    refusal: Some(fault),
                };
            }
        }
    }
    WorksTold {
        counts,
        refusal: None,
    }
}
