//! Choices, one after the other, or choices of none.

ghost use Rattle.std.specs.Prelude.{◌≡◌, ◌≤◌, IfOk, OnErr, length};
ghost use Rattle.book_model.specs.Words.{note_given};
ghost use Rattle.book_core.specs.Transition.{IsTransition};
ghost use Rattle.book_core.specs.Calls.{IsCall};
ghost use Rattle.office.specs.Choices.{ChoosesEach, named_outcome};

use book_core::{Ledger, LedgerFault, Note, Ruled};
use std::alloc::{AllocError, Global};

/// What came of choices.
#[derive(Drop)]
pub struct Chosen {
    /// The answers to those before a refusal, or to all of them.
    pub answers: Vec<Ruled>,
    /// The refusal of the one after these, if there is one.
    pub refusal: Option<LedgerFault>,
}

/// Chooses the record of a name, or withholds its work.
fn choose_named<L: Ledger>(
    ledger: &mut L,
    withheld: bool,
    name: [u8; 32],
    note: &Option<Note>,
) -> Result<Ruled, LedgerFault>
    ensures { IsCall (λ ruled. ruled) (L.seen ledger.old) (L.seen ledger.new) result
        (named_outcome (note_given note.now) withheld (L.seen ledger.old).naming name) }
{
    if withheld {
        return ledger.withhold(name, note);
    }
    ledger.choose(name, note)
}

/// Chooses the records of these names, or withholds their work, one after the other, up to the first
/// refusal, each with the note. An error is a lack of memory for the answers: nothing was chosen.
pub fn choose_each<L: Ledger>(
    alloc: Global,
    ledger: &mut L,
    withheld: bool,
    names: &[[u8; 32]],
    note: &Option<Note>,
) -> Result<Chosen, AllocError>
    ensures chosen { IfOk result (λ chosen. IsTransition (L.seen ledger.old) (L.seen ledger.new)
        (ChoosesEach (note_given note.now) withheld (L.seen ledger.old).naming names.now
        chosen.answers.items chosen.refusal)) }
    ensures few { IfOk result (λ chosen. length chosen.answers.items ≤ length names.now) }
    ensures none { OnErr result (ledger.new ≡ ledger.old) }
{
    // The room for all answers is taken first: if there is too little, the books stay as they were.
    let mut answers = Vec::with_capacity(alloc, names.len())?;
    for name in names {
        match choose_named(ledger, withheld, *name, note) {
            Ok(ruled) => answers.push(ruled)?,
            Err(fault) => {
                return Ok(Chosen {
                    answers,
                    refusal: Some(fault),
                });
            }
        }
    }
    Ok(Chosen {
        answers,
        refusal: None,
    })
}
