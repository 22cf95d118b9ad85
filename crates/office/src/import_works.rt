//! Works that are withheld by the import by which their records came. No table says which these are:
//! each record is asked for its entry.

ghost use Rattle.std.specs.Prelude.{◌≡◌, OnOk};
ghost use Rattle.book_model.specs.Words.{note_given};
ghost use Rattle.book_core.specs.Calls.{IsCall};
ghost use Rattle.book_core.specs.Transition.{IsTransition};
ghost use Rattle.office.specs.ImportWorks.{WithholdsImport, names_outcome, names_with};

use crate::withholding::{WorksTold, withhold_each};
use book_core::{Arrival, Ledger, LedgerFault, Note};
use book_lists::{ArrivalCursor, Step, fold};
use std::alloc::{AllocError, Global};

/// Adds the name of a record, if it came by the entry of this number.
fn push_if(names: &mut Vec<[u8; 32]>, entry: u64, arrival: &Arrival) -> Result<(), AllocError>
    ensures { OnOk result
        (names.new.items ≡ names_with names.old.items entry arrival.now) }
{
    if arrival.entry == entry {
        names.push(arrival.name)?;
        return Ok(());
    }
    Ok(())
}

/// Keeps the names of the records that came by an entry.
#[derive(Drop)]
struct NamesStep {
    entry: u64,
}

impl Step<Arrival> for NamesStep {
    ghost use Rattle.std.specs.Prelude.{◌≡◌};
    ghost use Rattle.office.specs.ImportWorks.{names_by};

    type State = Vec<[u8; 32]>;

    ghost Takes = { λ step arrival. Unit {0} };

    ghost Has = { λ step names arrivals. names.items ≡ names_by step.entry arrivals };

    fn begin(&self, alloc: Global) -> Result<Vec<[u8; 32]>, AllocError> {
        Ok(Vec::new(alloc))
    }

    fn add(
        &self,
        _alloc: Global,
        names: &mut Vec<[u8; 32]>,
        arrival: &Arrival,
    ) -> Result<(), LedgerFault> {
        push_if(names, self.entry, arrival)?;
        Ok(())
    }
}

/// The names of the records that came by the entry of a number, in order.
fn names_came<L: Ledger>(
    alloc: Global,
    ledger: &mut L,
    entry: u64,
) -> Result<Vec<[u8; 32]>, LedgerFault>
    ensures { IsCall (λ names. names.items) (L.seen ledger.old) (L.seen ledger.new) result
        (names_outcome entry (L.seen ledger.old).naming) }
{
    fold(alloc, ledger, &ArrivalCursor, &NamesStep { entry })
}

/// Withholds the works of the records that came by the entry of a number, one change of the books
/// after the other, up to the first refusal, each with the note. An error is what the books answered
/// where they were asked for these records: nothing was withheld.
pub fn withhold_import<L: Ledger>(
    alloc: Global,
    ledger: &mut L,
    entry: u64,
    note: &Option<Note>,
) -> Result<WorksTold, LedgerFault>
    ensures { IsTransition (L.seen ledger.old) (L.seen ledger.new)
        (WithholdsImport (note_given note.now) (L.seen ledger.old).naming entry result) }
{
    match names_came(alloc, ledger, entry) {
        Ok(names) => Ok(withhold_each(ledger, &names, note)),
        Err(fault) => Err(fault),
    }
}
