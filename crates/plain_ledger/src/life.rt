//! The life of a record that is held: what each period did with it.

ghost use Rattle.std.specs.Prelude.{◌≡◌, ◌++◌, ◌<◌, IfOk, OnOk, length};
ghost use Rattle.book_model.specs.Words.{last_period};
ghost use Rattle.plain_ledger.specs.PlainLives as spec;
ghost use Rattle.plain_ledger.specs.PlainLives.{closed_shares, turn_at, turns_at};

use crate::treatment::{ClosedPeriod, Treatment};
use book_model::{Deed, Turn};
use std::alloc::{AllocError, Global};

/// What a period did with a record that has this share in it.
fn deed_by(treatment: Treatment) -> Deed
    ensures { result ≡ spec.deed_by treatment }
{
    match treatment {
        Treatment::Counted => Deed::Charged,
        Treatment::Added => Deed::Added,
        Treatment::Taken => Deed::Reversed,
    }
}

/// What a period did with a record, by the share that the record has in it, if it has one, joins
/// what earlier periods did.
pub(crate) fn push_turn(
    turns: &mut Vec<Turn>,
    period: u16,
    share: Option<Treatment>,
) -> Result<(), AllocError>
    ensures { OnOk result (turns.new.items ≡ turns.old.items ++ turn_at period share) }
{
    if let Some(treatment) = share {
        turns.push(Turn {
            period,
            deed: deed_by(treatment),
        })?;
    }
    Ok(())
}

/// What the closed periods did with the record of a name, one after another.
pub(crate) fn closed_turns(
    alloc: Global,
    closed: &[ClosedPeriod],
    name: &[u8; 32],
) -> Result<Vec<Turn>, AllocError>
    requires { length closed.now < last_period }
    ensures { IfOk result (λ turns. turns.items ≡ turns_at 1 (closed_shares name.now closed.now)) }
{
    let mut turns = Vec::new(alloc);
    for at in 0..closed.len() {
        let share = closed[at].treatments.get(name).copied();
        push_turn(&mut turns, at as u16 + 1, share)?;
    }
    Ok(turns)
}
