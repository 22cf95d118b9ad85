//! Works that are withheld together: how many names were answered, and how.

ghost use Rattle.std.specs.Prelude.{◌≡◌, ◌<◌, ◌≤◌, ◌+◌, ◌^◌, Err, IfErr, IfOk, false};
ghost use Rattle.book_core.specs.Withholdings as spec;
ghost use Rattle.book_core.specs.Withholdings.{told_as};

use book_model::{LedgerFault, Ruled};

/// What came of the first of some works that were to be withheld.
#[derive(Clone, Copy)]
pub struct Withheld {
    /// How many are answered.
    pub taken: usize,
    /// How many of these are withheld, and were not before.
    pub done: usize,
    /// How many of these are of records that are not held.
    pub absent: usize,
}

/// No record of the name is held.
fn is_not_held(fault: LedgerFault) -> bool
    ensures { result ≡ spec.is_not_held fault }
{
    match fault {
        LedgerFault::NoSuchRecord => true,
        _ => false,
    }
}

/// The answer to a work, by what a call of its own says of it: none where its record is not held. A
/// fault is any other.
pub fn work_answer(told: Result<Ruled, LedgerFault>) -> Result<Option<Ruled>, LedgerFault>
    ensures answer { IfOk result (λ answer. told ≡ told_as answer) }
    ensures refused { IfErr result (λ fault. told ≡ Err fault) }
    ensures held { IfErr result (λ fault. spec.is_not_held fault ≡ false) }
{
    match told {
        Ok(ruled) => Ok(Some(ruled)),
        Err(fault) => {
            if is_not_held(fault) {
                return Ok(None);
            }
            Err(fault)
        }
    }
}

/// How many works an answer withheld that were not withheld before: one or none.
fn done_in(answer: Option<Ruled>) -> usize
    ensures { result ≡ spec.done_in answer }
{
    match answer {
        Some(Ruled::Done) => 1,
        Some(Ruled::Already) => 0,
        None => 0,
    }
}

/// How many records that are not held an answer is of: one or none.
fn absent_in(answer: Option<Ruled>) -> usize
    ensures value { result ≡ spec.absent_in answer }
    ensures one { spec.done_in answer + result ≤ 1 }
{
    match answer {
        Some(_) => 0,
        None => 1,
    }
}

/// The same with one more answer.
pub fn with_answer(told: Withheld, answer: Option<Ruled>) -> Withheld
    requires few { told.taken < 2 ^ 62 }
    requires within { told.done + told.absent ≤ told.taken }
    ensures value { result ≡ spec.with_answer told answer }
    ensures within { result.done + result.absent ≤ result.taken }
{
    Withheld {
        taken: told.taken + 1,
        done: told.done + done_in(answer),
        absent: told.absent + absent_in(answer),
    }
}
