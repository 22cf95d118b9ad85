//! Requests, one after the other.

ghost use Rattle.std.specs.Prelude.{◌≡◌, All, IfOk, OnErr};
ghost use Rattle.book_core.specs.Transition.{IsTransition};
ghost use Rattle.book_core.specs.Follow.{FollowsHistory};
ghost use Rattle.office.specs.Runs.{IsAskableWithoutReader, Runs};

use crate::asking::ask_without_reader;
use crate::request::{Answer, Asked};
use book_core::{Ledger, LedgerFault};
use std::alloc::{AllocError, Global};

/// Does what is asked, one request after the other, each whatever came of those before it. Each
/// brings its dump, if it has one. An error is a lack of memory for the answers: nothing was asked.
pub fn run<L: Ledger>(
    alloc: Global,
    ledger: &mut L,
    requests: &[Asked],
) -> Result<Vec<Result<Answer, LedgerFault>>, AllocError>
    requires { All IsAskableWithoutReader requests.now }
    // Each answer is that of the definitions, and the books are those after it.
    ensures runs { IfOk result (λ answers. IsTransition (L.seen ledger.old) (L.seen ledger.new)
        (Runs (L.seen ledger.old).naming requests.now answers.items)) }
    // These are the books that the whole history defines.
    ensures history { IfOk result (λ answers. FollowsHistory (L.seen ledger.old) (L.seen ledger.new)
        (Runs (L.seen ledger.old).naming requests.now answers.items)) }
    ensures none { OnErr result (ledger.new ≡ ledger.old) }
{
    // The room for all answers is taken first: if there is too little, the books stay as they were.
    let mut answers = Vec::with_capacity(alloc, requests.len())?;
    for asked in requests {
        let answer = ask_without_reader(alloc, ledger, asked);
        answers.push(answer)?;
    }
    Ok(answers)
}
