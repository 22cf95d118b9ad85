//! The disputes of the books, read one at a time.

ghost use Rattle.std.specs.Prelude.{◌≡◌, ◌++◌, ◌∷◌, [], IfOk, false, option_map};
ghost use Rattle.book_model.specs.Words.{ShowsDispute, dispute_outcome, dispute_shown};
ghost use Rattle.book_core.specs.Calls.{IsCall};
ghost use Rattle.book_lists.specs.DisputesInTurn.{bytes_behind};

use crate::cursors::Cursor;
use book_core::{Dispute, Ledger, LedgerFault};
use std::alloc::AllocError;

/// The bytes from which the dispute after this one is the first: a zero byte behind its identity.
fn bytes_after(dispute: Dispute) -> Result<Vec<u8>, AllocError>
    ensures { IfOk result (λ bytes. bytes.items ≡ dispute.identity.items ++ 0 ∷ []) }
{
    let mut bytes = dispute.identity;
    bytes.push(0)?;
    Ok(bytes)
}

/// The dispute after this one, or the first of all.
fn dispute_after<L: Ledger>(
    ledger: &mut L,
    last: Option<Dispute>,
) -> Result<Option<Dispute>, LedgerFault>
    requires { (L.seen ledger.old).must_reopen ≡ false }
    ensures dispute { IsCall (option_map dispute_shown) (L.seen ledger.old) (L.seen ledger.new) result
        (dispute_outcome (L.seen ledger.old).naming (bytes_behind (option_map dispute_shown last))) }
    ensures shown { IfOk result ShowsDispute }
{
    let Some(dispute) = last else {
        return ledger.dispute_from(&[]);
    };
    let from = bytes_after(dispute)?;
    ledger.dispute_from(&from)
}

/// The disputes of the books, in the order of their identities.
pub struct DisputeCursor;

impl<L: Ledger> Cursor<L> for DisputeCursor {
    ghost use Rattle.std.specs.Prelude.{◌≡◌, ◌<◌, IfOk, IfSome, Ok, false, option_map};
    ghost use Rattle.book_model.specs.Words.{Disputed, IsDispute, dispute_outcome, dispute_shown};
    ghost use Rattle.book_model.specs.Words.{disputes_in};
    ghost use Rattle.book_core.specs.Calls.{IsCall};
    ghost use Rattle.book_lists.specs.DisputesInTurn.{bytes_from, disputes_in_turn};

    type Item = Dispute;

    ghost Entry = { Disputed };

    ghost shown = { dispute_shown };

    ghost IsSound = { λ dispute. IsDispute (dispute_shown dispute) };

    ghost all = { λ cursor naming book. Ok (disputes_in naming book.rulings book.held) };

    ghost asked = { λ cursor naming count last book.
        (dispute_outcome naming (bytes_from count last) book).answer };

    fn next(
        &self,
        ledger: &mut L,
        count: u64,
        last: Option<Dispute>,
    ) -> Result<Option<Dispute>, LedgerFault>
        requires { 0 < count → (L.seen ledger.old).must_reopen ≡ false }
        ensures item { IsCall (option_map dispute_shown) (L.seen ledger.old) (L.seen ledger.new)
            result (dispute_outcome (L.seen ledger.old).naming
            (bytes_from count (option_map dispute_shown last))) }
        ensures sound { IfOk result
            (λ found. IfSome found (λ dispute. IsDispute (dispute_shown dispute))) }
    {
        if count == 0 {
            return ledger.dispute_from(&[]);
        }
        dispute_after(ledger, last)
    }

    ghost in_turn = { λ cursor naming book count last. disputes_in_turn naming book count last };
}
