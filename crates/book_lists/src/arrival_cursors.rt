//! The records that are held, by name, each with the entry by which it came, read one at a time.

ghost use Rattle.std.specs.Prelude.{◌≡◌, ◌++◌, ◌∷◌, [], false, option_map};
ghost use Rattle.book_model.specs.Words.{arrival_outcome};
ghost use Rattle.book_core.specs.Calls.{IsCall};
ghost use Rattle.book_lists.specs.ArrivalsInTurn.{name_behind};

use crate::cursors::Cursor;
use book_core::{Arrival, Ledger, LedgerFault};

/// The bytes from which the record after that of a name is the first: a zero byte behind the name.
fn bytes_after(name: &[u8; 32]) -> [u8; 33]
    ensures { result ≡ name.now ++ 0 ∷ [] }
{
    let mut bytes = [0; 33];
    bytes[..32].copy_from_slice(name);
    bytes
}

/// The record after this one, or the first of all.
fn arrival_after<L: Ledger>(
    ledger: &mut L,
    last: Option<Arrival>,
) -> Result<Option<Arrival>, LedgerFault>
    ensures { IsCall (λ found. found) (L.seen ledger.old) (L.seen ledger.new) result
        (arrival_outcome (L.seen ledger.old).naming (name_behind last)) }
{
    match last {
        None => ledger.arrival_from(&[]),
        Some(arrival) => ledger.arrival_from(&bytes_after(&arrival.name)),
    }
}

/// The records of the books, in the order of their names.
pub struct ArrivalCursor;

impl<L: Ledger> Cursor<L> for ArrivalCursor {
    ghost use Rattle.std.specs.Prelude.{◌≡◌, ◌<◌, IfOk, IfSome, Ok, false, option_map};
    ghost use Rattle.book_model.specs.declared.entry.Arrival.{Arrival};
    ghost use Rattle.book_model.specs.Words.{arrival_outcome, arrivals};
    ghost use Rattle.book_core.specs.Calls.{IsCall};
    ghost use Rattle.book_lists.specs.ArrivalsInTurn.{arrivals_in_turn, name_from};

    type Item = Arrival;

    ghost Entry = { Arrival };

    ghost shown = { λ arrival. arrival };

    ghost IsSound = { λ arrival. Unit {0} };

    ghost all = { λ cursor naming book. Ok (arrivals naming book) };

    ghost asked = { λ cursor naming count last book.
        (arrival_outcome naming (name_from count last) book).answer };

    fn next(
        &self,
        ledger: &mut L,
        count: u64,
        last: Option<Arrival>,
    ) -> Result<Option<Arrival>, LedgerFault>
        requires { 0 < count → (L.seen ledger.old).must_reopen ≡ false }
        ensures item { IsCall (option_map (λ arrival. arrival)) (L.seen ledger.old)
            (L.seen ledger.new) result (arrival_outcome (L.seen ledger.old).naming
            (name_from count (option_map (λ arrival. arrival) last))) }
        ensures sound { IfOk result (λ found. IfSome found (λ arrival. Unit {0})) }
    {
        if count == 0 {
            return ledger.arrival_from(&[]);
        }
        arrival_after(ledger, last)
    }

    ghost in_turn = { λ cursor naming book count last. arrivals_in_turn naming book count last };
}
