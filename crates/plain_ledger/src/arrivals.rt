//! Records by their names, with the entries of the journal by which they came.

ghost use Rattle.std.specs.Prelude.{◌≡◌, find, option_map};
ghost use Rattle.book_model.specs.Words as spec;
ghost use Rattle.plain_ledger.specs.MadeEntries.{arrival_made};

use crate::held::HeldRecord;
use crate::made_entries::{MadeEntry, came_by};
use book_model::Arrival;
use std::collections::BTreeMap;

/// The name is these bytes or comes after them.
fn is_from(name: &[u8; 32], from: &[u8]) -> bool
    ensures { result ≡ spec.is_from from.now name.now }
{
    !name.as_slice().cmp(from).is_lt()
}

/// The first record whose name is these bytes or comes after them.
pub(crate) fn arrival_among(
    held: &BTreeMap<[u8; 32], HeldRecord>,
    made: &[MadeEntry],
    from: &[u8],
) -> Option<Arrival>
    ensures { result ≡ option_map (arrival_made made.now)
        (find (λ entry. spec.is_from from.now entry.0) held.now.entries) }
{
    for (name, kept) in held {
        if is_from(name, from) {
            let entry = came_by(made, &kept.bytes);
            return Some(Arrival { name: *name, entry });
        }
    }
    None
}
