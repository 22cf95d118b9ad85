//! What every ledger asks of a new record: its name, and whether there is room for it.

ghost use Rattle.std.specs.Prelude.{◌≡◌, ◌≤◌, ◌+◌, ◌||◌, length, nat_le, nat_lt};
ghost use Rattle.book_model.specs.Words.{most_amount, most_cost, most_held};
ghost use Rattle.book_model.specs.Records as spec;

use crate::limits::{MAX_COST, MAX_HELD};
use book_model::Naming;

/// The name of a record: that of its data, which follow the 4 bytes of its descriptor.
pub fn name_of<N: Naming>(naming: &N, bytes: &[u8]) -> [u8; 32]
    requires { 4 ≤ length bytes.now }
    ensures { result ≡ spec.name_of (N.name_of naming.now) bytes.now }
{
    let (_, data) = bytes.split_at(4);
    naming.name(data)
}

/// There is no room for a record of this cost beside this many others, with this cost together.
pub fn is_full(count: usize, total: u64, amount: u64) -> bool
    requires total { total ≤ most_cost }
    requires amount { amount ≤ most_amount }
    ensures { result ≡ (nat_le most_held count || nat_lt most_cost (total + amount)) }
{
    count >= MAX_HELD || total + amount > MAX_COST
}
