//! The charge rows of what some records cost.

ghost use Rattle.std.specs.Prelude.{◌≡◌, IfOk, nat_lt, sum_by};
ghost use Rattle.book_model.specs.Words.{FitSums, most_cost, rows_of};

use book_core::{MAX_COST, empty_row, key_of};
use book_model::ChargeRow;
use std::alloc::{AllocError, Global};
use std::collections::BTreeMap;
use tariff_rules::Priced;

/// These prices are together more than the books hold.
pub(crate) fn are_too_dear(prices: &[Priced]) -> bool
    ensures { result ≡ nat_lt most_cost (sum_by (λ one. one.amount) prices.now) }
{
    let mut cost: u64 = 0;
    for priced in prices {
        // It is over at the first excess: 64 bits need not hold what all of them cost.
        let Some(more) = cost.checked_add(priced.amount) else {
            return true;
        };
        if more > MAX_COST {
            return true;
        }
        cost = more;
    }
    false
}

/// A row for each key of the records that cost this, in the order of the keys.
pub(crate) fn charge_rows(alloc: Global, prices: &[Priced]) -> Result<Vec<ChargeRow>, AllocError>
    requires { FitSums prices.now }
    ensures { IfOk result (λ rows. rows.items ≡ rows_of prices.now) }
{
    let mut rows = BTreeMap::new(alloc);
    for priced in prices {
        let key = key_of(priced);
        let row = rows.entry(key)?.or_insert(empty_row(key));
        row.count += 1;
        row.cpu += priced.cpu;
        row.blocks += priced.excp;
        row.amount += priced.amount;
    }
    rows.into_values().collect(alloc)
}
