//! The charge rows of some prices, which come one at a time.

ghost use Rattle.std.specs.Prelude.{◌≡◌, ◌++◌, ◌∷◌, [], OnOk};
ghost use Rattle.book_core.specs.KeyedRows.{keyed_rows};
ghost use Rattle.table_ledger.specs.OtherPrices.{Costs};

use crate::day_write::{first_row, join_price};
use book_core::{ChargeRow, MAX_COST, RowKey, key_of};
use sqlite_trees::error::StoreError;
use std::alloc::{AllocError, Global};
use std::collections::BTreeMap;
use tariff_rules::Priced;

/// The charge rows of some prices, which come one at a time, and what they are together.
#[derive(Drop)]
pub(crate) struct RowSums {
    rows: BTreeMap<RowKey, ChargeRow>,
    cost: u64,
}

/// A price joins the row of its key. Where 64 bits do not hold the sums, it is an error: `Corrupt`.
fn add_price(rows: &mut BTreeMap<RowKey, ChargeRow>, priced: &Priced) -> Result<(), StoreError>
    ensures joined { OnOk result ((costs : Costs) → rows.old.entries ≡ keyed_rows costs
        → rows.new.entries ≡ keyed_rows (costs ++ priced.now ∷ [])) }
{
    let key = key_of(priced);
    // Most prices have a row at their key already: it is looked for once, and changed in place.
    if let Some(row) = rows.get_mut(&key) {
        let Some(_) = join_price(row, priced) else {
            return Err(StoreError::Corrupt);
        };
        return Ok(());
    }
    rows.insert(key, first_row(priced))?;
    Ok(())
}

impl RowSums {
    ghost use Rattle.std.specs.Prelude.{◌++◌, ◌∷◌, [], IfOk};
    ghost use Rattle.table_ledger.specs.OtherPrices.{AreRowsOf, AreSumsOf, Costs, SumsUp};

    /// No price yet.
    pub(crate) fn new(alloc: Global) -> RowSums
        ensures { AreSumsOf result [] }
    {
        RowSums {
            rows: BTreeMap::new(alloc),
            cost: 0,
        }
    }

    /// One more price, or the answer that with it they are more than the books hold.
    pub(crate) fn add(&mut self, priced: &Priced) -> Result<bool, StoreError>
        ensures sums { IfOk result (λ room. (costs : Costs) → AreSumsOf self.old costs
            → SumsUp self.new (costs ++ priced.now ∷ []) room) }
    {
        // It ends at the first excess: 64 bits need not hold what all of them cost.
        let Some(cost) = self.cost.checked_add(priced.amount) else {
            return Ok(false);
        };
        if cost > MAX_COST {
            return Ok(false);
        }
        add_price(&mut self.rows, priced)?;
        self.cost = cost;
        Ok(true)
    }

    /// The rows, by day, then centre, then shift.
    pub(crate) fn into_rows(self, alloc: Global) -> Result<Vec<ChargeRow>, AllocError>
        ensures { IfOk result (λ rows. (costs : Costs) → AreSumsOf self costs
            → AreRowsOf costs (Some rows)) }
    {
        self.rows.into_values().collect(alloc)
    }
}
