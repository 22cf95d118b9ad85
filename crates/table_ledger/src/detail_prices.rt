//! What records cost by another tariff, where the details of some days lead to them. No other
//! record is read.

ghost use Rattle.tree_tables.specs.States.{state_of};
ghost use Rattle.tree_tables.specs.Steps.{Looks};
ghost use Rattle.table_ledger.specs.DetailPrices.{CostsNamed, FindsPriced, FindsRowsOfDays};

use crate::details::{Sought, next_sought};
use crate::row_sums::RowSums;
use book_core::{ChargeRow, Detail};
use smf_type30::Type30;
use sqlite_trees::error::StoreError;
use sqlite_trees::store::Store;
use std::alloc::Global;
use tariff_rules::{Priced, Tariff, price};
use tree_tables::{MOST_STEPS, TreeTables, usage_bytes};

/// A detail, and what its record costs by another tariff.
#[derive(Clone, Copy)]
struct DetailPrice {
    detail: Detail,
    priced: Priced,
}

/// What the record of a name costs by a tariff, whatever the tariff's first day. Where there is
/// none, it is an error: `Corrupt`.
fn price_named<S: Store>(
    tables: &mut TreeTables<S>,
    alloc: Global,
    tariff: &Tariff,
    name: &[u8; 32],
) -> Result<Priced, StoreError>
    ensures looks { Looks result (state_of tables.old) (state_of tables.new)
        (CostsNamed tariff.now name.now) }
{
    let Some(stored) = tables.find_record(alloc, name)? else {
        return Err(StoreError::Corrupt);
    };
    let bytes = usage_bytes(alloc, &stored.data_bytes)?;
    Ok(price(tariff, &Type30::of_usage(&bytes)))
}

/// The first of the details that are sought, and what its record costs by a tariff.
fn next_priced<S: Store>(
    tables: &mut TreeTables<S>,
    alloc: Global,
    tariff: &Tariff,
    sought: &Sought,
) -> Result<Option<DetailPrice>, StoreError>
    ensures looks { Looks result (state_of tables.old) (state_of tables.new)
        (FindsPriced tariff.now sought.now) }
{
    let Some(detail) = next_sought(tables, sought)? else {
        return Ok(None);
    };
    let priced = price_named(tables, alloc, tariff, &detail.name)?;
    Ok(Some(DetailPrice { detail, priced }))
}

/// The charge rows of the records that are counted and dated after one close, up to another, each
/// by a tariff, unless they cost more than the books hold. One record is read at a time.
pub(crate) fn rows_by_details<S: Store>(
    tables: &mut TreeTables<S>,
    alloc: Global,
    tariff: &Tariff,
    close: Option<i32>,
    through: Option<i32>,
) -> Result<Option<Vec<ChargeRow>>, StoreError>
    ensures looks { Looks result (state_of tables.old) (state_of tables.new)
        (FindsRowsOfDays tariff.now close through) }
{
    let mut sums = RowSums::new(alloc);
    let mut last = None;
    'details: for _ in 0..MOST_STEPS {
        let sought = Sought {
            close,
            through,
            centre: None,
            last,
        };
        let Some(next) = next_priced(tables, alloc, tariff, &sought)? else {
            let rows = sums.into_rows(alloc)?;
            return Ok(Some(rows));
        };
        let room = sums.add(&next.priced)?;
        if !room {
            return Ok(None);
        }
        last = Some(next.detail);
    }
    // So many are never held.
    Err(StoreError::OutOfMemory)
}
