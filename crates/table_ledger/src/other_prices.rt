//! The charge rows that a period would have by another tariff.

ghost use Rattle.std.specs.Prelude.{◌≡◌, IfOk, true};
ghost use Rattle.book_core.specs.OfficeRulings.{ruled_in};
ghost use Rattle.book_model.specs.Words.{AreRows, Naming, what_if_outcome};
ghost use Rattle.table_model.specs.ListsRead.{is_period};
ghost use Rattle.tree_tables.specs.States.{state_of};
ghost use Rattle.tree_tables.specs.Steps.{Always, Looks};
ghost use Rattle.table_ledger.specs.DetailPrices.{FindsRowsCounted};
ghost use Rattle.table_ledger.specs.OtherPrices.{FindsRowsUnder, JoinsSums};
ghost use Rattle.table_ledger.specs.Stages.{AttemptsOne};

use crate::charges::can_show;
use crate::count_test::CountTest;
use crate::detail_prices::rows_by_details;
use crate::row_sums::RowSums;
use crate::summary::Summary;
use book_core::{ChargeRow, LedgerFault};
use sqlite_trees::error::StoreError;
use sqlite_trees::store::Store;
use sqlite_value::row::Row;
use std::alloc::Global;
use tariff_rules::{Tariff, price};
use tree_tables::{MOST_STEPS, TreeTables, data_of, put_data, read_mark, usage_in};

/// About so many records are passed in a walk over all in the time in which one is looked for by
/// its detail.
const PASSED_MEANWHILE: u64 = 32;

/// The record of a row joins the sums at its price by a tariff, if it is counted; or the answer is
/// that with it they are more than the books hold. What is in `bytes` is lost.
fn add_counted(
    sums: &mut RowSums,
    bytes: &mut Vec<u8>,
    tariff: &Tariff,
    test: &CountTest,
    row: &Row,
) -> Result<bool, StoreError>
    ensures counted { IfOk result (JoinsSums tariff.now test.now row.now sums.old sums.new) }
{
    // Whether it is counted is told first, so that of a record that is not no data are copied.
    let mark = read_mark(row)?;
    if !test.counts(&mark) {
        return Ok(true);
    }
    put_data(bytes, data_of(row)?)?;
    sums.add(&price(tariff, &usage_in(bytes)?))
}

/// The charge rows of all records that are counted, each by a tariff, unless they cost more than
/// the books hold. One record is read at a time.
fn rows_under<S: Store>(
    tables: &mut TreeTables<S>,
    alloc: Global,
    tariff: &Tariff,
    test: &CountTest,
) -> Result<Option<Vec<ChargeRow>>, StoreError>
    ensures looks { Looks result (state_of tables.old) (state_of tables.new)
        (FindsRowsUnder tariff.now test.now) }
{
    let mut sums = RowSums::new(alloc);
    let mut row = Row::new(alloc);
    let mut bytes = Vec::new(alloc);
    tables.start_pass()?;
    'records: for _steps in 0..MOST_STEPS {
        let there = tables.next_record(&mut row)?;
        if !there {
            let rows = sums.into_rows(alloc)?;
            return Ok(Some(rows));
        }
        let room = add_counted(&mut sums, &mut bytes, tariff, test, &row)?;
        if !room {
            return Ok(None);
        }
    }
    // Only a disk that lies has more rows.
    Err(StoreError::Corrupt)
}

/// The charge rows of the records that a period counts, each by a tariff, in a walk over all that
/// are held.
fn rows_by_name<S: Store>(
    tables: &mut TreeTables<S>,
    alloc: Global,
    summary: &Summary,
    period: u16,
    tariff: &Tariff,
) -> Result<Option<Vec<ChargeRow>>, StoreError>
    requires { is_period period (ruled_in summary.now.rulings) ≡ true }
    ensures looks { Looks result (state_of tables.old) (state_of tables.new)
        (FindsRowsCounted period (ruled_in summary.now.rulings) tariff.now) }
{
    let test = CountTest::of_period(tables, alloc, summary, period)?;
    rows_under(tables, alloc, tariff, &test)
}

/// How many records some charge rows count.
fn count_of(rows: &[ChargeRow]) -> u64 {
    let mut count = 0u64;
    for row in rows {
        count = count.saturating_add(row.count);
    }
    count
}

/// Whether a period counts so few of the records that are held that it is sooner to look for one
/// after the other. No clause says when they are few: their rows are the same either way.
fn counts_few<S: Store>(
    tables: &mut TreeTables<S>,
    alloc: Global,
    held: usize,
    period: u16,
) -> Result<bool, StoreError>
    ensures looks { Looks result (state_of tables.old) (state_of tables.new)
        (λ tables few. Always tables) }
{
    let rows = tables.list_days(alloc, period)?;
    Ok(count_of(&rows) <= held as u64 / PASSED_MEANWHILE)
}

/// The charge rows of the records that a period counts, each by a tariff, unless they cost more
/// than the books hold.
fn rows_counted<S: Store>(
    tables: &mut TreeTables<S>,
    alloc: Global,
    summary: &Summary,
    period: u16,
    tariff: &Tariff,
) -> Result<Option<Vec<ChargeRow>>, StoreError>
    requires { is_period period (ruled_in summary.now.rulings) ≡ true }
    ensures looks { Looks result (state_of tables.old) (state_of tables.new)
        (FindsRowsCounted period (ruled_in summary.now.rulings) tariff.now) }
{
    let few = counts_few(tables, alloc, summary.held, period)?;
    if few {
        let close = summary.rulings.through_of(period - 1);
        let through = summary.rulings.through_of(period);
        return rows_by_details(tables, alloc, tariff, close, through);
    }
    rows_by_name(tables, alloc, summary, period, tariff)
}

/// The charge rows that a period would have by another tariff.
pub(crate) fn try_charges_under<S: Store>(
    tables: &mut TreeTables<S>,
    alloc: Global,
    summary: &Summary,
    period: u16,
    tariff: &Tariff,
) -> Result<Result<Vec<ChargeRow>, LedgerFault>, StoreError>
    ensures tries { (naming : Naming) → AttemptsOne (λ rows. rows.items) naming summary.now
        summary.now (state_of tables.old) (state_of tables.new) (what_if_outcome period tariff.now)
        result }
    ensures shown { IfOk result (λ answer. IfOk answer (λ rows. AreRows rows.items)) }
{
    if !summary.has_period(period) {
        return Ok(Err(LedgerFault::NoSuchPeriod));
    }
    let Some(rows) = rows_counted(tables, alloc, summary, period, tariff)? else {
        return Ok(Err(LedgerFault::Full));
    };
    if !can_show(&rows) {
        return Err(StoreError::Corrupt);
    }
    Ok(Ok(rows))
}
