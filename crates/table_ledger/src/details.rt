//! Details of a period, one at a time.

ghost use Rattle.std.specs.Prelude.{◌≡◌, IfOk, IsTrue, false};
ghost use Rattle.book_model.specs.Words.{Naming, ShowsDetail, next_detail_outcome};
ghost use Rattle.table_model.specs.DetailsRead.{FindsLeast};
ghost use Rattle.tree_tables.specs.States.{state_of};
ghost use Rattle.tree_tables.specs.Steps.{Looks};
ghost use Rattle.table_ledger.specs.DetailReads.{seeks};
ghost use Rattle.table_ledger.specs.Stages.{AttemptsOne};

use crate::days::is_day;
use crate::summary::Summary;
use book_core::{Detail, LedgerFault, Name, comes_after, is_after, is_asked, is_through};
use sqlite_trees::error::StoreError;
use sqlite_trees::store::Store;
use std::cmp::Ordering;
use tree_tables::{DetailStart, MOST_STEPS, TreeTables};

/// Which details are sought.
#[derive(Clone, Copy)]
pub(crate) struct Sought {
    /// The day of the close before their period, if there was one.
    pub(crate) close: Option<i32>,
    /// The day through which it was closed, if it was.
    pub(crate) through: Option<i32>,
    /// Their centre, if one is named.
    pub(crate) centre: Option<Name>,
    /// The detail that they come after, if there is one.
    pub(crate) last: Option<Detail>,
}

impl Sought {
    ghost use Rattle.std.specs.Prelude.{◌≡◌};
    ghost use Rattle.table_ledger.specs.DetailReads.{ComesFrom, GoesOn, seeks};

    /// The detail is one of them.
    fn seeks(&self, detail: &Detail) -> bool
        ensures { result ≡ seeks self.now detail.now }
    {
        if !is_after(self.close, detail.priced.day)
            || !is_through(self.through, detail.priced.day)
        {
            return false;
        }
        is_asked(self.centre, detail) && comes_after(self.last, detail)
    }

    /// The first day of their period, or none where it has no first one.
    fn from_period(&self) -> DetailStart
        ensures { ComesFrom self.now result }
    {
        let Some(close) = self.close else {
            return DetailStart::First;
        };
        match close.checked_add(1) {
            Some(first) => DetailStart::Day(first),
            None => DetailStart::First,
        }
    }

    /// Where the first of them is looked for.
    fn first(&self) -> DetailStart
        ensures { ComesFrom self.now result }
    {
        match self.last {
            Some(last) if is_after(self.close, last.priced.day) => DetailStart::After(last),
            _ => self.from_period(),
        }
    }

    /// Where the next of them is looked for after a detail that is none of them: a centre is looked
    /// for on the same day, or on the next one.
    fn after(&self, passed: &Detail) -> DetailStart
        ensures { GoesOn self.now passed.now result }
    {
        let Some(centre) = self.centre else {
            return DetailStart::After(*passed);
        };
        let day = passed.priced.day;
        match passed.priced.centre.cmp(&centre) {
            Ordering::Less => DetailStart::Centre(day, centre),
            Ordering::Equal => DetailStart::After(*passed),
            Ordering::Greater => match day.checked_add(1) {
                Some(next) => DetailStart::Centre(next, centre),
                None => DetailStart::After(*passed),
            },
        }
    }
}

/// The first of the details that are sought.
pub(crate) fn next_sought<S: Store>(
    tables: &mut TreeTables<S>,
    sought: &Sought,
) -> Result<Option<Detail>, StoreError>
    ensures looks { Looks result (state_of tables.old) (state_of tables.new)
        (FindsLeast (seeks sought.now)) }
{
    let mut start = sought.first();
    'details: for _ in 0..MOST_STEPS {
        let Some(detail) = tables.next_detail(&start)? else {
            return Ok(None);
        };
        if !is_through(sought.through, detail.priced.day) {
            return Ok(None);
        }
        if sought.seeks(&detail) {
            return Ok(Some(detail));
        }
        start = sought.after(&detail);
    }
    // So many are never held.
    Err(StoreError::OutOfMemory)
}

/// A detail that was found, if one was, is dated on a day.
fn can_show(found: &Option<Detail>) -> bool
    ensures shown { IsTrue result → ShowsDetail found.now }
    ensures refused { result ≡ false → ¬ ShowsDetail found.now }
{
    match found {
        Some(detail) => is_day(detail.priced.day),
        None => true,
    }
}

/// The first detail of a period after one, of the centre that is named or of all.
pub(crate) fn try_next_detail<S: Store>(
    tables: &mut TreeTables<S>,
    summary: &Summary,
    period: u16,
    centre: Option<Name>,
    last: Option<Detail>,
) -> Result<Result<Option<Detail>, LedgerFault>, StoreError>
    ensures tries { (naming : Naming) → AttemptsOne (λ found. found) naming summary.now summary.now
        (state_of tables.old) (state_of tables.new) (next_detail_outcome naming period centre last)
        result }
    ensures shown { IfOk result (λ answer. IfOk answer ShowsDetail) }
{
    if !summary.has_period(period) {
        return Ok(Err(LedgerFault::NoSuchPeriod));
    }
    let sought = Sought {
        close: summary.rulings.through_of(period - 1),
        through: summary.rulings.through_of(period),
        centre,
        last,
    };
    let found = next_sought(tables, &sought)?;
    if !can_show(&found) {
        return Err(StoreError::Corrupt);
    }
    Ok(Ok(found))
}
