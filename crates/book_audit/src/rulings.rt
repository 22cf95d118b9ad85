//! The row of the book, the tariffs, the closes and the choices.

ghost use Rattle.std.specs.List.{last_or};
ghost use Rattle.std.specs.Prelude.{◌<◌, ◌≡◌, IfOk, IfSome, None, Ok, length};
ghost use Rattle.std.specs.Prelude.{string_bytes, true};
ghost use Rattle.book_model.specs.Words.{IsDay, terms_in};
ghost use Rattle.tree_tables.specs.Columns.{closed_columns, tariff_columns};
ghost use Rattle.tree_tables.specs.Stored.{close_entry, tariff_of};
ghost use Rattle.book_audit.specs.Looks.{Looks, Tells};
ghost use Rattle.book_audit.specs.Rulings.{AreClosed, AreTariffs, HasOneRow, IsBookRow, IsCloseRow};
ghost use Rattle.book_audit.specs.Rulings.{IsNextClose, IsTariffIn};

use crate::choices::Chosen;
use crate::finding::{Place, Tree, Wrong};
use crate::identity_rule::IdentityRule;
use crate::stop::{Stop, met, unsound};
use crate::trees::Trees;
use crate::walk::{MOST_ROWS, Walk, endless};
use book_core::is_after;
use book_model::LedgerFault;
use smf_text::{FIRST_DAY, LAST_DAY};
use sqlite_trees::error::StoreError;
use sqlite_trees::store::Store;
use sqlite_value::row::Row;
use std::alloc::Global;
use tariff_rules::{Tariff, TariffFault};
use tree_tables::{Close, StoredTariff, count_at, day_at, period_at, text_at};

/// The highest number of closed periods.
pub(crate) const MAX_CLOSES: usize = 9_998;

/// What the office ruled, and what the row of the book says of the records.
#[derive(Drop)]
pub(crate) struct Rulings {
    /// The rule of identity that is in force.
    pub(crate) rule: IdentityRule,
    /// In the order of their first days.
    pub(crate) tariffs: Vec<Tariff>,
    /// The days through which periods were closed, in order.
    pub(crate) closes: Vec<i32>,
    pub(crate) chosen: Chosen,
    pub(crate) held: u64,
    pub(crate) amount: u64,
    ghost few: { length closes.items < 9999 },
}

/// The number of the row of the book.
const BOOK_NUMBER: u64 = 1;

/// What the row of the book says.
#[derive(Clone, Copy)]
pub(crate) struct BookRow {
    pub(crate) rule: IdentityRule,
    pub(crate) held: u64,
    pub(crate) amount: u64,
}

/// What the row of the book says. None if it has another number, or a rule that no books have.
fn book_in(row: &Row) -> Result<Option<BookRow>, StoreError>
    requires { length row.now ≡ 5 }
    ensures read { IfOk result (λ book. IfSome book (IsBookRow row.now)) }
{
    let number = count_at(row, 0)?;
    let rule = count_at(row, 1)?;
    let adopted = count_at(row, 2)?;
    let held = count_at(row, 3)?;
    let amount = count_at(row, 4)?;
    if number != BOOK_NUMBER {
        return Ok(None);
    }
    let Some(rule) = IdentityRule::of(rule, adopted) else {
        return Ok(None);
    };
    Ok(Some(BookRow { rule, held, amount }))
}

/// Reads the one row of the book. Trees without it hold no books.
pub(crate) fn read_book<S: Store>(trees: &mut Trees<S>, walk: &mut Walk) -> Result<BookRow, Stop>
    ensures book { Tells result trees.old trees.new (λ all book. HasOneRow (all 0) book) }
    ensures looks { Looks result trees.old trees.new }
{
    let tree = Tree::Book;
    walk.begin(tree);
    if !walk.next(trees)? {
        return Err(Stop::Fault(LedgerFault::NotBooks));
    }
    let read = match book_in(walk.row()) {
        Ok(read) => read,
        Err(error) => return Err(met(tree, error)),
    };
    let Some(book) = read else {
        return Err(unsound(Place::Tree(tree), Wrong::Rule));
    };
    if walk.next(trees)? {
        return Err(unsound(Place::Tree(tree), Wrong::MoreRows));
    }
    Ok(book)
}

/// What the row of a tariff says.
fn tariff_in(alloc: Global, row: &Row) -> Result<StoredTariff, StoreError>
    requires { length row.now ≡ 2 }
    ensures read { IfOk result (λ stored. row.now ≡ tariff_columns (tariff_of stored)) }
{
    Ok(StoredTariff {
        day: day_at(row, 0)?,
        body: text_at(row, 1, alloc)?,
    })
}

/// The tariff of a row at a place, which must have the text of a tariff with the row's day.
pub(crate) fn parsed(alloc: Global, place: Place, stored: &StoredTariff) -> Result<Tariff, Stop>
    ensures says { IfOk result (λ tariff. terms_in (string_bytes stored.now.body) ≡ Ok tariff) }
    ensures day { IfOk result (λ tariff. tariff.effective ≡ stored.now.day) }
    ensures valid { IfOk result (λ tariff. IsDay tariff.effective) }
{
    let tariff = match Tariff::parse(alloc, &stored.body) {
        Ok(tariff) => tariff,
        Err(TariffFault::Memory) => return Err(Stop::Fault(LedgerFault::Memory)),
        Err(_) => return Err(unsound(place, Wrong::TariffText)),
    };
    if tariff.effective() != stored.day {
        return Err(unsound(place, Wrong::TariffText));
    }
    Ok(tariff)
}

/// The tariff of a row.
fn read_tariff(alloc: Global, row: &Row) -> Result<Tariff, Stop>
    requires { length row.now ≡ 2 }
    ensures { IfOk result (IsTariffIn row.now) }
{
    match tariff_in(alloc, row) {
        Ok(stored) => parsed(alloc, Place::Tariff(stored.day), &stored),
        Err(error) => Err(met(Tree::Tariffs, error)),
    }
}

/// Reads the tariffs, which have their first days as keys.
pub(crate) fn read_tariffs<S: Store>(
    alloc: Global,
    trees: &mut Trees<S>,
    walk: &mut Walk,
) -> Result<Vec<Tariff>, Stop>
    ensures tariffs { Tells result trees.old trees.new (λ all tariffs.
        AreTariffs (all 1) tariffs.items) }
    ensures looks { Looks result trees.old trees.new }
{
    let tree = Tree::Tariffs;
    walk.begin(tree);
    let mut tariffs = Vec::new(alloc);
    'tariffs: for _count in 0..MOST_ROWS {
        if !walk.next(trees)? {
            return Ok(tariffs);
        }
        tariffs.push(read_tariff(alloc, walk.row())?)?;
    }
    Err(endless())
}

/// What the row of a close says.
fn close_in(row: &Row) -> Result<Close, StoreError>
    requires { length row.now ≡ 2 }
    ensures read { IfOk result (λ close. row.now ≡ closed_columns (close_entry close)) }
{
    Ok(Close {
        period: period_at(row, 0)?,
        through: day_at(row, 1)?,
    })
}

/// The last of some days, if there is one.
#[tactic(auto, using(book_core::proofs::RulingLemmas::last_found))]
fn last_of(days: &[i32]) -> Option<i32>
    ensures { result ≡ last_or None days.now }
{
    days.last().copied()
}

/// Whether a close is the next one after those of these days: of the next period, through a later
/// day.
fn is_next(days: &[i32], close: &Close) -> bool
    ensures { result ≡ true → IsNextClose days.now close.now }
{
    usize::from(close.period) == days.len() + 1
        && is_after(last_of(days), close.through)
        && FIRST_DAY <= close.through
        && close.through <= LAST_DAY
}

/// The day of the close of a row, which is the next one after those of these days.
fn next_close(days: &[i32], row: &Row) -> Result<i32, Stop>
    requires { length row.now ≡ 2 }
    ensures { IfOk result (λ day. IsCloseRow days.now row.now day) }
{
    let close = match close_in(row) {
        Ok(close) => close,
        Err(error) => return Err(met(Tree::Closes, error)),
    };
    if !is_next(days, &close) {
        return Err(unsound(Place::Close(close.period), Wrong::CloseOrder));
    }
    Ok(close.through)
}

/// Reads the days of the closes.
pub(crate) fn read_closes<S: Store>(
    alloc: Global,
    trees: &mut Trees<S>,
    walk: &mut Walk,
) -> Result<Vec<i32>, Stop>
    ensures closed { Tells result trees.old trees.new (λ all days. AreClosed (all 2) days.items) }
    ensures looks { Looks result trees.old trees.new }
{
    let tree = Tree::Closes;
    walk.begin(tree);
    let mut days = Vec::new(alloc);
    'closes: for _count in 0..MOST_ROWS {
        if !walk.next(trees)? {
            return Ok(days);
        }
        days.push(next_close(&days, walk.row())?)?;
    }
    Err(endless())
}

impl Rulings {
    ghost use Rattle.std.specs.Prelude.{◌≡◌, ◌≤◌, ◌+◌, length, option_copied};
    ghost use Rattle.book_audit.specs.Data.{in_force};
    ghost use Rattle.consistent_tables.specs.DueRows.{period_from};
    ghost use Rattle.book_audit.specs.Days.{is_closed};

    /// The number of the open period.
    pub(crate) fn open_period(&self) -> u16
        ensures number { result ≡ length self.now.closes.items + 1 }
    {
        self.closes.len() as u16 + 1
    }

    /// Whether a day is one of a closed period.
    pub(crate) fn is_closed(&self, day: i32) -> bool
        ensures { result ≡ is_closed self.now.closes.items day }
    {
        !is_after(last_of(&self.closes), day)
    }

    /// The period of a day: that of the first close through it or a later day.
    pub(crate) fn period_of(&self, day: i32) -> u16
        ensures begun { result ≤ length self.now.closes.items + 1 }
        ensures value { result ≡ period_from 1 self.now.closes.items day }
    {
        let mut period = 1;
        'closes: for through in &self.closes {
            if !(*through < day) {
                return period;
            }
            period += 1;
        }
        period
    }

    /// The tariff in force on a day: the last that has begun.
    pub(crate) fn tariff_on(&self, day: i32) -> Option<&Tariff>
        ensures { option_copied result ≡ in_force day self.now.tariffs.items }
    {
        self.tariffs
            .iter()
            .rev()
            .find(|tariff| !(day < tariff.effective()))
    }
}
