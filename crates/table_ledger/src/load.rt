//! The summary of a book, read from its tables.

ghost use Rattle.std.specs.Prelude.{◌≡◌, ◌⊎◌, ◌<◌, ◌≤◌, IfErr, IfOk, IsTrue, None, false, length};
ghost use Rattle.std.specs.Prelude.{true, ℕ, IfSome, Option};
ghost use Rattle.std.specs.List.{AllZip, last_or};
ghost use Rattle.tree_tables.specs.Holds.{has_book};
ghost use Rattle.tree_tables.specs.States.{HasCleanDisk, state_of};
ghost use Rattle.book_model.specs.Words.{are_rising, last_period, most_choices, most_cost};
ghost use Rattle.book_model.specs.Words.{most_credits, most_held, most_replaced};
ghost use Rattle.tree_tables.specs.Steps.{Looks};
ghost use Rattle.table_ledger.specs.Loaded.{CountsRulings, IsBookRow, IsCloseDay, IsNextClose};
ghost use Rattle.table_ledger.specs.Loaded.{IsOpenFault};
ghost use Rattle.table_ledger.specs.Loaded.{IsLoaded, IsStoreFault, Reads, SaysRule, SaysTariff};
ghost use Rattle.table_ledger.specs.Loaded.{SummarizesRows, ReadsByRow, TellsBooks};

use crate::days::is_day;
use crate::finish::fault_of;
use crate::summary::Summary;
use book_core::{
    AcceptedTariff, LAST_PERIOD, LedgerFault, MAX_CHOICES, MAX_COST, MAX_CREDITS, MAX_HELD,
    MAX_REPLACED, RulingCounts, are_before, is_after,
};
use sqlite_trees::error::StoreError;
use sqlite_trees::store::Store;
use std::alloc::Global;
use tariff_rules::{Tariff, TariffFault};
use tree_tables::{
    Close, FIRST_RULE, NEVER_ADOPTED, SECOND_RULE, StoredBook, StoredTariff, TreeTables,
};

/// The tariff of a row, if its text is one and gives the row's day.
fn tariff_at(alloc: Global, row: &StoredTariff) -> Result<AcceptedTariff, LedgerFault>
    ensures says { IfOk result (λ tariff. SaysTariff row.now tariff) }
    ensures day { IfOk result (λ tariff. tariff.terms.effective ≡ row.now.day) }
    ensures kinds { IfErr result IsStoreFault }
{
    let tariff = match Tariff::parse(alloc, &row.body) {
        Ok(tariff) => tariff,
        Err(TariffFault::Memory) => return Err(LedgerFault::Memory),
        Err(_) => return Err(LedgerFault::Store),
    };
    if tariff.effective() != row.day {
        return Err(LedgerFault::Store);
    }
    let text = Some(String::from_str(alloc, &row.body)?);
    Ok(AcceptedTariff { text, tariff })
}

/// The tariffs of rows, if each begins later than those before it.
fn tariffs_of(alloc: Global, rows: &[StoredTariff]) -> Result<Vec<AcceptedTariff>, LedgerFault>
    ensures say { IfOk result (λ tariffs. AllZip SaysTariff rows.now tariffs.items) }
    ensures rising { IfOk result (λ tariffs. are_rising tariffs.items ≡ true) }
    ensures kinds { IfErr result IsStoreFault }
{
    let mut tariffs = Vec::with_capacity(alloc, rows.len())?;
    for row in rows {
        let tariff = tariff_at(alloc, row)?;
        if !are_before(&tariffs, &tariff.tariff) {
            return Err(LedgerFault::Store);
        }
        tariffs.push(tariff)?;
    }
    Ok(tariffs)
}

/// The last of some days, if there is one.
#[tactic(auto, using(book_core::proofs::RulingLemmas::last_found))]
fn last_of(days: &[i32]) -> Option<i32>
    ensures { result ≡ last_or None days.now }
{
    days.last().copied()
}

/// The row is that of the next close after those through some days.
fn is_next(days: &[i32], row: &Close) -> bool
    ensures next { result ≡ true → IsNextClose days.now row.now }
    ensures other { result ≡ false → ¬ IsNextClose days.now row.now }
{
    row.period as usize == days.len() + 1
        && is_after(last_of(days), row.through)
        && is_day(row.through)
}

/// The day of the next close: of the period after the last, through a later day.
fn next_day(days: &[i32], row: &Close) -> Result<i32, LedgerFault>
    ensures has { IfOk result (λ day. IsCloseDay row.now day) }
    ensures next { IfOk result (λ day. IsNextClose days.now row.now) }
    ensures kinds { IfErr result IsStoreFault }
    ensures refused { IfErr result (λ fault. ¬ IsNextClose days.now row.now) }
{
    if is_next(days, row) {
        Ok(row.through)
    } else {
        Err(LedgerFault::Store)
    }
}

/// The days of closes, if their periods follow one another, and the days do too.
fn days_of(alloc: Global, rows: &[Close]) -> Result<Vec<i32>, LedgerFault>
    ensures have { IfOk result (λ days. AllZip IsCloseDay rows.now days.items) }
    ensures kinds { IfErr result IsStoreFault }
{
    let mut days = Vec::with_capacity(alloc, rows.len())?;
    for row in rows {
        let day = next_day(&days, row)?;
        days.push(day)?;
    }
    Ok(days)
}

/// The period of adoption that a row gives, if it is under one of the two rules: the first was
/// never adopted, and the second in a period that has begun.
fn adopted_by(row: &StoredBook, closes: usize) -> Option<Option<u16>>
    requires { closes < last_period }
    ensures says { IfSome result (SaysRule closes row.now) }
    ensures refused { result ≡ None → (adopted : Option ℕ) → ¬ SaysRule closes row.now adopted }
{
    if row.rule == FIRST_RULE && row.adopted == NEVER_ADOPTED {
        return Some(None);
    }
    if row.rule == SECOND_RULE && 1 <= row.adopted && row.adopted <= closes as u64 + 1 {
        return Some(Some(row.adopted as u16));
    }
    None
}

/// The sums of the row are within the office's limits.
fn is_kept(row: &StoredBook) -> bool
    ensures held { IsTrue result → row.now.held ≤ most_held }
    ensures amount { IsTrue result → row.now.amount ≤ most_cost }
    ensures kept { result ≡ true → IsBookRow row.now }
    ensures refused { result ≡ false → ¬ IsBookRow row.now }
{
    row.held <= MAX_HELD as u64 && row.amount <= MAX_COST
}

/// There are no more choices, replaced tariffs and credits than the most possible.
fn may_be_counted(counts: &RulingCounts) -> bool
    ensures choices { result ≡ true → counts.now.choices ≤ most_choices }
    ensures replaced { result ≡ true → counts.now.replaced ≤ most_replaced }
    ensures credits { result ≡ true → counts.now.credits ≤ most_credits }
    ensures many { result ≡ false → (most_choices < counts.now.choices)
        ⊎ (most_replaced < counts.now.replaced) ⊎ (most_credits < counts.now.credits) }
{
    counts.choices as usize <= MAX_CHOICES
        && counts.replaced as usize <= MAX_REPLACED
        && counts.credits as usize <= MAX_CREDITS
}

/// There are fewer closes than possible periods.
fn are_few(closes: &[i32]) -> bool
    ensures few { result ≡ true → length closes.now < last_period }
    ensures many { result ≡ false → last_period ≤ length closes.now }
{
    closes.len() < LAST_PERIOD as usize
}

/// The summary of the rows, if they are those of a book; these are the numbers of the last of its
/// choices, of its replaced tariffs and of its credits.
fn summary_of(
    alloc: Global,
    row: &StoredBook,
    tariffs: &[StoredTariff],
    closes: &[Close],
    counts: &RulingCounts,
) -> Result<Summary, LedgerFault>
    ensures shows { IfOk result (SummarizesRows row.now tariffs.now closes.now counts.now.choices
        counts.now.replaced counts.now.credits) }
    ensures kinds { IfErr result IsStoreFault }
{
    let tariffs = tariffs_of(alloc, tariffs)?;
    let closes = days_of(alloc, closes)?;
    if !is_kept(row) || !are_few(&closes) || !may_be_counted(counts) {
        return Err(LedgerFault::Store);
    }
    let Some(adopted) = adopted_by(row, closes.len()) else {
        return Err(LedgerFault::Store);
    };
    Ok(Summary {
        rulings: book_core::Rulings::of(tariffs, closes, adopted),
        choices: counts.choices,
        replaced: counts.replaced,
        credits: counts.credits,
        held: row.held as usize,
        total: row.amount,
    })
}

/// How many rulings the tables keep beside the tariffs and closes, by the last of their numbers.
fn look_for_counts<S: Store>(tables: &mut TreeTables<S>) -> Result<RulingCounts, StoreError>
    ensures looks { Looks result (state_of tables.old) (state_of tables.new) CountsRulings }
{
    let choices = tables.last_choice()?;
    let replaced = tables.last_replaced()?;
    let credits = tables.last_credit()?;
    Ok(RulingCounts {
        choices,
        replaced,
        credits,
    })
}

/// Reads the summary of the book.
fn look_for_summary<S: Store>(
    alloc: Global,
    tables: &mut TreeTables<S>,
) -> Result<Result<Summary, LedgerFault>, StoreError>
    ensures looks { Looks result (state_of tables.old) (state_of tables.new) IsLoaded }
    ensures kinds { IfOk result (λ answer. IfErr answer IsOpenFault) }
    ensures tells { IfOk result (λ answer. HasCleanDisk (state_of tables.new)
        → TellsBooks (has_book (state_of tables.old).view.trees) answer) }
{
    let Some(row) = tables.find_book()? else {
        return Ok(Err(LedgerFault::NotBooks));
    };
    let tariffs = tables.list_tariffs(alloc)?;
    let closes = tables.list_closes(alloc)?;
    let counts = look_for_counts(tables)?;
    Ok(summary_of(alloc, &row, &tariffs, &closes, &counts))
}

/// Reads the summary of the book that a store holds, if it holds one.
pub(crate) fn read_summary<S: Store>(
    alloc: Global,
    tables: &mut TreeTables<S>,
) -> Result<Summary, LedgerFault>
    ensures reads { Reads result (state_of tables.old) (state_of tables.new) }
    ensures kinds { IfErr result IsOpenFault }
    ensures row { HasCleanDisk (state_of tables.new)
        → ReadsByRow (has_book (state_of tables.old).view.trees) result }
{
    match look_for_summary(alloc, tables) {
        Ok(answer) => answer,
        Err(error) => Err(fault_of(tables, error)),
    }
}
