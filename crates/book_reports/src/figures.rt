//! Figures of a period, which a ledger answers by calls that change nothing: what a dry run of a ruling
//! shows of the books before the ruling and after it.

ghost use Rattle.std.specs.Prelude.{◌≡◌, ◌≤◌, IfOk};
ghost use Rattle.book_model.specs.Words.{AreLines, AreRows, last_period};
ghost use Rattle.book_core.specs.Calls.{IsCall};
ghost use Rattle.report_texts.specs.DryRuns.{NamesDay};
ghost use Rattle.report_texts.specs.Figures as figures;
ghost use Rattle.book_reports.specs.BookTexts.{shown_by};
ghost use Rattle.book_reports.specs.Figures as spec;

use crate::bill_credits::billed_credits;
use crate::next_tariffs::next_tariff;
use crate::streamed_disputes::count_disputes;
use book_core::{ChargeRow, LAST_PERIOD, Ledger, LedgerFault, Line};
use report_texts::{
    Figures, TriedRuling, figures_of, record_count, record_count_from, record_count_under,
};
use std::alloc::Global;

/// The period of books that is open.
#[derive(Clone, Copy)]
pub struct OpenPeriod {
    /// Its number.
    pub number: u16,
    /// The day through which the period before it was closed, if there was one, in days since
    /// 1970-01-01.
    pub last_close: Option<i32>,
}

/// The number of the period after so many closes.
fn number_after(closes: usize) -> u16
    ensures number { result ≡ figures.number_after closes }
    ensures few { result ≤ last_period }
{
    if closes < usize::from(LAST_PERIOD) {
        closes as u16 + 1
    } else {
        LAST_PERIOD
    }
}

/// The period that is open after closes through these days.
#[tactic(auto, using(book_core::proofs::RulingLemmas::last_found))]
pub(crate) fn period_after(closes: &[i32]) -> OpenPeriod
    ensures period { result ≡ spec.period_after closes.now }
    ensures few { result.number ≤ last_period }
{
    OpenPeriod {
        number: number_after(closes.len()),
        last_close: closes.last().copied(),
    }
}

/// The open period.
pub fn open_period<L: Ledger>(ledger: &mut L) -> Result<OpenPeriod, LedgerFault>
    ensures period { IsCall (λ found. found) (L.seen ledger.old) (L.seen ledger.new) result
        spec.open_outcome }
    ensures few { IfOk result (λ found. found.number ≤ last_period) }
{
    let closes = ledger.periods()?;
    Ok(period_after(&closes))
}

/// There is no such period.
fn is_missing<T>(answer: &Result<Vec<T>, LedgerFault>) -> bool
    ensures { result ≡ spec.is_missing answer.now }
{
    matches!(answer, Err(LedgerFault::NoSuchPeriod))
}

/// The charge rows of a period, none where there is no such period.
pub fn rows_of_period<L: Ledger>(
    alloc: Global,
    ledger: &mut L,
    period: u16,
) -> Result<Vec<ChargeRow>, LedgerFault>
    ensures rows { IsCall (λ rows. rows.items) (L.seen ledger.old) (L.seen ledger.new) result
        (spec.rows_outcome period) }
    ensures shown { IfOk result (λ rows. AreRows rows.items) }
{
    let answer = ledger.charges(period);
    if is_missing(&answer) {
        Ok(Vec::new(alloc))
    } else {
        answer
    }
}

/// The adjustment lines of a period, none where there is no such period.
pub(crate) fn lines_of_period<L: Ledger>(
    alloc: Global,
    ledger: &mut L,
    period: u16,
) -> Result<Vec<Line>, LedgerFault>
    ensures lines { IsCall (λ lines. lines.items) (L.seen ledger.old) (L.seen ledger.new) result
        (spec.lines_outcome (L.seen ledger.old).naming period) }
    ensures shown { IfOk result (λ lines. AreLines lines.items) }
{
    let answer = ledger.adjustments(period);
    if is_missing(&answer) {
        Ok(Vec::new(alloc))
    } else {
        answer
    }
}

/// How many records a period counts, none where there is no such period.
fn count_of_period<L: Ledger>(
    alloc: Global,
    ledger: &mut L,
    period: u16,
) -> Result<u64, LedgerFault>
    ensures { IsCall (λ count. count) (L.seen ledger.old) (L.seen ledger.new) result
        (spec.count_outcome period) }
{
    let rows = rows_of_period(alloc, ledger, period)?;
    Ok(record_count(&rows))
}

/// How many records of some rows a tariff with this first day prices.
fn count_priced<L: Ledger>(
    alloc: Global,
    ledger: &mut L,
    first: i32,
    rows: &[ChargeRow],
) -> Result<u64, LedgerFault>
    requires { AreRows rows.now }
    ensures { IsCall (λ count. count) (L.seen ledger.old) (L.seen ledger.new) result
        (spec.priced_outcome first rows.now) }
{
    let next = next_tariff(alloc, ledger, first)?;
    Ok(record_count_under(rows, first, next))
}

/// How many credits a period has.
fn count_credits<L: Ledger>(alloc: Global, ledger: &mut L, period: u16) -> Result<u64, LedgerFault>
    ensures { IsCall (λ count. count) (L.seen ledger.old) (L.seen ledger.new) result
        (spec.credit_count_outcome period) }
{
    let credits = billed_credits(alloc, ledger, period, &None)?;
    Ok(credits.len() as u64)
}

/// The figures of a period by its rows and lines, and the count that is shown for the ruling, if that
/// was answered.
fn figures_and(
    rows: &[ChargeRow],
    lines: &[Line],
    own: Result<u64, LedgerFault>,
) -> Result<Figures, LedgerFault>
    requires rows { AreRows rows.now }
    requires lines { AreLines lines.now }
    ensures { result ≡ shown_by (figures.figures_by rows.now lines.now) own }
{
    match own {
        Ok(own) => Ok(figures_of(rows, lines, own)),
        Err(fault) => Err(fault),
    }
}

/// The figures of a period by its charge rows, and by what else the ledger answers.
fn figures_with<L: Ledger>(
    alloc: Global,
    ledger: &mut L,
    ruling: TriedRuling,
    period: u16,
    rows: &[ChargeRow],
) -> Result<Figures, LedgerFault>
    requires day { NamesDay ruling }
    requires period { period ≤ last_period }
    requires rows { AreRows rows.now }
    ensures { IsCall (λ figures. figures) (L.seen ledger.old) (L.seen ledger.new) result
        (spec.figures_with_outcome (L.seen ledger.old).naming ruling period rows.now) }
{
    let lines = lines_of_period(alloc, ledger, period)?;
    match ruling {
        TriedRuling::Tariff(first) => {
            Ok(figures_of(rows, &lines, record_count_from(rows, first)))
        }
        TriedRuling::Close { .. } => {
            figures_and(rows, &lines, count_of_period(alloc, ledger, period + 1))
        }
        TriedRuling::Choose(_) => figures_and(rows, &lines, count_disputes(alloc, ledger)),
        TriedRuling::Withhold(_) => figures_and(rows, &lines, count_disputes(alloc, ledger)),
        TriedRuling::Replace(first) => {
            figures_and(rows, &lines, count_priced(alloc, ledger, first, rows))
        }
        TriedRuling::Credit { .. } => {
            figures_and(rows, &lines, count_credits(alloc, ledger, period))
        }
        TriedRuling::Adopt => figures_and(rows, &lines, count_disputes(alloc, ledger)),
    }
}

/// The figures of a period, as a dry run of the ruling shows them.
pub fn period_figures<L: Ledger>(
    alloc: Global,
    ledger: &mut L,
    ruling: TriedRuling,
    period: u16,
) -> Result<Figures, LedgerFault>
    requires day { NamesDay ruling }
    requires period { period ≤ last_period }
    ensures { IsCall (λ figures. figures) (L.seen ledger.old) (L.seen ledger.new) result
        (spec.figures_outcome (L.seen ledger.old).naming ruling period) }
{
    let rows = rows_of_period(alloc, ledger, period)?;
    figures_with(alloc, ledger, ruling, period, &rows)
}
