//! Figures of a period: what it comes to, and what each centre and each day costs in it.

ghost use Rattle.std.specs.Prelude.{◌≡◌, ◌≤ℤ◌, ◌+◌, ◌++◌, IfOk, IfSome, Some, map};
ghost use Rattle.smf_text.specs.Day.{last_day};
ghost use Rattle.book_model.specs.Words.{AreLines, AreRows, credit_shown};
ghost use Rattle.report_texts.specs.AdjustmentLists.{signed_text};
ghost use Rattle.report_texts.specs.Charges.{FitCredits, plain_credits};
ghost use Rattle.coverage_texts.specs.Coverage.{days_between};
ghost use Rattle.page_texts.specs.Figures as spec;

use crate::amounts::push_signed;
use crate::closes::day_after;
use book_model::{ChargeRow, Credit, Line};
use report_texts::{credits_together, figures_of};
use smf_text::Name;
use std::alloc::{AllocError, Global};
use std::collections::BTreeMap;
use text_drafts::Draft;

/// What a period comes to, and what each centre costs in it. Amounts are in ten-thousandths of the
/// money unit.
#[derive(Drop)]
pub struct PeriodFigures {
    /// How many records it counts.
    pub records: u64,
    /// What its statement charges.
    pub charged: u64,
    /// What its adjustments add.
    pub added: u64,
    /// What they reverse.
    pub reversed: u64,
    /// What its credits take off.
    pub credited: u64,
    /// What those below 0 add.
    pub debited: u64,
    /// What each centre is charged by the statement.
    pub costs: BTreeMap<Name, u64>,
}

/// What each centre costs, in their order.
fn costs_of(alloc: Global, rows: &[ChargeRow]) -> Result<BTreeMap<Name, u64>, AllocError>
    requires { AreRows rows.now }
    ensures { IfOk result (λ costs. costs.entries ≡ spec.costs_of rows.now) }
{
    let mut costs = BTreeMap::new(alloc);
    for row in rows {
        let cost = costs.entry(row.centre)?.or_insert(0);
        *cost += row.amount;
    }
    Ok(costs)
}

/// What each day costs that has rows, in their order.
fn day_sums(alloc: Global, rows: &[ChargeRow]) -> Result<BTreeMap<i32, u64>, AllocError>
    requires { AreRows rows.now }
    ensures { IfOk result (λ costs. costs.entries ≡ spec.sums_by_day rows.now) }
{
    let mut costs = BTreeMap::new(alloc);
    for row in rows {
        let cost = costs.entry(row.day)?.or_insert(0);
        *cost += row.amount;
    }
    Ok(costs)
}

/// A day with what it costs among these, nothing where it has no row.
fn day_cost(sums: &BTreeMap<i32, u64>, day: &i32) -> (i32, u64)
    ensures { result ≡ spec.day_cost sums.now.entries day.now }
{
    let cost = sums.get(day).copied().unwrap_or(0);
    (*day, cost)
}

/// What the days cost from one to another.
fn costs_through(
    alloc: Global,
    sums: &BTreeMap<i32, u64>,
    first: i32,
    last: i32,
) -> Result<Vec<(i32, u64)>, AllocError>
    requires { last ≤ℤ last_day }
    ensures { IfOk result (λ costs. costs.items
        ≡ map (spec.day_cost sums.now.entries) (days_between (Some first) (Some last))) }
{
    let mut costs = Vec::new(alloc);
    let mut day = first;
    while day <= last {
        costs.push(day_cost(sums, &day))?;
        day = day_after(&day);
    }
    Ok(costs)
}

/// The same, if there are both days.
fn costs_between(
    alloc: Global,
    sums: &BTreeMap<i32, u64>,
    first: Option<i32>,
    last: Option<i32>,
) -> Result<Vec<(i32, u64)>, AllocError>
    requires { IfSome last (λ last. last ≤ℤ last_day) }
    ensures { IfOk result (λ costs. costs.items
        ≡ map (spec.day_cost sums.now.entries) (days_between first last)) }
{
    let Some(first) = first else {
        return Ok(Vec::new(alloc));
    };
    let Some(last) = last else {
        return Ok(Vec::new(alloc));
    };
    costs_through(alloc, sums, first, last)
}

/// The day of the first row, if there is one.
fn first_on(rows: &[ChargeRow]) -> Option<i32>
    ensures { result ≡ spec.first_on rows.now }
{
    match rows.first() {
        Some(row) => Some(row.day),
        None => None,
    }
}

/// The day of the last row, if there is one.
fn last_on(rows: &[ChargeRow]) -> Option<i32>
    ensures { result ≡ spec.last_on rows.now }
{
    match rows.last() {
        Some(row) => Some(row.day),
        None => None,
    }
}

/// What each day costs from that of the first row to that of the last: rows stand in the order of
/// their days.
pub(crate) fn day_costs(alloc: Global, rows: &[ChargeRow]) -> Result<Vec<(i32, u64)>, AllocError>
    requires { AreRows rows.now }
    ensures { IfOk result (λ costs. costs.items ≡ spec.costs_by_day rows.now) }
{
    let sums = day_sums(alloc, rows)?;
    let first = first_on(rows);
    let last = last_on(rows);
    costs_between(alloc, &sums, first, last)
}

/// The figures of a period, by all its charge rows, adjustment lines and credits.
pub fn period_figures(
    alloc: Global,
    rows: &[ChargeRow],
    lines: &[Line],
    credits: &[Credit],
) -> Result<PeriodFigures, AllocError>
    requires rows { AreRows rows.now }
    requires lines { AreLines lines.now }
    requires credits { FitCredits (plain_credits (map credit_shown credits.now)) }
    ensures { IfOk result (λ figures. spec.figures_seen figures
        ≡ spec.figures_of rows.now lines.now (map credit_shown credits.now)) }
{
    let sums = figures_of(rows, lines, 0);
    let given = credits_together(alloc, credits)?;
    let costs = costs_of(alloc, rows)?;
    Ok(PeriodFigures {
        records: sums.records,
        charged: sums.statement,
        added: sums.added,
        reversed: sums.reversed,
        credited: given.0,
        debited: given.1,
        costs,
    })
}

/// Appends what is charged, added and debited, less what is reversed and credited.
fn push_less(out: &mut Draft, charged: u64, added: u64, debited: u64, reversed: u64, credited: u64)
    ensures { out.new ≡ out.old ++ signed_text (charged + added + debited) (reversed + credited) }
{
    let all = u128::from(charged) + u128::from(added) + u128::from(debited);
    let taken = u128::from(reversed) + u128::from(credited);
    push_signed(out, all, taken);
}

/// Appends what is owed: what is charged and added, less what is reversed and credited.
#[tactic(auto, unfolding(crate::specs::Figures::owed_text))]
pub(crate) fn push_owed(out: &mut Draft, figures: &PeriodFigures)
    ensures { out.new ≡ out.old ++ spec.owed_text (spec.figures_seen figures.now) }
{
    push_less(
        out,
        figures.charged,
        figures.added,
        figures.debited,
        figures.reversed,
        figures.credited,
    );
}

/// Some credit comes to something.
pub(crate) fn has_credits(figures: &PeriodFigures) -> bool
    ensures { result ≡ spec.has_credits (spec.figures_seen figures.now) }
{
    0 < figures.credited || 0 < figures.debited
}

/// Appends what is credited, less what credits below 0 add.
#[tactic(auto, unfolding(crate::specs::Figures::credits_text))]
pub(crate) fn push_credits(out: &mut Draft, figures: &PeriodFigures)
    ensures { out.new ≡ out.old ++ spec.credits_text (spec.figures_seen figures.now) }
{
    push_signed(
        out,
        u128::from(figures.credited),
        u128::from(figures.debited),
    );
}
