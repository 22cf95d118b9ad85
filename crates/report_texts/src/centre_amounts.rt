//! Amounts by centre: what each centre has of a bill, added up in one pass.

ghost use Rattle.std.specs.Prelude.{◌≡◌, ◌+◌, ◌<◌, ◌^◌, IfOk, OnOk};
ghost use Rattle.book_model.specs.Words.{AreLines, AreRows};
ghost use Rattle.report_texts.specs.CentreAmounts as spec;
ghost use Rattle.report_texts.specs.CentreAmounts.{AreAmounts, AreCharges};
ghost use Rattle.report_texts.specs.Charges.{FitCredits};

use crate::adjustment_lists::{charged_amount, reversed_amount};
use crate::charges::{Charges, CreditAmount};
use book_model::{ChargeRow, Line};
use smf_text::Name;
use std::alloc::{AllocError, Global};
use std::collections::BTreeMap;

/// What each centre has of a bill, by the parts of what it is charged.
#[derive(Drop)]
pub(crate) struct CentreAmounts {
    /// For steps.
    pub(crate) steps: BTreeMap<Name, u64>,
    /// For jobs.
    pub(crate) jobs: BTreeMap<Name, u64>,
    /// For what came late.
    pub(crate) late: BTreeMap<Name, u64>,
    /// What was reversed.
    pub(crate) reversed: BTreeMap<Name, u64>,
    /// What credits take off.
    pub(crate) credited: BTreeMap<Name, u64>,
    /// What credits below 0 add.
    pub(crate) debited: BTreeMap<Name, u64>,
}

/// One more amount joins what its centre has.
fn add_amount(
    amounts: &mut BTreeMap<Name, u64>,
    centre: Name,
    amount: u64,
) -> Result<(), AllocError>
    requires { spec.cost_among amounts.old.entries centre + amount < 2 ^ 64 }
    ensures { OnOk result (AreAmounts amounts.new.entries
        (spec.with_amount amounts.old.entries centre amount)) }
{
    let own = amounts.entry(centre)?.or_insert(0);
    *own += amount;
    Ok(())
}

/// What the rows of each centre come to.
fn row_amounts(alloc: Global, rows: &[ChargeRow]) -> Result<BTreeMap<Name, u64>, AllocError>
    requires { AreRows rows.now }
    ensures { IfOk result (λ amounts. AreAmounts amounts.entries (spec.cost_of rows.now)) }
{
    let mut amounts = BTreeMap::new(alloc);
    for row in rows {
        add_amount(&mut amounts, row.centre, row.amount)?;
    }
    Ok(amounts)
}

/// What a line reverses, or what it charges.
fn side_amount(is_reversed: bool, line: &Line) -> u64
    ensures { result ≡ spec.side_amount is_reversed line.now }
{
    if is_reversed {
        reversed_amount(line)
    } else {
        charged_amount(line)
    }
}

/// What the lines of each centre reverse, or what they charge.
fn line_amounts(
    alloc: Global,
    is_reversed: bool,
    lines: &[Line],
) -> Result<BTreeMap<Name, u64>, AllocError>
    requires { AreLines lines.now }
    ensures { IfOk result (λ amounts.
        AreAmounts amounts.entries (spec.line_amount is_reversed lines.now)) }
{
    let mut amounts = BTreeMap::new(alloc);
    for line in lines {
        add_amount(
            &mut amounts,
            line.priced.centre,
            side_amount(is_reversed, line),
        )?;
    }
    Ok(amounts)
}

/// What a credit adds, or what it takes off.
fn credit_side(is_debited: bool, credit: &CreditAmount) -> u64
    ensures { result ≡ spec.credit_side is_debited credit.now }
{
    if is_debited {
        credit.debited
    } else {
        credit.credited
    }
}

/// What the credits of each centre add, or what they take off.
fn credit_amounts(
    alloc: Global,
    is_debited: bool,
    credits: &[CreditAmount],
) -> Result<BTreeMap<Name, u64>, AllocError>
    requires { FitCredits credits.now }
    ensures { IfOk result (λ amounts.
        AreAmounts amounts.entries (spec.credit_amount is_debited credits.now)) }
{
    let mut amounts = BTreeMap::new(alloc);
    for credit in credits {
        add_amount(&mut amounts, credit.centre, credit_side(is_debited, credit))?;
    }
    Ok(amounts)
}

/// What each centre has of rows of steps, rows of jobs, lines and credits.
pub(crate) fn centre_amounts(
    alloc: Global,
    steps: &[ChargeRow],
    jobs: &[ChargeRow],
    lines: &[Line],
    credits: &[CreditAmount],
) -> Result<CentreAmounts, AllocError>
    requires steps { AreRows steps.now }
    requires jobs { AreRows jobs.now }
    requires lines { AreLines lines.now }
    requires credits { FitCredits credits.now }
    ensures { IfOk result (λ amounts.
        AreCharges amounts steps.now jobs.now lines.now credits.now) }
{
    let of_steps = row_amounts(alloc, steps)?;
    let of_jobs = row_amounts(alloc, jobs)?;
    let late = line_amounts(alloc, false, lines)?;
    let reversed = line_amounts(alloc, true, lines)?;
    let credited = credit_amounts(alloc, false, credits)?;
    let debited = credit_amounts(alloc, true, credits)?;
    Ok(CentreAmounts {
        steps: of_steps,
        jobs: of_jobs,
        late,
        reversed,
        credited,
        debited,
    })
}

/// What a centre has among amounts, nothing where it is not there.
pub fn cost_among(amounts: &BTreeMap<Name, u64>, centre: Name) -> u64
    ensures { result ≡ spec.cost_among amounts.now.entries centre }
{
    amounts.get(&centre).copied().unwrap_or(0)
}

/// What a centre is charged by the amounts.
pub(crate) fn charges_among(amounts: &CentreAmounts, centre: Name) -> Charges
    ensures { result ≡ spec.charges_among amounts.now centre }
{
    Charges {
        steps: cost_among(&amounts.steps, centre),
        jobs: cost_among(&amounts.jobs, centre),
        late: cost_among(&amounts.late, centre),
        reversed: cost_among(&amounts.reversed, centre),
        credited: cost_among(&amounts.credited, centre),
        debited: cost_among(&amounts.debited, centre),
    }
}
