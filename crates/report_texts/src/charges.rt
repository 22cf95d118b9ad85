//! What a bill charges, and what one centre has of that.

ghost use Rattle.std.specs.Prelude.{◌≡◌, ◌++◌, All, IfOk, map, sum_by};
ghost use Rattle.book_model.specs.Words.{AreLines, AreRows, bill_shown, credit_shown};
ghost use Rattle.report_texts.specs.Charges as spec;
ghost use Rattle.report_texts.specs.Charges.{FitCharges, FitCredits, IsBill};

use crate::adjustment_lists::push_difference;
use crate::centre_amounts::{centre_amounts, charges_among};
use crate::{adjustment_lists, statements};
use book_model::{Bill, BilledLine, ChargeRow, Credit, Line};
use smf_text::Name;
use std::alloc::{AllocError, Global};
use std::collections::BTreeSet;
use text_drafts::Draft;

/// What is charged for steps and for jobs, what came late, what was reversed and what is credited, in
/// ten-thousandths of the money unit.
#[derive(Clone, Copy)]
pub struct Charges {
    /// For steps.
    pub steps: u64,
    /// For jobs.
    pub jobs: u64,
    /// For what came late.
    pub late: u64,
    /// What was reversed.
    pub reversed: u64,
    /// What credits take off.
    pub credited: u64,
    /// What credits below 0 add.
    pub debited: u64,
}

/// A credit by its centre, in ten-thousandths of the money unit.
#[derive(Clone, Copy)]
pub struct CreditAmount {
    pub centre: Name,
    /// What it takes off what is owed.
    pub credited: u64,
    /// What it adds to that, where it is below 0.
    pub debited: u64,
}

/// What one centre is charged.
#[derive(Clone, Copy)]
pub struct CentreCharges {
    pub centre: Name,
    pub charges: Charges,
}

/// What each centre of a bill is charged, in the order of the centres, and what all of them are.
#[derive(Drop)]
pub struct OfficeCharges {
    pub each: Vec<CentreCharges>,
    pub all: Charges,
}

/// A bill's lines, as a list of adjustments has them.
fn plain_lines(alloc: Global, billed: &[BilledLine]) -> Result<Vec<Line>, AllocError>
    ensures { IfOk result (λ lines. lines.items ≡ spec.plain_lines billed.now) }
{
    let mut lines = Vec::new(alloc);
    for one in billed {
        lines.push(one.line)?;
    }
    Ok(lines)
}

/// A credit by its centre.
pub fn plain_credit(credit: &Credit) -> CreditAmount
    ensures { result ≡ spec.plain_credit (credit_shown credit.now) }
{
    let amount = credit.amount.unsigned_abs();
    if credit.amount < 0 {
        CreditAmount {
            centre: credit.centre,
            credited: 0,
            debited: amount,
        }
    } else {
        CreditAmount {
            centre: credit.centre,
            credited: amount,
            debited: 0,
        }
    }
}

/// Credits by their centres.
pub fn plain_credits(alloc: Global, credits: &[Credit]) -> Result<Vec<CreditAmount>, AllocError>
    ensures { IfOk result (λ plain.
        plain.items ≡ spec.plain_credits (map credit_shown credits.now)) }
{
    let mut plain = Vec::new(alloc);
    for credit in credits {
        plain.push(plain_credit(credit))?;
    }
    Ok(plain)
}

/// What credits take off, and what those below 0 add.
#[tactic(auto, using(std::proofs::lemmas::List::Sums::sum_by_more_le, crate::proofs::AmountLemmas::credited_within, crate::proofs::AmountLemmas::debited_within))]
fn credit_sums(credits: &[CreditAmount]) -> (u64, u64)
    requires { FitCredits credits.now }
    ensures { result ≡ (
      sum_by (λ credit. credit.credited) credits.now,
      sum_by (λ credit. credit.debited) credits.now,
    ) }
{
    let mut credited = 0;
    let mut debited = 0;
    for credit in credits {
        credited += credit.credited;
        debited += credit.debited;
    }
    (credited, debited)
}

/// What credits take off together, and what those below 0 add.
pub fn credits_together(alloc: Global, credits: &[Credit]) -> Result<(u64, u64), AllocError>
    requires { FitCredits (spec.plain_credits (map credit_shown credits.now)) }
    ensures { IfOk result (λ sums. sums ≡ spec.credits_together (map credit_shown credits.now)) }
{
    let plain = plain_credits(alloc, credits)?;
    Ok(credit_sums(&plain))
}

/// What rows of steps, rows of jobs, lines and credits charge.
fn charges_of(
    steps: &[ChargeRow],
    jobs: &[ChargeRow],
    lines: &[Line],
    credits: &[CreditAmount],
) -> Charges
    requires steps { AreRows steps.now }
    requires jobs { AreRows jobs.now }
    requires lines { AreLines lines.now }
    requires credits { FitCredits credits.now }
    ensures { result ≡ spec.charges_of steps.now jobs.now lines.now credits.now }
{
    let (_, _, _, of_steps) = statements::row_sums(steps);
    let (_, _, _, of_jobs) = statements::row_sums(jobs);
    let (late, reversed) = adjustment_lists::sums(lines);
    let (credited, debited) = credit_sums(credits);
    Charges {
        steps: of_steps,
        jobs: of_jobs,
        late,
        reversed,
        credited,
        debited,
    }
}

/// What a bill charges.
pub fn bill_charges(alloc: Global, bill: &Bill) -> Result<Charges, AllocError>
    requires { IsBill (bill_shown bill.now) }
    ensures charges { IfOk result (λ charges. charges ≡ spec.all_charges (bill_shown bill.now)) }
    ensures fits { IfOk result (λ charges. FitCharges charges) }
{
    let lines = plain_lines(alloc, &bill.lines)?;
    let credits = plain_credits(alloc, &bill.credits)?;
    Ok(charges_of(&bill.work.steps, &bill.work.jobs, &lines, &credits))
}

/// The centres of rows, lines and credits, each once and in order.
fn centres_of(
    alloc: Global,
    steps: &[ChargeRow],
    jobs: &[ChargeRow],
    lines: &[Line],
    credits: &[CreditAmount],
) -> Result<Vec<Name>, AllocError>
    ensures { IfOk result (λ centres.
        centres.items ≡ spec.centres_of steps.now jobs.now lines.now credits.now) }
{
    let mut centres = BTreeSet::new(alloc);
    for step in steps {
        centres.insert(step.centre)?;
    }
    for job in jobs {
        centres.insert(job.centre)?;
    }
    for line in lines {
        centres.insert(line.priced.centre)?;
    }
    for credit in credits {
        centres.insert(credit.centre)?;
    }
    centres.into_iter().collect(alloc)
}

/// What each centre of rows, lines and credits is charged, in the order of the centres.
pub fn each_charges(
    alloc: Global,
    steps: &[ChargeRow],
    jobs: &[ChargeRow],
    lines: &[Line],
    credits: &[CreditAmount],
) -> Result<Vec<CentreCharges>, AllocError>
    requires steps { AreRows steps.now }
    requires jobs { AreRows jobs.now }
    requires lines { AreLines lines.now }
    requires credits { FitCredits credits.now }
    ensures { IfOk result (λ each. each.items ≡ map
        (spec.centre_charges steps.now jobs.now lines.now credits.now)
        (spec.centres_of steps.now jobs.now lines.now credits.now)) }
{
    let centres = centres_of(alloc, steps, jobs, lines, credits)?;
    let amounts = centre_amounts(alloc, steps, jobs, lines, credits)?;
    let mut each = Vec::new(alloc);
    for centre in &centres {
        let charges = charges_among(&amounts, *centre);
        each.push(CentreCharges {
            centre: *centre,
            charges,
        })?;
    }
    Ok(each)
}

/// What a bill charges its centres.
pub fn office_charges(alloc: Global, bill: &Bill) -> Result<OfficeCharges, AllocError>
    requires { IsBill (bill_shown bill.now) }
    ensures each { IfOk result (λ own. own.each.items ≡ spec.each_charges (bill_shown bill.now)) }
    ensures all { IfOk result (λ own. own.all ≡ spec.all_charges (bill_shown bill.now)) }
    ensures each_fits { IfOk result (λ own. All (λ one. FitCharges one.charges) own.each.items) }
    ensures all_fits { IfOk result (λ own. FitCharges own.all) }
{
    let lines = plain_lines(alloc, &bill.lines)?;
    let credits = plain_credits(alloc, &bill.credits)?;
    let each = each_charges(alloc, &bill.work.steps, &bill.work.jobs, &lines, &credits)?;
    let all = charges_of(&bill.work.steps, &bill.work.jobs, &lines, &credits);
    Ok(OfficeCharges { each, all })
}

/// All that is charged, with what credits below 0 add.
pub fn charged_in(charges: &Charges) -> u64
    requires { FitCharges charges.now }
    ensures { result ≡ spec.charged_in charges.now }
{
    charges.steps + charges.jobs + charges.late + charges.debited
}

/// All that is taken off that.
pub fn taken_in(charges: &Charges) -> u64
    requires { FitCharges charges.now }
    ensures { result ≡ spec.taken_in charges.now }
{
    charges.reversed + charges.credited
}

/// Appends what is credited, less what credits below 0 add.
#[tactic(auto, unfolding(crate::specs::Charges::credits_text))]
pub fn push_credits(out: &mut Draft, charges: &Charges)
    ensures { out.new ≡ out.old ++ spec.credits_text charges.now }
{
    push_difference(out, charges.credited, charges.debited);
}

/// Appends the sum owed: all that is charged, less what is taken off.
#[tactic(auto, unfolding(crate::specs::Charges::owed_text))]
pub fn push_owed(out: &mut Draft, charges: &Charges)
    requires { FitCharges charges.now }
    ensures { out.new ≡ out.old ++ spec.owed_text charges.now }
{
    push_difference(out, charged_in(charges), taken_in(charges));
}
