//! The sheet of a bill: one definition of what its text and its page show.

ghost use Rattle.std.specs.Prelude.{◌≡◌, IfOk};
ghost use Rattle.book_model.specs.Words.{bill_shown};
ghost use Rattle.report_texts.specs.Charges.{IsBill};
ghost use Rattle.bill_texts.specs.BillSheets as spec;
ghost use Rattle.bill_texts.specs.ShiftSums.{ShiftsAddUp};
ghost use Rattle.bill_texts.specs.Sheets.{part_shown, parts_shown, sheet_shown};

use crate::credit_rows::credits_part;
use crate::part::{CentreParts, Part, PartName, Sheet};
use crate::record_rows::side_part;
use crate::sums_rows::{centre_sums, office_sums};
use crate::terms_rows::{percents_part, prices_part};
use crate::work_rows::{by_day, by_shift, jobs_have_work};
use book_model::Bill;
use report_texts::{CentreCharges, bill_charges, office_charges};
use smf_text::Name;
use std::alloc::{AllocError, Global};

/// The sums, with the prices and the percents of a bill.
fn sheet_with(alloc: Global, sums: Part, bill: &Bill) -> Result<Sheet, AllocError>
    requires { IsBill (bill_shown bill.now) }
    ensures { IfOk result (λ sheet.
        sheet_shown sheet ≡ spec.sheet_with (part_shown sums) (bill_shown bill.now)) }
{
    let prices = prices_part(alloc, &bill.tariffs)?;
    let percents = percents_part(alloc, &bill.shifts)?;
    Ok(Sheet {
        sums,
        prices,
        percents,
    })
}

/// Some credit stands on the bill.
fn has_credits(bill: &Bill) -> bool
    ensures { result ≡ spec.has_credits (bill_shown bill.now) }
{
    0 < bill.credits.len()
}

/// The sheet of a centre's bill.
pub fn centre_sheet(alloc: Global, centre: Name, bill: &Bill) -> Result<Sheet, AllocError>
    requires { IsBill (bill_shown bill.now) }
    ensures { IfOk result (λ sheet.
        sheet_shown sheet ≡ spec.centre_sheet centre (bill_shown bill.now)) }
{
    let charges = bill_charges(alloc, bill)?;
    let own = CentreCharges { centre, charges };
    let sums = centre_sums(alloc, has_credits(bill), bill.letterhead.decimals, &own)?;
    sheet_with(alloc, sums, bill)
}

/// The sheet of the office's bill.
pub fn office_sheet(alloc: Global, bill: &Bill) -> Result<Sheet, AllocError>
    requires { IsBill (bill_shown bill.now) }
    ensures { IfOk result (λ sheet.
        sheet_shown sheet ≡ spec.office_sheet (bill_shown bill.now)) }
{
    let own = office_charges(alloc, bill)?;
    let credited = has_credits(bill);
    let sums = office_sums(
        alloc,
        credited,
        bill.letterhead.decimals,
        &own.each,
        &own.all,
    )?;
    sheet_with(alloc, sums, bill)
}

/// What came late, or what was reversed, of a bill.
fn side_of(alloc: Global, late: bool, bill: &Bill, amount: u64) -> Result<Part, AllocError>
    requires { IsBill (bill_shown bill.now) }
    ensures { IfOk result (λ part.
        part_shown part ≡ spec.side_of late (bill_shown bill.now) amount) }
{
    side_part(alloc, late, &bill.lines, amount)
}

/// What steps cost, by shift and by day.
fn step_parts(alloc: Global, bill: &Bill) -> Result<(Part, Part), AllocError>
    requires { IsBill (bill_shown bill.now) }
    ensures { IfOk result (λ parts. (part_shown parts.0, part_shown parts.1)
        ≡ spec.step_parts (bill_shown bill.now)) }
{
    let shifts = by_shift(
        alloc,
        PartName::StepsByShift,
        true,
        &bill.tariffs,
        &bill.shifts,
        &bill.work.steps,
    )?;
    let days = by_day(
        alloc,
        PartName::StepsByDay,
        true,
        &bill.shifts,
        &bill.work.steps,
    )?;
    Ok((shifts, days))
}

/// What jobs cost, by shift and by day.
fn job_parts(alloc: Global, bill: &Bill) -> Result<(Part, Part), AllocError>
    requires { IsBill (bill_shown bill.now) }
    ensures { IfOk result (λ parts. (part_shown parts.0, part_shown parts.1)
        ≡ spec.job_parts (bill_shown bill.now)) }
{
    let has_work = jobs_have_work(&bill.tariffs);
    let shifts = by_shift(
        alloc,
        PartName::JobsByShift,
        has_work,
        &bill.tariffs,
        &bill.shifts,
        &bill.work.jobs,
    )?;
    let days = by_day(
        alloc,
        PartName::JobsByDay,
        has_work,
        &bill.shifts,
        &bill.work.jobs,
    )?;
    Ok((shifts, days))
}

/// What the sums of a centre are made of.
fn parts_of(alloc: Global, bill: &Bill) -> Result<CentreParts, AllocError>
    requires { IsBill (bill_shown bill.now) }
    ensures { IfOk result (λ parts. parts_shown parts ≡ spec.centre_parts (bill_shown bill.now)) }
{
    let charges = bill_charges(alloc, bill)?;
    let (steps_by_shift, steps_by_day) = step_parts(alloc, bill)?;
    let (jobs_by_shift, jobs_by_day) = job_parts(alloc, bill)?;
    let late = side_of(alloc, true, bill, charges.late)?;
    let reversed = side_of(alloc, false, bill, charges.reversed)?;
    let credits = credits_part(alloc, &bill.credits, &charges)?;
    Ok(CentreParts {
        steps_by_shift,
        jobs_by_shift,
        steps_by_day,
        jobs_by_day,
        late,
        reversed,
        credits,
    })
}

/// What the sums of a centre are made of. Work by tariff and shift adds up to work by day and
/// shift.
pub fn centre_parts(alloc: Global, bill: &Bill) -> Result<CentreParts, AllocError>
    requires { IsBill (bill_shown bill.now) }
    ensures parts { IfOk result (λ parts.
        parts_shown parts ≡ spec.centre_parts (bill_shown bill.now)) }
    ensures add_up { ShiftsAddUp }
{
    parts_of(alloc, bill)
}
