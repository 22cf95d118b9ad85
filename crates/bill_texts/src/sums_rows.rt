//! The rows of sums: of a centre, of each centre of the office, and of all.

ghost use Rattle.std.specs.Prelude.{◌≡◌, All, IfOk, map};
ghost use Rattle.report_texts.specs.Charges.{FitCharges};
ghost use Rattle.bill_texts.specs.Booked.{BookedTogether};
ghost use Rattle.bill_texts.specs.Sheets.{part_shown};
ghost use Rattle.bill_texts.specs.SumsRows as spec;

use crate::booking::{push_booked_by_all, push_booked_by_centre};
use crate::part::{Layout, Part, PartName};
use report_texts::{CentreCharges, Charges, add_amount, push_credits, push_owed};
use std::alloc::{AllocError, Global};
use text_drafts::{Draft, RowDraft};

/// A row of sums, with what is booked and what is credited.
fn sums_row(alloc: Global, word: &str, charges: &Charges, booked: &Draft) -> RowDraft
    requires { FitCharges charges.now }
    ensures { result ≡ spec.sums_fields word.now charges.now booked.now }
{
    let mut owed = Draft::new(alloc);
    push_owed(&mut owed, charges);
    let mut credits = Draft::new(alloc);
    push_credits(&mut credits, charges);
    let mut row = RowDraft::new(alloc);
    row.add_str(word);
    add_amount(&mut row, charges.steps + charges.jobs);
    add_amount(&mut row, charges.late);
    add_amount(&mut row, charges.reversed);
    row.add_draft(&owed);
    row.add_draft(booked);
    row.add_draft(&credits);
    row
}

/// The row of a centre.
#[tactic(auto, unfolding(crate::specs::SumsRows::centre_fields))]
fn centre_row(alloc: Global, decimals: u8, own: &CentreCharges) -> RowDraft
    requires { FitCharges own.now.charges }
    ensures { result ≡ spec.centre_fields decimals own.now }
{
    let mut booked = Draft::new(alloc);
    push_booked_by_centre(&mut booked, decimals, &own.charges);
    sums_row(alloc, own.centre.text(), &own.charges, &booked)
}

/// The row of all.
#[tactic(auto, unfolding(crate::specs::SumsRows::total_fields))]
fn total_row(alloc: Global, decimals: u8, each: &[CentreCharges], all: &Charges) -> RowDraft
    requires each { All (λ one. FitCharges one.charges) each.now }
    requires all { FitCharges all.now }
    ensures { result ≡ spec.total_fields decimals each.now all.now }
{
    let mut booked = Draft::new(alloc);
    push_booked_by_all(&mut booked, decimals, each);
    sums_row(alloc, "TOTAL", all, &booked)
}

/// The rows of centres.
fn centre_rows(
    alloc: Global,
    decimals: u8,
    each: &[CentreCharges],
) -> Result<Vec<RowDraft>, AllocError>
    requires { All (λ one. FitCharges one.charges) each.now }
    ensures { IfOk result (λ rows. rows.items ≡ map (spec.centre_fields decimals) each.now) }
{
    let mut rows = Vec::new(alloc);
    for own in each {
        rows.push(centre_row(alloc, decimals, own))?;
    }
    Ok(rows)
}

/// Where sums have a column of what is credited: where some credit stands on the bill.
fn sums_layout(credited: bool) -> Layout
    ensures { result ≡ spec.sums_layout credited }
{
    if credited {
        Layout::CreditedSums
    } else {
        Layout::Sums
    }
}

/// The sums of a centre's bill.
pub(crate) fn centre_sums(
    alloc: Global,
    credited: bool,
    decimals: u8,
    own: &CentreCharges,
) -> Result<Part, AllocError>
    requires { FitCharges own.now.charges }
    ensures { IfOk result (λ part. part_shown part ≡ spec.centre_sums credited decimals own.now) }
{
    let mut rows = Vec::new(alloc);
    rows.push(centre_row(alloc, decimals, own))?;
    Ok(Part {
        name: PartName::Sums,
        layout: sums_layout(credited),
        rows,
        total: None,
    })
}

/// The sums of the office's bill.
pub(crate) fn office_sums(
    alloc: Global,
    credited: bool,
    decimals: u8,
    each: &[CentreCharges],
    all: &Charges,
) -> Result<Part, AllocError>
    requires each { All (λ one. FitCharges one.charges) each.now }
    requires all { FitCharges all.now }
    ensures part { IfOk result (λ part.
        part_shown part ≡ spec.office_sums credited decimals each.now all.now) }
    ensures together { BookedTogether }
{
    let rows = centre_rows(alloc, decimals, each)?;
    Ok(Part {
        name: PartName::Sums,
        layout: sums_layout(credited),
        rows,
        total: Some(total_row(alloc, decimals, each, all)),
    })
}
