//! The rows of credits.

ghost use Rattle.std.specs.Prelude.{◌≡◌, IfOk, map};
ghost use Rattle.book_model.specs.Words.{credit_shown};
ghost use Rattle.bill_texts.specs.CreditRows as spec;
ghost use Rattle.bill_texts.specs.Sheets.{part_shown};

use crate::part::{Layout, Part, PartName};
use book_model::Credit;
use report_texts::{Charges, plain_credit, push_credits, push_difference};
use std::alloc::{AllocError, Global};
use text_drafts::{Draft, RowDraft};

/// The row of a credit.
#[tactic(auto, unfolding(crate::specs::CreditRows::credit_fields))]
fn credit_row(alloc: Global, credit: &Credit) -> RowDraft
    ensures { result ≡ spec.credit_fields (credit_shown credit.now) }
{
    let plain = plain_credit(credit);
    let mut amount = Draft::new(alloc);
    push_difference(&mut amount, plain.credited, plain.debited);
    let mut row = RowDraft::new(alloc);
    row.add_str(credit.reason.as_str());
    row.add_draft(&amount);
    row
}

/// The rows of credits.
fn credit_rows(alloc: Global, credits: &[Credit]) -> Result<Vec<RowDraft>, AllocError>
    ensures { IfOk result (λ rows.
        rows.items ≡ map spec.credit_fields (map credit_shown credits.now)) }
{
    let mut rows = Vec::new(alloc);
    for credit in credits {
        rows.push(credit_row(alloc, credit))?;
    }
    Ok(rows)
}

/// The row of their sum.
fn sum_row(alloc: Global, charges: &Charges) -> RowDraft
    ensures { result ≡ spec.credit_sum charges.now }
{
    let mut sum = Draft::new(alloc);
    push_credits(&mut sum, charges);
    let mut row = RowDraft::new(alloc);
    row.add_str("TOTAL");
    row.add_draft(&sum);
    row
}

/// What is credited, with its sum.
pub(crate) fn credits_part(
    alloc: Global,
    credits: &[Credit],
    charges: &Charges,
) -> Result<Part, AllocError>
    ensures { IfOk result (λ part.
        part_shown part ≡ spec.credits_part (map credit_shown credits.now) charges.now) }
{
    let rows = credit_rows(alloc, credits)?;
    Ok(Part {
        name: PartName::Credits,
        layout: Layout::Credits,
        rows,
        total: Some(sum_row(alloc, charges)),
    })
}
