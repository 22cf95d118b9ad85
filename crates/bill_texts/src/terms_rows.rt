//! The rows of prices and of percents.

ghost use Rattle.std.specs.Prelude.{◌≡◌, ◌++◌, All, IfOk, OnOk, flat_map, map};
ghost use Rattle.book_model.specs.Words.{IsDay};
ghost use Rattle.bill_texts.specs.Sheets.{part_shown};
ghost use Rattle.bill_texts.specs.TermsRows as spec;

use crate::part::{Layout, Part, PartName};
use book_model::{BilledShift, BilledTariff};
use report_texts::{add_amount, add_day, add_number};
use std::alloc::{AllocError, Global};
use tariff_rules::Rates;
use text_drafts::RowDraft;

/// The row of some prices.
#[tactic(auto, unfolding(crate::specs::TermsRows::price_fields))]
fn price_row(alloc: Global, day: i32, word: &str, rates: Rates) -> RowDraft
    requires { IsDay day }
    ensures { result ≡ spec.price_fields day word.now rates }
{
    let mut row = RowDraft::new(alloc);
    add_day(&mut row, day);
    row.add_str(word);
    add_amount(&mut row, rates.record_fee());
    add_amount(&mut row, rates.cpu());
    add_amount(&mut row, rates.excp());
    row
}

/// The rows of a tariff's prices join others.
fn push_tariff(
    alloc: Global,
    rows: &mut Vec<RowDraft>,
    tariff: &BilledTariff,
) -> Result<(), AllocError>
    requires { IsDay tariff.now.day }
    ensures { OnOk result (rows.new.items ≡ rows.old.items ++ spec.tariff_rows tariff.now) }
{
    rows.push(price_row(alloc, tariff.day, "STEP", tariff.step))?;
    rows.push(price_row(alloc, tariff.day, "JOB", tariff.job))?;
    Ok(())
}

/// The rows of prices.
#[tactic(auto, using(std::proofs::lemmas::List::flat_map_more))]
fn price_rows(alloc: Global, tariffs: &[BilledTariff]) -> Result<Vec<RowDraft>, AllocError>
    requires { All (λ tariff. IsDay tariff.day) tariffs.now }
    ensures { IfOk result (λ rows. rows.items ≡ flat_map spec.tariff_rows tariffs.now) }
{
    let mut rows = Vec::new(alloc);
    for tariff in tariffs {
        push_tariff(alloc, &mut rows, tariff)?;
    }
    Ok(rows)
}

/// The prices of tariffs.
pub(crate) fn prices_part(alloc: Global, tariffs: &[BilledTariff]) -> Result<Part, AllocError>
    requires { All (λ tariff. IsDay tariff.day) tariffs.now }
    ensures { IfOk result (λ part. part_shown part ≡ spec.prices_part tariffs.now) }
{
    let rows = price_rows(alloc, tariffs)?;
    Ok(Part {
        name: PartName::Prices,
        layout: Layout::Prices,
        rows,
        total: None,
    })
}

/// The row of a shift.
#[tactic(auto, unfolding(crate::specs::TermsRows::percent_fields))]
fn percent_row(alloc: Global, shift: &BilledShift) -> RowDraft
    requires { IsDay shift.now.day }
    ensures { result ≡ spec.percent_fields shift.now }
{
    let mut row = RowDraft::new(alloc);
    add_day(&mut row, shift.day);
    row.add_str(shift.shift.text());
    add_number(&mut row, u64::from(shift.percent));
    row
}

/// The rows of shifts.
fn percent_rows(alloc: Global, shifts: &[BilledShift]) -> Result<Vec<RowDraft>, AllocError>
    requires { All (λ shift. IsDay shift.day) shifts.now }
    ensures { IfOk result (λ rows. rows.items ≡ map spec.percent_fields shifts.now) }
{
    let mut rows = Vec::new(alloc);
    for shift in shifts {
        rows.push(percent_row(alloc, shift))?;
    }
    Ok(rows)
}

/// The percents of shifts.
pub(crate) fn percents_part(alloc: Global, shifts: &[BilledShift]) -> Result<Part, AllocError>
    requires { All (λ shift. IsDay shift.day) shifts.now }
    ensures { IfOk result (λ part. part_shown part ≡ spec.percents_part shifts.now) }
{
    let rows = percent_rows(alloc, shifts)?;
    Ok(Part {
        name: PartName::Percents,
        layout: Layout::Percents,
        rows,
        total: None,
    })
}
