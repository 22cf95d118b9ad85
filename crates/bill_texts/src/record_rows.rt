//! The rows of records: what came late, and what was reversed.

ghost use Rattle.std.specs.Prelude.{◌≡◌, ◌++◌, All, IfOk, OnOk, flat_map};
ghost use Rattle.book_model.specs.Words.{IsDay};
ghost use Rattle.bill_texts.specs.RecordRows as spec;
ghost use Rattle.bill_texts.specs.Sheets.{part_shown};

use crate::part::{Layout, Part, PartName};
use book_model::{BilledLine, Line};
use report_texts::{add_amount, add_day, add_name, add_number_or_dash, add_shown};
use std::alloc::{AllocError, Global};
use text_drafts::RowDraft;

/// The row of a record.
#[tactic(auto, unfolding(crate::specs::RecordRows::record_fields))]
fn record_row(alloc: Global, billed: &BilledLine) -> RowDraft
    requires { IsDay billed.now.line.priced.day }
    ensures { result ≡ spec.record_fields billed.now }
{
    let line = &billed.line;
    let mut row = RowDraft::new(alloc);
    add_day(&mut row, line.priced.day);
    row.add_str(line.priced.shift.text());
    add_shown(&mut row, &line.job);
    add_shown(&mut row, &line.program);
    add_shown(&mut row, &line.job_id);
    add_number_or_dash(&mut row, line.step);
    add_number_or_dash(&mut row, billed.period);
    add_amount(&mut row, line.priced.amount);
    add_name(&mut row, &line.name);
    row
}

/// The line came late, or else was reversed.
fn is_side(late: bool, line: &Line) -> bool
    ensures { result ≡ spec.is_side late line.now }
{
    if late { line.plus } else { !line.plus }
}

/// The row of a record joins others, if its line is one of them.
#[tactic(auto, unfolding(crate::specs::RecordRows::side_fields))]
fn push_side(
    alloc: Global,
    rows: &mut Vec<RowDraft>,
    late: bool,
    billed: &BilledLine,
) -> Result<(), AllocError>
    requires { IsDay billed.now.line.priced.day }
    ensures { OnOk result (rows.new.items ≡ rows.old.items ++ spec.side_fields late billed.now) }
{
    if is_side(late, &billed.line) {
        rows.push(record_row(alloc, billed))?;
    }
    Ok(())
}

/// The rows of what came late, or of what was reversed.
#[tactic(auto, using(std::proofs::lemmas::List::flat_map_more))]
fn side_rows(alloc: Global, late: bool, billed: &[BilledLine]) -> Result<Vec<RowDraft>, AllocError>
    requires { All (λ one. IsDay one.line.priced.day) billed.now }
    ensures { IfOk result (λ rows. rows.items ≡ flat_map (spec.side_fields late) billed.now) }
{
    let mut rows = Vec::new(alloc);
    for one in billed {
        push_side(alloc, &mut rows, late, one)?;
    }
    Ok(rows)
}

/// The row of their sum.
fn sum_row(alloc: Global, amount: u64) -> RowDraft
    ensures { result ≡ spec.sum_fields amount }
{
    let mut row = RowDraft::new(alloc);
    row.add_str("TOTAL");
    row.add_str("");
    row.add_str("");
    row.add_str("");
    row.add_str("");
    row.add_str("");
    row.add_str("");
    add_amount(&mut row, amount);
    row
}

/// The name of the part.
fn side_name(late: bool) -> PartName
    ensures { result ≡ spec.side_name late }
{
    if late {
        PartName::Late
    } else {
        PartName::Reversed
    }
}

/// What came late, or what was reversed, with its sum.
pub(crate) fn side_part(
    alloc: Global,
    late: bool,
    billed: &[BilledLine],
    amount: u64,
) -> Result<Part, AllocError>
    requires { All (λ one. IsDay one.line.priced.day) billed.now }
    ensures { IfOk result (λ part. part_shown part ≡ spec.side_part late billed.now amount) }
{
    let rows = side_rows(alloc, late, billed)?;
    Ok(Part {
        name: side_name(late),
        layout: Layout::Records,
        rows,
        total: Some(sum_row(alloc, amount)),
    })
}
