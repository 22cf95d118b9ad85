//! The coverage of a period: by day and system, how many records it counts, and their first and
//! last time.

ghost use Rattle.std.specs.Prelude.{◌≡◌, All, IfOk};
ghost use Rattle.std.specs.Option.{ForSome};
ghost use Rattle.book_model.specs.Words.{IsDay, no_event};
ghost use Rattle.book_core.specs.Calls.{IsCall};
ghost use Rattle.book_lists.specs.Cursors.{Folds};
ghost use Rattle.book_reports.specs.Coverage as spec;
ghost use Rattle.book_reports.specs.CoverageSums.{IsCoverageOf, SystemDetails};
ghost use Rattle.book_reports.specs.SystemDetails.{system_details};

use crate::book_texts::closed_through;
use crate::coverage_sums::{CoverageStep, CoverageSums, coverage_rows};
use crate::period_days::PeriodDays;
use crate::system_details::SystemCursor;
use crate::what_if::StatementForm;
use book_core::{Ledger, LedgerFault};
use book_lists::fold;
use coverage_texts::{CoverageRow, coverage_table, coverage_text};
use std::alloc::{AllocError, Global};

/// The days of the closes of a period and of the one before it.
fn closes_around<L: Ledger>(ledger: &mut L, period: u16) -> Result<PeriodDays, LedgerFault>
    ensures days { IsCall (λ days. days) (L.seen ledger.old) (L.seen ledger.new) result
        (spec.around_outcome period) }
    ensures before { IfOk result (λ days. ForSome days.before IsDay) }
    ensures through { IfOk result (λ days. ForSome days.through IsDay) }
{
    let before = closed_through(ledger, period.saturating_sub(1))?;
    let through = closed_through(ledger, period)?;
    Ok(PeriodDays { before, through })
}

/// What the records of a period come to.
fn period_sums<L: Ledger>(
    alloc: Global,
    ledger: &mut L,
    period: u16,
) -> Result<CoverageSums, LedgerFault>
    ensures { Folds (λ one. one) (L.seen ledger.old) (L.seen ledger.new)
        (λ book. system_details (L.seen ledger.old).naming period book) IsCoverageOf result }
{
    let records = SystemCursor { alloc, period };
    fold(alloc, ledger, &records, &CoverageStep)
}

/// The rows of a period's coverage.
pub(crate) fn period_coverage<L: Ledger>(
    alloc: Global,
    ledger: &mut L,
    period: u16,
) -> Result<Vec<CoverageRow>, LedgerFault>
    ensures { IsCall (λ rows. rows.items) (L.seen ledger.old) (L.seen ledger.new) result
        (λ book. no_event (spec.coverage_rows_answer (L.seen ledger.old).naming period book)) }
{
    let days = closes_around(ledger, period)?;
    let sums = period_sums(alloc, ledger, period)?;
    let rows = coverage_rows(alloc, sums, days.before, days.through)?;
    Ok(rows)
}

/// The rows of a period as a list or as a table.
fn coverage_as(
    alloc: Global,
    form: StatementForm,
    period: u16,
    through: Option<i32>,
    rows: &[CoverageRow],
) -> Result<Vec<u8>, AllocError>
    requires through { ForSome through IsDay }
    requires rows { All (λ row. IsDay row.day) rows.now }
    ensures { IfOk result (λ text.
        text.items ≡ spec.coverage_as form period through rows.now) }
{
    match form {
        StatementForm::Text => Ok(coverage_text(alloc, period, through, rows)?.into_bytes()),
        StatementForm::Table => coverage_table(alloc, period, rows),
    }
}

/// The coverage that the records of a period make.
fn coverage_by(
    alloc: Global,
    form: StatementForm,
    period: u16,
    days: PeriodDays,
    sums: CoverageSums,
) -> Result<Vec<u8>, AllocError>
    requires before { ForSome days.before IsDay }
    requires through { ForSome days.through IsDay }
    requires sums { (details : SystemDetails) × IsCoverageOf sums details }
    ensures { IfOk result (λ text. (details : SystemDetails) → IsCoverageOf sums details
        → text.items ≡ spec.coverage_by form period days details) }
{
    let rows = coverage_rows(alloc, sums, days.before, days.through)?;
    coverage_as(alloc, form, period, days.through, &rows)
}

/// The coverage of a period.
pub(crate) fn coverage_report<L: Ledger>(
    alloc: Global,
    ledger: &mut L,
    form: StatementForm,
    period: u16,
) -> Result<Vec<u8>, LedgerFault>
    ensures { IsCall (λ text. text.items) (L.seen ledger.old) (L.seen ledger.new) result
        (λ book. no_event (spec.coverage_answer (L.seen ledger.old).naming form period book)) }
{
    let days = closes_around(ledger, period)?;
    let sums = period_sums(alloc, ledger, period)?;
    let text = coverage_by(alloc, form, period, days, sums)?;
    Ok(text)
}
