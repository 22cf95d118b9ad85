//! The adjustment lines of a bill: of one centre each with the period that it speaks of; of the whole
//! office without, since no more than their sums is shown.

ghost use Rattle.std.specs.Prelude.{◌≡◌, IfOk, None, Some, map};
ghost use Rattle.book_model.specs.Words as words;
ghost use Rattle.book_core.specs.Calls.{IsCall};
ghost use Rattle.book_reports.specs.BillLines as spec;
ghost use Rattle.book_reports.specs.BillLines.{AreBilled};

use book_core::{Ledger, LedgerFault, Line};
use book_model::BilledLine;
use report_texts::keep_lines;
use smf_text::Name;
use std::alloc::{AllocError, Global};

/// The lines, without the periods that they speak of.
fn lines_alone(alloc: Global, lines: &[Line]) -> Result<Vec<BilledLine>, AllocError>
    ensures { IfOk result (λ billed. billed.items ≡ map words.line_alone lines.now) }
{
    let mut billed = Vec::new(alloc);
    for line in lines {
        billed.push(BilledLine {
            line: *line,
            period: None,
        })?;
    }
    Ok(billed)
}

/// The lines of a period for the whole office.
fn office_lines<L: Ledger>(
    alloc: Global,
    ledger: &mut L,
    period: u16,
) -> Result<Vec<BilledLine>, LedgerFault>
    ensures lines { IsCall (λ lines. lines.items) (L.seen ledger.old) (L.seen ledger.new) result
        (spec.billed_outcome (L.seen ledger.old).naming period None) }
    ensures shown { IfOk result (λ lines. AreBilled lines.items) }
{
    let lines = ledger.adjustments(period)?;
    let billed = lines_alone(alloc, &lines)?;
    Ok(billed)
}

/// The lines of a period for one centre, each with the period that it speaks of.
fn centre_lines<L: Ledger>(
    alloc: Global,
    ledger: &mut L,
    period: u16,
    centre: Name,
) -> Result<Vec<BilledLine>, LedgerFault>
    ensures lines { IsCall (λ lines. lines.items) (L.seen ledger.old) (L.seen ledger.new) result
        (spec.billed_outcome (L.seen ledger.old).naming period (Some centre)) }
    ensures shown { IfOk result (λ lines. AreBilled lines.items) }
{
    let mut lines = ledger.adjustments(period)?;
    keep_lines(&mut lines, centre);
    let mut billed = Vec::new(alloc);
    for line in &lines {
        let spoken_of = ledger.period_of_line(period, line)?;
        billed.push(BilledLine {
            line: *line,
            period: spoken_of,
        })?;
    }
    Ok(billed)
}

/// The lines of a period, for the centre that is named or for the whole office.
pub(crate) fn billed_lines<L: Ledger>(
    alloc: Global,
    ledger: &mut L,
    period: u16,
    centre: &Option<Name>,
) -> Result<Vec<BilledLine>, LedgerFault>
    ensures lines { IsCall (λ lines. lines.items) (L.seen ledger.old) (L.seen ledger.new) result
        (spec.billed_outcome (L.seen ledger.old).naming period centre.now) }
    ensures shown { IfOk result (λ lines. AreBilled lines.items) }
{
    match *centre {
        Some(centre) => centre_lines(alloc, ledger, period, centre),
        None => office_lines(alloc, ledger, period),
    }
}
