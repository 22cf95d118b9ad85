//! The pages of the office and of a period, which a ledger answers by calls that change nothing: each
//! is as one call.

ghost use Rattle.std.specs.Prelude.{map};
ghost use Rattle.book_model.specs.Words.{credit_shown};
ghost use Rattle.book_core.specs.Calls.{IsCall};
ghost use Rattle.page_texts.specs.Figures.{figures_seen};
ghost use Rattle.book_reports.specs.Pages as spec;

use crate::bill_credits::shown_credits;
use crate::bill_tariffs::billed_tariffs;
use crate::coverage::period_coverage;
use crate::figures::{lines_of_period, period_after, rows_of_period};
use crate::given_credits::{credits_of_period, given_credits};
use crate::streamed_disputes::count_disputes;
use book_core::{Ledger, LedgerFault};
use book_model::Credit;
use page_texts::{PeriodFigures, PeriodHead, office_page, period_figures, period_page};
use std::alloc::Global;

/// What the page of the office shows of a period, by all credits of the books.
fn figures_in_period<L: Ledger>(
    alloc: Global,
    ledger: &mut L,
    credits: &[Credit],
    period: u16,
) -> Result<PeriodFigures, LedgerFault>
    ensures { IsCall figures_seen (L.seen ledger.old) (L.seen ledger.new) result
        (spec.figures_with_outcome (L.seen ledger.old).naming period (map credit_shown credits.now)) }
{
    let rows = rows_of_period(alloc, ledger, period)?;
    let lines = lines_of_period(alloc, ledger, period)?;
    let own = credits_of_period(alloc, credits, period)?;
    let figures = period_figures(alloc, &rows, &lines, &own)?;
    Ok(figures)
}

/// The page of the office. Of each period no more than its figures is kept in memory, and the credits
/// of all are read once.
pub(crate) fn office_page_report<L: Ledger>(
    alloc: Global,
    ledger: &mut L,
) -> Result<Vec<u8>, LedgerFault>
    ensures { IsCall (λ text. text.items) (L.seen ledger.old) (L.seen ledger.new) result
        (spec.office_page_outcome (L.seen ledger.old).naming) }
{
    let closes = ledger.periods()?;
    let credits = given_credits(alloc, ledger)?;
    let open = period_after(&closes);
    let mut periods = Vec::new(alloc);
    for before in 0..open.number {
        let figures = figures_in_period(alloc, ledger, &credits, before + 1)?;
        periods.push(figures)?;
    }
    let kept = billed_tariffs(alloc, ledger, open.number)?;
    let disputes = count_disputes(alloc, ledger)?;
    let page = office_page(alloc, &kept.letterhead, disputes, &closes, &periods)?;
    Ok(page.into_bytes())
}

/// The page of a period.
pub(crate) fn period_page_report<L: Ledger>(
    alloc: Global,
    ledger: &mut L,
    period: u16,
) -> Result<Vec<u8>, LedgerFault>
    ensures { IsCall (λ text. text.items) (L.seen ledger.old) (L.seen ledger.new) result
        (spec.period_page_outcome (L.seen ledger.old).naming period) }
{
    let coverage = period_coverage(alloc, ledger, period)?;
    let rows = rows_of_period(alloc, ledger, period)?;
    let lines = lines_of_period(alloc, ledger, period)?;
    let credits = shown_credits(alloc, ledger, period, &None)?;
    let disputes = ledger.disputes()?;
    let closes = ledger.periods()?;
    let kept = billed_tariffs(alloc, ledger, period)?;
    let head = PeriodHead {
        number: period,
        letterhead: &kept.letterhead,
    };
    let page = period_page(
        alloc, &head, &closes, &rows, &lines, &credits, &disputes, &coverage,
    )?;
    Ok(page.into_bytes())
}
