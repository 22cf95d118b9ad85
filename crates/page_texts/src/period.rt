//! The page of a period.

ghost use Rattle.std.specs.Prelude.{◌≡◌, All, IfOk, map, string_bytes};
ghost use Rattle.book_model.specs.Words.{AreDisputes, AreLines, AreRows, IsDay, credit_shown};
ghost use Rattle.book_model.specs.Words.{dispute_shown, letterhead_shown};
ghost use Rattle.report_texts.specs.Charges.{FitCredits, plain_credits};
ghost use Rattle.page_texts.specs.PeriodPage as spec;

use crate::closes::close_of;
use crate::figures::{day_costs, has_credits, period_figures};
use crate::frame::push_page_start;
use crate::letterheads::push_currency_figure;
use crate::period_adjustments::push_adjustment_part;
use crate::period_disputes::push_dispute_part;
use crate::period_head::{
    PeriodHead, period_title, push_gaps_figure, push_period_foot, push_period_head,
};
use crate::period_pictures::{centre_costs, push_centre_table, push_day_table};
use crate::period_statement::push_statement_part;
use book_model::{ChargeRow, Credit, Dispute, Line};
use coverage_texts::CoverageRow;
use std::alloc::{AllocError, Global};
use text_drafts::Draft;

/// The page of a period: by its number and what the last of its tariffs says of the office, the
/// days through which periods were closed, in order, its charge rows and its adjustment lines in
/// the order in which the books give them, its credits, all disputes of the office, and the rows of
/// its coverage. That of the open period shows all these disputes, that of a closed one those that
/// have a record dated in it.
#[tactic(auto, unfolding(crate::specs::PeriodPictures::day_part, crate::specs::PeriodPictures::centre_part))]
pub fn period_page(
    alloc: Global,
    head: &PeriodHead<'_>,
    closes: &[i32],
    rows: &[ChargeRow],
    lines: &[Line],
    credits: &[Credit],
    disputes: &[Dispute],
    coverage: &[CoverageRow],
) -> Result<String, AllocError>
    requires closes { All IsDay closes.now }
    requires rows { AreRows rows.now }
    requires lines { AreLines lines.now }
    requires credits { FitCredits (plain_credits (map credit_shown credits.now)) }
    requires disputes { AreDisputes (map dispute_shown disputes.now) }
    ensures { IfOk result (λ page. string_bytes page
        ≡ spec.period_page_text head.now.number (letterhead_shown head.now.letterhead.now)
        closes.now rows.now lines.now (map credit_shown credits.now)
        (map dispute_shown disputes.now) coverage.now) }
{
    let number = usize::from(head.number);
    let before = close_of(closes, number.saturating_sub(1));
    let through = close_of(closes, number);
    let figures = period_figures(alloc, rows, lines, credits)?;
    let days = day_costs(alloc, rows)?;
    let centres = centre_costs(alloc, rows, lines, credits)?;
    let title = period_title(alloc, head.number);
    let mut page = Draft::new(alloc);
    push_page_start(&mut page, &title);
    push_period_head(
        &mut page,
        &head.letterhead.office,
        &title,
        through,
        &figures,
    );
    push_currency_figure(&mut page, &head.letterhead.currency);
    push_gaps_figure(&mut page, coverage);
    push_day_table(&mut page, &days);
    push_centre_table(&mut page, has_credits(&figures), &centres);
    push_statement_part(&mut page, rows);
    push_adjustment_part(&mut page, lines);
    push_dispute_part(&mut page, before, through, disputes);
    push_period_foot(&mut page, head.number);
    page.finish()
}
