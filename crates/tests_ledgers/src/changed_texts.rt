//! Which texts of books changed.

use crate::answers::push_fault;
use book_core::Ledger;
use book_reports::{PeriodReport, Report, report_text};
use std::alloc::Global;
use std::collections::BTreeMap;
use tests_scripts::AnswerText;

/// Texts of books, as they were shown last. The statement of a period is found by twice the number
/// of that, its adjustments by one more, and the others by numbers that are higher than those.
pub(crate) type ShownTexts = BTreeMap<u32, AnswerText>;

const DISPUTES: u32 = 131_072;

const PERIODS: u32 = 131_073;

/// What books say of a period that they do not have.
const NO_PERIOD: &str = "chargectl: ledger 11\n";

/// A text of the office, or why there is none.
fn text_now<L: Ledger>(alloc: Global, ledger: &mut L, report: Report) -> AnswerText {
    let mut now = AnswerText::new(alloc);
    match report_text(alloc, ledger, report) {
        Ok(text) => now.bytes(&text),
        Err(fault) => push_fault(&mut now, fault),
    }
    now
}

/// Adds a text, or why there is none, where that is not as it was shown last. A period that the
/// books do not have has no text to show.
fn push_changed<L: Ledger>(
    shown_texts: &mut ShownTexts,
    number: u32,
    ledger: &mut L,
    report: Report,
    out: &mut AnswerText,
) {
    let now = text_now(out.alloc(), ledger, report);
    let is_shown = match shown_texts.get(&number) {
        Some(shown) => shown.as_bytes() == now.as_bytes(),
        None => now.as_bytes() == NO_PERIOD.as_bytes(),
    };
    if !is_shown {
        out.add(&now);
    }
    if shown_texts.insert(number, now).is_err() {
        out.cut();
    }
}

/// The number of the period after the open one; 1 where the books do not say.
fn period_after_open<L: Ledger>(ledger: &mut L) -> u16 {
    match ledger.periods() {
        Ok(closes) => u16::try_from(closes.len()).map_or(1, |closes| closes.saturating_add(2)),
        Err(_) => 1,
    }
}

/// What a period has of the whole office.
fn of_period(report: PeriodReport, period: u16) -> Report {
    Report::OfPeriod {
        report,
        period,
        centre: None,
    }
}

/// Adds each text of the books that is not as it was shown last: the statement and the adjustments
/// of each period, also of those before the first and after the open one, the disputes, the periods.
pub(crate) fn push_changes<L: Ledger>(
    shown_texts: &mut ShownTexts,
    ledger: &mut L,
    out: &mut AnswerText,
) {
    for period in 0..=period_after_open(ledger) {
        let number = u32::from(period).saturating_mul(2);
        let statement = of_period(PeriodReport::Statement, period);
        let adjustments = of_period(PeriodReport::AdjustmentList, period);
        push_changed(shown_texts, number, ledger, statement, out);
        push_changed(
            shown_texts,
            number.saturating_add(1),
            ledger,
            adjustments,
            out,
        );
    }
    push_changed(shown_texts, DISPUTES, ledger, Report::DisputeList, out);
    push_changed(shown_texts, PERIODS, ledger, Report::PeriodList, out);
}

/// Those texts of books, all of them.
pub fn all_texts<L: Ledger>(alloc: Global, ledger: &mut L) -> AnswerText {
    let mut texts = AnswerText::new(alloc);
    let mut shown_texts = BTreeMap::new(alloc);
    push_changes(&mut shown_texts, ledger, &mut texts);
    texts
}
