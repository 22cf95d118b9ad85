//! Texts of books.

use crate::names::{centre_in, name_in};
use crate::text_writing::{Writes, Written};
use book_core::{Ledger, Sink};
use book_import::Stop;
use book_reports::{
    DetailReport, PeriodReport, Report, StatementForm, write_details, write_journal, write_report,
};
use smf_text::Name;
use std::alloc::Global;
use tests_scripts::{Ask, LimitedWriter, Limits, LineFault, LineResult, Named, value_of};

/// A text of books.
#[derive(Clone, Copy)]
pub(crate) enum BookText {
    /// The details of a period, or of one centre in it.
    Details(DetailReport),
    /// The journal.
    Journal(StatementForm),
    /// Any other.
    Report(Report),
}

/// What a period has, for all centres or for one.
#[derive(Clone, Copy)]
enum PeriodText {
    Report(PeriodReport),
    Details(StatementForm),
    Bill(StatementForm),
    BillPage,
    /// A table of cost and usage. It is of all centres alone, and so are coverage and a page.
    Focus,
    Coverage(StatementForm),
    Page,
}

/// By the verbs that ask for it.
const PERIOD_TEXTS: [(&str, PeriodText); 12] = [
    ("statement", PeriodText::Report(PeriodReport::Statement)),
    ("table", PeriodText::Report(PeriodReport::StatementTable)),
    (
        "adjustments",
        PeriodText::Report(PeriodReport::AdjustmentList),
    ),
    ("details", PeriodText::Details(StatementForm::Text)),
    ("details-table", PeriodText::Details(StatementForm::Table)),
    ("bill", PeriodText::Bill(StatementForm::Text)),
    ("bill-table", PeriodText::Bill(StatementForm::Table)),
    ("bill-page", PeriodText::BillPage),
    ("focus", PeriodText::Focus),
    ("coverage", PeriodText::Coverage(StatementForm::Text)),
    ("coverage-table", PeriodText::Coverage(StatementForm::Table)),
    ("page", PeriodText::Page),
];

impl PeriodText {
    /// The text of a period: of one centre, or where none is named of the whole office.
    fn of(self, period: u16, centre: Option<Name>) -> LineResult<BookText> {
        let report = match self {
            PeriodText::Report(report) => Report::OfPeriod {
                report,
                period,
                centre,
            },
            PeriodText::Bill(form) => Report::Bill {
                form,
                period,
                centre,
            },
            PeriodText::BillPage => Report::BillPage { period, centre },
            PeriodText::Focus if centre.is_none() => Report::Focus(period),
            PeriodText::Coverage(form) if centre.is_none() => Report::Coverage { form, period },
            PeriodText::Page if centre.is_none() => Report::PeriodPage(period),
            PeriodText::Focus | PeriodText::Coverage(_) | PeriodText::Page => {
                return Err(LineFault::NotUnderstood);
            }
            PeriodText::Details(form) => {
                return Ok(BookText::Details(DetailReport {
                    form,
                    period,
                    centre,
                }));
            }
        };
        Ok(BookText::Report(report))
    }
}

/// The text of a period, or of one centre in it, that a line asks for.
fn in_period(verb: &str, words: &[&str]) -> LineResult<BookText> {
    let text = value_of(&PERIOD_TEXTS, verb)?;
    match words {
        [period] => text.of(period.parse::<u16>()?, None),
        [period, centre] => text.of(period.parse::<u16>()?, Some(centre_in(centre)?)),
        _ => Err(LineFault::NotUnderstood),
    }
}

impl BookText {
    /// The text that a line asks for.
    pub(crate) fn of(named: &Named, ask: Ask<'_>) -> LineResult<BookText> {
        match (ask.verb, ask.words) {
            ("disputes", []) => Ok(BookText::Report(Report::DisputeList)),
            ("periods", []) => Ok(BookText::Report(Report::PeriodList)),
            ("office-page", []) => Ok(BookText::Report(Report::OfficePage)),
            ("journal", []) => Ok(BookText::Journal(StatementForm::Text)),
            ("journal-table", []) => Ok(BookText::Journal(StatementForm::Table)),
            ("record", [word]) => Ok(BookText::Report(Report::Record(name_in(named, word)?))),
            (verb, words) => in_period(verb, words),
        }
    }
}

/// A text of these books.
#[derive(Drop)]
pub(crate) struct TextOf<'a, L: Ledger> {
    pub(crate) ledger: &'a mut L,
    pub(crate) text: BookText,
}

impl<L: Ledger> Writes for TextOf<'_, L> {
    fn write_to(&mut self, alloc: Global, limits: Limits) -> Written {
        let mut sink = Sink::new(LimitedWriter::new(alloc, limits));
        let ledger = &mut *self.ledger;
        let answer = match &self.text {
            BookText::Details(report) => write_details(alloc, ledger, *report, &mut sink),
            BookText::Journal(form) => write_journal(alloc, ledger, *form, &mut sink),
            BookText::Report(report) => write_report(alloc, ledger, *report, &mut sink),
        };
        Written::of(alloc, sink, answer.and(Ok(Stop::End)))
    }
}
