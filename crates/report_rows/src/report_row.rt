//! The table of the reports. All that a report adds to this crate stands in this file: its name, its
//! row, its place in the order of the program's help, and the report of `book_reports` that it is.

ghost use Rattle.std.specs.Prelude.{◌≡◌, find, option_copied, option_map};
ghost use Rattle.report_rows.specs.ReportRows as spec;

use crate::about::About;
use book_reports::{PeriodReport, Report, StatementForm};
use smf_text::Name;

/// A report, by its name.
#[derive(Clone, Copy)]
pub enum ReportName {
    /// What a period charges.
    Statement,
    /// What a period adds to closed periods and reverses in them.
    Adjustments,
    /// The records that a period counts.
    Details,
    /// A bill: that of a centre, or what each centre owes.
    Bill,
    /// A bill as a page for a browser and for paper.
    BillPage,
    /// A period as a table of cost and usage by FOCUS 1.0.
    Focus,
    /// How many records a period counts of each day and system.
    Coverage,
    /// A period as a page for a browser.
    Page,
    /// The records in dispute.
    Disputes,
    /// A record, with its price and what became of it.
    Record,
    /// The periods.
    Periods,
    /// The rulings.
    Rulings,
    /// The journal: who ruled or imported, when, and from which file.
    Journal,
    /// The file of a tariff.
    TariffText,
}

/// What a report is about, and so which words follow BOOK, and what follows the path.
#[derive(Clone, Copy)]
pub enum Shape {
    /// A period, of the whole office or of one centre.
    OfCentre,
    /// A period of the whole office.
    OfPeriod,
    /// The books.
    OfOffice,
    /// The tariff that begins on a day, or one that another took the place of.
    OfDay,
    /// A record, by its name.
    OfRecord,
}

/// What a report is, as the body of an answer.
#[derive(Clone, Copy)]
pub enum BodyKind {
    /// A text for people.
    Text,
    /// Rows with commas.
    Csv,
    /// A page for a browser.
    Page,
    /// The file of a tariff, in UTF-8.
    TariffFile,
}

/// All that sets a report apart from the others but its text.
#[derive(Clone, Copy)]
pub struct ReportRow {
    /// The word that asks for it on the command line.
    pub word: &'static str,
    pub shape: Shape,
    /// It is also a table of comma-separated values, where `--csv` asks for one.
    pub csv: bool,
    /// It is also a page to print, where `--html` asks for one.
    pub html: bool,
    /// It is written while the books are open, and never held whole.
    pub streamed: bool,
    /// It is also made by the prices of another tariff, which `--tariff` names.
    pub by_prices: bool,
    /// Where it is served, or in front of what names a period, a day or a record.
    pub path: Option<&'static str>,
    /// The same of the table.
    pub csv_path: Option<&'static str>,
    /// What it is where it is no table.
    pub kind: BodyKind,
}

impl ReportRow {
    /// Where the report is served in this form, if it is.
    pub fn path_in(self, form: StatementForm) -> Option<&'static str>
        ensures { option_map (λ path. path.now) result
            ≡ spec.path_in (spec.row_seen self) form }
    {
        match form {
            StatementForm::Text => self.path,
            StatementForm::Table => self.csv_path,
        }
    }

    /// What the report is in this form.
    pub fn kind_in(self, form: StatementForm) -> BodyKind
        ensures { result ≡ spec.kind_in (spec.row_seen self) form }
    {
        match form {
            StatementForm::Text => self.kind,
            StatementForm::Table => BodyKind::Csv,
        }
    }
}

/// A report of the office that is a text, and not served.
const PLAIN: ReportRow = ReportRow {
    word: "",
    shape: Shape::OfOffice,
    csv: false,
    html: false,
    streamed: false,
    by_prices: false,
    path: None,
    csv_path: None,
    kind: BodyKind::Text,
};

pub const STATEMENT: ReportRow = ReportRow {
    word: "statement",
    shape: Shape::OfCentre,
    csv: true,
    by_prices: true,
    path: Some("/statement/"),
    csv_path: Some("/statement-csv/"),
    ..PLAIN
};

pub const ADJUSTMENTS: ReportRow = ReportRow {
    word: "adjustments",
    shape: Shape::OfCentre,
    csv: true,
    path: Some("/adjustments/"),
    csv_path: Some("/adjustments-csv/"),
    ..PLAIN
};

pub const DETAILS: ReportRow = ReportRow {
    word: "details",
    shape: Shape::OfCentre,
    csv: true,
    streamed: true,
    path: Some("/details/"),
    csv_path: Some("/details-csv/"),
    ..PLAIN
};

/// A bill. Its text is not served: its page is.
pub const BILL: ReportRow = ReportRow {
    word: "bill",
    shape: Shape::OfCentre,
    csv: true,
    html: true,
    csv_path: Some("/bill-csv/"),
    ..PLAIN
};

/// The page of a bill, for which the bill's own word asks.
pub const BILL_PAGE: ReportRow = ReportRow {
    word: "bill",
    shape: Shape::OfCentre,
    path: Some("/bill/"),
    kind: BodyKind::Page,
    ..PLAIN
};

/// A period as a table of cost and usage by FOCUS 1.0, which has no other form.
pub const FOCUS: ReportRow = ReportRow {
    word: "focus",
    shape: Shape::OfPeriod,
    path: Some("/focus/"),
    kind: BodyKind::Csv,
    ..PLAIN
};

pub const COVERAGE: ReportRow = ReportRow {
    word: "coverage",
    shape: Shape::OfPeriod,
    csv: true,
    path: Some("/coverage/"),
    csv_path: Some("/coverage-csv/"),
    ..PLAIN
};

pub const PAGE: ReportRow = ReportRow {
    word: "page",
    shape: Shape::OfPeriod,
    path: Some("/period/"),
    kind: BodyKind::Page,
    ..PLAIN
};

pub const DISPUTES: ReportRow = ReportRow {
    word: "disputes",
    csv: true,
    streamed: true,
    path: Some("/disputes"),
    csv_path: Some("/disputes-csv"),
    ..PLAIN
};

pub const RECORD: ReportRow = ReportRow {
    word: "record",
    shape: Shape::OfRecord,
    path: Some("/record/"),
    ..PLAIN
};

pub const PERIODS: ReportRow = ReportRow {
    word: "periods",
    path: Some("/periods"),
    ..PLAIN
};

pub const RULINGS: ReportRow = ReportRow {
    word: "rulings",
    streamed: true,
    path: Some("/rulings"),
    ..PLAIN
};

/// The journal, which is not served: clients need no names of persons.
pub const JOURNAL: ReportRow = ReportRow {
    word: "journal",
    csv: true,
    streamed: true,
    ..PLAIN
};

pub const TARIFF_TEXT: ReportRow = ReportRow {
    word: "tariff-text",
    shape: Shape::OfDay,
    path: Some("/tariff/"),
    kind: BodyKind::TariffFile,
    ..PLAIN
};

/// The row of a report.
#[tactic(auto, unfolding(crate::specs::ReportRows::row_of))]
pub fn row_of(name: ReportName) -> ReportRow
    ensures { spec.row_of name ≡ spec.row_seen result }
{
    match name {
        ReportName::Statement => STATEMENT,
        ReportName::Adjustments => ADJUSTMENTS,
        ReportName::Details => DETAILS,
        ReportName::Bill => BILL,
        ReportName::BillPage => BILL_PAGE,
        ReportName::Focus => FOCUS,
        ReportName::Coverage => COVERAGE,
        ReportName::Page => PAGE,
        ReportName::Disputes => DISPUTES,
        ReportName::Record => RECORD,
        ReportName::Periods => PERIODS,
        ReportName::Rulings => RULINGS,
        ReportName::Journal => JOURNAL,
        ReportName::TariffText => TARIFF_TEXT,
    }
}

/// The report that is the page of one that is also a page.
pub fn page_of(name: ReportName) -> ReportName
    ensures { result ≡ spec.page_of name }
{
    match name {
        ReportName::Bill => ReportName::BillPage,
        _ => name,
    }
}

/// The reports that have a command of their own, in the order of the program's help.
static COMMANDS: [ReportName; 13] = [
    ReportName::Statement,
    ReportName::Adjustments,
    ReportName::Details,
    ReportName::Bill,
    ReportName::Focus,
    ReportName::Coverage,
    ReportName::Page,
    ReportName::Disputes,
    ReportName::Record,
    ReportName::Periods,
    ReportName::Rulings,
    ReportName::Journal,
    ReportName::TariffText,
];

/// All reports: the page of another one, and those.
static REPORTS: [ReportName; 14] = [
    ReportName::BillPage,
    ReportName::Statement,
    ReportName::Adjustments,
    ReportName::Details,
    ReportName::Bill,
    ReportName::Focus,
    ReportName::Coverage,
    ReportName::Page,
    ReportName::Disputes,
    ReportName::Record,
    ReportName::Periods,
    ReportName::Rulings,
    ReportName::Journal,
    ReportName::TariffText,
];

fn statement_in(form: StatementForm) -> PeriodReport
    ensures { result ≡ spec.statement_in form }
{
    match form {
        StatementForm::Text => PeriodReport::Statement,
        StatementForm::Table => PeriodReport::StatementTable,
    }
}

fn adjustments_in(form: StatementForm) -> PeriodReport
    ensures { result ≡ spec.adjustments_in form }
{
    match form {
        StatementForm::Text => PeriodReport::AdjustmentList,
        StatementForm::Table => PeriodReport::AdjustmentTable,
    }
}

/// The report of a period, of one centre or of the whole office.
fn report_of_centre(
    name: ReportName,
    form: StatementForm,
    period: u16,
    centre: Option<Name>,
) -> Option<Report>
    ensures { result ≡ spec.report_of_centre name form period centre }
{
    match name {
        ReportName::Statement => Some(Report::OfPeriod {
            report: statement_in(form),
            period,
            centre,
        }),
        ReportName::Adjustments => Some(Report::OfPeriod {
            report: adjustments_in(form),
            period,
            centre,
        }),
        ReportName::Bill => Some(Report::Bill {
            form,
            period,
            centre,
        }),
        ReportName::BillPage => match form {
            StatementForm::Text => Some(Report::BillPage { period, centre }),
            StatementForm::Table => None,
        },
        _ => None,
    }
}

/// The report of a period of the whole office.
fn report_of_period(name: ReportName, form: StatementForm, period: u16) -> Option<Report>
    ensures { result ≡ spec.report_of_period name form period }
{
    match name {
        ReportName::Focus => match form {
            StatementForm::Text => Some(Report::Focus(period)),
            StatementForm::Table => None,
        },
        ReportName::Coverage => Some(Report::Coverage { form, period }),
        ReportName::Page => match form {
            StatementForm::Text => Some(Report::PeriodPage(period)),
            StatementForm::Table => None,
        },
        _ => None,
    }
}

/// The report of this name about that. `None`: it is not about such a thing, or it is made only as
/// it is written.
pub fn report_about(name: ReportName, form: StatementForm, about: About) -> Option<Report>
    ensures { result ≡ spec.report_about name form about }
{
    match about {
        About::OfCentre { period, centre } => report_of_centre(name, form, period, centre),
        About::OfPeriod(period) => report_of_period(name, form, period),
        About::OfOffice => match name {
            ReportName::Disputes => match form {
                StatementForm::Text => Some(Report::DisputeList),
                StatementForm::Table => Some(Report::DisputeTable),
            },
            ReportName::Periods => Some(Report::PeriodList),
            ReportName::Rulings => Some(Report::RulingList),
            _ => None,
        },
        About::OfDay(day) => match name {
            ReportName::TariffText => Some(Report::TariffText(day)),
            _ => None,
        },
        About::OfReplaced { day, digest } => match name {
            ReportName::TariffText => Some(Report::ReplacedText { day, digest }),
            _ => None,
        },
        About::OfRecord(record) => match name {
            ReportName::Record => Some(Report::Record(record)),
            _ => None,
        },
    }
}

/// The reports that have a command of their own, in the order of the program's help.
pub fn command_reports() -> &'static [ReportName]
    ensures { result.now ≡ spec.commands }
{
    COMMANDS.as_slice()
}

/// All reports.
pub fn all_reports() -> &'static [ReportName]
    ensures { result.now ≡ spec.reports }
{
    REPORTS.as_slice()
}

/// The word is that of the report.
fn has_word(name: ReportName, word: &str) -> bool
    ensures { result ≡ spec.has_word word.now name }
{
    row_of(name).word == word
}

fn report_among<'a>(names: &'a [ReportName], word: &str) -> Option<&'a ReportName>
    ensures { option_copied result ≡ find (spec.has_word word.now) names.now }
{
    names.iter().find(|name| has_word(**name, word))
}

/// The report whose command the word is, if it is one.
pub fn named_report(word: &str) -> Option<ReportName>
    ensures { result ≡ spec.named_report word.now }
{
    match report_among(command_reports(), word) {
        Some(name) => Some(*name),
        None => None,
    }
}
