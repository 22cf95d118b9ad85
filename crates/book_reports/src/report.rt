//! The reports of an office, each under its one name.

ghost use Rattle.std.specs.Prelude.{◌≡◌};
ghost use Rattle.book_reports.specs.BookTexts as spec;

use crate::what_if::StatementForm;
use smf_text::Name;

/// What a period has, of the whole office and of each centre.
#[derive(Clone, Copy)]
pub enum PeriodReport {
    /// The statement.
    Statement,
    /// The statement as a table of comma-separated values.
    StatementTable,
    /// The adjustments.
    AdjustmentList,
    /// The adjustments as a table of comma-separated values.
    AdjustmentTable,
}

/// A report of the books.
#[derive(Clone, Copy)]
pub enum Report {
    /// What a period has: of one centre, or where none is named of the whole office.
    OfPeriod {
        /// Which of them.
        report: PeriodReport,
        /// The number of the period.
        period: u16,
        /// The centre, `None` for the whole office.
        centre: Option<Name>,
    },
    /// The disputes.
    DisputeList,
    /// The records in dispute as a table of comma-separated values.
    DisputeTable,
    /// The periods.
    PeriodList,
    /// The rulings.
    RulingList,
    /// The text of the tariff that begins on a day, counted from 1970-01-01.
    TariffText(i32),
    /// The text of a tariff that another took the place of.
    ReplacedText {
        /// The day on which the tariff begins, counted from 1970-01-01.
        day: i32,
        /// The SHA-256 of the text.
        digest: [u8; 32],
    },
    /// What stands behind the price of the record of a name, and what became of the record.
    Record([u8; 32]),
    /// The bill of a period: of one centre, or where none is named what each centre owes.
    Bill {
        /// As a text or as a table.
        form: StatementForm,
        /// The number of the period.
        period: u16,
        /// The centre, `None` for the whole office.
        centre: Option<Name>,
    },
    /// The bill of a period as a page, for a browser and for paper: of one centre, or where none is
    /// named that of the office.
    BillPage {
        /// The number of the period.
        period: u16,
        /// The centre, `None` for the whole office.
        centre: Option<Name>,
    },
    /// A period as a table of cost and usage by FOCUS 1.0.
    Focus(u16),
    /// How many records a period counts of each day and system.
    Coverage {
        /// As a text or as a table.
        form: StatementForm,
        /// The number of the period.
        period: u16,
    },
    /// The page of the office, for a browser: what each period comes to, the open one first.
    OfficePage,
    /// The page of a period, for a browser.
    PeriodPage(u16),
}

/// The centre that a text names, `None` where the text is no name.
pub fn centre_named(text: &str) -> Option<Name>
    ensures { result ≡ spec.centre_named text.now }
{
    Name::of(text)
}
