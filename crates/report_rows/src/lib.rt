//! The reports of the office, a row for each: its word, which words follow BOOK, and where it is
//! served.
#![tactic(auto)]

mod about;
pub mod report_row;

pub use about::About;
pub use report_row::{
    BodyKind, ReportName, ReportRow, Shape, all_reports, command_reports, named_report, page_of,
    report_about, row_of,
};
