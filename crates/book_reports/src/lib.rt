//! The reports of any books, and the lines of receipts and check lists: what their texts are, and
//! what a writer gains from them.
#![tactic(auto)]

mod bill_credits;
mod bill_lines;
mod bill_page_reports;
mod bill_shifts;
mod bill_tariffs;
mod bill_work;
mod bills;
mod book_texts;
mod check_lists;
mod coverage;
mod coverage_sums;
mod detail_lengths;
mod figures;
mod focus_days;
mod focus_reports;
mod given_credits;
mod held_back;
mod known_centres;
mod next_tariffs;
mod pages;
mod period_days;
mod receipt_lines;
mod record_names;
mod record_reports;
mod replaced_texts;
mod report;
mod reports;
mod ruling_texts;
mod streamed_details;
mod streamed_disputes;
mod streamed_journal;
mod streamed_rulings;
mod system_details;
mod what_if;

pub use book_lists::{ReportFault, write_bytes, write_text};
pub use book_texts::report_text;
pub use check_lists::{push_last_line, push_record_line};
pub use detail_lengths::details_length;
pub use figures::{OpenPeriod, open_period, period_figures, rows_of_period};
pub use receipt_lines::{receipt_line_text, withheld_line_text};
pub use record_names::name_of_text;
pub use report::{PeriodReport, Report, centre_named};
pub use reports::{
    adjustment_list, dispute_list, period_list, receipt_line, statement, statement_csv,
    write_report,
};
pub use streamed_details::{DetailReport, write_details};
pub use streamed_disputes::write_disputes;
pub use streamed_journal::write_journal;
pub use streamed_rulings::write_rulings;
pub use what_if::{StatementForm, WhatIf, what_if_text};
