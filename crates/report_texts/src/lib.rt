//! The texts of the office's reports, byte for byte, made from the answers of books.
#![tactic(auto)]

mod adjustment_lists;
mod adjustment_tables;
mod centre_amounts;
mod centres;
mod charges;
mod columns;
mod detail_lists;
mod detail_tables;
mod dispute_lists;
mod dispute_tables;
mod dry_runs;
mod fields;
mod figures;
mod focus_tables;
mod journal_lists;
mod journal_tables;
mod life_lines;
mod midnights;
mod moments;
mod period_lists;
mod periods;
mod reckoning_lines;
mod record_texts;
mod ruling_lists;
mod statement_tables;
mod statements;
mod usage_lines;
mod what_ifs;

pub use adjustment_lists::{adjustment_list_text, push_difference, word_of};
pub use adjustment_tables::adjustment_table;
pub use centre_amounts::cost_among;
pub use centres::{
    centre_adjustment_table, centre_adjustments_text, centre_statement_table,
    centre_statement_text, keep_lines, push_centre_title,
};
pub use charges::{
    CentreCharges, Charges, CreditAmount, OfficeCharges, bill_charges, charged_in,
    credits_together, each_charges, office_charges, plain_credit, plain_credits, push_credits,
    push_owed, taken_in,
};
pub use columns::{
    push_amount, push_blanks, push_count, push_credit_amount, push_left, push_number,
    push_right_aligned, push_seconds, seconds_text,
};
pub use detail_lists::{detail_head, detail_total, push_detail_line};
pub use detail_tables::{detail_row, detail_table_head};
pub use dispute_lists::{
    dispute_list_head, dispute_list_text, push_completion, push_dispute, push_identity,
    push_identity_line,
};
pub use dispute_tables::{dispute_rows, dispute_table, dispute_table_head};
pub use dry_runs::{TriedRuling, dry_run_text};
pub use fields::{
    add_amount, add_day, add_key, add_name, add_number, add_number_or_dash, add_row, add_seconds,
    add_shown, add_signed,
};
pub use figures::{Figures, figures_of, record_count, record_count_from, record_count_under};
pub use focus_tables::{FocusHead, focus_table};
pub use journal_lists::{push_entry_lines, push_journal_head};
pub use journal_tables::{entry_row, journal_table_head};
pub use moments::push_time;
pub use period_lists::period_list_text;
pub use periods::{push_head, push_title};
pub use record_texts::record_text;
pub use ruling_lists::{push_ruling_line, ruling_list_head};
pub use statement_tables::statement_table;
pub use statements::{row_sums, statement_text};
pub use what_ifs::{centre_what_if_table, centre_what_if_text, what_if_table, what_if_text};
