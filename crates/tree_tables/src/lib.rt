//! The tables of books, kept in the sorted trees of a store, below SQL: each look at them, and each
//! step of a change, says what it is of the tables of `table_model`.
#![tactic(auto)]

mod arrivals;
mod book_row;
mod charged_rows;
mod choice_rows;
mod chosen_numbers;
mod closed_rows;
mod column_values;
pub mod columns;
mod credit_rows;
mod day_rows;
mod detail_changes;
mod detail_fill;
mod detail_rows;
mod entry_rows;
mod forms;
mod found_names;
mod identity_looks;
mod identity_walks;
mod keys;
mod late_records;
mod line_rows;
mod memory;
mod old_choices;
mod record_rows;
mod record_walks;
mod replaced_rows;
mod stored_record;
mod stored_usage;
mod tables;
mod tariff_rows;
pub mod trees;

pub use book_row::{FIRST_RULE, NEVER_ADOPTED, SECOND_RULE, StoredBook, Sums};
pub use choice_rows::StoredChoice;
pub use closed_rows::Close;
// How columns are read, for who reads the rows anew.
pub use column_values::{
    bytes_at, count_at, day_at, eight_at, entry_at, hash_at, int_at, mark_at, name_at, number_at,
    period_at, step_at, text_at,
};
pub use credit_rows::{CreditText, StoredCredit};
pub use day_rows::{DayKey, DayRow};
pub use detail_changes::{DetailScratch, count_in};
pub use detail_fill::{closes_in, lines_in, next_record_in, start_records};
pub use detail_rows::DetailStart;
pub use entry_rows::{StoredAct, StoredEntry, place_number, read_entry};
pub use forms::THIS_FORM;
pub use found_names::FoundName;
pub use late_records::LateRecord;
pub use line_rows::{LineKey, StoredLine};
pub use memory::trees_in_memory;
pub use old_choices::mark_choices;
pub use record_rows::NewRecord;
pub use record_walks::MOST_STEPS;
pub use replaced_rows::{ReplacedText, StoredReplaced};
pub use stored_record::{RecordMark, StoredRecord, data_of, read_came, read_mark, read_record};
pub use stored_usage::{put_data, record_with, usage_bytes, usage_in};
pub use tables::TreeTables;
pub use tariff_rows::{StoredTariff, TariffText};
