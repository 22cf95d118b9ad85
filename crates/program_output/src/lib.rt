//! What the program writes about a single dump, its lines on standard error, its exit statuses,
//! what each number and word there means, why a file failed, and the name that a word spells. No file
//! is opened here.
#![tactic(auto)]

mod causes;
mod check;
mod damages;
mod error_line;
mod explanations;
mod fault_message;
mod frame_faults;
mod laws;
mod layouts;
mod ledger_faults;
mod listed_line;
mod listing;
mod marks;
mod message;
mod names;
mod status;
mod tariff_faults;
mod trials;
mod words;

pub use book_reports::name_of_text;
pub use causes::{Cause, cause_text};
pub use check::check_list;
pub use error_line::{PROGRAM, hand_all, say};
pub use explanations::{Explanation, FaultKind, explained};
pub use laws::{numbers_are_one_to_one, same_records_same_texts};
pub use layouts::is_misread;
pub use listing::Checked;
pub use marks::is_receipt_torn;
pub use message::{
    arguments_failed, books_busy, books_unsound, far_noticed, input_refused, input_refused_at,
    io_failed, layout_noticed, ledger_refused, ledger_refused_at, log_left, no_such_number,
    out_of_memory, report_failed, stopped, torn_noticed, words_refused,
};
pub use names::{Listed, MAX_LIST, NameList, NamesFault};
pub use status::Status;
pub use trials::trial;
pub use words::WordKind;
