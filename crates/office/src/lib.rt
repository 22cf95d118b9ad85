//! What is asked of an office's books, and what it is answered: one vocabulary, and one call.
#![tactic(auto)]

mod answering;
mod asking;
mod choosing;
mod import_works;
mod laws;
mod request;
mod running;
mod withholding;

pub use answering::{answer_lines, write_answer};
pub use asking::{ask, ask_without_reader};
pub use book_reports::{PeriodReport, Report, StatementForm, WhatIf, centre_named};
pub use choosing::{Chosen, choose_each};
pub use import_works::withhold_import;
pub use laws::{answers_are_free, answers_follow_book, answers_follow_history, run_twice_is_once};
pub use request::{Answer, Asked, OwnedRuling};
pub use running::run;
pub use withholding::{WorkCounts, WorksTold, withhold_each};
