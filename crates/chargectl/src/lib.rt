//! What the program of the chargeback office does with its words and streams.
#![tactic(auto)]

mod amounts;
mod answered;
mod arriving;
mod asked_rulings;
mod audits;
mod book_commands;
mod choices;
mod client_requests;
mod connection;
mod dated_rulings;
mod dry_runs;
mod due;
mod far;
mod import_works;
mod laws;
mod near_rulings;
mod port;
mod program;
mod report_commands;
mod serve;
mod streamed_lists;
mod upgrades;
mod waiting;
mod watched_rows;
mod withheld_works;

pub use client_requests::{Attended, serve_request};
pub use due::Due;
pub use laws::commands_follow_history;
pub use port::{Connections, Peer, answer_peer};
pub use program::command;
pub use program_output::{Status, arguments_failed, check_list, trial};
pub use serve::serve_each;
pub use without_books::{HostInputs, Inputs, ServedLines};
