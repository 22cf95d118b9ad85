//! What the program does without books, and what it says of any command: trials, checks and
//! explanations; why a command did not do what it was asked, what it noticed, and how far it is.
#![tactic(auto)]

mod asked_help;
mod causes;
mod checks;
mod command_fault;
mod ended;
mod explanations;
mod first_bytes;
mod help_lines;
mod inputs;
mod notes;
mod notice;
mod places;
mod ports;
mod printed_text;
mod progress;
mod refused_lines;
mod served_lines;
mod shown_paths;
mod tariff_texts;
mod trials;

pub use checks::{check, expect_whole};
pub use command_fault::{CommandFault, end_of};
pub use ended::{Ended, say_fault, settled};
pub use explanations::explain;
pub use first_bytes::{LookedAt, Rest, look_at};
pub use help_lines::{Said, help};
pub use inputs::{HostInputs, Inputs};
pub use notes::{note_of, noted_now};
pub use notice::{Notice, dump_notice};
pub use ports::listen_here;
pub use printed_text::{let_out, print_text};
pub use progress::{ProgressLine, WatchedReader, clear_line, open_watched};
pub use served_lines::ServedLines;
pub use tariff_texts::tariff_text;
pub use trials::{run_trial, run_trial_under};
