//! The words of the command line, and what they ask for. No type of `clap` leaves this crate: what
//! depends on this crate does not depend on that one.
#![tactic(auto)]

mod command_line;
mod fault;
mod given_words;
mod help_texts;
mod known_commands;
mod matched_request;
mod report_words;
mod request;

pub use command_line::requested_by;
pub use fault::ArgumentFault;
pub use request::{
    BookRequest, DumpFile, NoteWords, NumberKind, PeriodWords, ReportAsked, Request, Ruling,
    Unclear, Words,
};
