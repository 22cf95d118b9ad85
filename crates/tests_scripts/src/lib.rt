//! Worked rows as texts: a script is a session as an office would type it, with each answer written
//! beside it from outside. It is played line by line, and compared with what is answered.
#![tactic(auto)]

mod answer_text;
mod ask;
mod cases;
mod dump_parts;
mod limited;
mod line_result;
mod named;
mod player;
mod verdict;

pub use answer_text::AnswerText;
pub use ask::{Answers, Ask};
pub use cases::Cases;
pub use dump_parts::push_hex;
pub use limited::{LimitedReader, LimitedWriter, Limits, is_due};
pub use line_result::{LineFault, LineResult, value_of, words_of};
pub use named::Named;
pub use verdict::play_files;
