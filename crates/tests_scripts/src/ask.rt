//! What a line of a script asks, and who answers it.

use crate::answer_text::AnswerText;
use crate::line_result::LineResult;
use crate::named::Named;

/// A line that asks: its first word, those after it, and the lines of its body, each with its end.
#[derive(Clone, Copy)]
pub struct Ask<'a> {
    pub verb: &'a str,
    pub words: &'a [&'a str],
    pub body: &'a str,
}

/// What answers the lines of a script.
pub trait Answers: Drop {
    /// Begins a row, with nothing left of the one before, if one begins with these words.
    fn begin(&mut self, named: &Named, words: &[&str]) -> LineResult;

    /// Adds the answer to a line, in whole lines, if it can be read.
    fn answer(&mut self, named: &Named, ask: Ask<'_>, out: &mut AnswerText) -> LineResult;
}
