//! Lines that need no books.

use crate::dump_reading::Reading;
use crate::dumps::push_split;
use crate::layouts::push_layout;
use crate::lines::BookLines;
use crate::messages::push_message;
use crate::receipts::{read_numbers, receipt_of};
use crate::standalone_texts::StandaloneText;
use crate::text_writing::{Writing, push_text};
use smf_frames::Layout;
use tests_scripts::{AnswerText, Ask, LineFault, LineResult, Named};

/// The trial of the dump of parts under three rates.
fn trial_of<'a>(named: &Named, reading: Reading, ask: Ask<'a>) -> LineResult<StandaloneText<'a>> {
    let (words, parts) = ask
        .words
        .split_at_checked(3)
        .ok_or(LineFault::NotUnderstood)?;
    let mut rates = [0u64; 3];
    read_numbers(&mut rates, words)?;
    Ok(StandaloneText::Trial(reading, rates, named.read_dump(parts)?))
}

/// Adds what a dump is cut into, with its records if the line asks for these.
fn push_dump(named: &Named, layout: Layout, ask: Ask<'_>, out: &mut AnswerText) -> LineResult {
    let dump = named.read_dump(ask.words)?;
    push_split(named.alloc(), layout, &dump, ask.verb == "records", out)
}

impl BookLines {
    /// The text that a line asks for.
    fn standalone_text<'a>(&self, named: &Named, ask: Ask<'a>) -> LineResult<StandaloneText<'a>> {
        match ask.verb {
            "write" if ask.words.is_empty() => Ok(StandaloneText::Text(ask.body)),
            "receipt" => Ok(StandaloneText::Receipt(receipt_of(ask.words)?)),
            "check" => Ok(StandaloneText::Check(self.reading, named.read_dump(ask.words)?)),
            "trial" => trial_of(named, self.reading, ask),
            _ => Err(LineFault::NotUnderstood),
        }
    }

    /// Writes the text that a line asks for.
    fn push_standalone(&self, named: &Named, ask: Ask<'_>, out: &mut AnswerText) -> LineResult {
        let mut text = self.standalone_text(named, ask)?;
        push_text(named.alloc(), &mut text, self.writing, out);
        Ok(())
    }
}

/// Sets how dumps are read or texts are written, or answers a line that needs no books.
pub fn answer_standalone(
    lines: &mut BookLines,
    named: &Named,
    ask: Ask<'_>,
    out: &mut AnswerText,
) -> LineResult {
    match ask.verb {
        "reader" => {
            lines.reading = Reading::of(ask.words)?;
            Ok(())
        }
        "writer" => {
            lines.writing = Writing::of(ask.words)?;
            Ok(())
        }
        "split" | "records" => push_dump(named, lines.reading.layout, ask, out),
        "layout" => push_layout(named, lines.reading.layout, ask.words, out),
        "say" => push_message(ask.words, out),
        _ => lines.push_standalone(named, ask, out),
    }
}
