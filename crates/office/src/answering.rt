//! What is written of an answer.

ghost use Rattle.std.specs.Prelude.{◌≡◌, false, IfOk};
ghost use Rattle.streams.specs.Sinks.{has_failed};
ghost use Rattle.office.specs.Answers.{WritesText, answer_text};
ghost use Rattle.office.specs.Choices as choices;
ghost use Rattle.office.specs.Requests.{Ruling, response_of};
ghost use Rattle.streams.specs.InputOutput.{output};

use crate::request::Answer;
use book_core::{Ruled, Sink};
use book_reports::{ReportFault, receipt_line_text, write_bytes, write_text};
use std::alloc::{AllocError, Global};
use streams::Writer;

/// The line of an answer to a ruling.
fn ruled_line(ruled: Ruled) -> &'static str
    ensures { result.now ≡ answer_text (Ruling ruled) }
{
    match ruled {
        Ruled::Done => "DONE\n",
        Ruled::Already => "ALREADY\n",
    }
}

/// The lines of answers to rulings.
pub fn answer_lines(alloc: Global, answers: &[Ruled]) -> Result<Vec<u8>, AllocError>
    ensures { IfOk result (λ lines. lines.items ≡ choices.answer_lines answers.now) }
{
    let mut lines = Vec::new(alloc);
    for ruled in answers {
        lines.extend_from_slice(ruled_line(*ruled).as_bytes())?;
    }
    Ok(lines)
}

/// Writes the text of an answer. For a refusal nothing is to be written.
pub fn write_answer<W: Writer + Drop>(
    answer: &Answer,
    sink: &mut Sink<W>,
) -> Result<(), ReportFault>
    requires { has_failed sink.old ≡ false }
    ensures { WritesText (answer_text (response_of answer.now)) (output W.contents sink.old sink.new) result }
{
    match answer {
        Answer::Ruled(ruled) => write_text(sink, ruled_line(*ruled)),
        Answer::Receipt(receipt) => write_text(sink, receipt_line_text(receipt).as_str()),
        Answer::Text(text) => write_bytes(sink, text.as_slice()),
    }
}
