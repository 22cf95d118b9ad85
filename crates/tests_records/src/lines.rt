//! What the lines of a row have set so far, and how each line is answered.

use crate::dumps::{push_class, push_header, push_parts, push_work};
use crate::effects::push_plan;
use crate::fields::push_field;
use crate::joiner_calls::push_joined;
use crate::pieces::{push_pieces, split_of};
use crate::spelled_words::text_of;
use crate::tariffs::{
    push_entry_of, push_file, push_file_of, push_flat, push_message, push_prices,
};
use crate::texts::{push_date, push_day_of, push_encoded, push_name, push_packed, push_shown};
use smf_frames::{Joiner, Layout};
use std::alloc::Global;
use tests_scripts::{AnswerText, Answers, Ask, LineFault, LineResult, Named};

/// What the lines of a row have set so far.
#[derive(Drop)]
pub(crate) struct RecordLines {
    /// How dumps are read.
    layout: Layout,
    joiner: Option<Joiner>,
    /// The lines of a tariff file.
    file: String,
}

/// Adds the answer to a line on texts and days.
fn push_of_texts(out: &mut AnswerText, ask: Ask<'_>) -> LineResult {
    match ask.verb {
        "packed" => push_packed(out, ask.words),
        "show" => push_shown(out, ask.words),
        "day" => push_day_of(out, ask.words),
        "date" => push_date(out, ask.words),
        "name" => push_name(out, ask.words),
        "encode" => push_encoded(out, ask.words),
        "say" => push_message(out, ask.words),
        _ => Err(LineFault::NotUnderstood),
    }
}

/// Adds the answer to a line on a dump or a record alone.
fn push_of_dump(named: &Named, out: &mut AnswerText, ask: Ask<'_>) -> LineResult {
    let dump = named.read_dump(ask.words)?;
    match ask.verb {
        "header" => push_header(out, &dump),
        "class" => push_class(out, &dump),
        _ => push_work(out, &dump),
    }
    Ok(())
}

/// Adds the answer to a line on what a word says of a dump or a record.
fn push_of_word(named: &Named, out: &mut AnswerText, ask: Ask<'_>) -> LineResult {
    let [word, parts @ ..] = ask.words else {
        return Err(LineFault::NotUnderstood);
    };
    let dump = named.read_dump(parts)?;
    match ask.verb {
        "field" => push_field(out, word, &dump),
        _ => push_price(named, out, word, &dump),
    }
}

/// Adds what records cost by a tariff file that is named.
fn push_price(named: &Named, out: &mut AnswerText, name: &str, dump: &[u8]) -> LineResult {
    let Some(text) = named.text(name) else {
        return Err(LineFault::NotUnderstood);
    };
    push_prices(out, text, dump);
    Ok(())
}

/// Adds the answer to a line for which it does not matter what the lines before it have set.
fn push_alone(named: &Named, out: &mut AnswerText, ask: Ask<'_>) -> LineResult {
    match ask.verb {
        "file" | "changed" | "repeated" => push_file_of(named, out, ask),
        "entry" => push_entry_of(named, out, ask),
        "header" | "class" | "work" => push_of_dump(named, out, ask),
        "field" | "price" => push_of_word(named, out, ask),
        "flat" => push_flat(named, out, ask.words),
        "plan" => push_plan(named, out, ask.words),
        _ => push_of_texts(out, ask),
    }
}

impl RecordLines {
    /// As at the beginning of a row: dumps are segments, and there is no joiner and no line.
    pub(crate) fn new(alloc: Global) -> RecordLines {
        RecordLines {
            layout: Layout::Rdw,
            joiner: None,
            file: String::new(alloc),
        }
    }

    /// Sets how dumps are read.
    fn set_layout(&mut self, words: &[&str]) -> LineResult {
        self.layout = match words {
            [] => Layout::Rdw,
            ["bdw"] => Layout::Bdw,
            _ => return Err(LineFault::NotUnderstood),
        };
        Ok(())
    }

    /// Begins a joiner.
    fn set_joiner(&mut self, alloc: Global, words: &[&str]) -> LineResult {
        if !words.is_empty() {
            return Err(LineFault::NotUnderstood);
        }
        self.joiner = Some(Joiner::new(alloc, self.layout)?);
        Ok(())
    }

    /// Adds what the joiner answers.
    fn push_joined(&mut self, named: &Named, out: &mut AnswerText, ask: Ask<'_>) -> LineResult {
        let dump = named.read_dump(ask.words)?;
        match &mut self.joiner {
            Some(joiner) => push_joined(out, joiner, ask.verb, &dump),
            None => Err(LineFault::NotUnderstood),
        }
    }

    /// Adds what is read of the row's lines so far, with one more.
    fn push_line(&mut self, out: &mut AnswerText, words: &[&str]) -> LineResult {
        let line = text_of(out.alloc(), words)?;
        self.file.push_str(line.as_str())?;
        self.file.push('\n')?;
        push_file(out, self.file.as_str());
        Ok(())
    }

    /// Adds what a dump is cut into.
    fn push_split(&self, named: &Named, out: &mut AnswerText, words: &[&str]) -> LineResult {
        push_parts(out, &split_of(named, self.layout, words)?);
        Ok(())
    }

    /// Adds the answer to a line.
    fn push_answer(&mut self, named: &Named, out: &mut AnswerText, ask: Ask<'_>) -> LineResult {
        match ask.verb {
            "reader" => self.set_layout(ask.words),
            "joiner" => self.set_joiner(out.alloc(), ask.words),
            "feed" | "record" | "finish" | "next" => self.push_joined(named, out, ask),
            "line" => self.push_line(out, ask.words),
            "split" => self.push_split(named, out, ask.words),
            "pieces" => push_pieces(named, out, self.layout, ask.words),
            _ => push_alone(named, out, ask),
        }
    }
}

impl Answers for RecordLines {
    fn begin(&mut self, named: &Named, words: &[&str]) -> LineResult {
        *self = RecordLines::new(named.alloc());
        if words.is_empty() {
            Ok(())
        } else {
            Err(LineFault::NotUnderstood)
        }
    }

    fn answer(&mut self, named: &Named, ask: Ask<'_>, out: &mut AnswerText) -> LineResult {
        self.push_answer(named, out, ask)
    }
}
