//! A script, line by line. A line that begins with `> ` asks, and lines after it that begin with
//! `|` are its body. A line that begins with `#`, and an empty one, say nothing. Every other line
//! is an expected answer: it is left out, and the answer that is given is written in its place.

use crate::answer_text::AnswerText;
use crate::ask::{Answers, Ask};
use crate::line_result::{LineFault, LineResult, words_of};
use crate::named::Named;
use std::alloc::Global;

/// What came of a script.
#[derive(Drop)]
pub(crate) struct Transcript {
    /// The script with the answers that were given.
    pub(crate) text: AnswerText,
    /// How many rows it has.
    pub(crate) rows: u64,
    /// How many lines were answered.
    pub(crate) answers: u64,
    /// How many lines could not be read.
    pub(crate) unread: u64,
}

impl Transcript {
    fn new(alloc: Global) -> Transcript {
        Transcript {
            text: AnswerText::new(alloc),
            rows: 0,
            answers: 0,
            unread: 0,
        }
    }
}

/// Plays scripts, one after the other: what one names is named in those after it.
#[derive(Drop)]
pub(crate) struct Player<A: Answers> {
    named: Named,
    answers: A,
    /// The body of the line that asks.
    body: String,
    /// What came of the script so far.
    pub(crate) played: Transcript,
}

impl<A: Answers> Player<A> {
    pub(crate) fn new(alloc: Global, answers: A) -> Player<A> {
        Player {
            named: Named::new(alloc),
            answers,
            body: String::new(alloc),
            played: Transcript::new(alloc),
        }
    }

    /// Begins a row, by the words after its name.
    fn begin(&mut self, words: &[&str]) -> LineResult {
        let [_name, kind @ ..] = words else {
            return Err(LineFault::NotUnderstood);
        };
        self.played.rows = self.played.rows.saturating_add(1);
        self.answers.begin(&self.named, kind)
    }

    /// Asks for an answer.
    fn ask(&mut self, verb: &str, words: &[&str]) -> LineResult {
        self.played.answers = self.played.answers.saturating_add(1);
        let body = self.body.as_str();
        let ask = Ask { verb, words, body };
        self.answers.answer(&self.named, ask, &mut self.played.text)
    }

    /// Begins a row, names a dump or a text, or asks for an answer.
    fn run_words(&mut self, words: &[&str]) -> LineResult {
        let [verb, words @ ..] = words else {
            return Err(LineFault::NotUnderstood);
        };
        match *verb {
            "row" => self.begin(words),
            "dump" => self.named.name_dump(words, self.body.as_str()),
            "text" => self.named.name_text(words, self.body.as_str()),
            verb => self.ask(verb, words),
        }
    }

    /// Does what a line says.
    fn run_line(&mut self, line: &str) -> LineResult {
        let words = words_of(self.named.alloc(), line)?;
        self.run_words(&words)
    }

    /// Does what the line says that asks, if one does.
    fn finish(&mut self, asking: Option<&str>) {
        let Some(line) = asking else {
            return;
        };
        match self.run_line(line) {
            Ok(()) => {}
            Err(LineFault::NotUnderstood) => {
                self.played.unread = self.played.unread.saturating_add(1);
                self.played.text.line("NOT UNDERSTOOD");
            }
            Err(LineFault::Memory) => self.played.text.cut(),
        }
    }

    /// Adds a line to the body, without the blank that it may begin with.
    fn push_body(&mut self, line: &str) {
        let line = line.strip_prefix(' ').unwrap_or(line);
        if self.body.push_str(line).is_err() || self.body.push('\n').is_err() {
            self.played.text.cut();
        }
    }

    /// Plays a line that is in no body, after the one that asks, and gives what it asks.
    fn turn<'a>(&mut self, asking: Option<&str>, line: &'a str) -> Option<&'a str> {
        self.finish(asking);
        let asking = line.strip_prefix("> ");
        if asking.is_some() {
            self.body.clear();
        }
        if asking.is_some() || line.is_empty() || line.starts_with('#') {
            self.played.text.line(line);
        }
        asking
    }

    /// Plays a line, after the one that asks, and gives what is asked then.
    fn step<'a>(&mut self, asking: Option<&'a str>, line: &'a str) -> Option<&'a str> {
        let Some(body) = line.strip_prefix('|') else {
            return self.turn(asking, line);
        };
        self.push_body(body);
        self.played.text.line(line);
        asking
    }

    /// Plays a script.
    pub(crate) fn play(&mut self, script: &str) {
        self.played = Transcript::new(self.named.alloc());
        let mut asking = None;
        for line in script.lines() {
            asking = self.step(asking, line);
        }
        self.finish(asking);
    }
}
