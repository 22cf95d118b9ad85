//! The results of one case after another: a result is shown once for all that follow each other and
//! have the same.

use crate::answer_text::AnswerText;

/// Cases, counted from 0 on.
#[derive(Drop)]
pub struct Cases<'a> {
    out: &'a mut AnswerText,
    /// What is counted of a case.
    unit: &'a str,
    /// The first that had what the last one had.
    first: u32,
    /// How many there were.
    count: u32,
    /// What the last one had.
    answer: AnswerText,
}

impl<'a> Cases<'a> {
    /// None yet. What is said about them is added to an answer.
    pub fn new(out: &'a mut AnswerText, unit: &'a str) -> Cases<'a> {
        let answer = AnswerText::new(out.alloc());
        Cases {
            out,
            unit,
            first: 0,
            count: 0,
            answer,
        }
    }

    /// Says what the last cases had, if there were some.
    pub fn say(&mut self) {
        let (first, end) = (self.first, self.count);
        if end <= first {
            return;
        }
        self.out.value("", first);
        if end - first > 1 {
            self.out.value(" TO ", end - 1);
        }
        self.out.text(" ");
        self.out.line(self.unit);
        self.out.add(&self.answer);
    }

    /// Takes what the next case had.
    pub fn take(&mut self, answer: AnswerText) {
        if answer.is_cut() {
            self.out.cut();
        }
        if answer.as_bytes() != self.answer.as_bytes() {
            self.say();
            self.first = self.count;
            self.answer = answer;
        }
        self.count = self.count.saturating_add(1);
    }
}
