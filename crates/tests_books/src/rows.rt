//! Rows on books.

use crate::serving::serve;
use book_core::Ledger;
use std::alloc::Global;
use tests_ledgers::{BookLines, answer, answer_standalone};
use tests_scripts::{AnswerText, Answers, Ask, LineFault, LineResult, Named};

/// What is asked of the books of a row while they are open.
pub(crate) trait AsksOpenBooks {
    /// Asks books, and adds what they answer, if the line that asks can be read.
    fn ask<L: Ledger>(&mut self, named: &Named, ledger: &mut L, out: &mut AnswerText) -> LineResult;
}

/// Books of a row.
pub(crate) trait Books: Drop {
    /// The books with which a row begins, if the words say which.
    fn begun(alloc: Global, words: &[&str]) -> Option<Self>;

    /// Answers a line that is not asked of open books, if it is one, and gives the books back.
    fn answer_alone(self, named: &Named, ask: Ask<'_>, out: &mut AnswerText) -> (Self, LineResult);

    /// Asks the books, opened for this, and gives them back, with whether the line that asks can be
    /// read.
    fn ask_open<A: AsksOpenBooks>(
        self,
        named: &Named,
        asking: &mut A,
        out: &mut AnswerText,
    ) -> (Self, LineResult);
}

/// A line of a row that is asked of its books.
#[derive(Drop)]
struct RowLine<'a> {
    lines: &'a mut BookLines,
    ask: Ask<'a>,
}

impl AsksOpenBooks for RowLine<'_> {
    fn ask<L: Ledger>(
        &mut self,
        named: &Named,
        ledger: &mut L,
        out: &mut AnswerText,
    ) -> LineResult {
        if self.ask.verb == "serve" {
            return serve(named, ledger, self.ask, out);
        }
        answer(&mut *self.lines, named, ledger, self.ask, out)
    }
}

/// A row, or none yet.
#[derive(Drop)]
pub(crate) struct BookRows<B: Books> {
    books: Option<B>,
    lines: BookLines,
}

impl<B: Books> BookRows<B> {
    /// No row yet.
    pub(crate) fn new(alloc: Global) -> BookRows<B> {
        BookRows {
            books: None,
            lines: BookLines::new(alloc),
        }
    }

    /// Answers a line that is asked of the books of the row, if one has begun.
    fn answer_by_books(&mut self, named: &Named, ask: Ask<'_>, out: &mut AnswerText) -> LineResult {
        let Some(books) = self.books.take() else {
            return Err(LineFault::NotUnderstood);
        };
        let (books, answered) = answer_by(books, &mut self.lines, named, ask, out);
        self.books = Some(books);
        answered
    }
}

/// Answers a line that is asked of books, open or not, and gives them back.
fn answer_by<B: Books>(
    books: B,
    lines: &mut BookLines,
    named: &Named,
    ask: Ask<'_>,
    out: &mut AnswerText,
) -> (B, LineResult) {
    match books.answer_alone(named, ask, out) {
        (books, Err(LineFault::NotUnderstood)) => {
            books.ask_open(named, &mut RowLine { lines, ask }, out)
        }
        answered => answered,
    }
}

impl<B: Books> Answers for BookRows<B> {
    fn begin(&mut self, named: &Named, words: &[&str]) -> LineResult {
        self.lines = BookLines::new(named.alloc());
        self.books = B::begun(named.alloc(), words);
        if self.books.is_some() {
            Ok(())
        } else {
            Err(LineFault::NotUnderstood)
        }
    }

    fn answer(&mut self, named: &Named, ask: Ask<'_>, out: &mut AnswerText) -> LineResult {
        match answer_standalone(&mut self.lines, named, ask, out) {
            Err(LineFault::NotUnderstood) => self.answer_by_books(named, ask, out),
            answered => answered,
        }
    }
}
