//! A run that nothing stops, change by change.

use crate::names::{Names, SHA_NAMES};
use crate::rows::AsksOpenBooks;
use crate::run::{Progress, Run};
use crate::shown_rows::{push_all_choices, push_all_rows};
use crate::trees::Trees;
use book_core::Ledger;
use sqlite_trees::store::Store;
use std::alloc::Global;
use table_ledger::TableLedger;
use tests_ledgers::{Reported, all_texts, ask_of, command};
use tests_scripts::{AnswerText, Ask, LineResult, Named, words_of};

/// Books in the trees of a store.
pub(crate) type Books<S> = TableLedger<S, Names>;

/// What is not as it should be.
#[derive(Clone, Copy)]
pub(crate) struct Mismatch(pub(crate) &'static str);

/// Books answered in another way than they have to.
pub(crate) const OTHER_ANSWERS: Mismatch = Mismatch("OTHER ANSWERS");

/// Books as they are between two changes: all their rows, those of choices apart, and all their
/// texts.
#[derive(Drop, PartialEq)]
pub(crate) struct Snapshot {
    rows: Vec<u8>,
    choices: Vec<u8>,
    texts: Vec<u8>,
}

impl Snapshot {
    /// Books with these texts, in trees; none where a row can't be read, or where there is no
    /// memory for it.
    fn of<S: Store + Drop>(trees: &mut Trees<S>, texts: AnswerText) -> Option<Snapshot> {
        let mut rows = AnswerText::new(texts.alloc());
        let mut choices = AnswerText::new(texts.alloc());
        let are_read = push_all_rows(trees, &mut rows) && push_all_choices(trees, &mut choices);
        if !are_read || rows.is_cut() || choices.is_cut() || texts.is_cut() {
            return None;
        }
        Some(Snapshot {
            rows: rows.into_bytes(),
            choices: choices.into_bytes(),
            texts: texts.into_bytes(),
        })
    }
}

/// All rows and texts of books, and their trees.
pub(crate) fn snapshot_of<S: Store + Drop>(
    run: Run<'_>,
    books: Books<S>,
) -> Result<(Snapshot, Trees<S>), Mismatch> {
    let mut books = books;
    let texts = all_texts(run.named.alloc(), &mut books);
    let mut trees = Trees::over(books.close_store());
    match Snapshot::of(&mut trees, texts) {
        Some(snapshot) => Ok((snapshot, trees)),
        None => Err(Mismatch("OTHER ROWS")),
    }
}

/// What a run that nothing stops leaves: new books, and those after each change.
#[derive(Drop)]
pub(crate) struct Uninterrupted {
    snapshots: Vec<Snapshot>,
    /// How many changes there are after each command.
    ends: Vec<usize>,
    /// There was no memory for a part of it.
    pub(crate) is_cut: bool,
}

impl Uninterrupted {
    /// It has not begun.
    fn new(alloc: Global) -> Uninterrupted {
        Uninterrupted {
            snapshots: Vec::new(alloc),
            ends: Vec::new(alloc),
            is_cut: false,
        }
    }

    /// How many changes it makes.
    pub(crate) fn changes(&self) -> usize {
        self.snapshots.len().saturating_sub(1)
    }

    /// These are the books after the last change that was reported to a run, or after the command in
    /// hand where it was stopped: an import in a script is one read, and so one commit.
    pub(crate) fn is_reached(&self, progress: Progress, found: &Snapshot) -> bool {
        if self.is_after(progress.changes, found) {
            return true;
        }
        let in_hand = self.ends.iter().find(|end| **end > progress.changes);
        match in_hand {
            Some(end) => progress.stopped && self.is_after(*end, found),
            None => false,
        }
    }

    /// These are the books after a given number of changes.
    pub(crate) fn is_after(&self, changes: usize, found: &Snapshot) -> bool {
        self.snapshots.get(changes) == Some(found)
    }

    /// These are the books at its end.
    pub(crate) fn is_end(&self, found: &Snapshot) -> bool {
        self.snapshots.last() == Some(found)
    }

    /// These are the books at its end, though other choices may have led there.
    pub(crate) fn is_end_but_for_choices(&self, found: &Snapshot) -> bool {
        match self.snapshots.last() {
            Some(end) => end.rows == found.rows && end.texts == found.texts,
            None => false,
        }
    }

    /// Adds how many changes it makes, and how often something came in its way: more often than
    /// that, or how often.
    pub(crate) fn push_met(&self, what: &str, times: usize, out: &mut AnswerText) {
        out.value("CHANGES ", self.changes());
        out.text(what);
        if times > self.changes() {
            out.line(" MORE");
        } else {
            out.value_line(" ", times);
        }
    }

    /// Gives the books in trees a command, if there is one, adds the books as they are then, unless the
    /// command changed nothing, and gives the trees back. Books whose rows can't be read are not added.
    fn take<S: Store + Drop>(
        &mut self,
        named: &Named,
        trees: Trees<S>,
        ask: Option<Ask<'_>>,
    ) -> Trees<S> {
        let is_made = ask.is_none();
        let mut change = Change { ask, is_made };
        let mut texts = AnswerText::new(named.alloc());
        let (mut trees, _) = trees.ask(named, SHA_NAMES, &mut change, &mut texts);
        if !change.is_made {
            return trees;
        }
        if let Some(snapshot) = Snapshot::of(&mut trees, texts) {
            self.is_cut = self.snapshots.push(snapshot).is_err() || self.is_cut;
        }
        trees
    }

    /// Gives the books in trees the command of a line, each record of an import by a command of its
    /// own, and adds the books after each change.
    fn take_line<S: Store + Drop>(
        &mut self,
        named: &Named,
        trees: Trees<S>,
        words: &[&str],
    ) -> Trees<S> {
        let mut trees = trees;
        let ask = ask_of(words);
        let size = if ask.verb == "import" {
            1
        } else {
            ask.words.len().max(1)
        };
        if ask.words.is_empty() {
            trees = self.take(named, trees, Some(ask));
        }
        for words in ask.words.chunks(size) {
            trees = self.take(named, trees, Some(Ask { words, ..ask }));
        }
        let changes = self.changes();
        self.is_cut = self.ends.push(changes).is_err() || self.is_cut;
        trees
    }
}

/// A command, or none, and whether the books are shown after it: it changed them.
#[derive(Drop)]
struct Change<'a> {
    ask: Option<Ask<'a>>,
    is_made: bool,
}

impl AsksOpenBooks for Change<'_> {
    fn ask<L: Ledger>(
        &mut self,
        named: &Named,
        ledger: &mut L,
        out: &mut AnswerText,
    ) -> LineResult {
        if let Some(ask) = self.ask {
            let reported = command(named, ledger, ask);
            self.is_made = matches!(reported, Some(Reported { changes: 1, .. }));
        }
        if self.is_made {
            out.add(&all_texts(out.alloc(), ledger));
        }
        Ok(())
    }
}

/// What a run that nothing stops leaves, and the trees after it.
pub(crate) fn run_uninterrupted<S: Store + Drop>(
    run: Run<'_>,
    trees: Trees<S>,
) -> (Uninterrupted, Trees<S>) {
    let alloc = run.named.alloc();
    let mut whole = Uninterrupted::new(alloc);
    let mut trees = whole.take(run.named, trees, None);
    for line in run.body.lines() {
        match words_of(alloc, line) {
            Ok(words) => trees = whole.take_line(run.named, trees, &words),
            Err(_) => whole.is_cut = true,
        }
    }
    (whole, trees)
}
