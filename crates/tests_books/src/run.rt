//! A run of commands, and how far it came by what was answered.

use book_core::{Ledger, LedgerFault};
use tests_ledgers::{Reported, ask_of, command};
use tests_scripts::{Named, words_of};

/// How far a run came.
#[derive(Clone, Copy)]
pub(crate) struct Progress {
    /// How many changes of the books were reported.
    pub(crate) changes: usize,
    /// How many commands were answered before the first fault.
    pub(crate) commands: usize,
    /// The last answer is a fault.
    pub(crate) stopped: bool,
    /// The first fault is the store's, each answer after it says that the books have to be opened
    /// again, and there are no others.
    pub(crate) is_consistent: bool,
}

/// A run that got no answer yet.
const BEGUN: Progress = Progress {
    changes: 0,
    commands: 0,
    stopped: false,
    is_consistent: true,
};

/// A run that was stopped before there were books.
pub(crate) const NOT_BEGUN: Progress = Progress {
    changes: 0,
    commands: 0,
    stopped: true,
    is_consistent: true,
};

impl Progress {
    /// How far it came with one more answer.
    fn with(self, reported: Option<Reported>) -> Progress {
        let Some(Reported { changes, fault }) = reported else {
            return Progress {
                is_consistent: false,
                ..self
            };
        };
        let is_due = match fault {
            None => !self.stopped,
            Some(LedgerFault::Reopen) => self.stopped,
            Some(fault) => fault == LedgerFault::Store && !self.stopped,
        };
        let is_answered = fault.is_none() && !self.stopped;
        Progress {
            changes: self.changes.saturating_add(changes),
            commands: self.commands.saturating_add(usize::from(is_answered)),
            stopped: fault.is_some(),
            is_consistent: self.is_consistent && is_due,
        }
    }
}

/// Commands, a line each.
#[derive(Clone, Copy)]
pub(crate) struct Run<'a> {
    pub(crate) named: &'a Named,
    pub(crate) body: &'a str,
}

impl Run<'_> {
    /// Gives books the command of a line. None: it is not one, or there was no memory for it.
    pub(crate) fn give<L: Ledger>(self, ledger: &mut L, line: &str) -> Option<Reported> {
        let Ok(words) = words_of(self.named.alloc(), line) else {
            return None;
        };
        command(self.named, ledger, ask_of(&words))
    }

    /// Gives books all commands but the first few, and answers how far they came.
    pub(crate) fn give_from<L: Ledger>(self, ledger: &mut L, commands: usize) -> Progress {
        let mut progress = BEGUN;
        for line in self.body.lines().skip(commands) {
            progress = progress.with(self.give(ledger, line));
        }
        progress
    }
}
