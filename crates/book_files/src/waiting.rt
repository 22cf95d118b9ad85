//! Books that another program is using are asked for again, for a time. An opening that finds them in
//! use has touched nothing of theirs: their file is locked before their log is opened, or made.

ghost use Rattle.std.specs.Prelude.{◌≡◌, ◌||◌, Err, MatchOption};

use named_books::{Opened, RepositoryFault};
use std::thread;
use std::time::{Clock, Duration, Instant};

/// How long a program sleeps before it asks again, in milliseconds. An opening takes some 15.
const PAUSE: u64 = 50;

/// How often it asks again in a second, at most.
const PAUSES_IN_A_SECOND: u32 = 20;

/// What is visited of books.
#[derive(Clone, Copy)]
pub(crate) enum Visited {
    /// They themselves.
    Books,
    /// A copy, which is let go.
    Copy,
}

/// The time for which an opening may wait. Nothing but a clock is in reach here.
#[derive(Drop)]
pub(crate) struct Waiting<'a, C: Clock> {
    clock: &'a C,
    /// When the books were asked for first. Without a clock nothing waits.
    begun: Option<Instant>,
    most: Duration,
    /// How often an opening asks again, at most.
    pub(crate) pauses: u32,
    /// An opening that found the books in use had put aside a log that was no use.
    has_log: bool,
}

impl<'a, C: Clock> Waiting<'a, C> {
    pub(crate) fn of(clock: &'a C, seconds: u16) -> Waiting<'a, C> {
        Waiting {
            clock,
            begun: Instant::now(clock).ok(),
            most: Duration::from_secs(u64::from(seconds)),
            pauses: u32::from(seconds) * PAUSES_IN_A_SECOND,
            has_log: false,
        }
    }

    fn has_time(&self) -> bool {
        let Some(begun) = self.begun else {
            return false;
        };
        match begun.elapsed(self.clock) {
            Ok(taken) => taken < self.most,
            Err(_) => false,
        }
    }

    /// What came of an opening, if that is all. None where the books were in use: then they are to be
    /// asked for again now, after a pause.
    pub(crate) fn settle<T: Drop>(&mut self, opened: Opened<T>) -> Option<Opened<T>>
        ensures answer { MatchOption result (opened.answer ≡ Err RepositoryFault.Busy)
            (λ told. told.answer ≡ opened.answer) }

        // A log that any opening told of is told of in the end.
        ensures log { MatchOption result
            (self.new.has_log ≡ (opened.has_log || self.old.has_log))
            (λ told. told.has_log ≡ (opened.has_log || self.old.has_log)) }
    {
        let Opened { answer, has_log } = opened;
        let has_log = has_log | self.has_log;
        match answer {
            Err(RepositoryFault::Busy) if self.has_time() => {
                self.has_log = has_log;
                thread::sleep(self.clock, Duration::from_millis(PAUSE));
                None
            }
            answer => Some(Opened { answer, has_log }),
        }
    }

    /// What came of the last opening.
    pub(crate) fn end<T: Drop>(&self, opened: Opened<T>) -> Opened<T>
        ensures answer { result.answer ≡ opened.answer }
        ensures log { result.has_log ≡ (opened.has_log || self.now.has_log) }
    {
        let Opened { answer, has_log } = opened;
        Opened {
            answer,
            has_log: has_log | self.has_log,
        }
    }
}

/// Asks for books, and again while they are in use, as long as there is time.
pub(crate) fn wait<C: Clock, T: Drop, F: FnMut() -> Opened<T>>(
    waiting: Waiting<'_, C>,
    mut ask: F,
) -> Opened<T>
    requires { F.IsAlwaysCallable ask }
{
    let mut waiting = waiting;
    for _ in 0..waiting.pauses {
        match waiting.settle(ask()) {
            None => {}
            Some(opened) => return opened,
        }
    }
    waiting.end(ask())
}
