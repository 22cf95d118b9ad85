//! A disk that stops at each call of a file.

use crate::run::Run;
use crate::stopping_disk::{Found, Stop, StoppingDisk};
use crate::sweep::{Met, Then, try_stops};
use crate::trees::Trees;
use crate::uninterrupted::{Mismatch, Uninterrupted, run_uninterrupted};
use sqlite_disk::{Files, Memory};
use sqlite_store::FileStore;
use sqlite_trees::store::Store;
use std::alloc::Global;
use tests_scripts::{AnswerText, Ask, LineFault, LineResult, Named};

/// More calls than any run makes of one file.
const ENOUGH: u64 = 2_000;

/// Which of the two files a run is stopped at.
#[derive(Clone, Copy)]
enum StoppedFile {
    Log,
    Database,
}

/// How a run is stopped at each call of a file.
#[derive(Clone, Copy)]
struct Sweep {
    stopped: StoppedFile,
    found: Found,
    then: Then,
}

impl Sweep {
    /// How many calls further on the next run is stopped. After each stop there are many calls on
    /// the way back, so only every seventh is tried then.
    fn stride(self) -> u64 {
        if self.is_twice() { 7 } else { 1 }
    }

    /// It is stopped once more on the way back.
    fn is_twice(self) -> bool {
        matches!(self.then, Then::SecondStop)
    }
}

/// A stop that never comes.
const NEVER: Stop = Stop {
    calls: u64::MAX,
    calls_again: u64::MAX,
    found: Found::Synced,
};

/// Empty files in memory, of which one stops. What a crash leaves of the other is the same.
fn failing(alloc: Global, stopped: StoppedFile, stop: Stop) -> Files<StoppingDisk<Memory>> {
    let other = Stop {
        found: stop.found,
        ..NEVER
    };
    let (log, db) = match stopped {
        StoppedFile::Log => (stop, other),
        StoppedFile::Database => (other, stop),
    };
    Files {
        log: StoppingDisk::new(Memory::new(alloc), log),
        db: StoppingDisk::new(Memory::new(alloc), db),
    }
}

/// Stops a run after a given number of calls, and once more after a given number on the way back.
fn stop_at(
    run: Run<'_>,
    whole: &Uninterrupted,
    sweep: Sweep,
    calls: u64,
    calls_again: u64,
) -> Result<Met, Mismatch> {
    let stop = Stop {
        calls,
        calls_again,
        found: sweep.found,
    };
    let files = failing(run.named.alloc(), sweep.stopped, stop);
    try_stops::<FileStore<StoppingDisk<Memory>>>(run, whole, files, sweep.then)
}

/// Stops a run after a given number of calls, and where that is asked once more at each call on the
/// way back. Adds how often it was stopped, and answers whether it was before its end.
fn stop_after(
    run: Run<'_>,
    whole: &Uninterrupted,
    sweep: Sweep,
    calls: u64,
    stops: &mut usize,
) -> Result<bool, Mismatch> {
    for again in 0..ENOUGH {
        let is_twice = sweep.is_twice();
        let calls_again = if is_twice { again } else { u64::MAX };
        let met = stop_at(run, whole, sweep, calls, calls_again)?;
        let counts = if is_twice { met.again } else { met.stopped };
        *stops = stops.saturating_add(usize::from(counts));
        if !is_twice || !met.again {
            return Ok(met.stopped);
        }
    }
    Err(Mismatch("EVERY WAY BACK WAS STOPPED"))
}

/// Stops a run at the calls of a file, up to one that meets no stop. Adds the result: how many
/// changes the run has and how often it was stopped, or the first stop that leaves what it should
/// not.
fn push_swept(run: Run<'_>, whole: &Uninterrupted, sweep: Sweep, out: &mut AnswerText) {
    let mut stops: usize = 0;
    for turn in 0..ENOUGH {
        let calls = turn.saturating_mul(sweep.stride());
        match stop_after(run, whole, sweep, calls, &mut stops) {
            Ok(true) => {}
            Ok(false) => return whole.push_met(" STOPS", stops, out),
            Err(other) => {
                out.value("BEHIND ", calls);
                out.value_line(" CALLS ", other.0);
                return;
            }
        }
    }
    out.line("EVERY RUN WAS STOPPED");
}

/// What the words of a line ask.
fn sweep_of(words: &[&str]) -> Option<Sweep> {
    let (file, rest) = words.split_first()?;
    let stopped = match *file {
        "log" => StoppedFile::Log,
        "database" => StoppedFile::Database,
        _ => return None,
    };
    let (then, kept) = match rest {
        ["twice", kept @ ..] => (Then::SecondStop, kept),
        ["all-again", kept @ ..] => (Then::AllAgain, kept),
        kept => (Then::InHand, kept),
    };
    let found = match *kept {
        [] => Found::Synced,
        ["written"] => Found::Written,
        ["torn"] => Found::Torn,
        _ => return None,
    };
    Some(Sweep {
        stopped,
        found,
        then,
    })
}

/// Answers `stops FILE`, with commands, and gives back the trees whose books got them without a
/// stop.
pub(crate) fn answer_stops<S: Store + Drop>(
    named: &Named,
    trees: Trees<S>,
    ask: Ask<'_>,
    out: &mut AnswerText,
) -> (Trees<S>, LineResult) {
    let Some(sweep) = sweep_of(ask.words) else {
        return (trees, Err(LineFault::NotUnderstood));
    };
    let run = Run {
        named,
        body: ask.body,
    };
    let (whole, trees) = run_uninterrupted(run, trees);
    if whole.is_cut {
        out.cut();
    }
    push_swept(run, &whole, sweep, out);
    (trees, Ok(()))
}
