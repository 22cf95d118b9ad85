//! Memory that runs out at each call of a store.

use crate::empty_store::EmptyStore;
use crate::names::SHA_NAMES;
use crate::refusing_store::RefusingStore;
use crate::run::Run;
use crate::trees::Trees;
use crate::uninterrupted::{
    Books, Mismatch, OTHER_ANSWERS, Uninterrupted, run_uninterrupted, snapshot_of,
};
use book_core::{Ledger, LedgerFault};
use sqlite_disk::Memory;
use sqlite_store::FileStore;
use sqlite_trees::memory::MemStore;
use sqlite_trees::store::Store;
use std::alloc::Global;
use table_ledger::TableLedger;
use tests_scripts::{AnswerText, Ask, LineFault, LineResult, Named};

/// More calls than any run makes of a store.
const ENOUGH: u32 = 50_000;

/// New books in a store that has none, and whether memory ran out for them at first.
fn create_in<S: Store + Drop>(
    alloc: Global,
    trees: Trees<S>,
) -> Result<(Books<S>, bool), Mismatch> {
    match TableLedger::create(alloc, trees.into_store(), SHA_NAMES) {
        Ok(books) => Ok((books, false)),
        Err((LedgerFault::Memory, store)) => match TableLedger::create(alloc, store, SHA_NAMES) {
            Ok(books) => Ok((books, true)),
            Err(_) => Err(Mismatch("NOT MADE AGAIN")),
        },
        Err(_) => Err(OTHER_ANSWERS),
    }
}

/// How far a run came before a call was refused.
#[derive(Clone, Copy)]
struct Refused {
    /// How many changes were reported.
    changes: usize,
    /// How many commands were answered.
    commands: usize,
}

/// Gives books the commands up to one that is answered that memory ran out, and answers how far
/// they came until then; nothing where none was answered so.
fn work<L: Ledger>(run: Run<'_>, ledger: &mut L) -> Result<Option<Refused>, Mismatch> {
    let mut changes: usize = 0;
    for (commands, line) in run.body.lines().enumerate() {
        let reported = run.give(ledger, line).ok_or(OTHER_ANSWERS)?;
        changes = changes.saturating_add(reported.changes);
        match reported.fault {
            None => {}
            Some(LedgerFault::Memory) => return Ok(Some(Refused { changes, commands })),
            Some(_) => return Err(OTHER_ANSWERS),
        }
    }
    Ok(None)
}

/// Makes books in a store that refuses the call after a given number, and works on them up to that
/// call. Answers the books, and how far they came until then; nothing where no call was refused.
fn begin<S: EmptyStore>(
    run: Run<'_>,
    calls: u32,
) -> Result<(Books<RefusingStore<S>>, Option<Refused>), Mismatch> {
    let alloc = run.named.alloc();
    let Some(store) = S::empty(alloc) else {
        return Err(Mismatch("NO MEMORY"));
    };
    let (mut books, is_refused) = create_in(alloc, Trees::over(RefusingStore::new(store, calls)))?;
    let refused = if is_refused {
        Some(Refused {
            changes: 0,
            commands: 0,
        })
    } else {
        work(run, &mut books)?
    };
    Ok((books, refused))
}

/// Books as a refused call left them are those after the last change that was reported.
fn look<S: EmptyStore>(
    run: Run<'_>,
    whole: &Uninterrupted,
    books: Books<RefusingStore<S>>,
    refused: Refused,
) -> Result<(), Mismatch> {
    let (found, _) = snapshot_of(run, books)?;
    if whole.is_after(refused.changes, &found) {
        Ok(())
    } else {
        Err(Mismatch("OTHER BOOKS"))
    }
}

/// They still serve: the command that was refused and those after it bring them to the end.
fn finish<S: EmptyStore>(
    run: Run<'_>,
    whole: &Uninterrupted,
    books: Books<RefusingStore<S>>,
    refused: Refused,
) -> Result<(), Mismatch> {
    let mut books = books;
    let progress = run.give_from(&mut books, refused.commands);
    let (end, _) = snapshot_of(run, books)?;
    if progress.is_consistent && !progress.stopped && whole.is_end(&end) {
        Ok(())
    } else {
        Err(Mismatch("ANOTHER END"))
    }
}

/// Makes a run on books whose store refuses the call after a given number, twice: what is found is
/// checked, and then how it ends. Answers whether the run came to that call.
fn try_refusal<S: EmptyStore>(
    run: Run<'_>,
    whole: &Uninterrupted,
    calls: u32,
) -> Result<bool, Mismatch> {
    let (books, refused) = begin::<S>(run, calls)?;
    let Some(refused) = refused else {
        let is_untold = books.close_store().has_refused();
        return if is_untold {
            Err(Mismatch("NOT TOLD"))
        } else {
            Ok(false)
        };
    };
    look(run, whole, books, refused)?;
    let (books, _) = begin::<S>(run, calls)?;
    finish(run, whole, books, refused)?;
    Ok(true)
}

/// Refuses the calls of a run one by one, up to one that the run does not come to. Adds the result:
/// how many changes the run has and how many calls were refused, or the first refusal that leaves
/// what it should not.
fn push_swept<S: EmptyStore>(run: Run<'_>, whole: &Uninterrupted, out: &mut AnswerText) {
    for calls in 0..ENOUGH {
        match try_refusal::<S>(run, whole, calls) {
            Ok(true) => {}
            Ok(false) => return whole.push_met(" REFUSED", calls as usize, out),
            Err(other) => {
                out.value("BEHIND ", calls);
                out.value_line(" CALLS ", other.0);
                return;
            }
        }
    }
    out.line("EVERY RUN WAS REFUSED");
}

/// Answers `refuses memory`, or `refuses memory files`, with commands, and gives back the trees
/// whose books got them without a refusal.
pub(crate) fn answer_refusals<S: Store + Drop>(
    named: &Named,
    trees: Trees<S>,
    ask: Ask<'_>,
    out: &mut AnswerText,
) -> (Trees<S>, LineResult) {
    let in_files = match *ask.words {
        ["memory"] => false,
        ["memory", "files"] => true,
        _ => return (trees, Err(LineFault::NotUnderstood)),
    };
    let run = Run {
        named,
        body: ask.body,
    };
    let (whole, trees) = run_uninterrupted(run, trees);
    if whole.is_cut {
        out.cut();
    }
    if in_files {
        push_swept::<FileStore<Memory>>(run, &whole, out);
    } else {
        push_swept::<MemStore>(run, &whole, out);
    }
    (trees, Ok(()))
}
