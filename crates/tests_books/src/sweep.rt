//! A run over files that may fail: what is found when the machine is back, and how the same
//! commands then end.

use crate::names::SHA_NAMES;
use crate::restart::Restart;
use crate::run::{NOT_BEGUN, Progress, Run};
use crate::trees::Trees;
use crate::uninterrupted::{Books, Mismatch, OTHER_ANSWERS, Snapshot, Uninterrupted, snapshot_of};
use book_core::{Ledger, LedgerFault};
use std::alloc::Global;
use table_ledger::TableLedger;

/// What is left of books: their store, or the files of a disk that failed before it was made.
#[derive(Drop)]
enum Remains<S: Restart> {
    Store(S),
    Files(S::Disks),
}

/// What is found of books when the machine is back.
#[derive(Drop)]
enum Reopened<S: Restart> {
    Books(Books<S>),
    /// What is left where the disk stops once more.
    Stopped(Remains<S>),
    /// They can't be opened or made, and it is not for the disk.
    Other,
}

/// What is found where no books were opened or made in trees.
fn left_by<S: Restart>(fault: LedgerFault, store: S) -> Reopened<S> {
    match fault {
        LedgerFault::Store => Reopened::Stopped(Remains::Store(store)),
        _ => Reopened::Other,
    }
}

/// New books in trees that have none.
fn create_in<S: Restart>(alloc: Global, trees: Trees<S>) -> Reopened<S> {
    match TableLedger::create(alloc, trees.into_store(), SHA_NAMES) {
        Ok(books) => Reopened::Books(books),
        Err((fault, store)) => left_by(fault, store),
    }
}

/// The books in trees, new ones where there are none.
fn open_in<S: Restart>(alloc: Global, trees: Trees<S>) -> Reopened<S> {
    match TableLedger::open(alloc, trees.into_store(), SHA_NAMES) {
        Ok(books) => Reopened::Books(books),
        Err((LedgerFault::NotBooks, store)) => create_in(alloc, Trees::over(store)),
        Err((fault, store)) => left_by(fault, store),
    }
}

/// The books as they are found when the machine is back: new ones where there are no trees, or none
/// in them.
fn books_in<S: Restart>(alloc: Global, left: Remains<S>) -> Reopened<S> {
    match left {
        Remains::Store(store) => match store.back() {
            Ok(store) => open_in(alloc, Trees::over(store)),
            Err(store) => Reopened::Stopped(Remains::Store(store)),
        },
        Remains::Files(files) => match S::made(alloc, files) {
            Ok(store) => open_in(alloc, Trees::over(store)),
            Err(files) => Reopened::Stopped(Remains::Files(files)),
        },
    }
}

/// The books as they are found in the end, and whether the disk stopped once more on the way there.
/// It does so once.
fn reopen<S: Restart>(alloc: Global, left: Remains<S>) -> Result<(Books<S>, bool), Mismatch> {
    let left = match books_in(alloc, left) {
        Reopened::Books(books) => return Ok((books, false)),
        Reopened::Stopped(left) => left,
        Reopened::Other => return Err(OTHER_ANSWERS),
    };
    match books_in(alloc, left) {
        Reopened::Books(books) => Ok((books, true)),
        Reopened::Stopped(_) => Err(Mismatch("NOT OPENED AGAIN")),
        Reopened::Other => Err(OTHER_ANSWERS),
    }
}

/// Gives books the commands, up to a stop.
fn work<L: Ledger>(run: Run<'_>, ledger: &mut L) -> Result<Progress, Mismatch> {
    let progress = run.give_from(ledger, 0);
    let is_lost = progress.stopped && ledger.periods().err() != Some(LedgerFault::Reopen);
    if progress.is_consistent && !is_lost {
        Ok(progress)
    } else {
        Err(OTHER_ANSWERS)
    }
}

/// Works on books, and gives back what is left of them.
fn work_on<S: Restart>(run: Run<'_>, books: Books<S>) -> Result<(Progress, Remains<S>), Mismatch> {
    let mut books = books;
    let progress = work(run, &mut books)?;
    Ok((progress, Remains::Store(books.close_store())))
}

/// Makes books in files that hold nothing and works on them, and gives back what is left of them.
fn start<S: Restart>(run: Run<'_>, files: S::Disks) -> Result<(Progress, Remains<S>), Mismatch> {
    match books_in(run.named.alloc(), Remains::Files(files)) {
        Reopened::Books(books) => work_on(run, books),
        Reopened::Stopped(left) => Ok((NOT_BEGUN, left)),
        Reopened::Other => Err(OTHER_ANSWERS),
    }
}

/// What is left of books after the end of the work on them, and whether that was reached without a
/// stop.
fn checkpoint_log<S: Restart>(left: Remains<S>) -> (Remains<S>, bool) {
    match left {
        Remains::Store(store) => {
            let (store, is_shut) = store.checkpoint_log();
            (Remains::Store(store), is_shut)
        }
        Remains::Files(files) => (Remains::Files(files), false),
    }
}

/// All rows and texts of books, once they were opened again.
fn end_of<S: Restart>(run: Run<'_>, books: Books<S>) -> Result<Snapshot, Mismatch> {
    let (books, _) = reopen(run.named.alloc(), Remains::Store(books.close_store()))?;
    let (end, _) = snapshot_of(run, books)?;
    Ok(end)
}

/// Gives the books that are left the command in progress once more and those after it, which brings
/// them to the end.
fn finish<S: Restart>(
    run: Run<'_>,
    whole: &Uninterrupted,
    stopped: Progress,
    left: Remains<S>,
) -> Result<(), Mismatch> {
    let (mut books, _) = reopen(run.named.alloc(), left)?;
    let progress = run.give_from(&mut books, stopped.commands);
    let end = end_of(run, books)?;
    if progress.is_consistent && !progress.stopped && whole.is_end(&end) {
        Ok(())
    } else {
        Err(Mismatch("ANOTHER END"))
    }
}

/// Gives the books that are left all commands once more, from the first on, whatever each is
/// answered. What was done before is not done again, so that brings them to the end. Only choices
/// may have been made again, one after the other, up to the last.
fn start_over<S: Restart>(
    run: Run<'_>,
    whole: &Uninterrupted,
    left: Remains<S>,
) -> Result<(), Mismatch> {
    let (mut books, _) = reopen(run.named.alloc(), left)?;
    let _ = run.give_from(&mut books, 0);
    if books.periods().is_err() {
        return Err(OTHER_ANSWERS);
    }
    let end = end_of(run, books)?;
    if whole.is_end_but_for_choices(&end) {
        Ok(())
    } else {
        Err(Mismatch("ANOTHER END"))
    }
}

/// What comes after a stop.
#[derive(Clone, Copy)]
pub(crate) enum Then {
    /// The books that are found get the command in hand once more, and those after it.
    InHand,
    /// The same, after a second stop on the way back into the books.
    SecondStop,
    /// They get all commands once more, from the first on.
    AllAgain,
}

/// Where a disk stopped.
#[derive(Clone, Copy)]
pub(crate) struct Met {
    /// In the commands of the run, or in the closing after them.
    pub(crate) stopped: bool,
    /// On the way back into the books.
    pub(crate) again: bool,
}

/// Makes a run on books in files that may fail, and answers where it was stopped, if what is found
/// and how it ends are as they have to be. Where there is to be a second stop on the way back, that
/// is checked only after it.
pub(crate) fn try_stops<S: Restart>(
    run: Run<'_>,
    whole: &Uninterrupted,
    files: S::Disks,
    then: Then,
) -> Result<Met, Mismatch> {
    let (progress, left) = start::<S>(run, files)?;
    let (left, is_shut) = checkpoint_log(left);
    let (books, again) = reopen(run.named.alloc(), left)?;
    let met = Met {
        stopped: progress.stopped || !is_shut,
        again,
    };
    if matches!(then, Then::SecondStop) && !again {
        return Ok(met);
    }
    let (found, trees) = snapshot_of(run, books)?;
    if !whole.is_reached(progress, &found) {
        return Err(Mismatch("OTHER BOOKS"));
    }
    let left = Remains::Store(trees.into_store());
    match then {
        Then::InHand | Then::SecondStop => finish(run, whole, progress, left)?,
        Then::AllAgain => start_over(run, whole, left)?,
    }
    Ok(met)
}
