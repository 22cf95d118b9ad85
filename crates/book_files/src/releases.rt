//! The files of a session are dropped, and then it is told what came of it.

ghost use Rattle.std.specs.Prelude.{◌≡◌, false, Err, IfSome, IsOk, IsSome, OnErr, OnOk};
ghost use Rattle.book_files.specs.Logs.{LooksShort};
ghost use Rattle.book_files.specs.Releases.{HasMovedLog, IsMoved, LeftLooksShort};
ghost use Rattle.book_files.specs.Releases.{UnmovedLooksShort, seen_answer};
ghost use Rattle.book_sessions.specs.Sessions.{AreOpened, files_in_hand};

use crate::log::Log;
use crate::seen_logs::looks_short;
use book_core::LedgerFault;
use book_sessions::Ended;
use book_trees::{Closed, LogLeft};
use named_books::{Opened, RepositoryFault, Upgraded};
use sqlite_disk::{Disk, Files};

impl Log<'_> {
    /// Drops the files of books that were closed, with their log where it holds nothing, and says
    /// whether it holds a part of the books, or one that held nothing was kept. A log that was not to
    /// be moved is left as it was.
    pub(crate) fn release<D: Disk + Drop>(&self, closed: Closed<D>) -> bool
        ensures moved { result ≡ false → IsMoved closed.log }
        ensures short { result ≡ false → UnmovedLooksShort D.Disk closed.log closed.files }
        ensures kept { result ≡ false → self.now.is_kept ≡ false }
    {
        match closed.log {
            LogLeft::Unmoved => self.leave(Some(closed.files)),
            LogLeft::Short => {
                self.remove_if_empty();
                drop(closed);
                self.is_kept
            }
            LogLeft::Emptied | LogLeft::Kept(_) => {
                drop(closed);
                true
            }
        }
    }

    /// Drops the files of an opening that must leave them as they were, and says the same: a log that
    /// the opening made is removed. Where there are no files another program may have them, and
    /// nothing is touched.
    pub(crate) fn leave<D: Disk + Drop>(&self, files: Option<Files<D>>) -> bool
        ensures short { result ≡ false → IfSome files (LooksShort D.Disk) }
        ensures kept { result ≡ false → self.now.is_kept ≡ false }
    {
        match files {
            Some(files) => self.leave_locked(files),
            None => self.is_kept,
        }
    }

    /// The same of files that nobody else has. A log that is not seen to be short is told of.
    fn leave_locked<D: Disk + Drop>(&self, files: Files<D>) -> bool
        ensures short { result ≡ false → LooksShort D.Disk files }
        ensures kept { result ≡ false → self.now.is_kept ≡ false }
    {
        let mut files = files;
        if looks_short(&mut files) {
            self.remove_made();
            drop(files);
            self.is_kept
        } else {
            drop(files);
            true
        }
    }
}

/// What came of a session, whose files are dropped. Where no memory was left to see that they hold
/// books, that is said in place of an answer. Nothing is said of a log only where none is left that
/// holds pages which were to be moved, one that was to stay looks short, and none was put aside.
pub(crate) fn released<T: Drop, D: Disk + Drop>(
    log: &Log<'_>,
    answer: Result<T, RepositoryFault>,
    ended: Ended<D>,
) -> Opened<T>
    ensures told { result.answer ≡ seen_answer RepositoryFault.Unseen answer ended }
    ensures log { result.has_log ≡ false → HasMovedLog ended }
    ensures short { result.has_log ≡ false → LeftLooksShort D.Disk ended }
    ensures kept { result.has_log ≡ false → log.now.is_kept ≡ false }
{
    match ended {
        Ended::Closed(closed) => {
            let is_kept = closed.is_kept;
            let has_log = log.release(closed);
            if is_kept {
                Opened { answer, has_log }
            } else {
                Opened {
                    answer: Err(RepositoryFault::Unseen),
                    has_log,
                }
            }
        }
        Ended::Refused(files) => {
            let has_log = log.leave(files);
            Opened { answer, has_log }
        }
    }
}

/// What came of books that were to be brought to this form. Where they were not, that is said,
/// whatever is seen of their files.
pub(crate) fn released_upgraded<D: Disk + Drop>(
    log: &Log<'_>,
    upgraded: Result<Upgraded, RepositoryFault>,
    ended: Ended<D>,
) -> Opened<Upgraded>
    ensures told { OnOk upgraded
        (result.answer ≡ seen_answer RepositoryFault.Unseen upgraded ended) }
    ensures refused { OnErr upgraded (result.answer ≡ upgraded) }
    ensures log { result.has_log ≡ false → HasMovedLog ended }
    ensures short { result.has_log ≡ false → LeftLooksShort D.Disk ended }
    ensures kept { result.has_log ≡ false → log.now.is_kept ≡ false }
{
    let Opened { answer, has_log } = released(log, upgraded, ended);
    match upgraded {
        Ok(_) => Opened { answer, has_log },
        Err(fault) => Opened {
            answer: Err(fault),
            has_log,
        },
    }
}

/// What came of new books, with their files, which stay locked until the books have their name.
/// Where no memory was left to see that the files hold books, that is said.
pub(crate) fn in_hand<D: Disk + Drop>(
    made: Result<(), RepositoryFault>,
    ended: Ended<D>,
) -> (Result<(), RepositoryFault>, Option<Files<D>>)
    requires { IsOk made → AreOpened ended }
    ensures told { result.0 ≡ seen_answer (RepositoryFault.Ledger LedgerFault.Memory) made ended }
    ensures files { result.1 ≡ files_in_hand ended }
    ensures held { IsOk result.0 → IsSome result.1 }
{
    match ended {
        Ended::Refused(files) => (made, files),
        Ended::Closed(closed) if closed.is_kept => (made, Some(closed.files)),
        Ended::Closed(closed) => {
            let fault = RepositoryFault::Ledger(LedgerFault::Memory);
            (Err(fault), Some(closed.files))
        }
    }
}

/// What came of books that were not opened, whose log was looked at.
pub(crate) fn unopened<T: Drop>(log: &Log<'_>, fault: RepositoryFault) -> Opened<T>
    ensures answer { result.answer ≡ Err fault }
    ensures kept { result.has_log ≡ log.now.is_kept }
{
    Opened {
        answer: Err(fault),
        has_log: log.is_kept,
    }
}

/// What came of files that were not opened.
pub(crate) fn without_log<T: Drop>(fault: RepositoryFault) -> Opened<T>
    ensures answer { result.answer ≡ Err fault }
    ensures log { result.has_log ≡ false }
{
    Opened {
        answer: Err(fault),
        has_log: false,
    }
}
