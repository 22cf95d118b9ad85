//! The log that lies beside a file of books while a command runs: it is kept under another name where
//! it is no use to them, and deleted where it holds nothing.

ghost use Rattle.std.specs.Prelude.{◌≡◌, ◌<◌, true, IfOk, IsTrue, OnOk};
ghost use Rattle.book_trees.specs.LedgerFiles.{shortest_log};
ghost use Rattle.book_files.specs.Logs.{IsOfNoUse};

use crate::faults::of_file;
use crate::paths::{beside, is_there, may_be_books, open_folder, sync_folder};
use crate::seen_logs::{is_of_no_use, was_emptied};
use book_sessions::refused;
use book_trees::{lock_at, needs_no_log};
use named_books::RepositoryFault;
use sqlite_disk::{Disk, Unknown};
use std::io::ErrorKind;
use std::{fs, io};

/// The log of a file, by its path, and whether it was there before the file was opened.
#[derive(Drop)]
pub(crate) struct Log<'a> {
    rt: &'a HostRuntime,
    path: String,
    was_there: bool,
    /// This call began the file, so whatever the log holds is its own.
    pub(crate) is_begun: bool,
    /// What was there held nothing of the books, and was given another name.
    pub(crate) is_kept: bool,
}

impl<'a> Log<'a> {
    /// The log of a file that is there. It lies beside the file to which a link leads. Opening
    /// makes it, and then opens the folder to sync the names in it to the disk: a folder that can't
    /// be opened refuses it here, before there is a log that would stay. Where the log's name is
    /// that of a file of books nothing is opened, since they would be taken for it.
    pub(crate) fn of(
        rt: &'a HostRuntime,
        book: &str,
        is_begun: bool,
    ) -> Result<Log<'a>, RepositoryFault>
        ensures { IfOk result (λ log. log.is_begun ≡ is_begun) }
    {
        let real = of_file(fs::canonicalize(rt, book))?;
        let path = of_file(beside(rt, real.as_str(), "wal"))?;
        let was_there = is_there(rt, path.as_str())?;
        if !was_there {
            open_folder(rt, book)?;
        } else if may_be_books(rt, path.as_str())? {
            return Err(RepositoryFault::Exists);
        }
        Ok(Log {
            rt,
            path,
            was_there,
            is_begun,
            is_kept: false,
        })
    }

    /// Gives a log that was there another name, where recovery would write over it: it is somebody's,
    /// or damaged, or a stopped command's. By `is_unused` the file alone holds the same books. The
    /// two are locked meanwhile: it is not the log of a command that runs. One that a command emptied
    /// and could not cut off has nothing to be kept: it is written over.
    pub(crate) fn keep_unused(&mut self, book: &str) -> Result<(), RepositoryFault> {
        if !self.was_there {
            return Ok(());
        }
        let mut files = match lock_at(self.rt, book, Unknown) {
            Ok(files) => files,
            Err(fault) => return Err(refused(fault)),
        };
        self.keep_if_unused(&mut files.log)
    }

    /// The same of a log that nobody else has.
    fn keep_if_unused<D: Disk>(&mut self, log: &mut D) -> Result<(), RepositoryFault>
        requires { IsTrue (D.Disk.is_usable log.old) }
    {
        if was_emptied(log) {
            return Ok(());
        }
        let is_unused = match is_of_no_use(self.rt.alloc(), log) {
            Ok(is_unused) => is_unused,
            Err(fault) => return Err(refused(fault)),
        };
        if is_unused {
            return self.keep(log);
        }
        Ok(())
    }

    /// Sees that no other program has the books, and leaves nothing beside them.
    pub(crate) fn expect_free(&self, book: &str) -> Result<(), RepositoryFault> {
        match lock_at(self.rt, book, Unknown) {
            Ok(files) => {
                self.leave(Some(files));
                Ok(())
            }
            Err(fault) => Err(refused(fault)),
        }
    }

    /// Renames a log that is of no use to books, to a name that nothing has. No other place renames
    /// one. The opening that follows syncs the folder too, and fails where it can't.
    fn keep<D: Disk>(&mut self, _log: &D) -> Result<(), RepositoryFault>
        requires { IsOfNoUse D.Disk _log.now }
        ensures { OnOk result (self.new.is_kept ≡ true) }
    {
        let kept = of_file(beside(self.rt, self.path.as_str(), "kept"))?;
        if is_there(self.rt, kept.as_str())? {
            return Err(RepositoryFault::Exists);
        }
        of_file(fs::rename(self.rt, self.path.as_str(), kept.as_str()))?;
        self.is_kept = true;
        self.was_there = false;
        let _ = sync_folder(self.rt, kept.as_str());
        Ok(())
    }

    /// Takes the log away where it holds nothing, and says whether none is left. The caller still
    /// has the file open, and with it the lock without which no log is made or written, so no other
    /// program has this one. Nothing is lost: by `needs_no_log` the file alone holds the same
    /// books, and what was committed was synced there before the log was cut short.
    pub(crate) fn remove_if_empty(&self) -> bool {
        match fs::symlink_metadata(self.rt, self.path.as_str()) {
            Ok(found) if found.is_file() => {
                let len = found.len();
                needs_no_log(len) && self.remove_short(len).is_ok()
            }
            Ok(_) => false,
            Err(error) => error.kind() == ErrorKind::NotFound,
        }
    }

    /// Deletes a log of so many bytes, which are too few to hold anything.
    fn remove_short(&self, _len: u64) -> io::Result<()>
        requires { _len < shortest_log }
    {
        fs::remove_file(self.rt, self.path.as_str())
    }

    /// Takes away a short log that was not there before the opening.
    pub(crate) fn remove_made(&self) {
        if !self.was_there {
            self.remove_if_empty();
        }
    }

    /// Takes away the log of a file that this call began, whatever it holds.
    pub(crate) fn remove(&self)
        requires { IsTrue self.now.is_begun }
    {
        let _ = fs::remove_file(self.rt, self.path.as_str());
    }
}
