//! New books are made under a second name, and get their own once they are whole: a stop at any
//! moment leaves whole books under that name, or nothing.

ghost use Rattle.std.specs.Prelude.{IsOk, IsSome, IsTrue};

use crate::faults::of_file;
use crate::log::Log;
use crate::machine::Machine;
use crate::paths::{beside, create, expect_none, is_there, sync_folder};
use crate::releases::in_hand;
use crate::seeds::seed_from;
use crate::session::{make_at, resume_at};
use book_core::LedgerFault;
use named_books::RepositoryFault;
use sqlite_disk::{Files as Pair, Unknown};
use std::fs;
use synced_disk::BookFile;

impl Machine<'_> {
    /// Makes new books under a name that nothing has. Where they can't be made, what this call
    /// began is removed. What a stopped earlier call left is continued; where that fails too, it stays
    /// with its log, by which the next call tells a file that was begun from a damaged one.
    pub(crate) fn make_new(&self, book: &str) -> Result<(), RepositoryFault> {
        expect_none(self.rt, book)?;
        let begun = of_file(beside(self.rt, book, "new"))?;
        let is_first = self.begin(begun.as_str())?;
        let log = match Log::of(self.rt, begun.as_str(), is_first) {
            Ok(log) => log,
            Err(fault) => {
                if is_first {
                    let _ = fs::remove_file(self.rt, begun.as_str());
                }
                return Err(fault);
            }
        };
        let (made, files) = self.make_in(begun.as_str());
        let named = match made {
            Ok(()) => self.give_name(begun.as_str(), &log, book),
            Err(fault) => Err(fault),
        };
        match named {
            Err(fault) if log.is_begun && fault != RepositoryFault::Busy => {
                self.remove_begun(begun.as_str(), &log, files.is_some());
                drop(files);
            }
            // Nothing was written to the file of somebody.
            Err(RepositoryFault::Exists) => {
                log.leave(files);
            }
            _ => drop(files),
        }
        named
    }

    /// Makes the file in which books are begun, and says whether it was not there. Where it was
    /// not, a log or a journal of it belongs to somebody.
    fn begin(&self, begun: &str) -> Result<bool, RepositoryFault> {
        if is_there(self.rt, begun)? {
            return Ok(false);
        }
        create(self.rt, begun)?;
        Ok(true)
    }

    /// Removes what this call began. While the file is locked it is emptied first: a stop on the
    /// way leaves an empty one, with which the next call begins. A file that was not opened is
    /// empty; another call that has opened it by now finds nothing to rename.
    fn remove_begun(&self, begun: &str, log: &Log<'_>, is_locked: bool)
        requires { IsTrue log.now.is_begun }
    {
        if is_locked {
            let _ = fs::write(self.rt, begun, b"".as_slice());
            log.remove();
        }
        let _ = fs::remove_file(self.rt, begun);
        log.remove_if_empty();
    }

    /// Makes new books in a file that is empty, or that a stop left while they were made. Where they
    /// are made their files are in hand.
    fn make_in(&self, begun: &str) -> (Result<(), RepositoryFault>, Option<Pair<BookFile<Unknown>>>)
        ensures { IsOk result.0 → IsSome result.1 }
    {
        let seed = match seed_from(self.rt) {
            Ok(seed) => seed,
            Err(fault) => return (Err(fault), None),
        };
        match make_at(self.rt, begun, seed, Unknown) {
            // The file holds something: books whose trees are all there, or somebody's.
            (Err(RepositoryFault::Ledger(LedgerFault::NotBooks)), ended) => {
                drop(ended);
                let (made, ended) = resume_at(self.rt, begun, seed, Unknown);
                in_hand(made, ended)
            }
            (made, ended) => in_hand(made, ended),
        }
    }

    /// Gives books that are whole, in one file, their name. They are still locked: of two calls at
    /// once only one gets here, so the name is not taken between the test and the change. Where the
    /// name does not reach the disk, a power cut leaves the second one, and the next call continues
    /// with it.
    fn give_name(&self, begun: &str, log: &Log<'_>, book: &str) -> Result<(), RepositoryFault> {
        if !log.remove_if_empty() {
            return Err(RepositoryFault::Ledger(LedgerFault::Store));
        }
        expect_none(self.rt, book)?;
        of_file(fs::rename(self.rt, begun, book))?;
        let _ = sync_folder(self.rt, book);
        Ok(())
    }
}
