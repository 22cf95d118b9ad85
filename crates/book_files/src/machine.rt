//! The machine on whose files books are kept. No file but this one and those in `machine` reaches it.

ghost use Rattle.std.specs.Prelude.{◌≡◌, IfOk, IsTrue};
ghost use Rattle.named_books.specs.Shelves.{ComesBy};

mod backup;
mod dry_runs;
mod new_books;

use crate::faults::of_file;
use crate::log::Log;
use crate::paths::{are_books, beside, create};
use crate::releases::{released, released_upgraded, without_log};
use crate::repository::Files;
use crate::seeds::seed_from;
use crate::session::{audit_at, upgrade_at, visit_at};
use crate::waiting::Waiting;
use book_audit::{Audited, Watch};
use book_core::LedgerFault;
use named_books::{Opened, RepositoryFault, Upgraded, Visit};
use sqlite_disk::Unknown;
use std::fs;

/// A machine, by its runtime.
#[derive(Drop)]
pub(crate) struct Machine<'a> {
    rt: &'a HostRuntime,
}

impl<'a> Files<'a> {
    /// The files that this machine has. No opening waits.
    pub fn of(rt: &'a HostRuntime) -> Files<'a>
        ensures { result.wait ≡ 0 }
    {
        Files {
            machine: Machine { rt },
            wait: 0,
        }
    }
}

impl<'a> Machine<'a> {
    /// How long an opening may wait.
    pub(crate) fn waiting(&self, seconds: u16) -> Waiting<'a, HostRuntime> {
        Waiting::of(self.rt, seconds)
    }

    /// Whether a file is there.
    pub(crate) fn exists(&self, book: &str) -> Result<bool, RepositoryFault> {
        of_file(fs::exists(self.rt, book))
    }

    /// What a session on a file that may hold books begins with: its log, and a number for the
    /// digests. A file that is no database is not opened, whatever log lies beside it; and a log
    /// that holds nothing of the books is kept under another name.
    fn begin_with(&self, book: &str) -> Result<(Log<'a>, u64), RepositoryFault> {
        let seed = seed_from(self.rt)?;
        if !of_file(are_books(self.rt, book))? {
            return Err(RepositoryFault::Ledger(LedgerFault::NotBooks));
        }
        let mut log = Log::of(self.rt, book, false)?;
        // The last step, since from here on the caller tells of the log.
        log.keep_unused(book)?;
        Ok((log, seed))
    }

    /// Makes an empty file beside another, and says its name, which nothing may have, and its log.
    fn begin_beside(&self, path: &str, what: &str) -> Result<(String, Log<'a>), RepositoryFault>
        ensures { IfOk result (λ begun. IsTrue begun.1.is_begun) }
    {
        let begun = of_file(beside(self.rt, path, what))?;
        create(self.rt, begun.as_str())?;
        match Log::of(self.rt, begun.as_str(), true) {
            Ok(log) => Ok((begun, log)),
            Err(fault) => {
                let _ = fs::remove_file(self.rt, begun.as_str());
                Err(fault)
            }
        }
    }

    /// Visits the books of a file that is there. What a ledger left in it is opened at the same
    /// cost whatever it holds: the whole file is not read. After the visit the books are one file,
    /// where their log could be brought into it.
    pub(crate) fn visit_books<V: Visit>(&self, book: &str, visit: &mut V) -> Opened<V::Answer>
        ensures { ComesBy (V.Visit.comes visit.old visit.new) (visit.new ≡ visit.old) result.answer }
    {
        match self.begin_with(book) {
            Ok((log, seed)) => {
                let (answer, ended) = visit_at(self.rt, book, seed, Unknown, visit);
                released(&log, answer, ended)
            }
            Err(fault) => without_log(fault),
        }
    }

    /// Brings the books of a file that is there to this form, in one commit. All of its pages are
    /// looked through first.
    pub(crate) fn upgrade_books(&self, book: &str) -> Opened<Upgraded> {
        match self.begin_with(book) {
            Ok((log, seed)) => {
                let (upgraded, ended) = upgrade_at(self.rt, book, seed, Unknown);
                released_upgraded(&log, upgraded, ended)
            }
            Err(fault) => without_log(fault),
        }
    }

    /// Audits the whole file: its pages, then each row of its trees. The files are left as they were.
    pub(crate) fn audit_books<W: Watch>(&self, book: &str, watch: &mut W) -> Opened<Audited> {
        match self.begin_with(book) {
            Ok((log, seed)) => {
                let (answer, ended) = audit_at(self.rt, book, seed, Unknown, watch);
                released(&log, answer, ended)
            }
            Err(fault) => without_log(fault),
        }
    }
}
