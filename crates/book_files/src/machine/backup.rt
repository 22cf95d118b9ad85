//! A copy of books under another name: it is begun under a second name, and gets its own once it is
//! whole and sound.

ghost use Rattle.std.specs.Prelude.{IsTrue};

use crate::copied::{CopyFault, whole};
use crate::copies::visit_copy_at;
use crate::faults::of_file;
use crate::log::Log;
use crate::machine::Machine;
use crate::paths::{expect_none, sync_folder};
use crate::releases::{released, unopened, without_log};
use book_audit::{Audited, Watch};
use book_sessions::not_looked_through;
use book_trees::LookFault;
use named_books::{Look, Opened, RepositoryFault};
use sqlite_disk::Unknown;
use std::fs;

impl Machine<'_> {
    /// Copies the books of a file to a name that nothing has. Where the copy is not sound, or can't
    /// be made, or its name does not reach the disk, nothing is left of it.
    pub(crate) fn copy_books<W: Watch>(
        &self,
        book: &str,
        copy: &str,
        watch: &mut W,
    ) -> Opened<Audited> {
        let (log, seed) = match self.begin_with(book) {
            Ok(begun) => begun,
            Err(fault) => return without_log(fault),
        };
        if let Err(fault) = expect_none(self.rt, copy) {
            return unopened(&log, fault);
        }
        let (begun, begun_log) = match self.begin_beside(copy, "new") {
            Ok(begun) => begun,
            Err(fault) => return unopened(&log, fault),
        };
        let (copied, has_log) = self.copy_into(book, &log, begun.as_str(), &begun_log, seed);
        let answer = match copied {
            Ok(()) => self.name_if_sound(begun.as_str(), copy, watch),
            Err(CopyFault::Pages) => not_looked_through(LookFault::Pages),
            Err(CopyFault::Refused(fault)) => Err(fault),
        };
        if !matches!(&answer, Ok(Audited::Sound(_))) {
            let _ = fs::remove_file(self.rt, begun.as_str());
        }
        Opened { answer, has_log }
    }

    /// Copies the books into the file that was begun, which then holds all of them, and says whether
    /// their own log holds a part of them. The log of a copy that fails is removed.
    fn copy_into(
        &self,
        book: &str,
        log: &Log<'_>,
        begun: &str,
        begun_log: &Log<'_>,
        seed: u64,
    ) -> (Result<(), CopyFault>, bool)
        requires { IsTrue begun_log.now.is_begun }
    {
        let copied = visit_copy_at(self.rt, book, Unknown, begun, Unknown, seed, &mut Look);
        let has_log = log.leave(copied.original);
        let closed = released(begun_log, Ok(()), copied.copy);
        let answer = copied.answer.and(whole(closed.answer, closed.has_log));
        if answer.is_err() {
            begun_log.remove();
        }
        (answer, has_log)
    }

    /// Audits a copy that is whole, and gives a sound one its name.
    fn name_if_sound<W: Watch>(
        &self,
        begun: &str,
        copy: &str,
        watch: &mut W,
    ) -> Result<Audited, RepositoryFault> {
        let audited = self.audit_books(begun, watch).answer?;
        if let Audited::Sound(_) = &audited {
            self.name_copy(begun, copy)?;
        }
        Ok(audited)
    }

    /// Gives a copy its name, which has to reach the disk: a copy that is acknowledged outlasts a
    /// power cut. Where that is not seen, the name is free again.
    fn name_copy(&self, begun: &str, copy: &str) -> Result<(), RepositoryFault> {
        expect_none(self.rt, copy)?;
        of_file(fs::rename(self.rt, begun, copy))?;
        let synced = sync_folder(self.rt, copy);
        if synced.is_err() {
            let _ = fs::remove_file(self.rt, copy);
        }
        synced
    }
}
