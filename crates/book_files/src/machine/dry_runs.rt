//! What a visit would make of books is tried on a copy of them, which is removed.

ghost use Rattle.std.specs.Prelude.{◌≡◌};
ghost use Rattle.named_books.specs.Shelves.{ComesBy};

use crate::copied::{Copied, tried_answer};
use crate::copies::visit_copy_at;
use crate::faults::of_file;
use crate::log::Log;
use crate::machine::Machine;
use crate::paths::{beside, create, has_traces};
use crate::releases::{released, unopened, without_log};
use book_core::LedgerFault;
use named_books::{Opened, RepositoryFault, Visit};
use sqlite_disk::Unknown;
use std::fs;

impl Machine<'_> {
    /// Sees to it that a copy can be begun: nobody else has the books, so none is made while a dry run
    /// only waits; and a file of the copy's name, which nothing may have, can be taken away again.
    fn expect_trial(&self, log: &Log<'_>, book: &str) -> Result<(), RepositoryFault> {
        log.expect_free(book)?;
        let begun = of_file(beside(self.rt, book, "try"))?;
        create(self.rt, begun.as_str())?;
        match fs::remove_file(self.rt, begun.as_str()) {
            Ok(()) => Ok(()),
            Err(_) => Err(RepositoryFault::Ledger(LedgerFault::Store)),
        }
    }

    /// Visits a copy of the books of a file, made while nobody else has them. They are only read. The
    /// copy lies beside them, under a name that nothing has: what a stopped dry run left there may be
    /// somebody's. It is removed however the visit ends; one that stays is told of as a log is.
    pub(crate) fn try_out_books<V: Visit>(&self, book: &str, visit: &mut V) -> Opened<V::Answer>
        ensures { ComesBy (V.Visit.comes visit.old visit.new) (visit.new ≡ visit.old) result.answer }
    {
        let (log, seed) = match self.begin_with(book) {
            Ok(begun) => begun,
            Err(fault) => return without_log(fault),
        };
        if let Err(fault) = self.expect_trial(&log, book) {
            return unopened(&log, fault);
        }
        let (begun, begun_log) = match self.begin_beside(book, "try") {
            Ok(begun) => begun,
            Err(fault) => return unopened(&log, fault),
        };
        let Copied {
            answer,
            original,
            copy,
        } = visit_copy_at(self.rt, book, Unknown, begun.as_str(), Unknown, seed, visit);
        let answer = released(&begun_log, tried_answer(answer), copy).answer;
        begun_log.remove();
        let _ = fs::remove_file(self.rt, begun.as_str());
        let is_left = has_traces(self.rt, begun.as_str()).unwrap_or(true);
        // Until here nobody else has the books, nor begins a copy.
        let has_log = log.leave(original) | is_left;
        Opened { answer, has_log }
    }
}
