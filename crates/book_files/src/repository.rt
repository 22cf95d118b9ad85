//! Books by the names of their files. What stands here hands names on to the machine, and waits.

ghost use Rattle.std.specs.Prelude.{◌≡◌};
ghost use Rattle.named_books.specs.Shelves.{ComesBy};

use crate::machine::Machine;
use crate::waiting::{Visited, wait};
use book_audit::{Audited, AuditedRepository, Watch};
use named_books::{Opened, Repository, RepositoryFault, Upgraded, Visit, WaitingRepository};

/// Files, each with the books of one office. Nothing is known about what they hold: what is proved
/// of an opening is proved whatever that is, as long as a file that lists the tables of books has
/// them, whoever wrote them.
#[derive(Drop)]
pub struct Files<'a> {
    pub(crate) machine: Machine<'a>,
    /// For how many seconds books that another program is using are asked for again.
    pub(crate) wait: u16,
}

impl Files<'_> {
    fn visit<V: Visit>(&self, what: Visited, book: &str, visit: &mut V) -> Opened<V::Answer>
        ensures { ComesBy (V.Visit.comes visit.old visit.new) (visit.new ≡ visit.old) result.answer }
    {
        match what {
            Visited::Books => self.machine.visit_books(book, visit),
            Visited::Copy => self.machine.try_out_books(book, visit),
        }
    }

    /// Visits books, or a copy of them, and waits for them.
    fn wait_to_visit<V: Visit>(&self, what: Visited, book: &str, visit: &mut V) -> Opened<V::Answer>
        ensures { ComesBy (V.Visit.comes visit.old visit.new) (visit.new ≡ visit.old) result.answer }
    {
        let mut waiting = self.machine.waiting(self.wait);
        for _ in 0..waiting.pauses {
            match waiting.settle(self.visit(what, book, visit)) {
                None => {}
                Some(opened) => return opened,
            }
        }
        waiting.end(self.visit(what, book, visit))
    }

    fn wait_to_upgrade(&self, book: &str) -> Opened<Upgraded> {
        let waiting = self.machine.waiting(self.wait);
        wait(waiting, || self.machine.upgrade_books(book))
    }

    fn wait_to_audit<W: Watch>(&self, book: &str, watch: &mut W) -> Opened<Audited> {
        let waiting = self.machine.waiting(self.wait);
        wait(waiting, || self.machine.audit_books(book, watch))
    }

    fn wait_to_back_up<W: Watch>(&self, book: &str, copy: &str, watch: &mut W) -> Opened<Audited> {
        let waiting = self.machine.waiting(self.wait);
        wait(waiting, || self.machine.copy_books(book, copy, watch))
    }
}

impl Repository for Files<'_> {
    ghost use Rattle.book_restarts.specs.FileBooks.{file_names};
    ghost use Rattle.named_books.specs.Shelves.{unknown};

    ghost shelf = { λ _. unknown file_names };

    /// Says whether the file is there.
    fn expect(&self, book: &str) -> Result<(), RepositoryFault> {
        match self.machine.exists(book) {
            Ok(true) => Ok(()),
            Ok(false) => Err(RepositoryFault::Io),
            Err(fault) => Err(fault),
        }
    }

    /// Makes new books under a name that is not there yet.
    fn make(&mut self, book: &str) -> Result<(), RepositoryFault> {
        self.machine.make_new(book)
    }

    /// Visits the books of a file that is there, and waits for them.
    fn open<V: Visit>(&mut self, book: &str, visit: &mut V) -> Opened<V::Answer> {
        self.wait_to_visit(Visited::Books, book, visit)
    }

    /// Visits a copy of the books of a file that is there, and waits for them. The copy lies beside
    /// them, and is removed however the visit ends.
    fn try_out<V: Visit>(&mut self, book: &str, visit: &mut V) -> Opened<V::Answer> {
        self.wait_to_visit(Visited::Copy, book, visit)
    }

    /// Brings the books of a file that is there to this form, and waits for them.
    fn upgrade(&mut self, book: &str) -> Opened<Upgraded> {
        self.wait_to_upgrade(book)
    }
}

impl WaitingRepository for Files<'_> {
    ghost use Rattle.std.specs.Prelude.{◌≡◌};

    ghost waits = { λ files seconds. files.wait ≡ seconds };

    fn wait_up_to(&mut self, seconds: u16) {
        self.wait = seconds;
    }
}

impl AuditedRepository for Files<'_> {
    /// Audits the whole file, and waits for it.
    fn audit<W: Watch>(&self, book: &str, watch: &mut W) -> Opened<Audited> {
        self.wait_to_audit(book, watch)
    }

    /// Copies the books of a file, and whatever their log holds of them, into one file, and waits
    /// for them. They are only read.
    fn back_up<W: Watch>(&mut self, book: &str, copy: &str, watch: &mut W) -> Opened<Audited> {
        self.wait_to_back_up(book, copy, watch)
    }
}
