//! The place.

ghost use Rattle.std.specs.Prelude.{◌≡◌, false};
ghost use Rattle.memory_books.specs.Kept.{Keeps, VisitsCopy};

use crate::kept::KeptLedger;
use crate::places::{Kept, add, find, visit_kept};
use book_audit::{Audited, AuditedRepository, Watch};
use book_core::LedgerFault;
use named_books::{Opened, Repository, RepositoryFault, Upgraded, Visit, WaitingRepository};
use std::alloc::{AllocError, Global};

/// Books in memory by their names: each visit finds them as the one before it left them.
#[derive(Drop)]
pub struct MemoryBooks<L: Drop> {
    kept: Vec<Kept<L>>,
    /// For how many seconds an opening waits: nobody else has them open.
    wait: u16,
    alloc: Global,
}

impl<L: KeptLedger> MemoryBooks<L> {
    ghost use Rattle.std.specs.Prelude.{◌≡◌, ℕ, List, None};
    ghost use Rattle.memory_books.specs.MemoryShelf.{memory_shelf};

    /// No books.
    pub fn new(alloc: Global) -> MemoryBooks<L>
        ensures { (name : List ℕ)
            → (memory_shelf L.Ledger.seen L.names result).is_free name }
    {
        MemoryBooks {
            kept: Vec::new(alloc),
            wait: 0,
            alloc,
        }
    }
}

/// The fault that stands for a lack of memory.
const MEMORY: RepositoryFault = RepositoryFault::Ledger(LedgerFault::Memory);

/// What came of books in memory, which have no log.
fn without_log<T: Drop>(answer: Result<T, RepositoryFault>) -> Opened<T>
    ensures answer { result.answer ≡ answer }
    ensures log { result.has_log ≡ false }
{
    Opened {
        answer,
        has_log: false,
    }
}

impl<L: KeptLedger> Repository for MemoryBooks<L> {
    ghost use Rattle.memory_books.specs.MemoryShelf.{memory_shelf};

    ghost shelf = { memory_shelf L.Ledger.seen L.names };

    fn expect(&self, book: &str) -> Result<(), RepositoryFault> {
        match find(self.kept.as_slice(), book) {
            Some(_books) => Ok(()),
            None => Err(RepositoryFault::Io),
        }
    }

    fn make(&mut self, book: &str) -> Result<(), RepositoryFault> {
        if let Some(_books) = find(self.kept.as_slice(), book) {
            return Err(RepositoryFault::Exists);
        }
        match L::begun(self.alloc) {
            Some(books) => keep(&mut self.kept, self.alloc, book, books),
            None => Err(MEMORY),
        }
    }

    fn open<V: Visit>(&mut self, book: &str, visit: &mut V) -> Opened<V::Answer> {
        match visit_kept(&mut self.kept, book, visit) {
            Some(answer) => without_log(Ok(answer)),
            None => without_log(Err(RepositoryFault::Io)),
        }
    }

    fn try_out<V: Visit>(&mut self, book: &str, visit: &mut V) -> Opened<V::Answer> {
        let Some(books) = find(self.kept.as_slice(), book) else {
            return without_log(Err(RepositoryFault::Io));
        };
        match books.copied(self.alloc) {
            Some(copy) => without_log(Ok(visit_copy(copy, visit))),
            None => without_log(Err(MEMORY)),
        }
    }

    fn upgrade(&mut self, book: &str) -> Opened<Upgraded> {
        match find(self.kept.as_slice(), book) {
            Some(_books) => without_log(Ok(Upgraded::Already)),
            None => without_log(Err(RepositoryFault::Io)),
        }
    }
}

/// Visits books that nobody keeps.
fn visit_copy<L: KeptLedger, V: Visit>(copy: L, visit: &mut V) -> V::Answer
    ensures visits { VisitsCopy L.Ledger.seen V.Visit.work V.Visit.comes visit.old visit.new copy
        result }
{
    let mut copy = copy;
    visit.visit(&mut copy)
}

/// Keeps books under a name that no others have.
fn keep<L: KeptLedger>(
    kept: &mut Vec<Kept<L>>,
    alloc: Global,
    name: &str,
    books: L,
) -> Result<(), RepositoryFault>
    ensures { Keeps name.now books kept.old.items kept.new.items result }
{
    match add(kept, alloc, name, books) {
        Ok(()) => Ok(()),
        Err(AllocError) => Err(MEMORY),
    }
}

impl<L: KeptLedger> WaitingRepository for MemoryBooks<L> {
    ghost use Rattle.std.specs.Prelude.{◌≡◌};

    ghost waits = { λ place seconds. place.wait ≡ seconds };

    fn wait_up_to(&mut self, seconds: u16) {
        self.wait = seconds;
    }
}

impl<L: KeptLedger> AuditedRepository for MemoryBooks<L> {
    fn audit<W: Watch>(&self, book: &str, _watch: &mut W) -> Opened<Audited> {
        let Some(books) = find(self.kept.as_slice(), book) else {
            return without_log(Err(RepositoryFault::Io));
        };
        match books.counted(self.alloc) {
            Some(counts) => without_log(Ok(Audited::Sound(counts))),
            None => without_log(Err(MEMORY)),
        }
    }

    fn back_up<W: Watch>(&mut self, book: &str, copy: &str, _watch: &mut W) -> Opened<Audited> {
        if let Some(_books) = find(self.kept.as_slice(), copy) {
            return without_log(Err(RepositoryFault::Exists));
        }
        let Some(books) = find(self.kept.as_slice(), book) else {
            return without_log(Err(RepositoryFault::Io));
        };
        let Some(counts) = books.counted(self.alloc) else {
            return without_log(Err(MEMORY));
        };
        let Some(copied) = books.copied(self.alloc) else {
            return without_log(Err(MEMORY));
        };
        match keep(&mut self.kept, self.alloc, copy, copied) {
            Ok(()) => without_log(Ok(Audited::Sound(counts))),
            Err(fault) => without_log(Err(fault)),
        }
    }
}
