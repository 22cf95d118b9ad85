//! Books by their names, as a program keeps them in files, and what is done with them while they
//! are open. No contract can say what a file holds; what is done to open books is what the calls of
//! a ledger promise.

use book_core::{Ledger, LedgerFault};

/// Something that is done with books while they are open, by calls of their ledger.
pub trait Visit {
    ghost use Rattle.book_model.specs.Words.{Naming};
    ghost use Rattle.book_core.specs.Transition.{Transition, IsTransition};
    ghost use Rattle.book_core.specs.Follow.{MakesAnswered};

    /// What comes of it.
    type Answer: Drop;

    /// What it does to the books, where this comes of it: the visit before and after it, and its
    /// answer.
    ghost work: { Naming → Self → Self → Self.Answer → Transition };

    /// What is so where this comes of it, whatever the books are.
    ghost comes: { Self → Self → Self.Answer → Type 0 };

    /// It is over soon, and looks at few pages: little memory is to be taken for them.
    fn is_brief(&self) -> bool {
        false
    }

    /// Does it. The books are closed afterwards.
    fn visit<L: Ledger>(&mut self, books: &mut L) -> Self::Answer
        ensures done { IsTransition (L.seen books.old) (L.seen books.new)
            (work (L.seen books.old).naming self.old self.new result) }
        ensures came { comes self.old self.new result };

    /// What it makes of any book, calls make of it.
    ghost answered: { (naming : Naming) (it after : Self) (answer : Self.Answer)
        → MakesAnswered naming (work naming it after answer) };
}

/// What came of an opening of books.
#[derive(Drop)]
pub struct Opened<T: Drop> {
    /// What was done with them, or why they were not opened.
    pub answer: Result<T, RepositoryFault>,
    /// A log beside their file holds a part of them, or one that was no use was put aside.
    pub has_log: bool,
}

/// Why there are no open books.
#[derive(Clone, Copy, PartialEq, Eq)]
pub enum RepositoryFault {
    /// The file failed, or is not there.
    Io,
    /// The file is there already.
    Exists,
    /// Another program has the file open.
    Busy,
    /// There was no memory, the store failed, or it holds no books.
    Ledger(LedgerFault),
    /// The books were open, and no memory was left to see that their closed files hold them.
    Unseen,
}

/// What came of books that were to be brought to the form that this program keeps.
#[derive(Clone, Copy)]
pub enum Upgraded {
    /// They are of the form of this number now.
    To(u32),
    /// They were so already.
    Already,
}

/// Where books are kept by their names.
pub trait Repository {
    ghost use Rattle.std.specs.Prelude.{◌≡◌, IfErr, IfOk, OnOk};
    ghost use Rattle.named_books.specs.Shelves.{Shelf, ComesBy, IsMade, IsOpened, IsThere, IsTried};
    ghost use Rattle.named_books.specs.Shelves.{IsUntouched};

    /// What is known of them.
    ghost shelf: { Self → Shelf };

    /// Succeeds only where there is something with that name. A fault comes where there is nothing,
    /// or where it is not seen whether there is.
    fn expect(&self, book: &str) -> Result<(), RepositoryFault>
        ensures found { OnOk result ((shelf self.now).is_free book.now → ⊥) }
        ensures refused { IfErr result ((shelf self.now).refuses book.now) };

    /// Makes new books under a name that is not there yet.
    fn make(&mut self, book: &str) -> Result<(), RepositoryFault>
        ensures { IsMade book.now (shelf self.old) (shelf self.new) result };

    /// Opens the books of a name, does something with them, and closes them. A fault may come
    /// before the books were open, or as they were closed.
    fn open<V: Visit>(&mut self, book: &str, visit: &mut V) -> Opened<V::Answer>
        ensures opened { IsOpened (V.Visit.work (shelf self.old).naming visit.old visit.new) book.now
            (shelf self.old) (shelf self.new) result.answer }
        ensures there { IsThere book.now (shelf self.old) (shelf self.new) result.answer }
        ensures log { (shelf self.new).has_log book.now result.has_log }
        ensures came { ComesBy (V.Visit.comes visit.old visit.new) (visit.new ≡ visit.old)
            result.answer };

    /// Does the same with a copy of the books, and lets the copy go: the books are as they were.
    fn try_out<V: Visit>(&mut self, book: &str, visit: &mut V) -> Opened<V::Answer>
        ensures tried { IsTried (V.Visit.work (shelf self.old).naming visit.old visit.new) book.now
            (shelf self.old) (shelf self.new) result.answer }
        ensures there { IsThere book.now (shelf self.old) (shelf self.new) result.answer }
        ensures log { (shelf self.new).has_log book.now result.has_log }
        ensures came { ComesBy (V.Visit.comes visit.old visit.new) (visit.new ≡ visit.old)
            result.answer };

    /// Brings the books of a name to the form that this program keeps: they hold the same history.
    /// That they were brought over, or had it before, is told only of a name that has something.
    fn upgrade(&mut self, book: &str) -> Opened<Upgraded>
        ensures same { IsUntouched book.now (shelf self.old) (shelf self.new) }
        ensures there { IsThere book.now (shelf self.old) (shelf self.new) result.answer }
        ensures told { IfOk result.answer ((shelf self.old).upgrades book.now) }
        ensures refused { IfErr result.answer ((shelf self.old).refuses book.now) }
        ensures log { (shelf self.new).has_log book.now result.has_log };
}
