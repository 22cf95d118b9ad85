//! For how long openings wait for books that another program is using.

use crate::repository::Repository;

/// Where books are kept by their names, and openings wait. Code that knows its place as a
/// `Repository`, and no more, cannot set for how long.
pub trait WaitingRepository: Repository {
    ghost use Rattle.std.specs.Prelude.{ℕ};
    ghost use Rattle.named_books.specs.Shelves.{IsSameShelf};

    /// An opening of books that another program is using asks for them again, for up to this many
    /// seconds, before it says so.
    ghost waits: { Self → ℕ → Type 0 };

    /// From now on an opening waits for up to this many seconds.
    fn wait_up_to(&mut self, seconds: u16)
        ensures set { waits self.new seconds }
        ensures same { IsSameShelf (Self.shelf self.old) (Self.shelf self.new) };
}
