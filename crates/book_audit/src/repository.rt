use crate::audited::Audited;
use crate::watch::Watch;
use named_books::{Opened, Repository};

/// Where books are kept by their names, and can be looked through and copied.
pub trait AuditedRepository: Repository {
    ghost use Rattle.named_books.specs.Shelves.{IsThere};
    ghost use Rattle.book_audit.specs.Copies.{IsAudited, IsCopied};

    /// Looks through the books of a name, and says what came of it. Nothing is written. That they
    /// are sound, or are not, is told only of a name that has something.
    fn audit<W: Watch>(&self, book: &str, watch: &mut W) -> Opened<Audited>
        ensures audited { IsAudited book.now (Self.shelf self.now) result.answer }
        ensures there { IsThere book.now (Self.shelf self.now) (Self.shelf self.now) result.answer }
        ensures log { (Self.shelf self.now).has_log book.now result.has_log };

    /// Copies the books of a name to another, which nothing has, and looks through the copy. The
    /// name is given to a copy that is sound, and to no other.
    fn back_up<W: Watch>(&mut self, book: &str, copy: &str, watch: &mut W) -> Opened<Audited>
        ensures copied { IsCopied book.now copy.now (Self.shelf self.old) (Self.shelf self.new)
            result.answer }
        ensures there { IsThere book.now (Self.shelf self.old) (Self.shelf self.new) result.answer }
        ensures log { (Self.shelf self.new).has_log book.now result.has_log };
}
