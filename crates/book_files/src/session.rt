//! One session on the books in a file, by its path, which is only opened here: what is done to the open
//! files is done by `book_sessions`, which has no path. What each record says stands there.

ghost use Rattle.std.specs.Prelude.{◌≡◌, IfOk, IsOk, MatchResult};
ghost use Rattle.sqlite_wal.specs.Files.{image_at};
ghost use Rattle.book_sessions.specs.Audits.{AreAudited};
ghost use Rattle.book_sessions.specs.NewBooks.{AreContinued, AreMade};
ghost use Rattle.book_sessions.specs.Sessions.{AreOpened, KeepsLog, OpenOnly, TriesToMoveLog};
ghost use Rattle.book_sessions.specs.Upgrades.{AreUpgraded, TellsThisForm};
ghost use Rattle.book_sessions.specs.Visits.{AreVisited};
ghost use Rattle.book_restarts.specs.FileBooks.{file_names};
ghost use Rattle.book_trees.specs.LedgerFiles.{HoldsBooks, HoldsOldBooks, HoldsNothing};
ghost use Rattle.book_trees.specs.StoreView.{ListsBooks};

use crate::kept_pages::pages_for;
use book_audit::{Audited, Watch};
use book_sessions::Ended;
use book_trees::{CACHE_PAGES, LeftByLedger, create_at, look_through_at, open_at, open_old_at};
use named_books::{RepositoryFault, Upgraded, Visit};
use sqlite_disk::{Disk, Start};
use synced_disk::BookFile;

/// Opens the file at the path, visits its books, and closes it. `S` stands for what the files hold:
/// each call has one of its own. Whatever may be found of them next, and wherever a stop comes
/// within this, holds the books of the history before it, gone on with what the visit made.
pub fn visit_at<S: LeftByLedger, V: Visit>(
    rt: &HostRuntime,
    path: &str,
    seed: u64,
    start: S,
    visit: &mut V,
) -> (Result<V::Answer, RepositoryFault>, Ended<BookFile<S>>)
    ensures visited { AreVisited ⟦<BookFile<S> as Disk>⟧
        (V.Visit.work file_names visit.old visit.new) (image_at S.Start) result.0 result.1 }
    ensures moves { TriesToMoveLog result.1 }
    ensures only { OpenOnly ⟦<BookFile<S> as Disk>⟧ (ListsBooks (image_at S.Start)) result.1 }
    ensures came { MatchResult result.0 (V.Visit.comes visit.old visit.new)
        (λ _. visit.new ≡ visit.old) }
{
    let pages = pages_for(visit.is_brief());
    let opened = open_at(rt, path, seed, pages, start);
    book_sessions::visit(rt.alloc(), opened, visit)
}

/// Makes new books in the file at the path, which holds nothing, and closes it.
pub fn make_at<S: Start>(
    rt: &HostRuntime,
    path: &str,
    seed: u64,
    start: S,
) -> (Result<(), RepositoryFault>, Ended<BookFile<S>>)
    ensures made { AreMade ⟦<BookFile<S> as Disk>⟧ (image_at S.Start) result.0 result.1 }
    ensures in_hand { IsOk result.0 → AreOpened result.1 }
    ensures moves { TriesToMoveLog result.1 }
    ensures only { OpenOnly ⟦<BookFile<S> as Disk>⟧ (HoldsNothing (image_at S.Start)) result.1 }
{
    let opened = create_at(rt, path, seed, start);
    book_sessions::make(rt.alloc(), opened)
}

/// Continues the books in the file at the path, where a stop left them while they were made, and
/// closes it. That all went well is answered of new books alone.
pub fn resume_at<S: LeftByLedger>(
    rt: &HostRuntime,
    path: &str,
    seed: u64,
    start: S,
) -> (Result<(), RepositoryFault>, Ended<BookFile<S>>)
    ensures continued { AreContinued ⟦<BookFile<S> as Disk>⟧ (image_at S.Start) result.0 result.1 }
    ensures in_hand { IsOk result.0 → AreOpened result.1 }
    ensures moves { TriesToMoveLog result.1 }
    ensures only { OpenOnly ⟦<BookFile<S> as Disk>⟧ (ListsBooks (image_at S.Start)) result.1 }
{
    let opened = open_at(rt, path, seed, CACHE_PAGES, start);
    book_sessions::resume(rt.alloc(), opened)
}

/// Looks through the file at the path, whatever it holds, audits the books in it, and closes it.
pub fn audit_at<S: Start, W: Watch>(
    rt: &HostRuntime,
    path: &str,
    seed: u64,
    start: S,
    watch: &mut W,
) -> (Result<Audited, RepositoryFault>, Ended<BookFile<S>>)
    ensures audited { AreAudited ⟦<BookFile<S> as Disk>⟧ (image_at S.Start) result.0 result.1 }
    ensures log { KeepsLog result.1 }
    ensures only { OpenOnly ⟦<BookFile<S> as Disk>⟧ (HoldsBooks (image_at S.Start)) result.1 }
{
    let opened = look_through_at(rt, path, seed, start);
    book_sessions::audit(rt.alloc(), opened, watch)
}

/// Brings the books in the file at the path to this form, in one commit, and closes it.
pub fn upgrade_at<S: Start>(
    rt: &HostRuntime,
    path: &str,
    seed: u64,
    start: S,
) -> (Result<Upgraded, RepositoryFault>, Ended<BookFile<S>>)
    ensures upgraded { AreUpgraded ⟦<BookFile<S> as Disk>⟧ (image_at S.Start) result.0 result.1 }
    ensures moves { TriesToMoveLog result.1 }
    ensures only { OpenOnly ⟦<BookFile<S> as Disk>⟧ (HoldsOldBooks (image_at S.Start))
        result.1 }
    ensures told { IfOk result.0 TellsThisForm }
{
    let opened = open_old_at(rt, path, seed, start);
    book_sessions::upgrade(rt.alloc(), opened)
}
