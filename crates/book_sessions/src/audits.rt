//! Books are audited in files that were looked through.

ghost use Rattle.std.specs.Prelude.{◌≡◌, IfOk};
ghost use Rattle.sqlite_store.specs.FileStore.{view};
ghost use Rattle.sqlite_trees.specs.View.{IsClean};
ghost use Rattle.sqlite_wal.specs.Recovery.{Image};
ghost use Rattle.book_audit.specs.OfBook.{AreOfBook};
ghost use Rattle.book_audit.specs.declared.audited.Counts.{Counts};
ghost use Rattle.book_restarts.specs.FileBooks.{file_names};
ghost use Rattle.book_sessions.specs.Audits.{AreAudited};
ghost use Rattle.book_sessions.specs.Faults.{look_answer};
ghost use Rattle.book_sessions.specs.Openings.{IsCarriedBy, IsLooking};
ghost use Rattle.book_sessions.specs.Sessions.{KeepsLog};
ghost use Rattle.book_sessions.specs.Stops.{StopKeepsTrees};
ghost use Rattle.tree_tables.specs.Holds.{HasShapes};
ghost use Rattle.tree_tables.specs.States.{state};

use crate::ended::Ended;
use crate::faults::refused;
use book_audit::{Audited, Finding, Place, Watch, Wrong, audit_trees};
use book_trees::{LookFault, close_unchanged};
use named_books::RepositoryFault;
use sqlite_disk::{Disk, Files};
use sqlite_store::FileStore;
use sqlite_trees::store::Alter;
use std::alloc::Global;

/// Audits the books in a store, which is given back. Nothing is written to them.
fn audit_in<S: Alter, W: Watch>(
    alloc: Global,
    store: S,
    watch: &mut W,
) -> (Result<Audited, RepositoryFault>, S)
    requires { IsClean (S.Store.view store) → HasShapes (S.Store.view store) }
    ensures same { StopKeepsTrees (S.Store.view store) (state S.Store result.1) }
    ensures book { IfOk result.0 (λ audited. (counts : Counts) → audited ≡ Audited.Sound counts
        → IsClean (S.Store.view result.1)
        → AreOfBook file_names (S.Store.view store).trees counts) }
    ensures clean { IsClean (S.Store.view result.1) → IsClean (S.Store.view store) }
{
    let (audited, store) = audit_trees(alloc, store, watch);
    (audited.map_err(RepositoryFault::Ledger), store)
}

/// What is answered where a file was not audited.
pub fn not_looked_through(fault: LookFault) -> Result<Audited, RepositoryFault>
    ensures { result ≡ look_answer fault }
{
    match fault {
        LookFault::Pages => Ok(Audited::Unsound(Finding {
            place: Place::File,
            wrong: Wrong::Pages,
        })),
        LookFault::Open(fault) => Err(refused(fault)),
    }
}

/// Audits the books in files, where these were looked through, and closes them. Nothing is written,
/// and what their log holds is left there: whatever may be found of the files next, and wherever a
/// stop comes within this, holds the trees as they were, whatever these hold.
pub fn audit<D: Disk, W: Watch>(
    alloc: Global,
    opened: Result<FileStore<D>, (LookFault, Option<Files<D>>)>,
    watch: &mut W,
) -> (Result<Audited, RepositoryFault>, Ended<D>)
    requires { IfOk opened (λ store. HasShapes (view store)) }
    ensures audited { (found : Image) → IsLooking D.Disk found opened
        → AreAudited D.Disk found result.0 result.1 }
    ensures carried { IsCarriedBy D.Disk opened result.1 }
    ensures log { KeepsLog result.1 }
{
    match opened {
        Ok(store) => {
            let (audited, store) = audit_in(alloc, store, watch);
            (audited, Ended::Closed(close_unchanged(store)))
        }
        Err((fault, files)) => (not_looked_through(fault), Ended::Refused(files)),
    }
}
