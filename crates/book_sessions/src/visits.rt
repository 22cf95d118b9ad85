//! Books are visited while their files are open.

ghost use Rattle.std.specs.Prelude.{◌≡◌, false, true, IfErr, IfOk, MatchResult};
ghost use Rattle.sqlite_store.specs.FileStore.{view};
ghost use Rattle.sqlite_trees.specs.View.{IsClean};
ghost use Rattle.sqlite_wal.specs.Recovery.{Image};
ghost use Rattle.book_restarts.specs.FileBooks.{done_by, file_names};
ghost use Rattle.book_sessions.specs.Causes.{HasFaultCause};
ghost use Rattle.book_sessions.specs.Openings.{IsCarriedBy, IsOpening};
ghost use Rattle.book_sessions.specs.Sessions.{TriesToMoveLog};
ghost use Rattle.book_sessions.specs.Stops.{StopGoesOn, StopKeepsTrees};
ghost use Rattle.book_sessions.specs.Visits.{AreVisited};
ghost use Rattle.tree_tables.specs.Holds.{HasShapes, has_book};
ghost use Rattle.tree_tables.specs.States.{state};

use crate::ended::Ended;
use crate::faults::refused;
use book_core::ShaNames;
use book_trees::{OpenFault, close_books};
use named_books::{RepositoryFault, Visit};
use sqlite_disk::{Disk, Files};
use sqlite_store::FileStore;
use sqlite_trees::store::Store;
use std::alloc::Global;
use table_ledger::TableLedger;

/// Visits the books in a store. They name records by SHA-256. The store is given back: whatever a
/// stop may leave of it holds what the visit made of its book.
fn visit_in<S: Store, V: Visit>(
    alloc: Global,
    store: S,
    visit: &mut V,
) -> (Result<V::Answer, RepositoryFault>, S)
    requires { IsClean (S.Store.view store) → HasShapes (S.Store.view store) }
    ensures left { StopGoesOn (done_by (V.Visit.work file_names visit.old visit.new) result.0)
        (S.Store.view store) (state S.Store result.1) }

    // What is not visited stays as it was, also where no book can be read back from it.
    ensures same { IfErr result.0 (λ fault.
        StopKeepsTrees (S.Store.view store) (state S.Store result.1)) }
    ensures clean { IsClean (S.Store.view result.1) → IsClean (S.Store.view store) }
    ensures came { MatchResult result.0 (V.Visit.comes visit.old visit.new)
        (λ _. visit.new ≡ visit.old) }
    ensures there { IfOk result.0 (λ answer. IsClean (S.Store.view result.1)
        → has_book (S.Store.view store).trees ≡ true) }

    // That there are no books is told only where it is not.
    ensures refused { IfErr result.0 (λ fault. IsClean (S.Store.view result.1)
        → HasFaultCause (has_book (S.Store.view store).trees ≡ false) ⊥ fault) }
{
    match TableLedger::open(alloc, store, ShaNames) {
        Ok(mut books) => {
            let answer = visit.visit(&mut books);
            (Ok(answer), books.close_store())
        }
        Err((fault, store)) => (Err(RepositoryFault::Ledger(fault)), store),
    }
}

/// Visits the books in files, where they were opened, and closes them. Whatever the files held as
/// they were opened, what may be found of them next, and wherever a stop comes within this, holds the
/// books of the history before it, gone on with what the visit made.
pub fn visit<D: Disk, V: Visit>(
    alloc: Global,
    opened: Result<FileStore<D>, (OpenFault, Option<Files<D>>)>,
    visit: &mut V,
) -> (Result<V::Answer, RepositoryFault>, Ended<D>)
    requires { IfOk opened (λ store. HasShapes (view store)) }
    ensures visited { (found : Image) → IsOpening D.Disk found opened → AreVisited D.Disk
        (V.Visit.work file_names visit.old visit.new) found result.0 result.1 }
    ensures carried { IsCarriedBy D.Disk opened result.1 }
    ensures moves { TriesToMoveLog result.1 }
    ensures came { MatchResult result.0 (V.Visit.comes visit.old visit.new)
        (λ _. visit.new ≡ visit.old) }
{
    match opened {
        Ok(store) => {
            let (answer, store) = visit_in(alloc, store, visit);
            (answer, Ended::Closed(close_books(store)))
        }
        Err((fault, files)) => (Err(refused(fault)), Ended::Refused(files)),
    }
}
