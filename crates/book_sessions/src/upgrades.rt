//! Books of older forms are brought to this one.

ghost use Rattle.std.specs.Prelude.{◌≡◌, false, IfErr, IfOk, OnOk};
ghost use Rattle.sqlite_store.specs.FileStore.{view};
ghost use Rattle.sqlite_trees.specs.View.{IsClean, KeepsSchema};
ghost use Rattle.sqlite_wal.specs.Reads.{AreClean};
ghost use Rattle.sqlite_wal.specs.Recovery.{Image};
ghost use Rattle.book_model.specs.Words.{Book};
ghost use Rattle.book_restarts.specs.FileBooks.{file_names};
ghost use Rattle.book_sessions.specs.Causes.{HasFaultCause};
ghost use Rattle.book_sessions.specs.Faults.{old_answer};
ghost use Rattle.book_sessions.specs.Openings.{IsCarriedBy, IsOldOpening};
ghost use Rattle.book_sessions.specs.Sessions.{TriesToMoveLog};
ghost use Rattle.book_sessions.specs.Stops.{CloseLeaves, CloseLeavesRows, CloseTriesToMoveLog};
ghost use Rattle.book_sessions.specs.Stops.{StopLeaves};
ghost use Rattle.book_sessions.specs.Upgrades.{AreUpgraded, HoldsUpgraded, LeavesUpgraded};
ghost use Rattle.book_sessions.specs.Upgrades.{MayBringOver, RestsBroughtOver, StandsAtOld};
ghost use Rattle.book_sessions.specs.Upgrades.{TellsThisForm, filled, upgrade_answer, written_in};
ghost use Rattle.book_trees.specs.OldForms.{HasOldTrees};
ghost use Rattle.tree_tables.specs.Holds.{has_book};
ghost use Rattle.tree_rows.specs.Calls.{IsSorted};
ghost use Rattle.tree_tables.specs.States.{Survives, state};
ghost use Rattle.tree_tables.specs.Steps.{Does};

use crate::ended::Ended;
use crate::faults::{fault_of, refused};
use book_core::LedgerFault;
use book_trees::{
    Closed, OldFault, OlderForm, add_tables, close_books, close_old, commit_form, old_form,
};
use named_books::{RepositoryFault, Upgraded};
use sqlite_disk::{Disk, Files};
use sqlite_store::FileStore;
use sqlite_trees::error::StoreError;
use sqlite_trees::store::{Alter, Store};
use std::alloc::Global;
use table_ledger::{fill_details, has_book_row};
use tree_tables::trees::{CLOSES, DETAILS, LINES, RECORDS};
use tree_tables::{THIS_FORM, mark_choices};

/// The details of books of the first form are written; the second has them.
fn fill_form<S: Store>(alloc: Global, store: &mut S, form: OlderForm) -> Result<(), StoreError>
    requires closes { IsSorted S.Store store.old CLOSES }
    requires lines { IsSorted S.Store store.old LINES }
    requires records { IsSorted S.Store store.old RECORDS }
    requires details { IsSorted S.Store store.old DETAILS }
    ensures does { Does result (state S.Store store.old) (state S.Store store.new)
        (λ tables. tables ≡ written_in form tables) (filled form) }
    ensures schema { KeepsSchema (S.Store.view store.old) (S.Store.view store.new) }
{
    match form {
        OlderForm::First => fill_details(alloc, store),
        OlderForm::Second => Ok(()),
    }
}

/// Adds to books of an older form what they have not, and commits it with what their file says of its
/// form: all of it at once, or nothing.
fn write_tables<S: Alter>(alloc: Global, store: &mut S) -> Result<(), StoreError>
    requires { IsClean (S.Store.view store.old) → HasOldTrees (S.Store.view store.old) }
    ensures survives { Survives (state S.Store store.old) (state S.Store store.new)
        (MayBringOver file_names (S.Store.view store.old)) }
    ensures done { OnOk result (IsClean (S.Store.view store.new)
        → RestsBroughtOver file_names (S.Store.view store.old) (S.Store.view store.new)) }
{
    let form = old_form(store);
    add_tables(store)?;
    mark_choices(alloc, store)?;
    fill_form(alloc, store, form)?;
    commit_form(store)
}

/// Brings the books of an older form in a store to this one. The store is given back: whatever a
/// stop may leave of it holds the same book, in the old form or in the new one.
fn upgrade_in<S: Alter>(alloc: Global, store: S) -> (Result<(), RepositoryFault>, S)
    requires { IsClean (S.Store.view store) → HasOldTrees (S.Store.view store) }
    ensures left { (book : Book) → StandsAtOld file_names book (S.Store.view store)
        → StopLeaves (state S.Store result.1) (LeavesUpgraded file_names book result.0) }
    ensures clean { IsClean (S.Store.view result.1) → IsClean (S.Store.view store) }
    ensures refused { IfErr result.0 (λ fault. IsClean (S.Store.view result.1)
        → HasFaultCause (has_book (S.Store.view store).trees ≡ false) ⊥ fault) }
{
    let mut store = store;
    let there = match has_book_row(alloc, &mut store) {
        Ok(there) => there,
        Err(error) => return (Err(fault_of(error)), store),
    };
    if there {
        match write_tables(alloc, &mut store) {
            Ok(()) => (Ok(()), store),
            Err(error) => (Err(fault_of(error)), store),
        }
    } else {
        (Err(RepositoryFault::Ledger(LedgerFault::NotBooks)), store)
    }
}

/// Brings the books in a file of an older form to this one, and closes it: whatever may be found
/// of it then, and wherever a stop comes within this, holds the same book, in one of the two.
fn upgrade_and_close<D: Disk>(
    alloc: Global,
    store: FileStore<D>,
) -> (Result<(), RepositoryFault>, Closed<D>)
    requires { IsClean (view store) → HasOldTrees (view store) }
    ensures left { (book : Book) → StandsAtOld file_names book (view store)
        → CloseLeaves D.Disk result.1 (HoldsUpgraded file_names book result.0) }
    ensures rows { (book : Book) → StandsAtOld file_names book (view store)
        → CloseLeavesRows D.Disk result.1 (LeavesUpgraded file_names book result.0) }
    ensures moves { CloseTriesToMoveLog result.1 }
    ensures clean { AreClean D.Disk result.1.files.log result.1.files.db → IsClean (view store) }
    ensures refused { IfErr result.0 (λ fault.
        AreClean D.Disk result.1.files.log result.1.files.db
        → HasFaultCause (has_book (view store).trees ≡ false) ⊥ fault) }
{
    let form = old_form(&store);
    let (upgraded, store) = upgrade_in(alloc, store);
    match upgraded {
        Ok(()) => (upgraded, close_books(store)),
        Err(_) => (upgraded, close_old(store, form)),
    }
}

/// What is answered where books were brought over, or were not.
fn told_upgraded(upgraded: Result<(), RepositoryFault>) -> Result<Upgraded, RepositoryFault>
    ensures { result ≡ upgrade_answer upgraded }
{
    match upgraded {
        Ok(()) => Ok(Upgraded::To(THIS_FORM)),
        Err(fault) => Err(fault),
    }
}

/// What it means that books of an older form were not opened.
fn not_upgraded(fault: OldFault) -> Result<Upgraded, RepositoryFault>
    ensures { result ≡ old_answer fault }
{
    match fault {
        OldFault::Already => Ok(Upgraded::Already),
        OldFault::Pages => Err(RepositoryFault::Ledger(LedgerFault::Store)),
        OldFault::Open(fault) => Err(refused(fault)),
    }
}

/// Brings the books in files of an older form to this one, where they were opened, in one commit, and
/// closes them. Whatever may be found of the files next, and wherever a stop comes within this, holds
/// the books of the history that they held: those of the old form, or those of the new one.
pub fn upgrade<D: Disk>(
    alloc: Global,
    opened: Result<FileStore<D>, (OldFault, Option<Files<D>>)>,
) -> (Result<Upgraded, RepositoryFault>, Ended<D>)
    requires { IfOk opened (λ store. IsClean (view store) → HasOldTrees (view store)) }
    ensures upgraded { (found : Image) → IsOldOpening D.Disk found opened
        → AreUpgraded D.Disk found result.0 result.1 }
    ensures carried { IsCarriedBy D.Disk opened result.1 }
    ensures moves { TriesToMoveLog result.1 }
    ensures told { IfOk result.0 TellsThisForm }
{
    match opened {
        Ok(store) => {
            let (upgraded, closed) = upgrade_and_close(alloc, store);
            (told_upgraded(upgraded), Ended::Closed(closed))
        }
        Err((fault, files)) => (not_upgraded(fault), Ended::Refused(files)),
    }
}
