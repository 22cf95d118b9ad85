//! Files of books are looked through, whatever they hold.

ghost use Rattle.std.specs.Prelude.{◌≡◌, IfErr, IfOk, IfSome, IsTrue, MatchOption};
ghost use Rattle.sqlite_store.specs.FileStore.{state, view, schema_of, IsReady};
ghost use Rattle.sqlite_store.specs.Unopened.{image, state_of, wanted_by, AreUsable, Opens};
ghost use Rattle.sqlite_wal.specs.Files.{image_at};
ghost use Rattle.sqlite_wal.specs.Reads.{AreClean};
ghost use Rattle.sqlite_wal.specs.Recovery.{Image};
ghost use Rattle.book_trees.specs.Forms.{HoldNoNewer, HoldsThisForm};
ghost use Rattle.book_trees.specs.LedgerFiles.{image_of, page_size, HoldsBooks, trees_held};
ghost use Rattle.book_trees.specs.Looks.{look_fault_for, look_opening, IsToldLook, IsUnopenedLook};
ghost use Rattle.book_trees.specs.Refusals.{AreKept, IsAsFound, IsRefusedWithout, IsToldWithout};
ghost use Rattle.book_trees.specs.Refusals.{MayLeave};
ghost use Rattle.book_trees.specs.Schema.{books_schema};
ghost use Rattle.book_trees.specs.StoreView.{IsOpen, ListsBooks};
ghost use Rattle.tree_tables.specs.Holds.{HasShapes};

use crate::catalog::{lists_books, unlisted_fault};
use crate::faults::{OpenFault, fault_at, fault_of};
use crate::forms::{says_newer, told};
use crate::unopened::unopened;
use sqlite_disk::{Disk, Files, Start};
use sqlite_pager::Options;
use sqlite_store::{FileStore, OpenError, Unopened};
use std::alloc::Global;
use synced_disk::{BookFile, open};

/// How many rows the list of tables and indexes may have where all pages are looked through. The store
/// compares each name there with all before it, and somebody may have added any number of views.
const MOST_LISTED: usize = 1_000;

/// Why files were not looked through, or what was found.
#[derive(Clone, Copy, Drop)]
pub enum LookFault {
    /// They list the tables of books, but their pages are not those of such a file.
    Pages,
    /// They were not opened.
    Open(OpenFault),
}

/// What an error of the store stands for, while the pages are looked through.
fn look_fault(error: OpenError) -> LookFault
    ensures { result ≡ look_fault_for error }
{
    match error {
        OpenError::Refused => LookFault::Pages,
        OpenError::OutOfMemory => LookFault::Open(OpenFault::Memory),
        OpenError::Io | OpenError::Full => LookFault::Open(OpenFault::Store),
    }
}

/// Looks through all pages of files of which nothing is known: the header, the free list, and each
/// tree.
fn look_through_all<D: Disk>(files: Unopened<D>) -> Result<FileStore<D>, (LookFault, Unopened<D>)>
    requires usable { AreUsable files }
    requires schema { wanted_by files ≡ books_schema }
    requires size { (state_of files).page_size ≡ page_size }
    ensures opened { IfOk result IsOpen }
    ensures honest { IfOk result (λ store. IsTrue (state store).is_clean
        → IsTrue (state_of files).is_clean) }
    ensures found { IfOk result (λ store. IsTrue (state store).is_clean
        → (held : HoldsBooks (image files)) → (view store).trees ≡ trees_held held) }
    ensures held { IfOk result (λ store. IsTrue (state store).is_clean
        → ∥ HoldsBooks (image files) ∥₁) }
    ensures kept { IfOk result (λ store. IsTrue (state store).is_clean → Opens files (state store)) }
    ensures there { IfErr result (λ refusal. IsTrue (state_of refusal.1).is_clean
        → IsToldWithout (HoldsBooks (image files)) (look_opening refusal.0)) }
    ensures listed { IfErr result (λ refusal. refusal.0 ≡ LookFault.Pages
        → IsTrue (state_of refusal.1).is_clean → ListsBooks (image files)) }
    ensures unharmed { IfErr result (λ refusal. IsTrue (state_of refusal.1).is_clean
        → Opens files (state_of refusal.1)) }
{
    let mut files = files;
    let listed = match files.read_catalog() {
        Ok(listed) => listed,
        Err(error) => return Err((LookFault::Open(fault_of(error)), files)),
    };
    if !lists_books(listed.as_slice()) {
        return Err((LookFault::Open(unlisted_fault(listed.as_slice())), files));
    }
    if listed.len() > MOST_LISTED {
        return Err((LookFault::Open(OpenFault::Store), files));
    }
    match files.open() {
        Ok(store) => Ok(store),
        Err((error, files)) => Err((look_fault(error), files)),
    }
}

/// Opens two files, and looks through all of their pages. If there is no store they are given back.
pub fn look_through<D: Disk>(
    alloc: Global,
    files: Files<D>,
    options: Options,
) -> Result<FileStore<D>, (LookFault, Files<D>)>
    requires log { IsTrue (D.Disk.is_usable files.log) }
    requires db { IsTrue (D.Disk.is_usable files.db) }
    ensures opened { IfOk result IsOpen }
    ensures honest { IfOk result (λ store. IsTrue (state store).is_clean
        → AreClean D.Disk files.log files.db) }
    ensures found { IfOk result (λ store. IsTrue (state store).is_clean
        → (held : HoldsBooks (image_of D.Disk files)) → (view store).trees ≡ trees_held held) }
    ensures held { IfOk result (λ store. IsTrue (state store).is_clean
        → ∥ HoldsBooks (image_of D.Disk files) ∥₁) }
    ensures form { IfOk result (λ store. IsTrue (state store).is_clean
        → HoldNoNewer books_schema (image_of D.Disk files)) }

    // Of files that hold books of this form nothing else is told.
    ensures there { IfErr result (λ refusal. IsRefusedWithout D.Disk
        (HoldsThisForm (image_of D.Disk files)) (look_opening refusal.0) refusal.1) }

    // Their pages are called wrong only of files that list the tables of books.
    ensures listed { IfErr result (λ refusal. refusal.0 ≡ LookFault.Pages
        → AreClean D.Disk refusal.1.log refusal.1.db → ListsBooks (image_of D.Disk files)) }

    // Nor are they called wrong of files that hold books, whatever form these say that they have.
    ensures wrong { IfErr result (λ refusal. refusal.0 ≡ LookFault.Pages
        → AreClean D.Disk refusal.1.log refusal.1.db → ¬ HoldsBooks (image_of D.Disk files)) }
    ensures unharmed { IfErr result (λ refusal. AreClean D.Disk refusal.1.log refusal.1.db
        → AreKept D.Disk files refusal.1) }
{
    let files = match unopened(alloc, files, options) {
        Ok(files) => files,
        Err(files) => return Err((LookFault::Open(OpenFault::Memory), files)),
    };
    let store = match look_through_all(files) {
        Ok(store) => store,
        Err((fault, files)) => return Err(told_look(fault, files.close())),
    };
    if says_newer(&store) {
        return Err((LookFault::Open(OpenFault::NewForm), store.close()));
    }
    Ok(store)
}

/// Why files were not looked through, as they say themselves.
fn told_look<D: Disk>(fault: LookFault, files: Files<D>) -> (LookFault, Files<D>)
    ensures told { IsToldLook fault files result.0 result.1 }
    ensures clean { AreClean D.Disk result.1.log result.1.db → AreClean D.Disk files.log files.db }
    ensures crash { (left : Image) → MayLeave D.Disk result.1 left → MayLeave D.Disk files left }
{
    match fault {
        LookFault::Pages => (LookFault::Pages, files),
        LookFault::Open(fault) => {
            let (fault, files) = told(fault, files);
            (LookFault::Open(fault), files)
        }
    }
}

/// The same for the file at a path, where `S` stands for what the files hold: whatever that is.
pub fn look_through_at<S: Start>(
    rt: &HostRuntime,
    path: &str,
    seed: u64,
    start: S,
) -> Result<FileStore<BookFile<S>>, (LookFault, Option<Files<BookFile<S>>>)>
    ensures ready { IfOk result IsReady }
    ensures schema { IfOk result (λ store. schema_of store ≡ books_schema) }
    ensures trees { IfOk result (λ store. HasShapes (view store)) }
    ensures found { IfOk result (λ store. IsTrue (state store).is_clean
        → (held : HoldsBooks (image_at S.Start)) → (view store).trees ≡ trees_held held) }
    ensures held { IfOk result (λ store. IsTrue (state store).is_clean
        → ∥ HoldsBooks (image_at S.Start) ∥₁) }
    ensures form { IfOk result (λ store. IsTrue (state store).is_clean
        → HoldNoNewer books_schema (image_at S.Start)) }

    // What a stop leaves of files that were not looked through is what they held, or stands for the
    // same.
    ensures there { IfErr result (λ refusal. MatchOption refusal.1 (IsUnopenedLook refusal.0)
        (IsRefusedWithout ⟦<BookFile<S> as Disk>⟧ (HoldsThisForm (image_at S.Start))
        (look_opening refusal.0))) }
    ensures listed { IfErr result (λ refusal. refusal.0 ≡ LookFault.Pages
        → IfSome refusal.1 (λ files. AreClean ⟦<BookFile<S> as Disk>⟧ files.log files.db
        → ListsBooks (image_at S.Start))) }
    ensures wrong { IfErr result (λ refusal. refusal.0 ≡ LookFault.Pages
        → IfSome refusal.1 (λ files. AreClean ⟦<BookFile<S> as Disk>⟧ files.log files.db
        → ¬ HoldsBooks (image_at S.Start))) }
    ensures kept { IfErr result (λ refusal. IfSome refusal.1 (λ files. (left : Image)
        → MayLeave ⟦<BookFile<S> as Disk>⟧ files left → IsAsFound (image_at S.Start) left)) }
{
    let files = match open(rt, path, start) {
        Ok(files) => files,
        Err(error) => return Err((LookFault::Open(fault_at(error)), None)),
    };
    match look_through(rt.alloc(), files, Options::new(seed)) {
        Ok(store) => Ok(store),
        Err((fault, files)) => Err((fault, Some(files))),
    }
}
