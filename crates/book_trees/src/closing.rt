//! The log of books is moved into their file, as is done before they are closed.

ghost use Rattle.std.specs.Prelude.{◌≡◌, ◌≢◌, ◌≤◌, ◌<◌, ◌↔◌, ℕ, List, length};
ghost use Rattle.std.specs.Prelude.{IfOk, IsOk, IsTrue, None, OnOk, map};
ghost use Rattle.sqlite_store.specs.Catalog.{wanted_of};
ghost use Rattle.sqlite_store.specs.FileStore.{files as files_of, log_frames};
ghost use Rattle.sqlite_store.specs.FileStore.{recovers, schema_of, state, view};
ghost use Rattle.sqlite_trees.specs.Tree.{Trees};
ghost use Rattle.sqlite_trees.specs.View.{doubt};
ghost use Rattle.sqlite_wal.specs.Reads.{AreClean, IsClean as IsCleanFile};
ghost use Rattle.sqlite_wal.specs.Recovery.{Image};
ghost use Rattle.book_trees.specs.Closing.{HasSchema, LeavesLog, LeavesRows, MayBeFound};
ghost use Rattle.book_trees.specs.LedgerFiles.{page_size, shortest_log, HoldsAlone, HoldsBooks};
ghost use Rattle.book_trees.specs.LedgerFiles.{HoldsOldBooks, HoldsTables, old_trees};
ghost use Rattle.book_trees.specs.LedgerFiles.{trees_held};
ghost use Rattle.book_trees.specs.Schema.{books_schema};

use crate::schema::{OlderForm, books_objects, old_objects, with_old_columns};
use crate::unopened::size_of_a_page;
use sqlite_disk::{Disk, Files};
use sqlite_store::FileStore;
use sqlite_trees::error::StoreError;
use sqlite_trees::schema::Object;
use sqlite_trees::store::Store;
use std::alloc::AllocError;

/// Rolls back what was not committed, and moves what the log holds into the file. What was
/// committed is in one of the two all the while: however this ends, and wherever a stop comes
/// within it, no trees can be found but those that might have been found before.
pub fn checkpoint_log<D: Disk>(store: &mut FileStore<D>) -> Result<(), StoreError>
    ensures moved { OnOk result (IsTrue (view store.old).is_open → log_frames store.new ≡ 0) }
    ensures outcomes { (trees : Trees) → recovers store.new trees → recovers store.old trees }
    ensures clean { doubt (view store.old).is_clean ≤ doubt (view store.new).is_clean }
{
    store.rollback();
    store.checkpoint()
}

/// What a close leaves of the log.
#[derive(Clone, Copy)]
pub enum LogLeft {
    /// It is too short to hold anything, and may be deleted: the file alone holds the books.
    Short,
    /// None of its pages is left in it, and yet it is not seen to be short.
    Emptied,
    /// It may hold pages, which this kept from being moved into the file.
    Kept(StoreError),
    /// It may hold pages, which were not to be moved.
    Unmoved,
}

/// The files of books that were closed.
#[derive(Drop)]
pub struct Closed<D: Disk> {
    pub files: Files<D>,
    /// They were found to hold books. To find out takes memory.
    pub is_kept: bool,
    pub log: LogLeft,
}

/// Whether a log is too short to hold anything. It is not seen to be so where its length can't be
/// read.
pub fn is_short<D: Disk>(log: &mut D) -> bool
    ensures short { IsTrue result → IsCleanFile D.Disk log.new
        → length (D.Disk.seen log.new) < shortest_log }
    ensures clean { IsCleanFile D.Disk log.new → IsCleanFile D.Disk log.old }
    ensures crash { (c : List ℕ) → D.Disk.may_leave log.new c → D.Disk.may_leave log.old c }
{
    if !log.may_be_used() {
        return false;
    }
    match log.len() {
        Ok(len) => needs_no_log(len as u64),
        Err(_error) => false,
    }
}

/// Closes books, whatever was going on in them, and brings what their log holds into the file. A
/// fault here loses nothing: what is then left of the log belongs to the books. Until the files are
/// dropped nobody else has them. Whatever may be found of them then, also where the log is deleted
/// because it is short, and wherever a stop comes within this, holds tables that an open might have
/// found before.
pub fn close_books<D: Disk>(store: FileStore<D>) -> Closed<D>
    ensures honest { AreClean D.Disk result.files.log result.files.db
        → IsTrue (state store).is_clean }
    ensures left { IsTrue result.is_kept → (image : Image) → MayBeFound D.Disk result.files image
        → ∥ ((held : HoldsBooks image) × recovers store (trees_held held)) ∥₁ }
    // So it is with their rows, also where no memory was left to see which tables the files have.
    ensures rows { LeavesRows D.Disk store result.files }
    // A log that is not short holds no page, or its pages could not be moved.
    ensures log { LeavesLog D.Disk store result.files result.log }
{
    close_moved(store, &books_objects())
}

/// The same of books of an older form.
pub fn close_old<D: Disk>(store: FileStore<D>, form: OlderForm) -> Closed<D>
    ensures honest { AreClean D.Disk result.files.log result.files.db
        → IsTrue (state store).is_clean }
    ensures left { IsTrue result.is_kept → (image : Image) → MayBeFound D.Disk result.files image
        → ∥ ((held : HoldsOldBooks image) × recovers store (old_trees held)) ∥₁ }
    ensures rows { LeavesRows D.Disk store result.files }
    ensures log { LeavesLog D.Disk store result.files result.log }
{
    close_moved(store, old_objects(&with_old_columns(), form))
}

/// The same of a store of these tables and indexes.
fn close_moved<D: Disk>(store: FileStore<D>, objects: &[Object<'_>]) -> Closed<D>
    ensures honest { AreClean D.Disk result.files.log result.files.db
        → IsTrue (state store).is_clean }
    ensures left { IsTrue result.is_kept → (image : Image) → MayBeFound D.Disk result.files image
        → ∥ ((held : HoldsTables (map wanted_of objects.now) image)
        × recovers store (trees_held held)) ∥₁ }
    ensures rows { LeavesRows D.Disk store result.files }
    ensures log { LeavesLog D.Disk store result.files result.log }
{
    let mut store = store;
    let moved = checkpoint_log(&mut store);
    let mut closed = close_over(store, objects);
    closed.log = log_left(&mut closed.files.log, moved);
    closed
}

/// Whether a store is seen to be one of these tables and indexes. To see it takes memory.
fn is_seen<D: Disk>(store: &FileStore<D>, objects: &[Object<'_>]) -> bool
    ensures { IsTrue result → HasSchema (map wanted_of objects.now) store.now }
{
    match store.is_over(size_of_a_page(), objects) {
        Ok(is_over) => is_over,
        Err(_refused) => false,
    }
}

/// Whether the store is one of books: with the pages and the list of tables of books, neither of
/// which was changed in its transaction.
pub fn keeps_books<D: Disk>(store: &FileStore<D>) -> Result<bool, AllocError>
    ensures { IfOk result (λ keeps. IsTrue keeps ↔ (((state store.now).page_size ≡ page_size)
        × (schema_of store.now ≡ books_schema) × (store.now.saved ≡ None))) }
{
    store.is_over(size_of_a_page(), &books_objects())
}

/// Closes books to which nothing is to be written: what their log holds is left there. Whatever may
/// be found of the files then holds tables that an open might have found before.
pub fn close_unchanged<D: Disk>(store: FileStore<D>) -> Closed<D>
    ensures files { (result.files.log, result.files.db) ≡ files_of store }
    ensures log { result.log ≡ LogLeft.Unmoved }
    ensures honest { AreClean D.Disk result.files.log result.files.db
        → IsTrue (state store).is_clean }
    ensures left { IsTrue result.is_kept → (image : Image) → MayBeFound D.Disk result.files image
        → ∥ ((held : HoldsBooks image) × recovers store (trees_held held)) ∥₁ }
    ensures rows { LeavesRows D.Disk store result.files }
{
    close_over(store, &books_objects())
}

/// The same of a store of these tables and indexes.
fn close_over<D: Disk>(store: FileStore<D>, objects: &[Object<'_>]) -> Closed<D>
    ensures files { (result.files.log, result.files.db) ≡ files_of store }
    ensures log { result.log ≡ LogLeft.Unmoved }
    ensures kept { IsTrue result.is_kept → HasSchema (map wanted_of objects.now) store }
    ensures honest { AreClean D.Disk result.files.log result.files.db
        → IsTrue (state store).is_clean }
    ensures left { IsTrue result.is_kept → (image : Image) → MayBeFound D.Disk result.files image
        → ∥ ((held : HoldsTables (map wanted_of objects.now) image)
        × recovers store (trees_held held)) ∥₁ }
    ensures rows { LeavesRows D.Disk store result.files }
{
    let is_kept = is_seen(&store, objects);
    let files = store.close();
    Closed {
        files,
        is_kept,
        log: LogLeft::Unmoved,
    }
}

/// What is left of a log, whose pages were moved or not.
fn log_left<D: Disk>(log: &mut D, moved: Result<(), StoreError>) -> LogLeft
    ensures short { result ≡ LogLeft.Short → IsCleanFile D.Disk log.new
        → length (D.Disk.seen log.new) < shortest_log }
    ensures emptied { result ≡ LogLeft.Emptied → IsOk moved }
    ensures kept { (error : StoreError) → result ≡ LogLeft.Kept error → moved ≡ Err error }
    ensures tried { result ≢ LogLeft.Unmoved }
    ensures clean { IsCleanFile D.Disk log.new → IsCleanFile D.Disk log.old }
    ensures crash { (c : List ℕ) → D.Disk.may_leave log.new c → D.Disk.may_leave log.old c }
{
    match moved {
        Err(error) => LogLeft::Kept(error),
        Ok(()) if is_short(log) => LogLeft::Short,
        Ok(()) => LogLeft::Emptied,
    }
}

/// The length of a log's header and of a page's, in bytes. An open passes over a log that is
/// shorter.
const SHORTEST_LOG: u64 = 56;

/// Whether a log of so many bytes may be deleted: books with so short a log are held by their file
/// alone, with the same tables.
pub fn needs_no_log(len: u64) -> bool
    ensures short { IsTrue result ↔ (len < shortest_log) }
    ensures alone { IsTrue result → (image : Image) → length image.log ≡ len → HoldsAlone image }
{
    len < SHORTEST_LOG
}
