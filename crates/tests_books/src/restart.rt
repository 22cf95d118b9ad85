//! Stores whose files outlive them, on disks that can be made to fail.

ghost use Rattle.std.specs.Prelude.{IfOk};
ghost use Rattle.sqlite_store.specs.FileStore.{view};
ghost use Rattle.sqlite_trees.specs.View.{IsClean};
ghost use Rattle.tree_tables.specs.Holds.{HasShapes};

use book_trees::{OpenFault, checkpoint_log, create_files, keeps_books, look_through};
use sqlite_disk::{Crash, Files};
use sqlite_pager::Options;
use sqlite_store::FileStore;
use sqlite_trees::store::Reopen;
use std::alloc::Global;

/// A store whose files are found again after a crash. What uses only this trait is proved without
/// looking at what the store is made of.
pub(crate) trait Restart: Reopen + Drop {
    /// Its files.
    type Disks: Drop;

    /// New trees of books, in files that hold nothing, or that a stop left while such trees were made
    /// in them. Where the disk fails, the files as they are found after a crash.
    fn made(alloc: Global, files: Self::Disks) -> Result<Self, Self::Disks>
        ensures shaped { IfOk result (λ store. IsClean (Self.Store.view store)
            → HasShapes (Self.Store.view store)) };

    /// The store, after the end of the work on it: what its log holds is in its files, unless the
    /// disk stopped meanwhile, which is answered too.
    fn checkpoint_log(self) -> (Self, bool);

    /// What is found when the machine is back. Where the disk stops once more, or holds no trees of
    /// books, the store is given back.
    fn back(self) -> Result<Self, Self>
        ensures shaped { IfOk result (λ store. IsClean (Self.Store.view store)
            → HasShapes (Self.Store.view store)) };
}

/// The files as they are found when the machine is back.
fn crashed<D: Crash + Drop>(files: Files<D>) -> Files<D> {
    let mut files = files;
    files.log.crash();
    files.db.crash();
    files
}

/// Moves the log into the database file after a few pages, so that runs are stopped there too.
fn options() -> Options {
    Options {
        checkpoint_frames: 8,
        ..Options::new(7)
    }
}

/// The trees in files that hold something: those that a stop left while they were made. The program
/// trusts what its own file of that name holds; here all pages are looked through.
fn continued<D: Crash + Drop>(alloc: Global, files: Files<D>) -> Result<FileStore<D>, Files<D>>
    ensures shaped { IfOk result (λ store. IsClean (view store) → HasShapes (view store)) }
{
    if !files.may_be_used() {
        return Err(crashed(files));
    }
    match look_through(alloc, files, options()) {
        Ok(store) => Ok(store),
        Err((_fault, left)) => Err(crashed(left)),
    }
}

impl<D: Crash + Drop> Restart for FileStore<D> {
    type Disks = Files<D>;

    fn made(alloc: Global, files: Files<D>) -> Result<FileStore<D>, Files<D>> {
        if !files.may_be_used() {
            return Err(crashed(files));
        }
        match create_files(alloc, files, options()) {
            Ok(store) => Ok(store),
            Err((OpenFault::NotBooks, begun)) => continued(alloc, begun),
            Err((_fault, left)) => Err(crashed(left)),
        }
    }

    fn checkpoint_log(self) -> (FileStore<D>, bool) {
        let mut store = self;
        let is_shut = checkpoint_log(&mut store).is_ok();
        (store, is_shut)
    }

    fn back(self) -> Result<FileStore<D>, FileStore<D>> {
        let mut store = self;
        if store.crash_and_reopen().is_err() {
            return Err(store);
        }
        match keeps_books(&store) {
            Ok(true) => Ok(store),
            _ => Err(store),
        }
    }
}
