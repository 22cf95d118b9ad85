//! New books are made.

ghost use Rattle.std.specs.Prelude.{◌≡◌, ◌⊎◌, IsTrue, IfOk, IfErr, IfSome, MatchOption};
ghost use Rattle.sqlite_store.specs.FileStore.{state, view, schema_of, IsReady};
ghost use Rattle.sqlite_wal.specs.Files.{image_at};
ghost use Rattle.sqlite_wal.specs.Reads.{AreClean};
ghost use Rattle.sqlite_wal.specs.Recovery.{Image};
ghost use Rattle.book_trees.specs.LedgerFiles.{image_of, page_size, HoldsBooks, trees_held};
ghost use Rattle.book_trees.specs.LedgerFiles.{AreEmptyTables, HoldsNothing};
ghost use Rattle.book_trees.specs.Refusals.{AreKept, IsAsFound, IsBegun, IsRefusedWithout};
ghost use Rattle.book_trees.specs.Refusals.{IsUnopened, MayLeave};
ghost use Rattle.book_trees.specs.Schema.{books_schema};
ghost use Rattle.book_trees.specs.StoreView.{IsOpen};
ghost use Rattle.tree_tables.specs.Holds.{HasShapes};

use crate::faults::{OpenFault, fault_at, fault_of};
use crate::unopened::unopened;
use sqlite_disk::{Disk, Files, Start};
use sqlite_pager::Options;
use sqlite_store::FileStore;
use std::alloc::Global;
use synced_disk::{BookFile, open};

/// Makes new books in two files that hold nothing, or gives them back. There are then contents
/// that a stop may leave which hold books with empty tables.
pub fn create_files<D: Disk>(
    alloc: Global,
    files: Files<D>,
    options: Options,
) -> Result<FileStore<D>, (OpenFault, Files<D>)>
    requires log { IsTrue (D.Disk.is_usable files.log) }
    requires db { IsTrue (D.Disk.is_usable files.db) }
    ensures opened { IfOk result IsOpen }
    ensures honest { IfOk result (λ store. IsTrue (state store).is_clean
        → AreClean D.Disk files.log files.db) }
    ensures started { IfOk result (λ store. IsTrue (state store).is_clean
        → ∥ HoldsNothing (image_of D.Disk files) ∥₁) }
    ensures empty { IfOk result (λ store. IsTrue (state store).is_clean
        → AreEmptyTables (view store).committed) }
    ensures left { IfOk result (λ store. IsTrue (state store).is_clean
        → ∥ ((image : Image) × (held : HoldsBooks image) × (state store).may_leave image
        × AreEmptyTables (trees_held held)) ∥₁) }

    // Wherever a stop comes, files that held nothing are as they were, or hold a part of nothing, or
    // all the tables, with no row.
    ensures begun { IfOk result (λ store. HoldsNothing (image_of D.Disk files) → (left : Image)
        → (state store).may_leave left → MayLeave D.Disk files left ⊎ IsBegun left) }
    ensures begun_refused { IfErr result (λ refusal. HoldsNothing (image_of D.Disk files)
        → (left : Image) → MayLeave D.Disk refusal.1 left
        → MayLeave D.Disk files left ⊎ IsBegun left) }

    // Of files that hold nothing it is not told that they hold something.
    ensures there { IfErr result (λ refusal. IsRefusedWithout D.Disk
        (HoldsNothing (image_of D.Disk files)) refusal.0 refusal.1) }
    ensures unharmed { IfErr result (λ refusal. AreClean D.Disk refusal.1.log refusal.1.db
        → (¬ HoldsNothing (image_of D.Disk files)) → AreKept D.Disk files refusal.1) }
{
    let files = match unopened(alloc, files, options) {
        Ok(files) => files,
        Err(files) => return Err((OpenFault::Memory, files)),
    };
    match files.create() {
        Ok(store) => Ok(store),
        Err((error, files)) => Err((fault_of(error), files.close())),
    }
}

/// Makes new books in two files at a path. `S` stands for what these hold before, which is nothing
/// if books are made. Files that are refused are given back.
pub fn create_at<S: Start>(
    rt: &HostRuntime,
    path: &str,
    seed: u64,
    start: S,
) -> Result<FileStore<BookFile<S>>, (OpenFault, Option<Files<BookFile<S>>>)>
    ensures ready { IfOk result IsReady }
    ensures schema { IfOk result (λ store. schema_of store ≡ books_schema) }
    ensures trees { IfOk result (λ store. HasShapes (view store)) }
    ensures size { IfOk result (λ store. IsTrue (state store).is_clean
        → (state store).page_size ≡ page_size) }
    ensures started { IfOk result (λ store. IsTrue (state store).is_clean
        → ∥ HoldsNothing (image_at S.Start) ∥₁) }
    ensures empty { IfOk result (λ store. IsTrue (state store).is_clean
        → AreEmptyTables (view store).committed) }
    ensures left { IfOk result (λ store. IsTrue (state store).is_clean
        → ∥ ((image : Image) × (held : HoldsBooks image) × (state store).may_leave image
        × AreEmptyTables (trees_held held)) ∥₁) }

    // Wherever a stop comes, files that held nothing hold a part of nothing, or all the tables.
    ensures begun { IfOk result (λ store. HoldsNothing (image_at S.Start) → (left : Image)
        → (state store).may_leave left → IsBegun left) }
    ensures begun_refused { IfErr result (λ refusal. HoldsNothing (image_at S.Start)
        → IfSome refusal.1 (λ files. (left : Image)
        → MayLeave ⟦<BookFile<S> as Disk>⟧ files left → IsBegun left)) }
    ensures there { IfErr result (λ refusal. MatchOption refusal.1 (IsUnopened refusal.0)
        (IsRefusedWithout ⟦<BookFile<S> as Disk>⟧ (HoldsNothing (image_at S.Start)) refusal.0)) }

    // What a stop leaves of files that held something is what they held, or stands for the same.
    ensures kept { IfErr result (λ refusal. (¬ HoldsNothing (image_at S.Start))
        → IfSome refusal.1 (λ files. (left : Image)
        → MayLeave ⟦<BookFile<S> as Disk>⟧ files left → IsAsFound (image_at S.Start) left)) }
{
    let files = match open(rt, path, start) {
        Ok(files) => files,
        Err(error) => return Err((fault_at(error), None)),
    };
    match create_files(rt.alloc(), files, Options::new(seed)) {
        Ok(store) => Ok(store),
        Err((fault, files)) => Err((fault, Some(files))),
    }
}
