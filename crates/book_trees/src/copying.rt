//! The two files of books are copied, byte for byte, while nobody else has them.

ghost use Rattle.std.specs.Prelude.{◌≡◌, ◌<◌, ◌≤◌, length, IfErr, IfOk, IsTrue, MatchOption, OnOk};
ghost use Rattle.std.specs.IoError.{error_kind};
ghost use Rattle.sqlite_store.specs.FileStore.{state, view, schema_of, IsReady};
ghost use Rattle.sqlite_wal.specs.Files.{image_at};
ghost use Rattle.sqlite_wal.specs.Reads.{AreClean};
ghost use Rattle.sqlite_wal.specs.Recovery.{Image};
ghost use Rattle.book_trees.specs.Copies.{copy_fault_for, AreCopiesOf, AreOnlyRead, BeginsAs};
ghost use Rattle.book_trees.specs.Copies.{IsCopyOf, IsCopyRefusedWithout, IsOnlyRead};
ghost use Rattle.book_trees.specs.Forms.{HoldNoNewer};
ghost use Rattle.book_trees.specs.LedgerFiles.{image_of, page_size, HoldsBooks, trees_held};
ghost use Rattle.book_trees.specs.Looks.{IsUnopenedLook};
ghost use Rattle.book_trees.specs.Refusals.{IsUnopened, MayLeave};
ghost use Rattle.book_trees.specs.Schema.{books_schema};
ghost use Rattle.tree_tables.specs.Holds.{HasShapes};

use crate::faults::{OpenFault, fault_at};
use crate::integrity::{LookFault, look_through};
use sqlite_disk::{Disk, Files, Start};
use sqlite_pager::Options;
use sqlite_store::FileStore;
use std::alloc::Global;
use std::io;
use std::io::ErrorKind;
use synced_disk::{BookFile, open};

/// How many bytes are copied at once.
const PIECE: usize = 65_536;

/// Copies so many bytes of a file over those of another that is as long, by pieces of a buffer.
fn copy_bytes<A: Disk, B: Disk>(
    from: &mut A,
    to: &mut B,
    len: usize,
    buffer: &mut [u8],
) -> io::Result<()>
    requires from { IsTrue (A.Disk.is_usable from.old) }
    requires to { IsTrue (B.Disk.is_usable to.old) }
    requires some { 0 < length buffer.old }
    requires size { length (B.Disk.seen to.old) ≡ len }
    requires whole { IsTrue (A.Disk.is_clean from.old) → len ≤ length (A.Disk.seen from.old) }
    ensures read { IsOnlyRead A.Disk from.old from.new }
    ensures from { IsTrue (A.Disk.is_usable from.new) }
    ensures to { IsTrue (B.Disk.is_usable to.new) }
    ensures copied { OnOk result (IsTrue (A.Disk.is_clean from.new)
        → BeginsAs len len (A.Disk.seen from.old) (B.Disk.seen to.new)) }
{
    let mut done = 0;
    while done < len {
        let size = buffer.len().min(len - done);
        let piece = &mut buffer[..size];
        from.read_at(done, piece)?;
        to.write_at(done, piece)?;
        done += size;
    }
    Ok(())
}

/// Copies a file over another, whatever that held, and syncs it.
fn copy_file<A: Disk, B: Disk>(alloc: Global, from: &mut A, to: &mut B) -> io::Result<()>
    requires from { IsTrue (A.Disk.is_usable from.old) }
    requires to { IsTrue (B.Disk.is_usable to.old) }
    ensures read { IsOnlyRead A.Disk from.old from.new }
    ensures from { IsTrue (A.Disk.is_usable from.new) }
    ensures copied { OnOk result (IsCopyOf A.Disk B.Disk from.new to.new) }
    ensures to { OnOk result (IsTrue (B.Disk.is_usable to.new)) }
{
    let mut buffer = vec![in alloc; 0u8; PIECE]?;
    let len = from.len()?;
    to.set_len(len)?;
    copy_bytes(from, to, len, buffer.as_mut_slice())?;
    to.sync()
}

/// Copies the log and the file of books over those of others, whatever these held, and syncs both.
/// Where this fails they may hold a part.
pub fn copy_files<A: Disk, B: Disk>(
    alloc: Global,
    from: &mut Files<A>,
    to: &mut Files<B>,
) -> io::Result<()>
    requires log { IsTrue (A.Disk.is_usable from.old.log) }
    requires db { IsTrue (A.Disk.is_usable from.old.db) }
    requires log_copy { IsTrue (B.Disk.is_usable to.old.log) }
    requires db_copy { IsTrue (B.Disk.is_usable to.old.db) }
    ensures read { AreOnlyRead A.Disk from.old from.new }
    ensures copied { OnOk result (AreCopiesOf A.Disk B.Disk from.new to.new) }
    ensures log { OnOk result (IsTrue (B.Disk.is_usable to.new.log)) }
    ensures db { OnOk result (IsTrue (B.Disk.is_usable to.new.db)) }
{
    copy_file(alloc, &mut from.log, &mut to.log)?;
    copy_file(alloc, &mut from.db, &mut to.db)
}

/// What a failure of a copy stands for.
fn copy_fault(error: &io::Error) -> OpenFault
    ensures { result ≡ copy_fault_for (error_kind error.now) }
{
    match error.kind() {
        ErrorKind::OutOfMemory => OpenFault::Memory,
        _ => OpenFault::Store,
    }
}

/// Copies two files over those at a path, whatever these held, and looks through all pages of the
/// copy, of which it keeps so many in memory. `T` stands for what the files at the path held. The two
/// that are copied are only read. What the copy shows is what they hold, where no disk lied.
pub fn copy_to<D: Disk, T: Start>(
    rt: &HostRuntime,
    from: &mut Files<D>,
    path: &str,
    seed: u64,
    pages: usize,
    held: T,
) -> Result<FileStore<BookFile<T>>, (LookFault, Option<Files<BookFile<T>>>)>
    requires log { IsTrue (D.Disk.is_usable from.old.log) }
    requires db { IsTrue (D.Disk.is_usable from.old.db) }
    ensures read { AreOnlyRead D.Disk from.old from.new }
    ensures ready { IfOk result IsReady }
    ensures schema { IfOk result (λ store. schema_of store ≡ books_schema) }
    ensures trees { IfOk result (λ store. HasShapes (view store)) }
    ensures size { IfOk result (λ store. IsTrue (state store).is_clean
        → (state store).page_size ≡ page_size) }
    ensures found { IfOk result (λ store. IsTrue (state store).is_clean
        → AreClean D.Disk from.new.log from.new.db
        → (held : HoldsBooks (image_of D.Disk from.old)) → (view store).trees ≡ trees_held held) }
    ensures form { IfOk result (λ store. IsTrue (state store).is_clean
        → AreClean D.Disk from.new.log from.new.db
        → HoldNoNewer books_schema (image_of D.Disk from.old)) }

    // There is one only of files that hold books.
    ensures books { IfOk result (λ store. IsTrue (state store).is_clean
        → AreClean D.Disk from.new.log from.new.db → ∥ HoldsBooks (image_of D.Disk from.old) ∥₁) }

    // Where there is no copy, nothing is told of it that is not so of the files.
    ensures there { IfErr result (λ refusal. MatchOption refusal.1 (IsUnopenedLook refusal.0)
        (IsCopyRefusedWithout D.Disk ⟦<BookFile<T> as Disk>⟧ from.old from.new refusal.0)) }
{
    let mut files = match open(rt, path, held) {
        Ok(files) => files,
        Err(error) => return Err((LookFault::Open(fault_at(error)), None)),
    };
    match copy_files(rt.alloc(), from, &mut files) {
        Ok(()) => {}
        Err(error) => return Err((LookFault::Open(copy_fault(&error)), Some(files))),
    }
    let options = Options {
        cache_pages: pages,
        ..Options::new(seed)
    };
    match look_through(rt.alloc(), files, options) {
        Ok(store) => Ok(store),
        Err((fault, files)) => Err((fault, Some(files))),
    }
}

/// Opens the two files at a path, which nobody else has then, and looks at nothing in them. `S`
/// stands for what they hold.
pub fn lock_at<S: Start>(
    rt: &HostRuntime,
    path: &str,
    start: S,
) -> Result<Files<BookFile<S>>, OpenFault>
    ensures log { IfOk result (λ files. IsTrue (⟦<BookFile<S> as Disk>⟧.is_usable files.log)) }
    ensures db { IfOk result (λ files. IsTrue (⟦<BookFile<S> as Disk>⟧.is_usable files.db)) }
    ensures held { IfOk result (λ files. image_of ⟦<BookFile<S> as Disk>⟧ files ≡ image_at S.Start) }

    // A stop leaves what they hold.
    ensures kept { IfOk result (λ files. (left : Image)
        → MayLeave ⟦<BookFile<S> as Disk>⟧ files left → left ≡ image_at S.Start) }
    ensures unopened { IfErr result IsUnopened }
{
    match open(rt, path, start) {
        Ok(files) => Ok(files),
        Err(error) => Err(fault_at(error)),
    }
}
