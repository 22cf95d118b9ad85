//! The two files of a database on such disks.

ghost use Rattle.std.specs.Prelude.{IfOk, IsTrue, false, true};
ghost use Rattle.sqlite_std_file.specs.File.{IsFresh};
ghost use Rattle.synced_disk.specs.Synced.{inner_of};

use crate::synced::SyncedDisk;
use sqlite_disk::{Disk, Files, Start};
use sqlite_std_file::{FileFrom, OpenError};

/// A file that held what `S` says.
pub type BookFile<S> = SyncedDisk<FileFrom<S>>;

/// Opens the two files at a path as `sqlite_std_file::open` does, which syncs both. Neither is synced
/// again before it is written to.
pub fn open<S: Start>(
    rt: &HostRuntime,
    path: &str,
    start: S,
) -> Result<Files<BookFile<S>>, OpenError>
    ensures log { IfOk result (λ files. IsTrue (⟦<BookFile<S> as Disk>⟧.is_usable files.log)) }
    ensures db { IfOk result (λ files. IsTrue (⟦<BookFile<S> as Disk>⟧.is_usable files.db)) }
    ensures fresh { IfOk result (λ files.
        IsFresh true (inner_of files.log) × IsFresh false (inner_of files.db)) }
{
    let Files { log, db } = sqlite_std_file::open(rt, path, start)?;
    Ok(Files {
        log: SyncedDisk::new(log),
        db: SyncedDisk::new(db),
    })
}
