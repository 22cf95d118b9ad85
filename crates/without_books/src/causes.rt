//! Why a file or a port fails, and which files are there, by a second look at them.

ghost use Rattle.std.specs.Prelude.{◌≡◌};
ghost use Rattle.without_books.specs.HelpLines as spec;

use crate::ports::listen_here;
use program_output::Cause;
use std::fs;
use std::fs::{Metadata, OpenOptions};
use std::io::{ErrorKind, Read};
use std::os::unix::fs::MetadataExt;
use std::path::Path;

/// A folder of files of this process, which belong to its user.
const OWN_FILES: &str = "/proc/self";

/// What each file of books begins with, as every database of SQLite does.
const MAGIC: [u8; 16] = *b"SQLite format 3\0";

/// The cause, by what the system answered.
pub(crate) fn cause_of(kind: ErrorKind) -> Cause
    ensures { result ≡ spec.cause_of kind }
{
    match kind {
        ErrorKind::NotFound | ErrorKind::NotADirectory => Cause::Missing,
        ErrorKind::PermissionDenied | ErrorKind::ReadOnlyFilesystem => Cause::Denied,
        ErrorKind::IsADirectory => Cause::Folder,
        ErrorKind::AddrInUse => Cause::Taken,
        _ => Cause::Failed,
    }
}

/// Why books can't be opened. None where nothing is wrong with their file and its folder.
pub(crate) fn cause_of_books(rt: &HostRuntime, path: &str) -> Option<Cause> {
    let metadata = match fs::metadata(rt, path) {
        Ok(metadata) => metadata,
        Err(error) => return Some(cause_of(error.kind())),
    };
    if metadata.is_dir() {
        return Some(Cause::Folder);
    }
    if !metadata.is_file() {
        return Some(Cause::Failed);
    }
    if metadata.nlink() > 1 {
        return Some(Cause::Linked);
    }
    match OpenOptions::new().read(true).write(true).open(rt, path) {
        Ok(_) => cause_of_new(rt, path),
        Err(error) => Some(cause_of(error.kind())),
    }
}

/// Why a file can't be read. What is neither a file nor a folder is not opened again: that might
/// never end.
pub(crate) fn cause_of_read(rt: &HostRuntime, path: &str) -> Option<Cause> {
    let metadata = match fs::metadata(rt, path) {
        Ok(metadata) => metadata,
        Err(error) => return Some(cause_of(error.kind())),
    };
    if metadata.is_dir() {
        return Some(Cause::Folder);
    }
    if !metadata.is_file() {
        return None;
    }
    match fs::open(rt, path) {
        Ok(_) => None,
        Err(error) => Some(cause_of(error.kind())),
    }
}

/// Whether a file lies at a path which can be opened again. A pipe or a terminal might never end.
pub(crate) fn is_file(rt: &HostRuntime, path: &str) -> bool {
    match fs::metadata(rt, path) {
        Ok(metadata) => metadata.is_file(),
        Err(_) => false,
    }
}

/// Whether something lies at a path with this ending, if only a link that leads nowhere.
pub(crate) fn is_there(rt: &HostRuntime, path: &str, ending: &str) -> bool {
    match format!(in rt.alloc(); "{path}{ending}") {
        Ok(file) => fs::symlink_metadata(rt, file.as_str()).is_ok(),
        Err(_) => false,
    }
}

/// What is in the way of the log of books, by what follows their path: a file of books that has its
/// name; or a file that was kept, where another of that name is to be kept.
pub(crate) fn in_place_of_log(rt: &HostRuntime, path: &str) -> Option<&'static str> {
    let Ok(log) = format!(in rt.alloc(); "{path}-wal") else {
        return None;
    };
    if are_books(rt, log.as_str()) {
        Some("-wal")
    } else if is_there(rt, path, "-wal") && is_there(rt, path, "-wal-kept") {
        Some("-wal-kept")
    } else {
        None
    }
}

/// Whether a file of books lies at a path.
fn are_books(rt: &HostRuntime, path: &str) -> bool {
    if !is_file(rt, path) {
        return false;
    }
    let Ok(mut file) = fs::open(rt, path) else {
        return false;
    };
    let mut first = [0; 16];
    file.read_exact(&mut first).is_ok() && first == MAGIC
}

/// Why no file can be made at a path.
pub(crate) fn cause_of_new(rt: &HostRuntime, path: &str) -> Option<Cause> {
    let folder = match fs::metadata(rt, folder_of(path)) {
        Ok(folder) => folder,
        Err(error) => return Some(cause_of(error.kind())),
    };
    if !folder.is_dir() {
        Some(Cause::Missing)
    } else if is_shut(rt, &folder) {
        Some(Cause::Denied)
    } else {
        None
    }
}

/// The folder that a file is in.
fn folder_of(path: &str) -> &str {
    let folder = match Path::new(path).parent() {
        Some(folder) => folder.as_str(),
        None => "",
    };
    if folder.is_empty() { "." } else { folder }
}

/// This process may make no file in a folder. The groups that its user belongs to besides its own are
/// not known: where one of them might have the right, this is false.
fn is_shut(rt: &HostRuntime, folder: &Metadata) -> bool {
    let Ok(own) = fs::metadata(rt, OWN_FILES) else {
        return false;
    };
    let rights = folder.mode();
    if own.uid() == 0 {
        false
    } else if own.uid() == folder.uid() {
        rights & 0o200 == 0
    } else {
        rights & 0o022 == 0
    }
}

/// Why a port can't be taken.
pub(crate) fn cause_of_port(rt: &HostRuntime, port: u16) -> Option<Cause> {
    match listen_here(rt, port) {
        Ok(_) => None,
        Err(error) => Some(cause_of(error.kind())),
    }
}
