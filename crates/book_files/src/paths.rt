//! What lies at a path, and beside it.

use crate::faults::{failed, of_file};
use crate::magic::begins_as_books;
use crate::names::is_log_name;
use named_books::RepositoryFault;
use std::fs::File;
use std::io::ErrorKind;
use std::{fs, io};

/// Whether a file begins as books do. What is not a regular file is not read: it might never end.
pub(crate) fn are_books(rt: &HostRuntime, path: &str) -> io::Result<bool> {
    if !fs::metadata(rt, path)?.is_file() {
        return Err(ErrorKind::Unsupported.into());
    }
    let mut file = fs::open(rt, path)?;
    begins_as_books(&mut file)
}

/// The same of a file that may be gone by now.
pub(crate) fn may_be_books(rt: &HostRuntime, path: &str) -> Result<bool, RepositoryFault> {
    match are_books(rt, path) {
        Err(error) if error.kind() == ErrorKind::NotFound => Ok(false),
        begins => of_file(begins),
    }
}

/// Whether something lies at a path, if only a link that leads nowhere.
pub(crate) fn is_there(rt: &HostRuntime, path: &str) -> Result<bool, RepositoryFault> {
    match fs::symlink_metadata(rt, path) {
        Ok(_) => Ok(true),
        Err(error) if error.kind() == ErrorKind::NotFound => Ok(false),
        Err(error) => Err(failed(&error)),
    }
}

/// The path of a file that belongs to another.
pub(crate) fn beside(rt: &HostRuntime, path: &str, what: &str) -> io::Result<String> {
    Ok(format!(in rt.alloc(); "{path}-{what}")?)
}

/// Whether something has the name, or that of a log or a journal beside it.
pub(crate) fn has_traces(rt: &HostRuntime, path: &str) -> Result<bool, RepositoryFault> {
    let log = of_file(beside(rt, path, "wal"))?;
    let journal = of_file(beside(rt, path, "journal"))?;
    Ok(is_there(rt, path)? || is_there(rt, log.as_str())? || is_there(rt, journal.as_str())?)
}

/// Nothing may have the name, nor that of a log or a journal beside it, whose contents would be
/// taken for new books' own. Nor may the name be that of a log, for which new books would be taken.
pub(crate) fn expect_none(rt: &HostRuntime, path: &str) -> Result<(), RepositoryFault> {
    if is_log_name(path) || has_traces(rt, path)? {
        return Err(RepositoryFault::Exists);
    }
    Ok(())
}

/// Makes an empty file, whose name nothing may have.
pub(crate) fn create(rt: &HostRuntime, path: &str) -> Result<(), RepositoryFault> {
    expect_none(rt, path)?;
    match File::create_new(rt, path) {
        Ok(_) => Ok(()),
        Err(error) => Err(failed(&error)),
    }
}

/// Opens the folder of a file.
pub(crate) fn open_folder(rt: &HostRuntime, path: &str) -> Result<File, RepositoryFault> {
    let mut folder = of_file(fs::canonicalize(rt, path))?;
    folder.pop();
    of_file(File::open(rt, folder.as_str()))
}

/// Syncs the names in the folder of a file to the disk.
pub(crate) fn sync_folder(rt: &HostRuntime, path: &str) -> Result<(), RepositoryFault> {
    of_file(open_folder(rt, path)?.sync_all())
}
