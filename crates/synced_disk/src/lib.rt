//! A disk that is not asked again to sync what it has synced, and the two files of a database on such
//! disks.
#![tactic(auto)]

mod opening;
mod synced;

pub use opening::{BookFile, open};
pub use synced::SyncedDisk;
