//! What is in hand of the two files of a session, once it is over.

use book_trees::Closed;
use sqlite_disk::{Disk, Files};

/// What is in hand of the files after a session.
#[derive(Drop)]
pub enum Ended<D: Disk> {
    /// They were open, and were closed.
    Closed(Closed<D>),
    /// They were not opened. Where there are none another program may have them.
    Refused(Option<Files<D>>),
}
