use crate::fault::LedgerFault;
use smf_frames::FrameFault;

/// What a program was told where it was called. Time and person are what the machine says: a note
/// is no signature.
#[derive(Drop)]
pub struct Note {
    /// In seconds since the beginning of 1970, UTC.
    pub time: u64,
    pub person: String,
    pub remark: String,
    /// The name of the file that was read, as it was given; empty where there was none.
    pub file: String,
}

/// What an import has read: the SHA-256 and the number of the bytes, and how many records of each
/// kind, but for those that the books kept.
#[derive(Clone, Copy, PartialEq, Eq)]
pub struct Reading {
    pub digest: [u8; 32],
    pub length: u64,
    pub known: u64,
    pub unpriced: u64,
    pub other: u64,
    pub headers: u64,
    pub trailers: u64,
    pub lost: u64,
    pub continued: u64,
    pub damaged: u64,
}

/// What an import says of itself with each group of its records.
#[derive(Drop)]
pub struct Share {
    pub note: Note,
    /// The books kept a record of it before, so that it has an entry.
    pub begun: bool,
    /// What it has read up to the end of the group; what the books answer to the records of the
    /// group is not yet counted.
    pub reading: Reading,
    /// Why it ends, if this is its last group and the books take all of it.
    pub ending: Option<Stop>,
}

/// Why an import handled no further record.
#[derive(Clone, Copy, PartialEq, Eq)]
pub enum Stop {
    /// The dump ends after its last record.
    End,
    /// The dump goes on with something that is not a whole record.
    Frame(FrameFault),
    /// The reader failed.
    Read,
    /// The reader was asked as often as allowed, and its end did not come.
    ReadLimit,
    /// The books refused to go on, or the import itself did because memory ran out.
    Ledger(LedgerFault),
}
