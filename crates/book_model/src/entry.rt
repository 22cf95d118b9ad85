use crate::listed_ruling::ListedRuling;
use crate::note::{Note, Reading};

/// Where a ruling stands among those of the office.
#[derive(Clone, Copy, PartialEq, Eq)]
pub enum Place {
    /// A tariff, by its first day, in days since 1970-01-01.
    Tariff(i32),
    /// A close, by its period.
    Close(u16),
    /// A choice, or a choice of none, by its number, from 1.
    Choice(u32),
    /// The adoption of the second rule of identity.
    Adoption,
    /// A tariff that took another's place, by the number of the one that was replaced, from 1.
    Replacement(u32),
    /// A credit, by its number, from 1.
    Credit(u32),
}

/// Why an import ended, with the number of the fault where one ended it.
#[derive(Clone, Copy, PartialEq, Eq)]
pub enum Ending {
    /// The dump ends after its last record.
    End,
    /// The dump goes on with something that is not a whole record.
    Frame(u8),
    /// The reader failed.
    Read,
    /// The reader was asked as often as allowed, and its end did not come.
    ReadLimit,
    /// The books refused to go on, or memory ran out.
    Ledger(u8),
}

/// What an entry of the journal is about, as a list of them shows it.
#[derive(Drop)]
pub enum ListedAct {
    /// A ruling that was done: where it stands, and the ruling itself.
    Ruling(Place, Option<ListedRuling>),
    /// An import: what it has read, why it ended, if it did, and how many records it kept.
    Import(Reading, Option<Ending>, u64),
}

/// An entry of the journal, as a list of them shows it.
#[derive(Drop)]
pub struct ListedEntry {
    /// Its number, from 1.
    pub number: u64,
    pub note: Note,
    pub act: ListedAct,
}

/// A record that is held, by its name, and by which entry of the journal it came.
#[derive(Clone, Copy)]
pub struct Arrival {
    /// The name of the record's data.
    pub name: [u8; 32],
    /// The number of the entry, 0 where it came by none.
    pub entry: u64,
}
