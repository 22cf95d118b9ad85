use crate::damage::Damage;

/// What a record is for the office, by its type and subtype (SA38-0667).
#[derive(Clone, Copy, PartialEq, Eq)]
pub enum Class {
    /// Begins a dump: type 2.
    DumpHeader,
    /// Ends a dump: type 3.
    DumpTrailer,
    /// Says that records were lost: type 7.
    DataLost,
    /// Is of no concern: another type, or type 30 with a subtype other than 4 and 5.
    Other,
    /// Measures no CPU time, as it has no processor section: a word of this project. It is counted
    /// and never charged.
    Continuation,
    /// Measures the work of a step or of a job.
    Usage,
    /// Cannot be read: a record of type 30, or one that lacks a whole header.
    Damaged(Damage),
}
