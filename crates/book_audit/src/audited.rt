use crate::finding::Finding;

/// How many rows sound books have, and their form.
#[derive(Clone, Copy)]
pub struct Counts {
    /// The form that their file says it has.
    pub form: u32,
    pub records: u64,
    pub tariffs: u64,
    pub closes: u64,
    pub choices: u64,
    /// Charge rows.
    pub rows: u64,
    /// Adjustment lines.
    pub lines: u64,
}

/// What came of an audit.
#[derive(Clone, Copy, Drop)]
pub enum Audited {
    /// Each row is as the records and the tariffs require.
    Sound(Counts),
    /// The first thing that is not.
    Unsound(Finding),
}
