//! Which tree has the rows of which table, as files of this form have them.

/// The row of the book.
pub const BOOK: u32 = 0;

/// Tariffs.
pub const TARIFFS: u32 = 1;

/// Closes.
pub const CLOSES: u32 = 2;

/// Records.
pub const RECORDS: u32 = 3;

/// Charge rows.
pub const DAYS: u32 = 4;

/// Adjustment lines.
pub const LINES: u32 = 5;

/// Finds records by their identities.
pub const IDENTITIES: u32 = 6;

/// Finds records by their marks.
pub const MARKS: u32 = 7;

/// Choices.
pub const CHOICES: u32 = 8;

/// Finds choices by the names of the records that were chosen.
pub const CHOICE_NAMES: u32 = 9;

/// Shows the records that are counted.
pub const DETAILS: u32 = 10;

/// Credits.
pub const CREDITS: u32 = 11;

/// Tariffs that were replaced.
pub const REPLACED: u32 = 12;

/// Entries of the journal.
pub const JOURNAL: u32 = 13;
