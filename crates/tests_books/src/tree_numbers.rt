//! The trees of books, by their numbers in the file. They stand here once more, apart from those of
//! `tree_tables`: rows notice where two are confused there.

/// The tree of the book's row.
pub(crate) const BOOK: u32 = 0;

/// That of the tariffs.
pub(crate) const TARIFFS: u32 = 1;

/// That of what is closed.
pub(crate) const CLOSES: u32 = 2;

/// That of the records.
pub(crate) const RECORDS: u32 = 3;

/// That of the charge rows.
pub(crate) const CHARGES: u32 = 4;

/// That of the adjustment lines.
pub(crate) const LINES: u32 = 5;

/// That which finds records by their identities.
pub(crate) const IDENTITIES: u32 = 6;

/// That which finds them by their marks.
pub(crate) const MARKS: u32 = 7;

/// That of the choices.
pub(crate) const CHOICES: u32 = 8;

/// That which finds choices by the records that they name.
pub(crate) const CHOICE_NAMES: u32 = 9;

/// That of the details.
pub(crate) const DETAILS: u32 = 10;

/// That of the credits.
pub(crate) const CREDITS: u32 = 11;

/// That of the tariffs that were replaced.
pub(crate) const REPLACED: u32 = 12;

/// That of the journal, the last.
pub(crate) const JOURNAL: u32 = 13;
