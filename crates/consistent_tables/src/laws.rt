//! Laws of consistent tables, which hold of their definitions alone.

ghost use Rattle.consistent_tables.specs.Laws.{ConsistentAreReadable, ConsistentAreTables};
ghost use Rattle.consistent_tables.specs.Laws.{ReadableAreConsistent};

/// The book that consistent tables determine can be read back.
pub fn consistent_are_readable()
    ensures { ConsistentAreReadable }
{}

/// Consistent tables are the tables of the book that they determine.
pub fn consistent_are_tables()
    ensures { ConsistentAreTables }
{}

/// The tables of a book that can be read back are consistent.
pub fn readable_are_consistent()
    ensures { ReadableAreConsistent }
{}
