//! Laws of coverage, which hold of the definitions alone. Each is the contract of a function that
//! does nothing.

ghost use Rattle.book_laws.specs.CoverageLaws.{CountedAreHeld, CoverageAddsUp, EachDayStands};

/// Each record that a period counts is held under its name, so its system is found there.
pub fn counted_records_are_held()
    ensures { CountedAreHeld }
{}

/// Each day from the first of a period to its last stands in the coverage for each system.
pub fn each_day_stands()
    ensures { EachDayStands }
{}

/// The counts of the coverage of a period add up to the count of its statement.
pub fn coverage_adds_up()
    ensures { CoverageAddsUp }
{}
