//! Laws of details, which hold of the definitions alone. Each is the contract of a function that
//! does nothing.

ghost use Rattle.book_laws.specs.DetailLaws.{BooksDetailOnce, CentreDetailsAddUp, CountedByDay};
ghost use Rattle.book_laws.specs.DetailLaws.{CountedIsRead, DetailedOnce, DetailsAddUp};
ghost use Rattle.book_laws.specs.DetailStays.{BooksKeepDetails, DetailsStay, NextIsNext};
ghost use Rattle.book_laws.specs.KeptDetails.{BookDetailsAreKept, CountedFollows, DetailsAreKept};
ghost use Rattle.book_laws.specs.KeptDetails.{RowsJoinAndGo, TariffsReadKept};

/// The details of a period add up to its statement: for each day, centre and shift the records of
/// the details are those that the charge row sums.
pub fn details_add_up()
    ensures { DetailsAddUp }
{}

/// The details of a centre add up to its statement.
pub fn centre_details_add_up()
    ensures { CentreDetailsAddUp }
{}

/// Each record stands in the details of at most one period, in a history and in any book that can
/// be read back.
pub fn detailed_once()
    ensures history { DetailedOnce }
    ensures book { BooksDetailOnce }
{}

/// What a period counts is what any period counts that is dated in it.
pub fn counted_by_day()
    ensures { CountedByDay }
{}

/// Whether any period counts a record is read from the mark of the record and its lines.
pub fn counted_is_read()
    ensures { CountedIsRead }
{}

/// The details of a period are the kept rows of its days, in a history and in any book that can be
/// read back.
pub fn details_are_kept()
    ensures history { DetailsAreKept }
    ensures book { BookDetailsAreKept }
{}

/// Kept rows come and go with the marks of records that are dated after the last close, and no
/// others do; a close changes none.
pub fn counted_follows()
    ensures { CountedFollows }
{}

/// The records that a tariff is for have a kept row or are not charged.
pub fn tariffs_read_kept()
    ensures { TariffsReadKept }
{}

/// A row joins the kept ones in its place, and goes as it came.
pub fn rows_join_and_go()
    ensures { RowsJoinAndGo }
{}

/// The details of a closed period are answered as they were, whatever calls follow, in a history
/// and in any book that can be read back.
pub fn details_stay()
    ensures history { DetailsStay }
    ensures book { BooksKeepDetails }
{}

/// Read one at a time, after those that were read comes the first of the rest.
pub fn next_is_next()
    ensures { NextIsNext }
{}
