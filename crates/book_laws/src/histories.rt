//! Laws of whole histories, which hold of the definitions alone. Each is the contract of a function
//! that does nothing.

ghost use Rattle.book_laws.specs.ClosedTexts.{BooksKeepTexts, ClosedTextsStay};
ghost use Rattle.book_laws.specs.HistoryLaws.{BooksChargeOnce, BooksConserve, BooksStayClosed};
ghost use Rattle.book_laws.specs.HistoryLaws.{ChargedOnce, ClosedStays, Conserved, ConservedInSets};
ghost use Rattle.book_laws.specs.HistoryLaws.{DatedRight, LinesOnce, NamedOnce, PostedOnce};
ghost use Rattle.book_laws.specs.HistoryLaws.{ReadableStays};
ghost use Rattle.book_laws.specs.WrongPeriods.{WrongPeriodsFail};

/// Over all periods a record that is charged now is charged once net, and any other nets to
/// nothing.
pub fn charged_once()
    ensures { ChargedOnce }
{}

/// The same of any book that can be read back, as of one that an audit found in a file.
pub fn books_charge_once()
    ensures { BooksChargeOnce }
{}

/// What a call makes of a book that can be read back is such a book again.
pub fn readable_stays()
    ensures { ReadableStays }
{}

/// Over the closed periods a record is charged once net if the last close charged it.
pub fn posted_once()
    ensures { PostedOnce }
{}

/// The rows and plus lines of all periods, less their minus lines, amount to what the records cost
/// that are charged now, after a history and in any book that can be read back.
pub fn conserved()
    ensures history { Conserved }
    ensures book { BooksConserve }
{}

/// The same for the periods' sets of records: for every history, and at the prices of any rulings.
pub fn conserved_in_sets()
    ensures { ConservedInSets }
{}

/// What a period counts is dated after the close before it, and what it adds is not.
pub fn dated_right()
    ensures { DatedRight }
{}

/// In no period is a record in two of the three sets.
pub fn named_once()
    ensures { NamedOnce }
{}

/// Each record that a period adds or reverses has one line.
pub fn lines_once()
    ensures { LinesOnce }
{}

/// What is closed never changes: whatever comes after a period is closed, the period is read as it
/// was, in a history and in any book that can be read back.
pub fn closed_stays()
    ensures history { ClosedStays }
    ensures book { BooksStayClosed }
{}

/// So do these texts about a closed period, of the office and of each centre: its statement, its
/// adjustments, its bill, its details, and what it would have cost by another tariff. Its page does
/// not, since it shows what is in dispute now.
pub fn closed_texts_stay()
    ensures history { ClosedTextsStay }
    ensures book { BooksKeepTexts }
{}

/// The law of the net count is false for periods that reverse nothing, that count records dated no
/// later than the last close, or that add records dated after it.
pub fn wrong_periods_fail()
    ensures { WrongPeriodsFail }
{}
