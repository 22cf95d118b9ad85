//! Laws of what is read back from kept tables, which hold of their definitions alone. Each is the
//! contract of a function that does nothing.

ghost use Rattle.table_model.specs.AnswerLaws.{AcceptFollows, AdoptionsFollow, ChoicesFollow};
ghost use Rattle.table_model.specs.AnswerLaws.{NumbersFit, TermsFollow};
ghost use Rattle.table_model.specs.AnswerLaws.{TwoAreEnough, ViewIsDetermined};
ghost use Rattle.table_model.specs.ReadingLaws.{BookFollows, CallsRead, CallsStay, TablesDetermine};
ghost use Rattle.table_model.specs.ListLaws.{CountedFollows, DetailsFollow, DisputesFollow};
ghost use Rattle.table_model.specs.ListLaws.{LinePeriodsFollow, ListsFollow, ListsShow};
ghost use Rattle.table_model.specs.ListLaws.{RecordsFollow, TrailsFollow};

/// New books are made by calls, and each call that is an event leaves such books.
pub fn calls_stay()
    ensures { CallsStay }
{}

/// Books that calls made can be read back.
pub fn calls_read()
    ensures { CallsRead }
{}

/// The book is read back from its tables.
pub fn book_follows()
    ensures { BookFollows }
{}

/// Books that can be read back and have the same tables are equal.
pub fn tables_determine()
    ensures { TablesDetermine }
{}

/// A record that is submitted is answered by the rows of its name and of the book.
pub fn accept_follows()
    ensures { AcceptFollows }
{}

/// What a ledger looks at for a new record depends on whether a choice names it only if an identity
/// has just one row.
pub fn view_is_determined()
    ensures { ViewIsDetermined }
{}

/// The effects of a record depend on at most two rows of its identity.
pub fn two_are_enough()
    ensures { TwoAreEnough }
{}

/// A tariff is answered by the rulings and by what the records' rows will cost.
pub fn terms_follow()
    ensures { TermsFollow }
{}

/// A choice is answered by the row of its name, by the rows of that identity, and by the number of
/// choices.
pub fn choices_follow()
    ensures { ChoicesFollow }
{}

/// By the second rule of identity each row has an identity of its length, and the row of the book
/// determines the rule.
pub fn adoptions_follow()
    ensures { AdoptionsFollow }
{}

/// The charge rows and the adjustment lines of each period, the days of the closes, and the list of
/// rulings are answered from the tables.
pub fn lists_follow()
    ensures { ListsFollow }
{}

/// Which records a period counts is read from the marks of their rows and from their lines; and so
/// are the charge rows that the period would have by another tariff.
pub fn counted_follows()
    ensures { CountedFollows }
{}

/// The details of a period are read from the records that are counted, and so is the next of them.
pub fn details_follow()
    ensures { DetailsFollow }
{}

/// The disputes are the rows of identities that have no charged row, by identity, then name, in
/// groups.
pub fn disputes_follow()
    ensures { DisputesFollow }
{}

/// The record that is held under a name is answered by the row of the name.
pub fn records_follow()
    ensures { RecordsFollow }
{}

/// The trail of a record is answered by its row, by the rows of its identity and the choices that
/// name one of these, and by the lines that it has itself.
pub fn trails_follow()
    ensures { TrailsFollow }
{}

/// The period that a line speaks of is told by the row of its record, and by the lines that the
/// record has itself.
pub fn line_periods_follow()
    ensures { LinePeriodsFollow }
{}

/// Signed 64-bit integers hold the numbers of the tables.
pub fn numbers_fit()
    ensures { NumbersFit }
{}

/// The lists that are answered from the tables are ones that reports can print.
pub fn lists_show()
    ensures { ListsShow }
{}
