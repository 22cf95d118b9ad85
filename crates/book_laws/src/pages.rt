//! Laws of pages, which hold of the definitions alone. Each is the contract of a function that does
//! nothing.

ghost use Rattle.book_laws.specs.PageLaws.{OpenIsOpen, PageTotalsAreTheReports};

/// The page of a period, and its row in the page of the office, show the very sums that the period's
/// statement and its adjustments end with.
pub fn page_totals_are_the_reports()
    ensures { PageTotalsAreTheReports }
{}

/// In books that can be read back the number of the open period, as dry runs and the page of the
/// office have it, is that of the books.
pub fn open_is_open()
    ensures { OpenIsOpen }
{}
