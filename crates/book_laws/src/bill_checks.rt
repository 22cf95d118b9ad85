//! Laws of what a department checks on its bill, which hold of the definitions alone. Each is the
//! contract of a function that does nothing.

ghost use Rattle.book_laws.specs.BookedLaws.{BookedAddUp, LinesAddUp};
ghost use Rattle.book_laws.specs.CheckLaws.{BilledRowsCheck, OnePercentAShift, RowsCheck};
ghost use Rattle.book_laws.specs.CheckLaws.{ShiftsPrice};

/// What the office books is what the bills of its centres book, together.
pub fn booked_add_up()
    ensures { BookedAddUp }
{}

/// What came late and what was reversed come to the sums of their lines.
pub fn lines_add_up()
    ensures { LinesAddUp }
{}

/// The shift that priced a record, with its percent, is one of its tariff's; and in a tariff file
/// no shift has two percents.
pub fn shifts_price()
    ensures listed { ShiftsPrice }
    ensures one { OnePercentAShift }
{}

/// A row comes to what its sums come to by its prices and its percent, but for half a
/// ten-thousandth for each record; so does each row of a bill, by day and by shift, by a tariff
/// that stands on the bill.
pub fn billed_rows_check()
    ensures rows { RowsCheck }
    ensures bills { BilledRowsCheck }
{}
