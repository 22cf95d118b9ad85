//! Laws of bills, which hold of the definitions alone. Each is the contract of a function that does
//! nothing.

ghost use Rattle.book_laws.specs.BillLaws.{BilledLinesHavePeriods, BilledTariffsPrice};
ghost use Rattle.book_laws.specs.BillLaws.{BilledTariffsRule, BillsAddUp, BillsSplitStatements};
ghost use Rattle.book_laws.specs.BillLaws.{BooksKeepBills, ClosedBillsStay, HeldBackBounds};

/// A bill splits the rows of the statement into steps and jobs, and has the lines of the
/// adjustments.
pub fn bills_split_statements()
    ensures { BillsSplitStatements }
{}

/// The bills of all centres add up to the office's.
pub fn bills_add_up()
    ensures { BillsAddUp }
{}

/// A bill has the tariff by which each record is priced that the period counts.
pub fn billed_tariffs_price()
    ensures { BilledTariffsPrice }
{}

/// It has no tariff but those that are in force on some day of the period.
pub fn billed_tariffs_rule()
    ensures { BilledTariffsRule }
{}

/// Each line of a centre's bill says the period that it speaks of.
pub fn billed_lines_have_periods()
    ensures { BilledLinesHavePeriods }
{}

/// Whichever record of each dispute is taken, what these cost a centre together lies between the two
/// amounts that are held back.
pub fn held_back_bounds()
    ensures { HeldBackBounds }
{}

/// The bill of a closed period is answered as it was, whatever calls follow, in a history and in
/// any book that can be read back.
pub fn closed_bills_stay()
    ensures history { ClosedBillsStay }
    ensures book { BooksKeepBills }
{}
