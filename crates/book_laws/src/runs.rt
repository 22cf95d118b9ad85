//! Laws of runs, which hold of the definitions alone. Each is the contract of a function that does
//! nothing.

ghost use Rattle.book_laws.specs.ListLaws.{BookListsConserve, ListsConserve};
ghost use Rattle.book_laws.specs.CallLaws.{CallsFollowHistory};
ghost use Rattle.book_laws.specs.RunLaws.{ClosedStatementsStay, OpenStatementIsFirst};
ghost use Rattle.book_laws.specs.RunLaws.{RunCutsAreFree, RunOrderIsFree, RunsChargeOnce};
ghost use Rattle.book_laws.specs.RunLaws.{RunsConserve};
ghost use Rattle.book_laws.specs.RunLaws.{RunsFollowHistory, RunsMakeHistory};
ghost use Rattle.book_laws.specs.StatementWidths.{StatementsAreAligned};

use book_core::Ledger;

/// A run on new books, also under one tariff, comes after a history that calls made; and with the
/// run it is such a history again.
pub fn runs_make_history()
    ensures { RunsMakeHistory }
{}

/// The book that a run leaves is the one that its history defines, looked at as a whole.
pub fn runs_follow_history()
    ensures { RunsFollowHistory }
{}

/// After any run each record that is held and undisputed is charged once net over all periods, and
/// any other nets to nothing.
pub fn runs_charge_once()
    ensures { RunsChargeOnce }
{}

/// After any run all rows and plus lines, less all minus lines, add up to what the records cost
/// that are charged now.
pub fn runs_conserve()
    ensures { RunsConserve }
{}

/// However often records come between two rulings, and in which order: the books are the same, and
/// so are all reports of them.
pub fn run_order_is_free()
    ensures { RunOrderIsFree }
{}

/// However records are cut into dumps, requests and runs, and whatever notes say: the books are the
/// same but for the journal, and so are all reports that say nothing of it.
pub fn run_cuts_are_free()
    ensures { RunCutsAreFree }
{}

/// Closed statements and adjustments never change, whatever requests are run after the close.
pub fn closed_statements_stay()
    ensures { ClosedStatementsStay }
{}

/// Of books that were never closed the statement of their one period is the one that a trial shows.
pub fn open_statement_is_first()
    ensures { OpenStatementIsFirst }
{}

/// Whatever calls are made on the books of a history, one after another: if the ledger is still
/// open, it is at the books of the history that goes on with what they made.
pub fn calls_follow_history<L: Ledger>()
    ensures { CallsFollowHistory L.seen }
{}

/// The charge rows and plus lines that a ledger answers for all its periods, less the minus lines,
/// amount to what the records cost that are charged by the history, or in the book that can be read
/// back.
pub fn lists_conserve<L: Ledger>()
    ensures history { ListsConserve L.seen }
    ensures book { BookListsConserve L.seen }
{}

/// Each line of a statement but the first has 114 characters, for any period of books that can be
/// read back: within the office's limits no number is wider than its column.
pub fn statements_are_aligned()
    ensures { StatementsAreAligned }
{}
