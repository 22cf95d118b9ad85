//! Laws of single calls, which hold of the definitions alone. Each is the contract of a function
//! that does nothing.

ghost use Rattle.book_laws.specs.AnswerLaws.{OneAnswer, OneBook, OneRefusal, RefusalChangesNothing};
ghost use Rattle.book_laws.specs.ImportLaws.{OneReceipt, ReceiptsCountRecords};
ghost use Rattle.book_laws.specs.ReportLaws.{OnePrefix, OneRefusedReport, OneText};
ghost use Rattle.book_laws.specs.RunAnswers.{OneRun};

use book_core::Ledger;

/// A value that an open ledger answers is the one that the definitions give.
pub fn one_answer<L: Ledger, V, A>()
    ensures { OneAnswer V A L.seen }
{}

/// So is a refusal, but for a lack of memory and a fault of the store.
pub fn one_refusal<L: Ledger, V, A>()
    ensures { OneRefusal V A L.seen }
{}

/// If a value was answered, the book is the one after the definitions' event, if there is one.
pub fn one_book<L: Ledger, V, A>()
    ensures { OneBook V A L.seen }
{}

/// A refusal leaves the ledger open with the book that it had, but for a fault of the store.
pub fn refusal_changes_nothing<L: Ledger, V, A>()
    ensures { RefusalChangesNothing V A L.seen }
{}

/// A report that was written whole is the definitions' text of the book.
pub fn one_text<L: Ledger>()
    ensures { OneText L.seen }
{}

/// What was written before a write failed is a prefix of that text, and not the whole.
pub fn one_prefix<L: Ledger>()
    ensures { OnePrefix L.seen }
{}

/// A refusal of the books that a report gives is the definitions' one, and nothing was written.
pub fn one_refused_report<L: Ledger>()
    ensures { OneRefusedReport L.seen }
{}

/// The receipt of an import is the definitions' one, and so is the book after it, but for what the
/// import says of itself.
pub fn one_receipt<L: Ledger>()
    ensures { OneReceipt L.seen }
{}

/// A receipt counts as many records as came, if the books refused none and memory did not run out;
/// and as kept as many as the books hold more than before, also where they refused one.
pub fn receipts_count_records()
    ensures { ReceiptsCountRecords }
{}

/// The answers to a list of requests are the definitions' ones, and so is the book after them, but
/// for what imports say of themselves.
pub fn one_run<L: Ledger>()
    ensures { OneRun L.seen }
{}
