//! The law of the table of cost and usage, which holds of the definitions alone. It is the contract
//! of a function that does nothing.

ghost use Rattle.book_laws.specs.FocusLaws.{FocusIsOwed};

/// The costs of the rows add up to what the bill says is owed, of the office and of each centre:
/// without corrections to the statement, and of corrections to the adjustments.
pub fn focus_is_owed()
    ensures { FocusIsOwed }
{}
