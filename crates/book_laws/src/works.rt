//! Laws of what is charged for one work, which hold of the definitions alone. Each is the contract
//! of a function that does nothing.

ghost use Rattle.book_laws.specs.WorkLaws.{ChosenIsCharged, WorkIsChargedOnce};

/// Of the records that are taken for the same work one is charged at most, whatever the books hold
/// and whatever was ruled.
pub fn work_is_charged_once()
    ensures { WorkIsChargedOnce }
{}

/// Once a choice is Done, the record that it names is charged, and of those that are taken for the
/// same work no other. Whatever else was charged stays so.
pub fn chosen_is_charged()
    ensures { ChosenIsCharged }
{}
