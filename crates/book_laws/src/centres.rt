//! Laws of the reports on single centres, which hold of the definitions alone. Each is the contract
//! of a function that does nothing.

ghost use Rattle.book_laws.specs.CentreLaws.{CentresAddUp};

/// The statements of all centres add up to the statement of the period, and their adjustments to
/// its adjustments.
pub fn centres_add_up()
    ensures { CentresAddUp }
{}
