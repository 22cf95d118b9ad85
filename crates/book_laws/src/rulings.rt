//! Laws of works that are withheld, of credits, and of tariffs in the place of others, which hold of
//! the definitions alone. Each is the contract of a function that does nothing.

ghost use Rattle.book_laws.specs.CreditAmounts.{CreditsAddUp, CreditsAreTakenOff};
ghost use Rattle.book_laws.specs.RulingLaws.{ClosedCreditsStay, ClosedTariffsStay};
ghost use Rattle.book_laws.specs.RulingLaws.{CreditsChangeBillsAlone, UnusedChangesNothing};
ghost use Rattle.book_laws.specs.RulingLaws.{WithheldNetsToNothing};

/// Over all periods each record of a work that is withheld nets to nothing, whichever of them were
/// charged before.
pub fn withheld_nets_to_nothing()
    ensures { WithheldNetsToNothing }
{}

/// Whatever follows, a closed period has the credits that it had.
pub fn closed_credits_stay()
    ensures { ClosedCreditsStay }
{}

/// A credit changes what bills say of credits, and nothing else that is read of the books.
pub fn credits_change_bills_alone()
    ensures { CreditsChangeBillsAlone }
{}

/// What the centres are credited adds up to what the office gave.
pub fn credits_add_up()
    ensures { CreditsAddUp }
{}

/// What a bill says is owed is what it charges, less what is reversed, less what is credited.
pub fn credits_are_taken_off()
    ensures { CreditsAreTakenOff }
{}

/// Where no work was ever withheld, records are undisputed, and choices answered, as if none could
/// be.
pub fn unused_changes_nothing()
    ensures { UnusedChangesNothing }
{}

/// No text in the place of a tariff changes the tariffs of a closed period.
pub fn closed_tariffs_stay()
    ensures { ClosedTariffsStay }
{}
