//! Laws of what is shown of a single record, which hold of the definitions alone. Each is the contract
//! of a function that does nothing.

ghost use Rattle.book_laws.specs.LifeLaws.{BookLivesTakeTurns, BookTrailsNet, LivesNet};
ghost use Rattle.book_laws.specs.LifeLaws.{LivesTakeTurns, TrailsNet};
ghost use Rattle.book_laws.specs.ReckoningLaws.{PricesAreReckoned, RatesSayWhatIsCharged};

/// Charges and reversals of a record take turns, from none to whether it is charged now, in a
/// history and in any book that can be read back.
pub fn lives_take_turns()
    ensures history { LivesTakeTurns }
    ensures book { BookLivesTakeTurns }
{}

/// The charges in a record's life less the reversals are its net count over all periods: one if it
/// is charged now, else none.
pub fn lives_net()
    ensures { LivesNet }
{}

/// The net that a record's text shows is its net count over all periods, 1 or 0, in a history and
/// in any book that can be read back.
pub fn trails_net()
    ensures history { TrailsNet }
    ensures book { BookTrailsNet }
{}

/// The rules that a reckoning names have the shift, the percent and the centre of the price, its
/// numbers come to the amount, and that is what the record is charged at.
pub fn prices_are_reckoned()
    ensures { PricesAreReckoned }
{}

/// Each CPU second, each 1,000 blocks and the record itself cost their rates, by a shift's percent:
/// rounded once, to the nearest, a half upwards.
pub fn rates_say_what_is_charged()
    ensures { RatesSayWhatIsCharged }
{}
