//! The period that a minus line speaks of.

ghost use Rattle.std.specs.Prelude.{◌≡◌, ◌&&◌, if◌then◌else◌, Some, nat_lt};
ghost use Rattle.book_model.specs.Words as words;

use book_model::Turn;

/// The period of the last charge before a period, after one more turn of a life.
fn with_turn(last: Option<u16>, number: u16, turn: &Turn) -> Option<u16>
    ensures { result ≡ if words.is_charge turn.now.deed && nat_lt turn.now.period number
        then Some turn.now.period else last }
{
    if turn.deed.is_charge() && turn.period < number {
        Some(turn.period)
    } else {
        last
    }
}

/// The period of the last charge in a life before a period, if there was one: a line of this period
/// that takes a charge back takes that one.
pub fn charged_before(number: u16, life: &[Turn]) -> Option<u16>
    ensures { result ≡ words.charged_before number life.now }
{
    let mut last = None;
    for turn in life {
        last = with_turn(last, number, turn);
    }
    last
}
