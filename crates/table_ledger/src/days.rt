//! Days that a report can show.

ghost use Rattle.std.specs.Prelude.{◌≡◌, IsTrue, false};
ghost use Rattle.book_model.specs.Words.{IsDay};

use smf_text::{FIRST_DAY, LAST_DAY};

/// The number is one of a day that this product knows.
pub(crate) fn is_day(day: i32) -> bool
    ensures day { IsTrue result → IsDay day }
    ensures other { result ≡ false → ¬ IsDay day }
{
    FIRST_DAY <= day && day <= LAST_DAY
}
