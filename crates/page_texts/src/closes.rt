//! The days of a period, by the days that periods were closed through.

ghost use Rattle.std.specs.Prelude.{◌≡◌, ◌≤ℤ◌, ◌+ℤ◌, All, pos};
ghost use Rattle.std.specs.Option.{ForSome};
ghost use Rattle.smf_text.specs.Day.{last_day};
ghost use Rattle.book_model.specs.CloseDays as spec;
ghost use Rattle.book_model.specs.Words.{IsDay};

use book_core::{is_after, is_through};

/// The day that the period of a number was closed through, if it was.
pub fn close_of(closes: &[i32], period: usize) -> Option<i32>
    requires { All IsDay closes.now }
    ensures close { result ≡ spec.close_of period closes.now }
    ensures day { ForSome result IsDay }
{
    if period == 0 {
        return None;
    }
    closes.get(period - 1).copied()
}

/// A day that is later than the close before a period, if there was one, and no later than its own.
pub(crate) fn is_between(before: Option<i32>, through: Option<i32>, day: i32) -> bool
    ensures { result ≡ spec.is_between before through day }
{
    is_after(before, day) && is_through(through, day)
}

/// The day after one.
pub fn day_after(day: &i32) -> i32
    requires { day.now ≤ℤ last_day }
    ensures { result ≡ day.now +ℤ pos 1 }
{
    *day + 1
}
