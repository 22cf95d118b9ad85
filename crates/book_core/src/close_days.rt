//! Days beside that of a close, in days since 1970-01-01.

ghost use Rattle.std.specs.Prelude.{◌≡◌};
ghost use Rattle.book_model.specs.CloseDays as spec;

/// A day is later than that of a close, if there was one.
pub fn is_after(close: Option<i32>, day: i32) -> bool
    ensures { result ≡ spec.is_after close day }
{
    match close {
        Some(close) => close < day,
        None => true,
    }
}

/// A day is no later than that of a close, if there was one.
pub fn is_through(through: Option<i32>, day: i32) -> bool
    ensures { result ≡ spec.is_through through day }
{
    match through {
        Some(through) => !(through < day),
        None => true,
    }
}
