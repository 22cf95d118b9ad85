//! Days that words name.

ghost use Rattle.book_model.specs.Words.{IsDay};

use smf_text::{LAST_DAY, day_of_text};
use tests_scripts::{LineFault, LineResult};

/// A day that this product knows, counted from 1970-01-01.
#[derive(Clone, Copy)]
pub(crate) struct Day {
    pub(crate) number: i32,
    ghost is_day: { IsDay number },
}

impl Day {
    /// The day of a text.
    pub(crate) fn of(text: &str) -> LineResult<Day> {
        match day_of_text(text) {
            Some(number) => Ok(Day { number }),
            None => Err(LineFault::NotUnderstood),
        }
    }

    /// The day that many days after this one, if this product knows it.
    pub(crate) fn days_later(self, days: u16) -> Option<Day> {
        let number = self.number + i32::from(days);
        if number <= LAST_DAY {
            Some(Day { number })
        } else {
            None
        }
    }
}
