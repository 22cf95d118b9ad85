//! Lines for people where standard error is a file or a pipe, as of a job at night: who asks for them,
//! and what stands above them there.

ghost use Rattle.std.specs.Prelude.{IsTrue};
ghost use Rattle.smf_text.specs.Day.{IsDay};

use crate::inputs::seconds_now;
use crate::shown_paths::push_path;
use smf_text::{FIRST_DAY, LAST_DAY};
use std::env;
use text_drafts::Draft;

/// The option that asks for them.
const OPTION: &str = "--explain";

/// The variable of the environment that asks for them, where it has this value.
const VARIABLE: &str = "CHARGECTL_EXPLAIN";

const ASKED: &str = "1";

/// The seconds of a day, of an hour and of a minute.
const DAY: u64 = 86_400;

const HOUR: u64 = 3_600;

const MINUTE: u64 = 60;

/// The words of the command or the environment ask for lines for people.
pub(crate) fn is_asked(rt: &HostRuntime, words: &[String]) -> bool {
    has_option(words) || is_set(rt)
}

fn has_option(words: &[String]) -> bool {
    for word in words {
        if word.as_str() == OPTION {
            return true;
        }
    }
    false
}

fn is_set(rt: &HostRuntime) -> bool {
    match env::var(rt, VARIABLE) {
        Ok(value) => value.as_str() == ASKED,
        Err(_) => false,
    }
}

/// Adds when a command ended, in universal time, and its words.
pub(crate) fn push_heading(out: &mut Draft, rt: &HostRuntime, words: &[String]) {
    out.push_str("  ");
    if let Some(seconds) = seconds_now(rt) {
        push_moment(out, seconds);
    }
    for (number, word) in words.iter().enumerate() {
        if number > 0 {
            out.push_str(" ");
        }
        push_path(out, word.as_str());
    }
    out.push_str("\n");
}

/// The day is one that this product knows.
fn is_day(day: i32) -> bool
    ensures { IsTrue result → IsDay day }
{
    FIRST_DAY <= day && day <= LAST_DAY
}

/// Adds a moment, by the seconds since 1970: as `2024-02-01T03:00:12Z`, and a blank. One on a day that
/// this product does not know is left out.
fn push_moment(out: &mut Draft, seconds: u64) {
    let Ok(day) = i32::try_from(seconds / DAY) else {
        return;
    };
    if is_day(day) {
        out.push_day(day);
        out.push_str("T");
        push_two_digits(out, seconds % DAY / HOUR);
        out.push_str(":");
        push_two_digits(out, seconds % HOUR / MINUTE);
        out.push_str(":");
        push_two_digits(out, seconds % MINUTE);
        out.push_str("Z ");
    }
}

fn push_two_digits(out: &mut Draft, number: u64) {
    if number < 10 {
        out.push_str("0");
    }
    out.push_number(number);
}
