//! Days, texts, and names of centres.

ghost use Rattle.smf_text.specs.Day.{IsDay};

use crate::spelled_words::{bytes_of, hex_in, text_of};
use smf_text::{
    FIRST_DAY, LAST_DAY, Name, day_of_text, day_text, encode, packed_day, show, weekday,
};
use tests_scripts::{AnswerText, LineFault, LineResult};

/// What a buffer holds before a text is written into it.
const FILLER: u8 = 9;

/// Adds the text of a day, with a text before it.
pub(crate) fn push_day_text(out: &mut AnswerText, before: &str, day: i32)
    requires { IsDay day }
{
    out.text(before);
    let text = day_text(out.alloc(), day);
    out.made(text);
}

/// Adds a day: its number, counted from 1970-01-01, its text, and its weekday, 1 for Monday.
fn push_day(out: &mut AnswerText, day: i32) {
    if day < FIRST_DAY || LAST_DAY < day {
        out.line("NO DAY");
        return;
    }
    out.value("DAY ", day);
    push_day_text(out, " ", day);
    out.value_line(" WEEKDAY ", weekday(day));
}

/// Adds the day of a number.
pub(crate) fn push_date(out: &mut AnswerText, words: &[&str]) -> LineResult {
    let [number] = words else {
        return Err(LineFault::NotUnderstood);
    };
    push_day(out, number.parse::<i32>()?);
    Ok(())
}

/// Adds the day of a text.
pub(crate) fn push_day_of(out: &mut AnswerText, words: &[&str]) -> LineResult {
    match day_of_text(text_of(out.alloc(), words)?.as_str()) {
        Some(day) => push_day(out, day),
        None => out.line("NO DAY"),
    }
    Ok(())
}

/// Adds the day of a packed date, or its fault.
pub(crate) fn push_packed(out: &mut AnswerText, words: &[&str]) -> LineResult {
    let bytes = hex_in(out.alloc(), words)?;
    let Some(date) = bytes.as_array() else {
        return Err(LineFault::NotUnderstood);
    };
    match packed_day(date) {
        Ok(day) => push_day(out, day),
        Err(fault) => out.value_line("FAULT ", fault.number()),
    }
    Ok(())
}

/// Adds bytes as people read them.
pub(crate) fn push_shown(out: &mut AnswerText, words: &[&str]) -> LineResult {
    let bytes = hex_in(out.alloc(), words)?;
    out.text("\"");
    let shown = show(out.alloc(), &bytes);
    out.made(shown);
    out.line("\"");
    Ok(())
}

/// Adds how many bytes of a buffer a text takes, or its fault, and what the buffer holds then.
fn push_written(out: &mut AnswerText, text: &str, buffer: &mut [u8]) {
    match encode(text, buffer) {
        Ok(count) => out.value("WROTE ", count),
        Err(fault) => out.value("FAULT ", fault.number()),
    }
    out.digits_line(" ", buffer);
}

/// The same of a buffer of some size, and a text.
pub(crate) fn push_encoded(out: &mut AnswerText, words: &[&str]) -> LineResult {
    let [size, words @ ..] = words else {
        return Err(LineFault::NotUnderstood);
    };
    let text = text_of(out.alloc(), words)?;
    let mut buffer = bytes_of(out.alloc(), FILLER, size)?;
    push_written(out, text.as_str(), &mut buffer);
    Ok(())
}

/// Adds the name with a text.
pub(crate) fn push_name(out: &mut AnswerText, words: &[&str]) -> LineResult {
    match Name::of(text_of(out.alloc(), words)?.as_str()) {
        Some(name) => out.value_line("NAME ", name.text()),
        None => out.line("NO NAME"),
    }
    Ok(())
}
