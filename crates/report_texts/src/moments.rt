//! When something happened: a day and a time of day, of the bytes that a record has for them.

ghost use Rattle.std.specs.Prelude.{◌≡◌, ◌++◌, IfOk, length, string_bytes};
ghost use Rattle.book_model.specs.Words.{IsDay};
ghost use Rattle.report_texts.specs.Moments as spec;

use crate::dispute_lists::{part, push_moment};
use byteorder::{BigEndian, ByteOrder};
use smf_text::packed_day;
use smf_type30::HUNDREDTHS_PER_DAY;
use std::alloc::{AllocError, Global};
use text_drafts::Draft;

/// A number in two digits.
#[tactic(auto, using(crate::proofs::ColumnLemmas::digits_written), unfolding(crate::specs::Moments::in_two_digits))]
fn two_digits(alloc: Global, number: u32) -> Result<String, AllocError>
    ensures { IfOk result (λ text. string_bytes text ≡ spec.in_two_digits number) }
{
    format!(in alloc; "{number:02}")
}

/// Appends a number in two digits.
pub(crate) fn push_two_digits(out: &mut Draft, number: u32)
    ensures { out.new ≡ out.old ++ spec.in_two_digits number }
{
    let made = two_digits(out.alloc(), number);
    out.push_made(&number, made);
}

/// Appends a time of day, given in hundredths of a second since midnight.
#[tactic(auto, unfolding(crate::specs::Moments::time_text))]
pub fn push_time(out: &mut Draft, time: u32)
    ensures { out.new ≡ out.old ++ spec.time_text time }
{
    push_two_digits(out, time / 360_000);
    out.push(':');
    push_two_digits(out, time / 6_000 % 60);
    out.push(':');
    push_two_digits(out, time / 100 % 60);
    out.push('.');
    push_two_digits(out, time % 100);
}

/// Appends a day and a time of it.
#[tactic(auto, unfolding(crate::specs::Moments::day_time_text))]
pub(crate) fn push_day_time(out: &mut Draft, day: i32, time: u32)
    requires { IsDay day }
    ensures { out.new ≡ out.old ++ spec.day_time_text day time }
{
    out.push_day(day);
    out.push(' ');
    push_time(out, time);
}

/// Appends when something happened, of 8 bytes: a time of day in hundredths of a second since midnight, and
/// a packed date. What is no such time and date is shown as its bytes.
#[tactic(auto, unfolding(crate::specs::Moments::moment_of))]
pub(crate) fn push_moment_of(out: &mut Draft, moment: &[u8])
    requires { length moment.now ≡ 8 }
    ensures { out.new ≡ out.old ++ spec.moment_of moment.now }
{
    let time = BigEndian::read_u32(moment);
    let mut date = [0; 4];
    date.copy_from_slice(part(moment, 4, 4));
    match packed_day(&date) {
        Ok(day) if time < HUNDREDTHS_PER_DAY => push_day_time(out, day, time),
        _ => push_moment(out, "", moment, 0),
    }
}
