//! Minutes of the day, as `HH:MM`.

ghost use Rattle.std.specs.Prelude.{◌≡◌, ◌≤◌};
ghost use Rattle.std.specs.Char.{IsAsciiDigit};
ghost use Rattle.tariff_rules.specs.Clock as spec;

/// The characters of `HH:MM`.
const CLOCK_LENGTH: usize = 5;

/// The minutes of an hour.
const MINUTES_PER_HOUR: u32 = 60;

/// The minutes of a day.
const MINUTES_PER_DAY: u32 = 1440;

/// Whether the text is two digits, a colon, and two digits.
fn is_clock_text(text: &[u8]) -> bool
    ensures { result ≡ spec.is_clock_text text.now }
{
    text.len() == CLOCK_LENGTH
        && text[0].is_ascii_digit()
        && text[1].is_ascii_digit()
        && text[2] == b':'
        && text[3].is_ascii_digit()
        && text[4].is_ascii_digit()
}

/// The number of two digits.
fn two_digits(tens: u8, ones: u8) -> u32
    requires tens { IsAsciiDigit tens }
    requires ones { IsAsciiDigit ones }
    ensures value { result ≡ spec.two_digits tens ones }
    ensures bound { result ≤ 99 }
{
    10 * u32::from(tens - b'0') + u32::from(ones - b'0')
}

/// The minute of the day, from `00:00` to `24:00`.
pub(crate) fn minute_of_text(text: &[u8]) -> Option<u32>
    ensures { result ≡ spec.minute_of_text text.now }
{
    if !is_clock_text(text) {
        return None;
    }
    let minute = two_digits(text[3], text[4]);
    let whole = MINUTES_PER_HOUR * two_digits(text[0], text[1]) + minute;
    if minute < MINUTES_PER_HOUR && whole <= MINUTES_PER_DAY {
        Some(whole)
    } else {
        None
    }
}
