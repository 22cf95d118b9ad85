//! Code page 037, for the 95 printable characters of ASCII.

ghost use Rattle.std.specs.Prelude.{◌≡◌, ◌<◌, ◌==◌, IfSome, position};
ghost use Rattle.smf_text.specs.CodePage as spec;

/// The characters of the page, a row for each high half-byte, 0 for a byte that stands for none.
const PAGE: [u8; 256] = *b"\
    \0\0\0\0\0\0\0\0\0\0\0\0\0\0\0\0\
    \0\0\0\0\0\0\0\0\0\0\0\0\0\0\0\0\
    \0\0\0\0\0\0\0\0\0\0\0\0\0\0\0\0\
    \0\0\0\0\0\0\0\0\0\0\0\0\0\0\0\0\
    \x20\0\0\0\0\0\0\0\0\0\0.<(+|\
    &\0\0\0\0\0\0\0\0\0!$*);\0\
    -/\0\0\0\0\0\0\0\0\0,%_>?\
    \0\0\0\0\0\0\0\0\0`:#@'=\"\
    \0abcdefghi\0\0\0\0\0\0\
    \0jklmnopqr\0\0\0\0\0\0\
    \0~stuvwxyz\0\0\0\0\0\0\
    ^\0\0\0\0\0\0\0\0\0[]\0\0\0\0\
    {ABCDEFGHI\0\0\0\0\0\0\
    }JKLMNOPQR\0\0\0\0\0\0\
    \\\0STUVWXYZ\0\0\0\0\0\0\
    0123456789\0\0\0\0\0\0\
";

/// The character that a byte stands for.
pub fn character_of(byte: u8) -> Option<u8>
    ensures value { result ≡ spec.char_of byte }
    ensures ascii { IfSome result (λ character. character < 128) }
{
    let entry = PAGE[byte as usize];
    if entry == 0 { None } else { Some(entry) }
}

/// The place of the first such entry.
fn position_of(entry: u8) -> Option<usize>
    ensures value { result ≡ position (λ other. other == entry) PAGE }
    ensures within { IfSome result (λ place. place < 256) }
{
    PAGE.iter().position(|other| *other == entry)
}

/// The byte that stands for a character.
pub fn byte_of(character: u8) -> Option<u8>
    ensures { result ≡ spec.byte_of character }
{
    // No byte stands for the character 0, though it is an entry.
    if character == 0 {
        return None;
    }
    let place = position_of(character)?;
    Some(place as u8)
}
