//! What words spell.

use std::alloc::{AllocError, Global};
use tests_scripts::{LineFault, LineResult, push_hex};

/// The bytes that a word spells.
fn hex_of(alloc: Global, word: &str) -> LineResult<Vec<u8>> {
    let mut bytes = Vec::new(alloc);
    push_hex(&mut bytes, word)?;
    Ok(bytes)
}

/// The bytes that a line of one word spells.
pub(crate) fn hex_in(alloc: Global, words: &[&str]) -> LineResult<Vec<u8>> {
    match words {
        [word] => hex_of(alloc, word),
        _ => Err(LineFault::NotUnderstood),
    }
}

/// The text of words: a blank between two, `\n` is a line's end, and `\s` a blank.
pub(crate) fn text_of(alloc: Global, words: &[&str]) -> Result<String, AllocError> {
    let text = words.join(alloc, " ")?;
    let text = text.as_str().replace(alloc, "\\n", "\n")?;
    text.as_str().replace(alloc, "\\s", " ")
}

/// The words before the first of these, and those after it, if it is there.
pub(crate) fn split_words<'a, 'b>(
    words: &'a [&'b str],
    between: &str,
) -> Option<(&'a [&'b str], &'a [&'b str])> {
    for (at, word) in words.iter().enumerate() {
        if *word == between {
            return Some((&words[..at], &words[at + 1..]));
        }
    }
    None
}

/// As many bytes as a word says, each of this value.
pub(crate) fn bytes_of(alloc: Global, byte: u8, count: &str) -> LineResult<Vec<u8>> {
    let count = usize::from(count.parse::<u16>()?);
    Ok(vec![in alloc; byte; count]?)
}
