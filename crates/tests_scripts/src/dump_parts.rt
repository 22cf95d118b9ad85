//! Dumps, put together of parts that a script names.

use crate::line_result::{LineFault, LineResult};
use std::alloc::Global;
use std::collections::BTreeMap;

/// Dumps that a script has named.
pub(crate) type Dumps = BTreeMap<String, Vec<u8>>;

/// The most zeros, or copies of a dump, that one part has.
const MOST_TIMES: usize = 100_000;

/// What a hexadecimal digit is worth.
fn digit_of(byte: u8) -> Option<u8> {
    match byte {
        b'0'..=b'9' => Some(byte - b'0'),
        b'A'..=b'F' => Some(byte - b'A' + 10),
        _ => None,
    }
}

/// The byte that two digits spell.
fn byte_of(digits: &[u8]) -> Option<u8> {
    let [high, low] = *digits else {
        return None;
    };
    Some(digit_of(high)? << 4 | digit_of(low)?)
}

/// Adds the bytes that a word spells, two capital digits each.
pub fn push_hex(out: &mut Vec<u8>, word: &str) -> LineResult {
    for digits in word.as_bytes().chunks(2) {
        let Some(byte) = byte_of(digits) else {
            return Err(LineFault::NotUnderstood);
        };
        out.push(byte)?;
    }
    Ok(())
}

/// Adds the bytes that the words of a line spell, up to a word that begins with a semicolon.
fn push_hex_line(out: &mut Vec<u8>, line: &str) -> LineResult {
    for word in line.split_whitespace() {
        if word.starts_with(';') {
            break;
        }
        push_hex(out, word)?;
    }
    Ok(())
}

/// Adds the bytes that lines spell.
pub(crate) fn push_hex_lines(out: &mut Vec<u8>, lines: &str) -> LineResult {
    for line in lines.lines() {
        push_hex_line(out, line)?;
    }
    Ok(())
}

/// Puts bytes over those at a place, if they are there.
fn put_at(out: &mut [u8], place: &str, bytes: &[u8]) -> LineResult {
    let at = place.parse::<usize>()?;
    if at > out.len() || bytes.len() > out.len() - at {
        return Err(LineFault::NotUnderstood);
    }
    out[at..at + bytes.len()].copy_from_slice(bytes);
    Ok(())
}

/// Puts the bytes that a word spells over those at a place, if they are there.
fn put_hex(alloc: Global, out: &mut [u8], place: &str, word: &str) -> LineResult {
    let mut bytes = Vec::new(alloc);
    push_hex(&mut bytes, word)?;
    put_at(out, place, &bytes)
}

/// Adds a given number of copies of bytes.
fn push_copies(out: &mut Vec<u8>, bytes: &[u8], count: &str) -> LineResult {
    let times = count.parse::<usize>()?;
    if times > MOST_TIMES {
        return Err(LineFault::NotUnderstood);
    }
    for _ in 0..times {
        out.extend_from_slice(bytes)?;
    }
    Ok(())
}

/// Adds a given number of copies of bytes, each with its number, from 0 on, in two bytes at a place
/// of it.
fn push_numbered(
    alloc: Global,
    out: &mut Vec<u8>,
    bytes: &[u8],
    count: &str,
    place: &str,
) -> LineResult {
    let times = count.parse::<u16>()?;
    let mut copy = Vec::from_slice(alloc, bytes)?;
    for number in 0..times {
        put_at(&mut copy, place, &number.to_be_bytes())?;
        out.extend_from_slice(&copy)?;
    }
    Ok(())
}

/// The place that a word spells; where it is empty, the end of a given number of bytes.
fn end_of(place: &str, len: usize) -> Option<usize> {
    if place.is_empty() {
        Some(len)
    } else {
        place.parse::<usize>().ok()
    }
}

/// The bytes from one place up to another, if they are there.
fn slice_of<'a>(bytes: &'a [u8], places: &str) -> Option<&'a [u8]> {
    let (from, to) = places.split_once("..")?;
    let from = from.parse::<usize>().ok()?;
    bytes.get(from..end_of(to, bytes.len())?)
}

/// The bytes of a dump that is named, or those at some places of it.
fn named<'a>(dumps: &'a Dumps, part: &str) -> Option<&'a [u8]> {
    let (name, places) = part.split_once('/').unwrap_or((part, "0.."));
    slice_of(dumps.get(name)?.as_slice(), places)
}

/// Adds a given number of copies of bytes, with the number of each at the place after an at sign,
/// if any.
fn push_times(alloc: Global, out: &mut Vec<u8>, bytes: &[u8], times: &str) -> LineResult {
    match times.split_once('@') {
        None => push_copies(out, bytes, times),
        Some((count, place)) => push_numbered(alloc, out, bytes, count, place),
    }
}

/// Adds a dump that is named, or bytes of it, once or as often as is said after a star.
fn push_named(alloc: Global, dumps: &Dumps, out: &mut Vec<u8>, part: &str) -> LineResult {
    let (part, count) = part.split_once('*').unwrap_or((part, "1"));
    match named(dumps, part) {
        Some(bytes) => push_times(alloc, out, bytes, count),
        None => Err(LineFault::NotUnderstood),
    }
}

/// Adds a part that names no dump: what is before its colon, and after it.
fn push_kind(alloc: Global, out: &mut Vec<u8>, kind: &str, word: &str) -> LineResult {
    match kind {
        "x" => push_hex(out, word),
        "zeros" => push_copies(out, &[0], word),
        place => put_hex(alloc, out, place, word),
    }
}

/// Adds a part: `NAME`, `NAME/FROM..TO`, either followed by `*COUNT` or, where each copy is to have
/// its number, by `*COUNT@PLACE`; `x:HEX`, `zeros:COUNT`, or `PLACE:HEX`, which is put over what is
/// there so far.
fn push_part(alloc: Global, dumps: &Dumps, out: &mut Vec<u8>, part: &str) -> LineResult {
    match part.split_once(':') {
        Some((kind, word)) => push_kind(alloc, out, kind, word),
        None => push_named(alloc, dumps, out, part),
    }
}

/// The dump of parts. Where there is a number, a part `at:PLACE` puts it there, in two bytes.
pub(crate) fn dump_of(
    alloc: Global,
    dumps: &Dumps,
    parts: &[&str],
    number: Option<u16>,
) -> LineResult<Vec<u8>> {
    let mut out = Vec::new(alloc);
    for part in parts {
        match (part.strip_prefix("at:"), number) {
            (Some(place), Some(number)) => put_at(&mut out, place, &number.to_be_bytes())?,
            _ => push_part(alloc, dumps, &mut out, part)?,
        }
    }
    Ok(out)
}
