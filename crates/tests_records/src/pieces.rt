//! A joiner that gets a dump in pieces: their sizes make no difference.

use crate::spelled_words::split_words;
use smf_frames::{FrameFault, Joiner, Layout, Split, split};
use std::alloc::{AllocError, Global};
use tests_scripts::{AnswerText, LineFault, LineResult, Named};

/// More pieces and records than any dump of a script has.
const ROUNDS: u32 = 200_000;

/// Gives a joiner a piece of this many bytes. Answers what it left.
fn take_piece<'a>(
    joiner: &mut Joiner,
    bytes: &'a [u8],
    size: usize,
) -> Result<&'a [u8], FrameFault> {
    let (piece, _) = bytes.split_at(size.min(bytes.len()));
    let taken = joiner.feed(piece)?;
    Ok(&bytes[taken..])
}

/// Adds the record at which the joiner stands, and moves past it. False where there is none.
fn take_record(
    alloc: Global,
    joiner: &mut Joiner,
    records: &mut Vec<Vec<u8>>,
) -> Result<bool, AllocError> {
    let Some(bytes) = joiner.record() else {
        return Ok(false);
    };
    records.push(bytes.to_vec(alloc)?)?;
    joiner.next();
    Ok(true)
}

/// Adds the records that a joiner makes of a dump that it gets in pieces of this many bytes.
/// Answers the fault at which it stops, if it does.
fn take_records(
    alloc: Global,
    joiner: &mut Joiner,
    records: &mut Vec<Vec<u8>>,
    dump: &[u8],
    size: usize,
) -> Result<Option<FrameFault>, AllocError> {
    let mut rest = dump;
    for _ in 0..ROUNDS {
        match take_piece(joiner, rest, size) {
            Ok(later) => rest = later,
            Err(fault) => return Ok(Some(fault)),
        }
        if !take_record(alloc, joiner, records)? && rest.is_empty() {
            break;
        }
    }
    Ok(None)
}

/// What a joiner makes of a dump that it gets in pieces of this many bytes.
fn in_pieces(alloc: Global, layout: Layout, dump: &[u8], size: usize) -> Result<Split, AllocError> {
    let mut joiner = Joiner::new(alloc, layout)?;
    let mut records = Vec::new(alloc);
    let fault = take_records(alloc, &mut joiner, &mut records, dump, size)?;
    Ok(Split {
        records,
        fault: fault.or(joiner.finish().err()),
        is_broken: fault.is_some(),
    })
}

/// What a dump of parts is cut into.
pub(crate) fn split_of(named: &Named, layout: Layout, parts: &[&str]) -> LineResult<Split> {
    let dump = named.read_dump(parts)?;
    Ok(split(named.alloc(), layout, &dump)?)
}

/// A joiner makes this of a dump that it gets in pieces of this many bytes.
fn is_made_in(
    alloc: Global,
    layout: Layout,
    dump: &[u8],
    whole: &Split,
    size: usize,
) -> Result<bool, AllocError> {
    let parts = in_pieces(alloc, layout, dump, size)?;
    Ok(
        parts.records == whole.records
            && parts.fault == whole.fault
            && parts.is_broken == whole.is_broken,
    )
}

/// Adds a line of sizes, if there are any.
fn push_sizes(out: &mut AnswerText, what: &str, sizes: &AnswerText) {
    if sizes.as_bytes().is_empty() {
        return;
    }
    out.text(what);
    out.add(sizes);
    out.text("\n");
}

/// Adds the sizes of pieces with which a joiner makes this of a dump, and the others.
fn push_made(
    out: &mut AnswerText,
    layout: Layout,
    dump: &[u8],
    whole: &Split,
    sizes: &str,
) -> LineResult {
    let mut same = AnswerText::new(out.alloc());
    let mut other = AnswerText::new(out.alloc());
    for word in sizes.split(',') {
        let size = word.parse::<usize>()?;
        if is_made_in(out.alloc(), layout, dump, whole, size)? {
            same.value(" ", size);
        } else {
            other.value(" ", size);
        }
    }
    push_sizes(out, "SAME IN", &same);
    push_sizes(out, "OTHER IN", &other);
    Ok(())
}

/// Adds the sizes of pieces with which a joiner makes of a dump what `split` makes of it, or of the
/// dump after a colon, and the others.
pub(crate) fn push_pieces(
    named: &Named,
    out: &mut AnswerText,
    layout: Layout,
    words: &[&str],
) -> LineResult {
    let [sizes, parts @ ..] = words else {
        return Err(LineFault::NotUnderstood);
    };
    let (parts, other) = split_words(parts, ":").unwrap_or((parts, parts));
    let whole = split_of(named, layout, other)?;
    let dump = named.read_dump(parts)?;
    push_made(out, layout, &dump, &whole, sizes)
}
