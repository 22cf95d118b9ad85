//! Names of records and of centres, as words of a line give them.

ghost use Rattle.std.specs.Prelude.{IfOk};
ghost use Rattle.smf_text.specs.Names.{IsName};

use book_core::{Naming, ShaNames};
use program_output::name_of_text;
use smf_frames::{Layout, split};
use smf_text::Name;
use tests_scripts::{LineFault, LineResult, Named};

/// The one record of the dump that a word names.
fn record_in(named: &Named, word: &str) -> LineResult<Vec<u8>> {
    let dump = named.read_dump(&[word])?;
    let mut parts = split(named.alloc(), Layout::Rdw, &dump)?;
    let record = parts.records.pop().ok_or(LineFault::NotUnderstood)?;
    if parts.records.is_empty() {
        Ok(record)
    } else {
        Err(LineFault::NotUnderstood)
    }
}

/// The name of a record.
fn record_name(bytes: &[u8]) -> LineResult<[u8; 32]> {
    let (_descriptor, data) = bytes.split_at_checked(4).ok_or(LineFault::NotUnderstood)?;
    Ok(ShaNames.name(data))
}

/// The name that a word spells, or that of the record which it names.
pub(crate) fn name_in(named: &Named, word: &str) -> LineResult<[u8; 32]> {
    match name_of_text(word) {
        Some(name) => Ok(name),
        None => record_name(&record_in(named, word)?),
    }
}

/// The centre that a word names.
pub(crate) fn centre_in(word: &str) -> LineResult<Name>
    ensures { IfOk result IsName }
{
    Name::of(word).ok_or(LineFault::NotUnderstood)
}
