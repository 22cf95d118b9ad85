//! Who does something, when, why, and from which file: as the journal says it.

ghost use Rattle.std.specs.Prelude.{◌≡◌, IfOk, IfSome, option_map, string_bytes};
ghost use Rattle.book_model.specs.Words.{note_given};
ghost use Rattle.without_books.specs.Notes as spec;
ghost use Rattle.without_books.specs.Notes.{IsNoteBy, IsNoteOf, untimed};

use crate::inputs::{Inputs, seconds_now};
use crate::shown_paths::push_plain_bytes;
use book_core::{Note, copied_if_noted};
use command_line::{BookRequest, NoteWords, Ruling};
use std::alloc::{AllocError, Global};
use text_drafts::Draft;

/// The most bytes of the name of a file that a note has.
const MOST_FILE: usize = 255;

/// The most bytes of a person's name that the environment gives.
const MOST_PERSON: usize = 40;

/// Bytes that may be no text, as a note has them.
fn plain_text(alloc: Global, bytes: &[u8]) -> Result<String, AllocError>
    ensures { IfOk result (λ text. string_bytes text ≡ spec.plain_bytes bytes.now) }
{
    let mut text = Draft::new(alloc);
    push_plain_bytes(&mut text, bytes);
    text.finish()
}

/// The name of a file, as a note has it: the end of it, if it is long.
fn file_shown(alloc: Global, file: &str) -> Result<String, AllocError>
    ensures { IfOk result (λ text. string_bytes text ≡ spec.file_shown file.now) }
{
    let bytes = file.as_bytes();
    if bytes.len() > MOST_FILE {
        let (_, end) = bytes.split_at(bytes.len() - MOST_FILE);
        return plain_text(alloc, end);
    }
    plain_text(alloc, bytes)
}

/// The name of a person whom the environment names, as a note has it: the begin of it, if it is long.
pub(crate) fn person_shown(alloc: Global, name: &str) -> Result<String, AllocError>
    ensures { IfOk result (λ text. string_bytes text ≡ spec.person_shown name.now) }
{
    let bytes = name.as_bytes();
    if bytes.len() > MOST_PERSON {
        let (begin, _) = bytes.split_at(MOST_PERSON);
        return plain_text(alloc, begin);
    }
    plain_text(alloc, bytes)
}

/// The person whom the words name, or the environment.
fn person_of<F: Inputs>(alloc: Global, inputs: &F, by: Option<&str>) -> Result<String, AllocError>
    ensures { IfOk result (λ person. IfSome by.entry (λ name. string_bytes person ≡ name.now)) }
{
    match by {
        Some(name) => String::from_str(alloc, name),
        None => inputs.person(alloc),
    }
}

/// The remark that the words have, if they have one.
fn remark_of(alloc: Global, remark: Option<&str>) -> Result<String, AllocError>
    ensures { IfOk result (λ text. string_bytes text ≡ spec.remark_said remark.entry) }
{
    match remark {
        Some(text) => String::from_str(alloc, text),
        None => Ok(String::new(alloc)),
    }
}

/// The note of what these words ask, by the file of this name.
fn note_by<F: Inputs>(
    alloc: Global,
    inputs: &F,
    said: NoteWords<'_>,
    file: &str,
) -> Result<Option<Note>, AllocError>
    ensures { IfOk result (IsNoteBy said.entry file.now) }
{
    let person = person_of(alloc, inputs, said.by)?;
    let remark = remark_of(alloc, said.remark)?;
    let file = file_shown(alloc, file)?;
    Ok(Some(Note {
        time: inputs.time(),
        person,
        remark,
        file,
    }))
}

/// The note of what is asked of books, with the file that it is asked by. What changes no books has
/// none, and so has a dry run.
pub fn note_of<F: Inputs>(
    alloc: Global,
    inputs: &F,
    said: NoteWords<'_>,
    asked: &BookRequest<'_>,
) -> Result<Option<Note>, AllocError>
    ensures { IfOk result (IsNoteOf said.entry asked.now) }
{
    match asked {
        BookRequest::Rule(ruling) => note_of_ruling(alloc, inputs, said, ruling),
        BookRequest::RuleNear(ruling) => note_of_ruling(alloc, inputs, said, ruling),
        BookRequest::Import(dump) => note_by(alloc, inputs, said, dump.file),
        BookRequest::ChooseListed { file, .. } => note_by(alloc, inputs, said, *file),
        BookRequest::WithholdDump { file, .. } => note_by(alloc, inputs, said, *file),
        BookRequest::WithholdImport { .. } => note_by(alloc, inputs, said, ""),
        BookRequest::Serve { .. } => note_by(alloc, inputs, said, ""),
        _ => Ok(None),
    }
}

/// The note of a ruling: tariffs are in files.
fn note_of_ruling<F: Inputs>(
    alloc: Global,
    inputs: &F,
    said: NoteWords<'_>,
    ruling: &Ruling<'_>,
) -> Result<Option<Note>, AllocError>
    ensures { IfOk result (IsNoteBy said.entry (spec.file_of_ruling ruling.now)) }
{
    match ruling {
        Ruling::Tariff { file } => note_by(alloc, inputs, said, *file),
        Ruling::Replace { file } => note_by(alloc, inputs, said, *file),
        _ => note_by(alloc, inputs, said, ""),
    }
}

/// A note with another time.
fn at_time(note: Option<Note>, time: u64) -> Option<Note>
    ensures { option_map untimed (note_given result) ≡ option_map untimed (note_given note) }
{
    match note {
        None => None,
        Some(
            Note {
                person,
                remark,
                file,
                ..
            },
        ) => Some(Note {
            time,
            person,
            remark,
            file,
        }),
    }
}

/// The note of what a client of a service posts now.
pub fn noted_now(rt: &HostRuntime, note: &Option<Note>) -> Result<Option<Note>, AllocError>
    ensures { IfOk result (λ posted.
        option_map untimed (note_given posted) ≡ option_map untimed (note_given note.now)) }
{
    let own = copied_if_noted(rt.alloc(), note)?;
    Ok(at_time(own, seconds_now(rt).unwrap_or(0)))
}
