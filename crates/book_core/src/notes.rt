//! Copies of notes.

ghost use Rattle.std.specs.Prelude.{◌≡◌, IfOk, string_bytes};
ghost use Rattle.book_model.specs.Words.{note_given, note_shown};

use book_model::Note;
use std::alloc::{AllocError, Global};

/// A text once more.
fn copied_text(alloc: Global, text: &String) -> Result<String, AllocError>
    ensures { IfOk result (λ copy. string_bytes copy ≡ string_bytes text.now) }
{
    String::from_str(alloc, text)
}

/// A note once more.
pub fn copied_note(alloc: Global, note: &Note) -> Result<Note, AllocError>
    ensures { IfOk result (λ copy. note_shown copy ≡ note_shown note.now) }
{
    let person = copied_text(alloc, &note.person)?;
    let remark = copied_text(alloc, &note.remark)?;
    let file = copied_text(alloc, &note.file)?;
    Ok(Note {
        time: note.time,
        person,
        remark,
        file,
    })
}

/// The same, where there is one.
pub fn copied_if_noted(alloc: Global, note: &Option<Note>) -> Result<Option<Note>, AllocError>
    ensures { IfOk result (λ copy. note_given copy ≡ note_given note.now) }
{
    match note {
        None => Ok(None),
        Some(note) => {
            let copy = copied_note(alloc, note)?;
            Ok(Some(copy))
        }
    }
}
