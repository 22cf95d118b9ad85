//! What a line asks of books, as a request of the office.

ghost use Rattle.std.specs.Prelude.{IfOk};
ghost use Rattle.book_model.specs.Words.{IsCreditOf};
ghost use Rattle.office.specs.Runs.{IsAskableWithoutReader};

use crate::day::Day;
use crate::names::{centre_in, name_in};
use book_core::{Note, is_credit_amount, is_reason};
use office::{Asked, OwnedRuling, StatementForm, WhatIf};
use smf_frames::Layout;
use smf_text::Name;
use std::alloc::Global;
use tests_scripts::{Ask, LineFault, LineResult, Named};

/// What the words of a line ask.
pub fn ask_of<'a>(words: &'a [&'a str]) -> Ask<'a> {
    let (verb, words) = words.split_first().unwrap_or((&"", words));
    Ask {
        verb,
        words,
        body: "",
    }
}

/// The request to close a period through a day.
fn close_by(period: &str, day: &str) -> LineResult<Asked>
    ensures { IfOk result IsAskableWithoutReader }
{
    let (period, day) = (period.parse::<u16>()?, Day::of(day)?);
    let through = day.number;
    Ok(Asked::Rule(OwnedRuling::Close { period, through }, None))
}

/// The centre of a credit, and its amount in ten-thousandths of the money unit.
fn credit_words(centre: &str, amount: &str, reason: &str) -> LineResult<(Name, i64)>
    ensures { IfOk result (λ said. IsCreditOf said.0 said.1 reason.now) }
{
    let named = centre_in(centre)?;
    let units = amount.parse::<i64>()?;
    if !is_credit_amount(units) {
        return Err(LineFault::NotUnderstood);
    }
    if !is_reason(reason) {
        return Err(LineFault::NotUnderstood);
    }
    Ok((named, units))
}

/// The request to credit a centre.
fn credit_by(
    alloc: Global,
    period: &str,
    centre: &str,
    amount: &str,
    reason: &str,
) -> LineResult<Asked>
    ensures { IfOk result IsAskableWithoutReader }
{
    let period = period.parse::<u16>()?;
    let said = credit_words(centre, amount, reason)?;
    let text = String::from_str(alloc, reason)?;
    Ok(Asked::Rule(
        OwnedRuling::Credit {
            period,
            centre: said.0,
            amount: said.1,
            reason: text,
        },
        None,
    ))
}

/// What is asked of a period by another tariff: of all centres, or of the one that is named after a
/// slash.
fn what_if_of(verb: &str, place: &str) -> LineResult<WhatIf> {
    let form = if verb == "what-if-table" {
        StatementForm::Table
    } else {
        StatementForm::Text
    };
    let (period, centre) = match place.split_once('/') {
        Some((period, centre)) => (period, Some(centre_in(centre)?)),
        None => (place, None),
    };
    let period = period.parse::<u16>()?;
    Ok(WhatIf {
        form,
        period,
        centre,
    })
}

/// The request that a verb makes of one word, and of the text of a tariff after it.
fn asked_by_word(named: &Named, ask: Ask<'_>) -> LineResult<Asked>
    ensures { IfOk result IsAskableWithoutReader }
{
    let [word, names @ ..] = ask.words else {
        return Err(LineFault::NotUnderstood);
    };
    match ask.verb {
        "choose" => Ok(Asked::Rule(OwnedRuling::Choose(name_in(named, word)?), None)),
        "withhold" => Ok(Asked::Rule(OwnedRuling::Withhold(name_in(named, word)?), None)),
        "adopt" => Ok(Asked::Rule(OwnedRuling::Adopt(word.parse::<u8>()?), None)),
        "what-if" | "what-if-table" => {
            let report = what_if_of(ask.verb, word)?;
            let tariff = named.read_texts(names, ask.body)?;
            Ok(Asked::WhatIf { report, tariff })
        }
        _ => Err(LineFault::NotUnderstood),
    }
}

/// The request of a line without a note, with the bytes of its dump, if it has one. No line asks for
/// a report so: a report may also be written to a limited writer.
fn asked_without_note(named: &Named, layout: Layout, ask: Ask<'_>) -> LineResult<Asked>
    ensures { IfOk result IsAskableWithoutReader }
{
    match (ask.verb, ask.words) {
        ("tariff", names) => {
            let text = named.read_texts(names, ask.body)?;
            Ok(Asked::Rule(OwnedRuling::Tariff(text), None))
        }
        ("replace", names) => {
            let text = named.read_texts(names, ask.body)?;
            Ok(Asked::Rule(OwnedRuling::Replace(text), None))
        }
        ("import", parts) => {
            let bytes = named.read_dump(parts)?;
            Ok(Asked::ImportBytes {
                layout,
                bytes,
                note: None,
            })
        }
        ("close", [period, day]) => close_by(period, day),
        ("credit", [period, centre, amount, reason]) => {
            credit_by(named.alloc(), period, centre, amount, reason)
        }
        _ => asked_by_word(named, ask),
    }
}

/// A text of a note: `-` is none.
fn note_text(alloc: Global, word: &str) -> LineResult<String> {
    let text = if word == "-" { "" } else { word };
    Ok(String::from_str(alloc, text)?)
}

/// The note that words say: a time in seconds, a person, a remark and a file.
pub(crate) fn note_of(
    alloc: Global,
    time: &str,
    person: &str,
    remark: &str,
    file: &str,
) -> LineResult<Note> {
    Ok(Note {
        time: time.parse::<u64>()?,
        person: note_text(alloc, person)?,
        remark: note_text(alloc, remark)?,
        file: note_text(alloc, file)?,
    })
}

/// The request with this note.
fn with_note(asked: Asked, note: Note) -> Asked
    requires { IsAskableWithoutReader asked }
    ensures { IsAskableWithoutReader result }
{
    match asked {
        Asked::Rule(ruling, _) => Asked::Rule(ruling, Some(note)),
        Asked::ImportBytes {
            layout,
            bytes,
            note: _,
        } => Asked::ImportBytes {
            layout,
            bytes,
            note: Some(note),
        },
        other => other,
    }
}

/// The request of a line, with the note that it begins with, if it has one.
pub(crate) fn asked_by(named: &Named, layout: Layout, ask: Ask<'_>) -> LineResult<Asked>
    ensures { IfOk result IsAskableWithoutReader }
{
    let ("noted", [time, person, remark, file, words @ ..]) = (ask.verb, ask.words) else {
        return asked_without_note(named, layout, ask);
    };
    let note = note_of(named.alloc(), time, person, remark, file)?;
    let inner = ask_of(words);
    let alone = Ask {
        verb: inner.verb,
        words: inner.words,
        body: ask.body,
    };
    let asked = asked_without_note(named, layout, alone)?;
    Ok(with_note(asked, note))
}
