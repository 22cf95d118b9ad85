//! What a new record changes in kept tables: by the day of the last close, and by the records that
//! are held and share its identity, each with its marks.

ghost use Rattle.book_core.specs.Effects.{HasOnly};

use crate::spelled_words::split_words;
use crate::tariffs::{push_priced, usage_of};
use book_core::{DayChange, Effects, LineChange, Member, Naming, ShaNames, View, plan};
use smf_text::day_of_text;
use tariff_rules::{Priced, Tariff, price};
use tests_scripts::{AnswerText, LineFault, LineResult, Named};

/// The name and the price of the usage record that a word names.
fn record_of(named: &Named, tariff: &Tariff, word: &str) -> LineResult<([u8; 32], Priced)> {
    let bytes = named.read_dump(&[word])?;
    let usage = usage_of(&bytes).ok_or(LineFault::NotUnderstood)?;
    let (_descriptor, data) = bytes.split_at_checked(4).ok_or(LineFault::NotUnderstood)?;
    Ok((ShaNames.name(data), price(tariff, &usage)))
}

/// A record that is held: `NAME`, with `:charged`, `:posted` or both after it.
fn held_record(named: &Named, tariff: &Tariff, word: &str) -> LineResult<Member> {
    let (record, marks) = word.split_once(':').unwrap_or((word, ""));
    let (name, priced) = record_of(named, tariff, record)?;
    Ok(Member {
        name,
        priced,
        charged: marks.starts_with("charged"),
        posted: marks.ends_with("posted"),
    })
}

/// The records that are held.
fn held_records(named: &Named, tariff: &Tariff, words: &[&str]) -> LineResult<Vec<Member>> {
    let mut held = Vec::new(named.alloc());
    for word in words {
        held.push(held_record(named, tariff, word)?)?;
    }
    Ok(held)
}

/// The day of the last close, or `-` where there was none.
fn close_of(word: &str) -> LineResult<Option<i32>> {
    match day_of_text(word) {
        None if word != "-" => Err(LineFault::NotUnderstood),
        day => Ok(day),
    }
}

/// What is looked at for a record, by those that are held and share its identity.
fn view_of(through: Option<i32>, held: &[Member]) -> View
    ensures { HasOnly result }
{
    let only = match held {
        [only] => Some(*only),
        _ => None,
    };
    View {
        through,
        members: held.len() as u64,
        only,
    }
}

/// Adds what is done to a charge row, and the price.
fn push_day_change(out: &mut AnswerText, change: &DayChange) {
    let (done, priced) = match change {
        DayChange::Add(priced) => (" ADD ", priced),
        DayChange::Take(priced) => (" TAKE ", priced),
    };
    out.text(done);
    push_priced(out, priced);
}

/// Adds what is done to an adjustment line, and the name of its record.
fn push_line_change(out: &mut AnswerText, change: &LineChange) {
    let (done, name) = match change {
        LineChange::AddPlus(name) => (" PLUS ", name),
        LineChange::DropPlus(name) => (" NO PLUS ", name),
        LineChange::AddMinus(name) => (" MINUS ", name),
        LineChange::DropMinus(name) => (" NO MINUS ", name),
    };
    out.small_digits(done, name);
}

/// Adds all that changes: marks, charge rows, adjustment lines.
fn push_effects(out: &mut AnswerText, effects: &Effects) {
    out.text(if effects.charged {
        "CHARGED"
    } else {
        "NOT CHARGED"
    });
    if let Some(name) = &effects.unmark {
        out.small_digits(" UNMARK ", name);
    }
    if let Some(change) = &effects.day {
        push_day_change(out, change);
    }
    if let Some(change) = &effects.line {
        push_line_change(out, change);
    }
    out.line("");
}

/// Adds what each of some new records changes.
fn push_plans(
    named: &Named,
    tariff: &Tariff,
    view: &View,
    words: &[&str],
    out: &mut AnswerText,
) -> LineResult
    requires { HasOnly view.now }
{
    for word in words {
        let (name, priced) = record_of(named, tariff, word)?;
        push_effects(out, &plan(view, name, &priced));
    }
    Ok(())
}

/// Adds what each new record of `TEXT CLOSE HELD.. new NEW..` changes under the tariff of the text.
pub(crate) fn push_plan(named: &Named, out: &mut AnswerText, words: &[&str]) -> LineResult {
    let [name, close, words @ ..] = words else {
        return Err(LineFault::NotUnderstood);
    };
    let text = named.text(name).ok_or(LineFault::NotUnderstood)?;
    let Ok(tariff) = Tariff::parse(named.alloc(), text) else {
        return Err(LineFault::NotUnderstood);
    };
    let (held, new) = split_words(words, "new").ok_or(LineFault::NotUnderstood)?;
    let held = held_records(named, &tariff, held)?;
    let view = view_of(close_of(close)?, &held);
    push_plans(named, &tariff, &view, new, out)
}
