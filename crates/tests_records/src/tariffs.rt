//! Tariff files: which are read, the first fault of one that is not and its entry, and what records
//! cost by them.

use crate::spelled_words::{split_words, text_of};
use crate::texts::push_day_text;
use smf_frames::{Layout, split};
use smf_text::{FIRST_DAY, LAST_DAY};
use smf_type30::{Class, Type30, class};
use std::alloc::Global;
use tariff_rules::{Entry, Priced, Tariff, TariffFault, price};
use tests_scripts::{AnswerText, Ask, LineFault, LineResult, Named};

/// The most copies of a piece.
const MOST_PIECES: usize = 2_000_000;

/// A text with another in the first place of one.
fn replaced(alloc: Global, text: &str, old: &str, new: &str) -> LineResult<String> {
    if text.contains(old) {
        Ok(text.replacen(alloc, old, new, 1)?)
    } else {
        Err(LineFault::NotUnderstood)
    }
}

/// A text with the text of words in the first place of that of others, an arrow between the two.
fn changed_by(alloc: Global, text: &str, words: &[&str]) -> LineResult<String> {
    let Some((old, new)) = split_words(words, "->") else {
        return Err(LineFault::NotUnderstood);
    };
    let old = text_of(alloc, old)?;
    let new = text_of(alloc, new)?;
    replaced(alloc, text, old.as_str(), new.as_str())
}

/// A text that is named, with another text in the first place of one.
fn changed(named: &Named, words: &[&str]) -> LineResult<String> {
    let [name, words @ ..] = words else {
        return Err(LineFault::NotUnderstood);
    };
    match named.text(name) {
        Some(text) => changed_by(named.alloc(), text, words),
        None => Err(LineFault::NotUnderstood),
    }
}

/// A given number of copies of a piece.
fn copies(alloc: Global, count: &str, piece: &str) -> LineResult<String> {
    let count = count.parse::<usize>()?;
    if count > MOST_PIECES {
        return Err(LineFault::NotUnderstood);
    }
    let piece = text_of(alloc, &[piece])?;
    Ok(piece.as_str().repeat(alloc, count)?)
}

/// Texts that are named, and a given number of copies of a piece after them.
fn repeated(named: &Named, words: &[&str]) -> LineResult<String> {
    let [count, piece, names @ ..] = words else {
        return Err(LineFault::NotUnderstood);
    };
    let copies = copies(named.alloc(), count, piece)?;
    let mut text = named.read_texts(names, "")?;
    text.push_str(copies.as_str())?;
    Ok(text)
}

/// The text of a tariff file that a line gives.
fn file_of(named: &Named, ask: Ask<'_>) -> LineResult<String> {
    match ask.verb {
        "file" => named.read_texts(ask.words, ask.body),
        "changed" => changed(named, ask.words),
        _ => repeated(named, ask.words),
    }
}

/// Adds the number of a fault, and what it says.
fn push_fault(out: &mut AnswerText, fault: TariffFault) {
    out.value("FAULT ", fault.number());
    out.value_line(": ", fault);
}

/// Adds what is said where there is no memory for a tariff file.
pub(crate) fn push_message(out: &mut AnswerText, words: &[&str]) -> LineResult {
    match words {
        ["memory"] => push_fault(out, TariffFault::Memory),
        _ => return Err(LineFault::NotUnderstood),
    }
    Ok(())
}

/// Adds the first day of a tariff.
fn push_first_day(out: &mut AnswerText, tariff: &Tariff) {
    push_day_text(out, "FROM ", tariff.effective());
    out.text("\n");
}

/// Adds what is read of a tariff file.
pub(crate) fn push_file(out: &mut AnswerText, text: &str) {
    match Tariff::parse(out.alloc(), text) {
        Ok(tariff) => push_first_day(out, &tariff),
        Err(fault) => push_fault(out, fault),
    }
}

/// Adds what is read of the tariff file that a line gives.
pub(crate) fn push_file_of(named: &Named, out: &mut AnswerText, ask: Ask<'_>) -> LineResult {
    push_file(out, file_of(named, ask)?.as_str());
    Ok(())
}

/// Adds the entry at which a tariff file has its fault.
fn push_entry(out: &mut AnswerText, text: &str) {
    match Tariff::entry_at_fault(out.alloc(), text) {
        Ok(Some(Entry::Shift(place))) => out.value_line("AT shift ", place),
        Ok(Some(Entry::Centre(place))) => out.value_line("AT centre ", place),
        Ok(None) => out.line("NO ENTRY"),
        Err(_) => out.cut(),
    }
}

/// Adds the entry at fault of the tariff file that the rest of a line gives.
pub(crate) fn push_entry_of(named: &Named, out: &mut AnswerText, ask: Ask<'_>) -> LineResult {
    let [verb, words @ ..] = ask.words else {
        return Err(LineFault::NotUnderstood);
    };
    let file = Ask {
        verb: *verb,
        words,
        body: ask.body,
    };
    push_entry(out, file_of(named, file)?.as_str());
    Ok(())
}

/// The record, if it is of class Usage.
pub(crate) fn usage_of(bytes: &[u8]) -> Option<Type30<'_>> {
    match class(bytes) {
        Class::Usage => Type30::read(bytes).ok(),
        _ => None,
    }
}

/// Adds a price: the day, the centre, the shift, hundredths of a second of CPU time, the blocks, and
/// the amount in ten-thousandths.
pub(crate) fn push_priced(out: &mut AnswerText, priced: &Priced) {
    if FIRST_DAY <= priced.day && priced.day <= LAST_DAY {
        push_day_text(out, "", priced.day);
    }
    out.value(" ", priced.centre.text());
    out.value(" ", priced.shift.text());
    out.value(" ", priced.cpu);
    out.value(" ", priced.excp);
    out.value(" ", priced.amount);
}

/// Adds what each usage record of a dump costs by a tariff.
fn push_costs(out: &mut AnswerText, tariff: &Tariff, dump: &[u8]) {
    match split(out.alloc(), Layout::Rdw, dump) {
        Ok(parts) => {
            for bytes in &parts.records {
                if let Some(usage) = usage_of(bytes) {
                    push_priced(out, &price(tariff, &usage));
                    out.text("\n");
                }
            }
        }
        Err(_) => out.cut(),
    }
}

/// The tariff of three rates, if there is one.
fn flat_of(alloc: Global, rates: [&str; 3]) -> LineResult<Option<Tariff>> {
    let [cpu, excp, record] = rates;
    let cpu = cpu.parse::<u64>()?;
    let excp = excp.parse::<u64>()?;
    let record = record.parse::<u64>()?;
    Ok(Tariff::flat(alloc, cpu, excp, record))
}

/// Adds the tariff of three rates, if there is one, and what records cost by it.
fn push_flat_days(out: &mut AnswerText, tariff: Option<Tariff>, dump: &[u8]) {
    let Some(tariff) = tariff else {
        out.line("NO TARIFF");
        return;
    };
    push_first_day(out, &tariff);
    push_costs(out, &tariff, dump);
}

/// The same of three rates, and a dump.
pub(crate) fn push_flat(named: &Named, out: &mut AnswerText, words: &[&str]) -> LineResult {
    let [cpu, excp, record, parts @ ..] = words else {
        return Err(LineFault::NotUnderstood);
    };
    let tariff = flat_of(named.alloc(), [*cpu, *excp, *record])?;
    let dump = named.read_dump(parts)?;
    push_flat_days(out, tariff, &dump);
    Ok(())
}

/// Adds what records cost by a tariff file.
pub(crate) fn push_prices(out: &mut AnswerText, text: &str, dump: &[u8]) {
    match Tariff::parse(out.alloc(), text) {
        Ok(tariff) => push_costs(out, &tariff, dump),
        Err(fault) => push_fault(out, fault),
    }
}
