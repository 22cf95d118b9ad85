//! The journal, in parts: what stands above the entries, and the lines of one. It may have millions of
//! entries, so it is never made whole here.

ghost use Rattle.std.specs.Prelude.{◌≡◌, ◌++◌, ◌%◌, ◌/◌, ◌<◌, OnOk, Some, option_map, string_bytes};
ghost use Rattle.book_model.specs.Words.{HasDays, ShowsActDays, ShowsDays, act_listed};
ghost use Rattle.book_model.specs.Words.{ending_shown, entry_shown, note_shown, place_shown};
ghost use Rattle.book_model.specs.Words.{reading_shown, ruling_shown};
ghost use Rattle.report_texts.specs.JournalLists as spec;

use crate::columns::push_draft;
use crate::moments::push_two_digits;
use crate::ruling_lists::{push_replacing, push_ruling_words};
use book_model::{Ending, ListedAct, ListedEntry, ListedRuling, Note, Place, Reading};
use smf_text::LAST_DAY;
use std::alloc::{AllocError, Global};
use text_drafts::Draft;

/// The seconds of a day.
const SECONDS_PER_DAY: u64 = 86_400;

/// Appends a time of day, given in seconds since midnight.
#[tactic(auto, unfolding(crate::specs::JournalLists::clock_text))]
fn push_clock(out: &mut Draft, seconds: u32)
    ensures { out.new ≡ out.old ++ spec.clock_text seconds }
{
    push_two_digits(out, seconds / 3_600);
    out.push(':');
    push_two_digits(out, seconds / 60 % 60);
    out.push(':');
    push_two_digits(out, seconds % 60);
}

/// Appends a moment, given in seconds since the beginning of 1970.
#[tactic(auto, unfolding(crate::specs::JournalLists::entry_time))]
pub(crate) fn push_entry_time(out: &mut Draft, time: u64)
    ensures { out.new ≡ out.old ++ spec.entry_time time }
{
    let day = time / SECONDS_PER_DAY;
    if day > LAST_DAY as u64 {
        out.push_number(time);
        return;
    }
    out.push_day(day as i32);
    out.push(' ');
    push_clock(out, (time % SECONDS_PER_DAY) as u32);
    out.push('Z');
}

/// Appends the words of a ruling that stands under the number of a tariff that was replaced.
#[tactic(auto, unfolding(crate::specs::JournalLists::replaced_words))]
fn push_in_place(out: &mut Draft, number: u32, ruling: &ListedRuling)
    requires { HasDays (ruling_shown ruling.now) }
    ensures { out.new ≡ out.old ++ spec.replaced_words number (ruling_shown ruling.now) }
{
    match ruling {
        ListedRuling::Tariff { day, text } => push_replacing(out, *day, text.as_str(), number),
        ListedRuling::Close { .. } => push_ruling_words(out, ruling),
        ListedRuling::Choice { .. } => push_ruling_words(out, ruling),
        ListedRuling::Withheld { .. } => push_ruling_words(out, ruling),
        ListedRuling::Adoption { .. } => push_ruling_words(out, ruling),
        ListedRuling::Replaced { .. } => push_ruling_words(out, ruling),
        ListedRuling::Credit { .. } => push_ruling_words(out, ruling),
    }
}

/// Appends the words of a ruling that was found, by where it stands.
#[tactic(auto, unfolding(crate::specs::JournalLists::ruled_words))]
fn push_found(out: &mut Draft, place: Place, ruling: &ListedRuling)
    requires { HasDays (ruling_shown ruling.now) }
    ensures { out.new
        ≡ out.old ++ spec.ruled_words (place_shown place) (Some (ruling_shown ruling.now)) }
{
    match place {
        Place::Replacement(number) => push_in_place(out, number, ruling),
        Place::Tariff(_) => push_ruling_words(out, ruling),
        Place::Close(_) => push_ruling_words(out, ruling),
        Place::Choice(_) => push_ruling_words(out, ruling),
        Place::Adoption => push_ruling_words(out, ruling),
        Place::Credit(_) => push_ruling_words(out, ruling),
    }
}

/// Appends the words of a ruling.
#[tactic(auto, unfolding(crate::specs::JournalLists::ruled_words))]
pub(crate) fn push_ruled(out: &mut Draft, place: Place, found: &Option<ListedRuling>)
    requires { ShowsDays found.now }
    ensures { out.new ≡ out.old
        ++ spec.ruled_words (place_shown place) (option_map ruling_shown found.now) }
{
    match found {
        None => out.push_str("-"),
        Some(ruling) => push_found(out, place, ruling),
    }
}

/// Appends a count behind its word.
#[tactic(auto, unfolding(crate::specs::JournalLists::entry_count))]
fn push_entry_count(out: &mut Draft, word: &str, count: u64)
    ensures { out.new ≡ out.old ++ spec.entry_count word.now count }
{
    out.push(' ');
    out.push_str(word);
    out.push(' ');
    out.push_number(count);
}

/// Appends why an import ended.
#[tactic(auto, unfolding(crate::specs::JournalLists::ending_text))]
pub(crate) fn push_ending(out: &mut Draft, ending: Option<Ending>)
    ensures { out.new ≡ out.old ++ spec.ending_text (option_map ending_shown ending) }
{
    match ending {
        None => out.push('-'),
        Some(Ending::End) => out.push_str("END"),
        Some(Ending::Frame(number)) => {
            out.push_str("FRAME ");
            out.push_number(u64::from(number));
        }
        Some(Ending::Read) => out.push_str("READ"),
        Some(Ending::ReadLimit) => out.push_str("READLIMIT"),
        Some(Ending::Ledger(number)) => {
            out.push_str("LEDGER ");
            out.push_number(u64::from(number));
        }
    }
}

/// Appends the counts of usage records.
#[tactic(auto, unfolding(crate::specs::JournalLists::usage_counts))]
fn push_usage_counts(out: &mut Draft, reading: &Reading, kept: u64)
    ensures { out.new ≡ out.old ++ spec.usage_counts (reading_shown reading.now) kept }
{
    push_entry_count(out, "KEPT", kept);
    push_entry_count(out, "KNOWN", reading.known);
    push_entry_count(out, "UNPRICED", reading.unpriced);
}

/// Appends the counts of the other records.
#[tactic(auto, unfolding(crate::specs::JournalLists::other_counts))]
fn push_other_counts(out: &mut Draft, reading: &Reading)
    ensures { out.new ≡ out.old ++ spec.other_counts (reading_shown reading.now) }
{
    push_entry_count(out, "OTHER", reading.other);
    push_entry_count(out, "HEADERS", reading.headers);
    push_entry_count(out, "TRAILERS", reading.trailers);
    push_entry_count(out, "LOST", reading.lost);
    push_entry_count(out, "CONTINUED", reading.continued);
    push_entry_count(out, "DAMAGED", reading.damaged);
}

/// Appends the line of an import.
#[tactic(auto, unfolding(crate::specs::JournalLists::import_line))]
fn push_import(out: &mut Draft, reading: &Reading, ending: Option<Ending>, kept: u64)
    ensures { out.new ≡ out.old ++ spec.import_line (reading_shown reading.now)
        (option_map ending_shown ending) kept }
{
    out.push_str("IMPORT ");
    out.push_lower_hex(&reading.digest);
    out.push(' ');
    out.push_number(reading.length);
    push_usage_counts(out, reading, kept);
    push_other_counts(out, reading);
    out.push_str(" STOP ");
    push_ending(out, ending);
    out.push('\n');
}

/// Appends the line of what an entry is about.
#[tactic(auto, unfolding(crate::specs::JournalLists::act_line))]
fn push_act(out: &mut Draft, act: &ListedAct)
    requires { ShowsActDays act.now }
    ensures { out.new ≡ out.old ++ spec.act_line (act_listed act.now) }
{
    match act {
        ListedAct::Ruling(place, found) => {
            push_ruled(out, *place, found);
            out.push('\n');
        }
        ListedAct::Import(reading, ending, kept) => push_import(out, reading, *ending, *kept),
    }
}

/// Appends a line with a part of a note, where it says something.
#[tactic(auto, unfolding(crate::specs::JournalLists::noted_line))]
fn push_noted(out: &mut Draft, word: &str, text: &str)
    ensures { out.new ≡ out.old ++ spec.noted_line word.now text.now }
{
    if text.is_empty() {
        return;
    }
    out.push_str("  ");
    out.push_str(word);
    out.push(' ');
    out.push_str(text);
    out.push('\n');
}

/// Appends the lines of a note.
#[tactic(auto, unfolding(crate::specs::JournalLists::note_lines))]
fn push_note(out: &mut Draft, note: &Note)
    ensures { out.new ≡ out.old ++ spec.note_lines (note_shown note.now) }
{
    push_noted(out, "BY", note.person.as_str());
    push_noted(out, "FILE", note.file.as_str());
    push_noted(out, "NOTE", note.remark.as_str());
}

/// Appends the lines of an entry.
#[tactic(auto, unfolding(crate::specs::JournalLists::entry_lines))]
fn push_entry(out: &mut Draft, entry: &ListedEntry)
    requires { ShowsActDays entry.now.act }
    ensures { out.new ≡ out.old ++ spec.entry_lines (entry_shown entry.now) }
{
    out.push_number(entry.number);
    out.push(' ');
    push_entry_time(out, entry.note.time);
    out.push(' ');
    push_act(out, &entry.act);
    push_note(out, &entry.note);
}

/// Appends the name of a file behind a blank, where there is one.
#[tactic(auto, unfolding(crate::specs::JournalLists::file_column))]
fn push_file_column(out: &mut Draft, file: &str)
    ensures { out.new ≡ out.old ++ spec.file_column file.now }
{
    if file.is_empty() {
        return;
    }
    out.push(' ');
    out.push_str(file);
}

/// Appends the line of a record that names the entry by which it came.
#[tactic(auto, unfolding(crate::specs::JournalLists::came_line))]
pub(crate) fn push_came_line(out: &mut Draft, entry: &Option<ListedEntry>)
    ensures { out.new ≡ out.old ++ spec.came_line (option_map entry_shown entry.now) }
{
    let Some(entry) = entry else {
        out.push_str("CAME -\n");
        return;
    };
    out.push_str("CAME ");
    out.push_number(entry.number);
    out.push(' ');
    push_entry_time(out, entry.note.time);
    push_file_column(out, entry.note.file.as_str());
    out.push('\n');
}

/// Appends what stands above the entries.
#[tactic(auto, unfolding(crate::specs::JournalLists::journal_head))]
fn push_head(out: &mut Draft, count: u64)
    ensures { out.new ≡ out.old ++ spec.journal_head count }
{
    out.push_str("JOURNAL ");
    out.push_number(count);
    out.push('\n');
}

/// Appends what stands above so many entries to a text.
pub fn push_journal_head(alloc: Global, out: &mut String, count: u64) -> Result<(), AllocError>
    ensures { OnOk result (string_bytes out.new ≡ string_bytes out.old ++ spec.journal_head count) }
{
    let mut head = Draft::new(alloc);
    push_head(&mut head, count);
    push_draft(out, &head)
}

/// Appends the lines of an entry to a text.
pub fn push_entry_lines(
    alloc: Global,
    out: &mut String,
    entry: &ListedEntry,
) -> Result<(), AllocError>
    requires { ShowsActDays entry.now.act }
    ensures { OnOk result (string_bytes out.new
        ≡ string_bytes out.old ++ spec.entry_lines (entry_shown entry.now)) }
{
    let mut lines = Draft::new(alloc);
    push_entry(&mut lines, entry);
    push_draft(out, &lines)
}
