//! The journal as a table of comma-separated values, in parts: the heading, and the row of an entry.
//! It may have millions of entries, so it is never made whole here.

ghost use Rattle.std.specs.Prelude.{◌≡◌, [], ◌∷◌, ◌++◌, IfOk, option_map};
ghost use Rattle.book_model.specs.Words.{ShowsActDays, ShowsDays, act_listed, ending_shown};
ghost use Rattle.book_model.specs.Words.{entry_shown, note_shown, place_shown, reading_shown};
ghost use Rattle.book_model.specs.Words.{ruling_shown};
ghost use Rattle.report_texts.specs.JournalLists.{ending_text, entry_time};
ghost use Rattle.report_texts.specs.JournalTables as spec;

use crate::fields::{add_name, add_number, add_row};
use crate::journal_lists::{push_ending, push_entry_time, push_ruled};
use book_model::{Ending, ListedAct, ListedEntry, ListedRuling, Note, Place, Reading};
use std::alloc::{AllocError, Global};
use text_drafts::{Draft, RowDraft, TableDraft};

/// Adds the names of the columns.
fn add_heading(table: &mut TableDraft)
    ensures { table.new ≡ table.old ++ spec.journal_heading }
{
    let names: [&[u8]; 19] = [
        b"number",
        b"time",
        b"act",
        b"words",
        b"digest",
        b"length",
        b"kept",
        b"known",
        b"unpriced",
        b"other",
        b"headers",
        b"trailers",
        b"lost",
        b"continued",
        b"damaged",
        b"stop",
        b"person",
        b"file",
        b"note",
    ];
    table.add_texts(&names);
}

/// Adds when something was entered.
fn add_entry_time(row: &mut RowDraft, time: u64)
    ensures { row.new ≡ row.old ++ entry_time time ∷ [] }
{
    let mut text = Draft::new(row.alloc());
    push_entry_time(&mut text, time);
    row.add_draft(&text);
}

/// What was ruled, in one word, by where it stands.
#[tactic(auto, unfolding(crate::specs::JournalTables::place_word))]
fn word_of(place: Place) -> &'static str
    ensures { result.now ≡ spec.place_word (place_shown place) }
{
    match place {
        Place::Tariff(_) => "TARIFF",
        Place::Close(_) => "CLOSE",
        Place::Choice(_) => "CHOICE",
        Place::Adoption => "ADOPTION",
        Place::Replacement(_) => "REPLACEMENT",
        Place::Credit(_) => "CREDIT",
    }
}

/// Adds empty fields in the columns of imports.
#[tactic(auto, unfolding(crate::specs::JournalTables::no_reading))]
fn add_no_reading(row: &mut RowDraft)
    ensures { row.new ≡ row.old ++ spec.no_reading }
{
    row.add_str("");
    row.add_str("");
    row.add_str("");
    row.add_str("");
    row.add_str("");
    row.add_str("");
    row.add_str("");
    row.add_str("");
    row.add_str("");
    row.add_str("");
    row.add_str("");
    row.add_str("");
}

/// Adds a ruling, by where it stands.
#[tactic(auto, unfolding(crate::specs::JournalTables::act_fields))]
fn add_ruled(row: &mut RowDraft, place: Place, found: &Option<ListedRuling>)
    requires { ShowsDays found.now }
    ensures { row.new ≡ row.old
        ++ spec.act_fields (act_listed (ListedAct.Ruling place found.now)) }
{
    let mut words = Draft::new(row.alloc());
    push_ruled(&mut words, place, found);
    row.add_str(word_of(place));
    row.add_draft(&words);
    add_no_reading(row);
}

/// Adds what an import read, and how many usage records that was.
#[tactic(auto, unfolding(crate::specs::JournalTables::usage_fields))]
fn add_usage(row: &mut RowDraft, reading: &Reading, kept: u64)
    ensures { row.new ≡ row.old ++ spec.usage_fields (reading_shown reading.now) kept }
{
    add_name(row, &reading.digest);
    add_number(row, reading.length);
    add_number(row, kept);
    add_number(row, reading.known);
    add_number(row, reading.unpriced);
}

/// Adds how many other records it read.
#[tactic(auto, unfolding(crate::specs::JournalTables::other_fields))]
fn add_others(row: &mut RowDraft, reading: &Reading)
    ensures { row.new ≡ row.old ++ spec.other_fields (reading_shown reading.now) }
{
    add_number(row, reading.other);
    add_number(row, reading.headers);
    add_number(row, reading.trailers);
    add_number(row, reading.lost);
    add_number(row, reading.continued);
    add_number(row, reading.damaged);
}

/// Adds why an import ended.
fn add_ending(row: &mut RowDraft, ending: Option<Ending>)
    ensures { row.new ≡ row.old ++ ending_text (option_map ending_shown ending) ∷ [] }
{
    let mut text = Draft::new(row.alloc());
    push_ending(&mut text, ending);
    row.add_draft(&text);
}

/// Adds an import.
#[tactic(auto, unfolding(crate::specs::JournalTables::act_fields))]
fn add_import(row: &mut RowDraft, reading: &Reading, ending: Option<Ending>, kept: u64)
    ensures { row.new ≡ row.old
        ++ spec.act_fields (act_listed (ListedAct.Import reading.now ending kept)) }
{
    row.add_str("IMPORT");
    row.add_str("");
    add_usage(row, reading, kept);
    add_others(row, reading);
    add_ending(row, ending);
}

/// Adds what an entry is about.
fn add_act(row: &mut RowDraft, act: &ListedAct)
    requires { ShowsActDays act.now }
    ensures { row.new ≡ row.old ++ spec.act_fields (act_listed act.now) }
{
    match act {
        ListedAct::Ruling(place, found) => add_ruled(row, *place, found),
        ListedAct::Import(reading, ending, kept) => add_import(row, reading, *ending, *kept),
    }
}

/// Adds who did it, from which file, and with which remark.
#[tactic(auto, unfolding(crate::specs::JournalTables::note_fields))]
fn add_note(row: &mut RowDraft, note: &Note)
    ensures { row.new ≡ row.old ++ spec.note_fields (note_shown note.now) }
{
    row.add_str(note.person.as_str());
    row.add_str(note.file.as_str());
    row.add_str(note.remark.as_str());
}

/// Adds the fields of an entry.
#[tactic(auto, unfolding(crate::specs::JournalTables::entry_fields))]
fn add_entry(row: &mut RowDraft, entry: &ListedEntry)
    requires { ShowsActDays entry.now.act }
    ensures { row.new ≡ row.old ++ spec.entry_fields (entry_shown entry.now) }
{
    add_number(row, entry.number);
    add_entry_time(row, entry.note.time);
    add_act(row, &entry.act);
    add_note(row, &entry.note);
}

/// The names of the columns, which stand above the rows.
pub fn journal_table_head(alloc: Global) -> Result<Vec<u8>, AllocError>
    ensures { IfOk result (λ head. head.items ≡ spec.journal_heading) }
{
    let mut table = TableDraft::new(alloc);
    add_heading(&mut table);
    table.finish()
}

/// The row of an entry.
pub fn entry_row(alloc: Global, entry: &ListedEntry) -> Result<Vec<u8>, AllocError>
    requires { ShowsActDays entry.now.act }
    ensures { IfOk result (λ row. row.items ≡ spec.entry_row (entry_shown entry.now)) }
{
    let mut row = RowDraft::new(alloc);
    add_entry(&mut row, entry);
    let mut table = TableDraft::new(alloc);
    add_row(&mut table, &row);
    table.finish()
}
