//! Entries of the journal by their numbers.

ghost use Rattle.std.specs.Prelude.{◌≡◌, ◌++◌, IfOk, IfSome, OnOk, option_map, pos};
ghost use Rattle.sqlite_value.specs.Order.{column};
ghost use Rattle.sqlite_value.specs.declared.value.Value.TheVariants.{Int, Text};
ghost use Rattle.book_model.specs.Words.{ending_shown, note_shown, place_shown, reading_shown};
ghost use Rattle.tree_tables.specs.EntriesRead.{SaysAct, SaysEntry, SaysNote, SaysReading};
ghost use Rattle.tree_tables.specs.JournalColumns as spec;
ghost use Rattle.tree_tables.specs.JournalColumns.{act_columns, act_stored, ending_columns};
ghost use Rattle.tree_tables.specs.JournalColumns.{entry_given};
ghost use Rattle.tree_tables.specs.JournalColumns.{journal_columns, note_columns};
ghost use Rattle.tree_tables.specs.JournalColumns.{reading_columns};

use crate::column_values::{count_at, hash_at, int_at, push_number, str_at, text_at};
use crate::columns::{
    ENTRY_ACT, ENTRY_CONTINUED, ENTRY_DAMAGED, ENTRY_DIGEST, ENTRY_FAULT, ENTRY_FILE,
    ENTRY_HEADERS, ENTRY_KEPT, ENTRY_KNOWN, ENTRY_LENGTH, ENTRY_LOST, ENTRY_NUMBER, ENTRY_OTHER,
    ENTRY_PERSON, ENTRY_PLACE, ENTRY_REMARK, ENTRY_STOP, ENTRY_TIME, ENTRY_TRAILERS,
    ENTRY_UNPRICED,
};
use crate::keys::entry_key;
use crate::tables::TreeTables;
use crate::trees::JOURNAL;
use book_model::{Ending, Note, Place, Reading};
use sqlite_trees::error::StoreError;
use sqlite_trees::store::Store;
use sqlite_value::row::Row;
use sqlite_value::value::ValueRef;
use std::alloc::Global;
use tree_rows::{find_row, last_row, put_row};

/// The word for an import.
const IMPORT: &str = "IMPORT";

/// What an entry is about, as its row says.
#[derive(Clone, Copy)]
pub enum StoredAct {
    /// A ruling that was done, by its place.
    Ruling(Place),
    /// An import: what it has read, why it ended, if it did, and how many records it kept.
    Import(Reading, Option<Ending>, u64),
}

/// An entry as its row says.
#[derive(Drop)]
pub struct StoredEntry {
    pub note: Note,
    pub act: StoredAct,
}

/// The word for a ruling, by its place.
fn place_word(place: Place) -> &'static str
    ensures { result.now ≡ spec.place_word (place_shown place) }
{
    match place {
        Place::Tariff(_) => "TARIFF",
        Place::Close(_) => "CLOSE",
        Place::Choice(_) => "CHOICE",
        Place::Adoption => "ADOPTION",
        Place::Replacement(_) => "REPLACEMENT",
        Place::Credit(_) => "CREDIT",
    }
}

/// The number under which a ruling stands.
pub fn place_number(place: Place) -> i64
    ensures { result ≡ spec.place_number (place_shown place) }
{
    match place {
        Place::Tariff(day) => i64::from(day),
        Place::Close(period) => i64::from(period),
        Place::Choice(number) => i64::from(number),
        Place::Adoption => 0,
        Place::Replacement(number) => i64::from(number),
        Place::Credit(number) => i64::from(number),
    }
}

/// Why an import ended, in a word; none where it goes on or was cut off.
fn ending_word(ending: Option<Ending>) -> &'static str
    ensures { result.now ≡ spec.ending_word (option_map ending_shown ending) }
{
    match ending {
        None => "",
        Some(Ending::End) => "END",
        Some(Ending::Frame(_)) => "FRAME",
        Some(Ending::Read) => "READ",
        Some(Ending::ReadLimit) => "READLIMIT",
        Some(Ending::Ledger(_)) => "LEDGER",
    }
}

/// The number of the fault that ended an import, or 0.
fn ending_number(ending: Option<Ending>) -> u8
    ensures { result ≡ spec.ending_number (option_map ending_shown ending) }
{
    match ending {
        Some(Ending::Frame(number)) => number,
        Some(Ending::Ledger(number)) => number,
        _ => 0,
    }
}

/// A note joins the row of its entry.
fn push_note(row: &mut Row, note: &Note) -> Result<(), StoreError>
    ensures { OnOk result (row.new ≡ row.old ++ note_columns (note_shown note.now)) }
{
    push_number(row, note.time)?;
    row.push(ValueRef::Text(note.person.as_bytes()))?;
    row.push(ValueRef::Text(note.remark.as_bytes()))?;
    row.push(ValueRef::Text(note.file.as_bytes()))?;
    Ok(())
}

/// What a dump had of records that are no usage records, or were not whole, joins the row.
fn push_others(row: &mut Row, reading: &Reading) -> Result<(), StoreError>
    ensures { OnOk result (row.new ≡ row.old ++ spec.other_columns (reading_shown reading.now)) }
{
    push_number(row, reading.other)?;
    push_number(row, reading.headers)?;
    push_number(row, reading.trailers)?;
    push_number(row, reading.lost)?;
    push_number(row, reading.continued)?;
    push_number(row, reading.damaged)
}

/// What an import has read, and how many records it kept, join the row of its entry.
fn push_reading(row: &mut Row, reading: &Reading, kept: u64) -> Result<(), StoreError>
    ensures { OnOk result (row.new ≡ row.old ++ reading_columns (reading_shown reading.now) kept) }
{
    row.push(ValueRef::Blob(&reading.digest))?;
    push_number(row, reading.length)?;
    push_number(row, kept)?;
    push_number(row, reading.known)?;
    push_number(row, reading.unpriced)?;
    push_others(row, reading)
}

/// A ruling's place joins the row of its entry.
fn push_ruling(row: &mut Row, place: Place) -> Result<(), StoreError>
    ensures { OnOk result (row.new ≡ row.old ++ act_columns (act_stored (StoredAct.Ruling place))) }
{
    row.push(ValueRef::Text(place_word(place).as_bytes()))?;
    row.push(ValueRef::Int(place_number(place)))?;
    Ok(())
}

/// Why an import ended joins the row of its entry.
fn push_ending(row: &mut Row, ending: Option<Ending>) -> Result<(), StoreError>
    ensures { OnOk result (row.new ≡ row.old ++ ending_columns (option_map ending_shown ending)) }
{
    row.push(ValueRef::Text(ending_word(ending).as_bytes()))?;
    push_number(row, u64::from(ending_number(ending)))
}

/// An import joins the row of its entry.
fn push_import(
    row: &mut Row,
    reading: &Reading,
    ending: Option<Ending>,
    kept: u64,
) -> Result<(), StoreError>
    ensures { OnOk result (row.new ≡ row.old
        ++ act_columns (act_stored (StoredAct.Import reading.now ending kept))) }
{
    row.push(ValueRef::Text(IMPORT.as_bytes()))?;
    row.push(ValueRef::Null)?;
    push_reading(row, reading, kept)?;
    push_ending(row, ending)
}

/// What an entry is about joins its row.
fn push_act(row: &mut Row, act: &StoredAct) -> Result<(), StoreError>
    ensures { OnOk result (row.new ≡ row.old ++ act_columns (act_stored act.now)) }
{
    match *act {
        StoredAct::Ruling(place) => push_ruling(row, place),
        StoredAct::Import(reading, ending, kept) => push_import(row, &reading, ending, kept),
    }
}

/// Makes the row of an entry.
fn entry_row(row: &mut Row, number: u64, note: &Note, act: &StoredAct) -> Result<(), StoreError>
    ensures { OnOk result (row.new
        ≡ journal_columns (number, entry_given (note_shown note.now) act.now)) }
{
    entry_key(row, number)?;
    push_note(row, note)?;
    push_act(row, act)
}

/// What the row of an entry says of its note.
fn read_note(row: &Row, alloc: Global) -> Result<Note, StoreError>
    ensures says { IfOk result (SaysNote row.now) }
{
    Ok(Note {
        time: count_at(row, ENTRY_TIME)?,
        person: text_at(row, ENTRY_PERSON, alloc)?,
        remark: text_at(row, ENTRY_REMARK, alloc)?,
        file: text_at(row, ENTRY_FILE, alloc)?,
    })
}

/// The place that a word and a number stand for.
fn place_of(word: &str, number: i64) -> Option<Place>
    ensures word { IfSome result (λ place. spec.place_word (place_shown place) ≡ word.now) }
    ensures number { IfSome result (λ place. spec.place_number (place_shown place) ≡ number) }
{
    if word == "TARIFF" {
        return Some(Place::Tariff(i32::try_from(number).ok()?));
    }
    if word == "CLOSE" {
        return Some(Place::Close(u16::try_from(number).ok()?));
    }
    let place = u32::try_from(number).ok()?;
    if word == "CHOICE" {
        return Some(Place::Choice(place));
    }
    if word == "REPLACEMENT" {
        return Some(Place::Replacement(place));
    }
    if word == "CREDIT" {
        return Some(Place::Credit(place));
    }
    if word == "ADOPTION" && place == 0 {
        return Some(Place::Adoption);
    }
    None
}

/// What a word and a number say of the end of an import: none where it has none.
fn ending_of(word: &str, number: u8) -> Option<Option<Ending>>
    ensures word { IfSome result (λ ending.
        spec.ending_word (option_map ending_shown ending) ≡ word.now) }
    ensures number { IfSome result (λ ending.
        spec.ending_number (option_map ending_shown ending) ≡ number) }
{
    if word == "FRAME" {
        return Some(Some(Ending::Frame(number)));
    }
    if word == "LEDGER" {
        return Some(Some(Ending::Ledger(number)));
    }
    if number != 0 {
        return None;
    }
    if word == "END" {
        return Some(Some(Ending::End));
    }
    if word == "READ" {
        return Some(Some(Ending::Read));
    }
    if word == "READLIMIT" {
        return Some(Some(Ending::ReadLimit));
    }
    if word == "" {
        return Some(None);
    }
    None
}

/// What the row of an import says of its end.
fn read_ending(row: &Row) -> Result<Option<Ending>, StoreError>
    ensures word { IfOk result (λ ending. column row.now ENTRY_STOP
        ≡ Text (spec.ending_word (option_map ending_shown ending))) }
    ensures number { IfOk result (λ ending. column row.now ENTRY_FAULT
        ≡ Int (pos (spec.ending_number (option_map ending_shown ending)))) }
{
    let number = int_at(row, ENTRY_FAULT)?;
    let Ok(fault) = u8::try_from(number) else {
        return Err(StoreError::Corrupt);
    };
    let word = str_at(row, ENTRY_STOP)?;
    ending_of(word, fault).ok_or(StoreError::Corrupt)
}

/// What the row of an import says that it has read.
fn read_reading(row: &Row) -> Result<Reading, StoreError>
    ensures says { IfOk result (SaysReading row.now) }
{
    Ok(Reading {
        digest: hash_at(row, ENTRY_DIGEST)?,
        length: count_at(row, ENTRY_LENGTH)?,
        known: count_at(row, ENTRY_KNOWN)?,
        unpriced: count_at(row, ENTRY_UNPRICED)?,
        other: count_at(row, ENTRY_OTHER)?,
        headers: count_at(row, ENTRY_HEADERS)?,
        trailers: count_at(row, ENTRY_TRAILERS)?,
        lost: count_at(row, ENTRY_LOST)?,
        continued: count_at(row, ENTRY_CONTINUED)?,
        damaged: count_at(row, ENTRY_DAMAGED)?,
    })
}

/// What the row of an entry with this word says that it is about.
fn read_act(row: &Row, word: &str) -> Result<StoredAct, StoreError>
    requires { column row.now ENTRY_ACT ≡ Text word.now }
    ensures says { IfOk result (SaysAct row.now) }
{
    if word == IMPORT {
        let reading = read_reading(row)?;
        let ending = read_ending(row)?;
        let kept = count_at(row, ENTRY_KEPT)?;
        return Ok(StoredAct::Import(reading, ending, kept));
    }
    let number = int_at(row, ENTRY_PLACE)?;
    let place = place_of(word, number).ok_or(StoreError::Corrupt)?;
    Ok(StoredAct::Ruling(place))
}

/// What the row of an entry says.
pub fn read_entry(row: &Row, alloc: Global) -> Result<StoredEntry, StoreError>
    ensures says { IfOk result (SaysEntry row.now) }
{
    let word = str_at(row, ENTRY_ACT)?;
    let act = read_act(row, word)?;
    Ok(StoredEntry {
        note: read_note(row, alloc)?,
        act,
    })
}

impl<S: Store> TreeTables<S> {
    ghost use Rattle.std.specs.Prelude.{◌≡◌, ◌<◌, ◌^◌, IfOk};
    ghost use Rattle.book_model.specs.Words.{note_shown};
    ghost use Rattle.table_model.specs.Steps as step;
    ghost use Rattle.tree_tables.specs.Answers.{last_number};
    ghost use Rattle.tree_tables.specs.EntriesRead.{FindsEntry};
    ghost use Rattle.tree_tables.specs.JournalColumns.{entry_given};
    ghost use Rattle.tree_tables.specs.States.{state_of};
    ghost use Rattle.tree_tables.specs.Steps.{Always, Does, Looks};

    /// An entry is kept under its number, in the place of the one that is there.
    pub fn put_entry(&mut self, number: u64, note: &Note, act: &StoredAct) -> Result<(), StoreError>
        ensures does { Does result (state_of self.old) (state_of self.new) Always
            (step.put_journal_row number (entry_given (note_shown note.now) act.now)) }
    {
        entry_key(&mut self.key, number)?;
        entry_row(&mut self.row, number, note, act)?;
        put_row(
            &mut self.store,
            JOURNAL,
            &self.key,
            &self.row,
            &mut self.before,
        )
    }

    /// The entry of a number, if there is one: one look, however many there are.
    pub fn find_entry(
        &mut self,
        alloc: Global,
        number: u64,
    ) -> Result<Option<StoredEntry>, StoreError>
        ensures looks { Looks result (state_of self.old) (state_of self.new) (FindsEntry number) }
    {
        entry_key(&mut self.key, number)?;
        if !find_row(&mut self.store, JOURNAL, &self.key, &mut self.row)? {
            return Ok(None);
        }
        Ok(Some(read_entry(&self.row, alloc)?))
    }

    /// The number of the newest entry, or 0 where there is none: one look at the end of the tree,
    /// however many entries there are.
    pub fn last_entry(&mut self) -> Result<u64, StoreError>
        ensures looks { Looks result (state_of self.old) (state_of self.new)
            (λ tables number. number ≡ last_number tables.journal) }
        ensures small { IfOk result (λ number. number < 2 ^ 63) }
    {
        if !last_row(&mut self.store, JOURNAL, &mut self.row)? {
            return Ok(0);
        }
        count_at(&self.row, ENTRY_NUMBER)
    }
}
