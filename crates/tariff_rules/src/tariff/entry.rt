//! The entry of a tariff file at which reading met its fault.

ghost use Rattle.std.specs.Prelude.{◌≡◌, ◌<◌, ◌^◌, length, map, IfOk, IfSome};
ghost use Rattle.toml.specs.View.{table_view, view};
ghost use Rattle.tariff_rules.specs.Entry as spec;
ghost use Rattle.tariff_rules.specs.Entry.{HasItsFault, entry_in};

use super::Tariff;
use super::file::{MAX_CENTRES, MAX_SHIFTS, document_in, head_of, shifts_at};
use crate::centre::CentreRule;
use crate::document::{entries_in, value_at};
use crate::fault::TariffFault;
use crate::key::Key;
use crate::rules::Rule;
use crate::shift::ShiftRule;
use std::alloc::{AllocError, Global};
use toml::{Table, Value};

/// An entry of a tariff file's list of shifts or of centres, counted from 1.
#[derive(Clone, Copy)]
pub enum Entry {
    /// An entry of the array of shifts.
    Shift(u16),
    /// An entry of the array of centre rules.
    Centre(u16),
}

/// Whether an entry is no rule.
fn is_refused<R: Rule>(alloc: Global, value: &Value) -> Result<bool, AllocError>
    ensures { IfOk result (λ refused. refused ≡ spec.is_refused R.rule_in (view value.now)) }
{
    match R::read(alloc, value) {
        Ok(_) => Ok(false),
        Err(TariffFault::Memory) => Err(AllocError),
        Err(_) => Ok(true),
    }
}

/// The first entry that is no rule, counted from 1.
fn first_refused<R: Rule>(alloc: Global, entries: &[Value]) -> Result<Option<u16>, AllocError>
    requires { length entries.now < 2 ^ 16 }
    ensures { IfOk result
        (λ place. place ≡ spec.first_refused R.rule_in (map view entries.now)) }
{
    for (before, value) in entries.iter().enumerate() {
        if is_refused::<R>(alloc, value)? {
            return Ok(Some(before as u16 + 1));
        }
    }
    Ok(None)
}

/// The first entry of the array at a key that is no rule. Where there is no array, or it has too
/// many entries, none of them is at fault.
#[tactic(auto, unfolding(crate::specs::Entry::refused_at), using(crate::proofs::EntryLemmas::entry_lemmas))]
fn refused_at<R: Rule>(
    alloc: Global,
    table: &Table,
    key: Key,
    most: usize,
) -> Result<Option<u16>, AllocError>
    requires { most < 2 ^ 16 }
    ensures { IfOk result
        (λ place. place ≡ spec.refused_at (table_view table.now) key most R.rule_in) }
{
    let Some(value) = value_at(table, key) else {
        return Ok(None);
    };
    match entries_in(value) {
        None => Ok(None),
        Some(entries) if entries.len() > most => Ok(None),
        Some(entries) => first_refused::<R>(alloc, entries),
    }
}

/// The first entry of the shifts that is no shift.
fn refused_shift(alloc: Global, document: &Table) -> Result<Option<Entry>, AllocError>
    ensures { IfOk result (λ entry. entry ≡ spec.refused_shift (table_view document.now)) }
{
    match refused_at::<ShiftRule>(alloc, document, Key::Shift, MAX_SHIFTS)? {
        Some(place) => Ok(Some(Entry::Shift(place))),
        None => Ok(None),
    }
}

/// The first entry of the centres that is no centre rule.
fn refused_centre(alloc: Global, document: &Table) -> Result<Option<Entry>, AllocError>
    ensures { IfOk result (λ entry. entry ≡ spec.refused_centre (table_view document.now)) }
{
    match refused_at::<CentreRule>(alloc, document, Key::Centre, MAX_CENTRES)? {
        Some(place) => Ok(Some(Entry::Centre(place))),
        None => Ok(None),
    }
}

/// The entry at fault of a document.
#[tactic(auto, unfolding(crate::specs::Entry::entry_of))]
fn entry_of(alloc: Global, document: &Table) -> Result<Option<Entry>, AllocError>
    ensures { IfOk result (λ entry. entry ≡ spec.entry_of (table_view document.now)) }
{
    if head_of(document).is_err() {
        return Ok(None);
    }
    match shifts_at(alloc, document) {
        Ok(_) => refused_centre(alloc, document),
        Err(TariffFault::Memory) => Err(AllocError),
        Err(_) => refused_shift(alloc, document),
    }
}

/// The entry at fault of a text.
fn entry_of_text(alloc: Global, text: &str) -> Result<Option<Entry>, AllocError>
    ensures { IfOk result (λ entry. entry ≡ entry_in text.now) }
{
    match document_in(alloc, text)? {
        Some(document) => entry_of(alloc, &document),
        None => Ok(None),
    }
}

impl Tariff {
    /// The entry at which `parse` meets the fault that it answers. `None` where the text is a
    /// tariff, and where no single entry has the fault (a key before the lists, a list that is no
    /// array or too long, two shifts of one name that disagree). Nothing but want of memory fails.
    pub fn entry_at_fault(alloc: Global, text: &str) -> Result<Option<Entry>, AllocError>
        ensures entry { IfOk result (λ entry. entry ≡ entry_in text.now) }
        ensures fault { IfOk result (λ entry. IfSome entry (HasItsFault text.now)) }
    {
        entry_of_text(alloc, text)
    }
}
