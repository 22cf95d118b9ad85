//! The entry of an import in the journal, as the import goes on.

ghost use Rattle.std.specs.Prelude.{◌≡◌, option_map};
ghost use Rattle.book_import.specs.EntryWork as spec;
ghost use Rattle.book_model.specs.Words.{note_given};

use crate::read_bytes::ReadBytes;
use crate::receipt::Receipt;
use book_core::{Accepted, LedgerFault, Note, Reading, Share, Stop};
use std::alloc::AllocError;

/// What an import says of itself with its records, where it has a note. It has an entry from the
/// first record on that the books kept.
#[derive(Drop)]
pub(crate) struct ImportEntry {
    /// What it said last.
    pub(crate) share: Option<Share>,
    pub(crate) bytes: ReadBytes,
    /// The books kept a record of it.
    pub(crate) begun: bool,
    /// The end that was said with its last records.
    pub(crate) ended: Option<Stop>,
}

/// Nothing was read.
fn nothing_read() -> Reading {
    Reading {
        digest: [0; 32],
        length: 0,
        known: 0,
        unpriced: 0,
        other: 0,
        headers: 0,
        trailers: 0,
        lost: 0,
        continued: 0,
        damaged: 0,
    }
}

/// What was read, with what a receipt counts.
fn reading_with(bytes: &ReadBytes, counts: &Receipt) -> Reading
    ensures { result ≡ spec.reading_with bytes.now counts.now }
{
    Reading {
        digest: bytes.digest,
        length: bytes.length,
        known: counts.known,
        unpriced: counts.unpriced,
        other: counts.other,
        headers: counts.headers,
        trailers: counts.trailers,
        lost: counts.lost,
        continued: counts.continued,
        damaged: counts.damaged,
    }
}

/// What is said with this note, if there is one.
fn share_of(note: Option<Note>) -> Option<Share>
    ensures { spec.note_in result ≡ note_given note }
{
    match note {
        None => None,
        Some(note) => Some(Share {
            note,
            begun: false,
            reading: nothing_read(),
            ending: None,
        }),
    }
}

/// The same note with other words.
fn share_with(
    share: Option<Share>,
    begun: bool,
    reading: Reading,
    ending: Option<Stop>,
) -> Option<Share>
    ensures { result ≡ option_map (spec.share_with begun reading ending) share }
{
    match share {
        None => None,
        Some(share) => Some(Share {
            begun,
            reading,
            ending,
            ..share
        }),
    }
}

/// One of the answers says that a record was kept.
fn keeps_one(answers: &[Accepted]) -> bool
    ensures { result ≡ spec.keeps_one answers.now }
{
    for answer in answers {
        if let Accepted::Kept = *answer {
            return true;
        }
    }
    false
}

/// The store of the books failed.
fn is_store_stop(stop: Stop) -> bool
    ensures { result ≡ spec.is_store_stop stop }
{
    match stop {
        Stop::Ledger(LedgerFault::Store) => true,
        _ => false,
    }
}

impl ImportEntry {
    ghost use Rattle.std.specs.Prelude.{◌+◌, ◌<◌, ◌≤◌, ◌^◌, ◌++◌, [], List, None, OnOk, false};
    ghost use Rattle.std.specs.Prelude.{length, ℕ};

    /// An import that begins, with this note or without one.
    pub(crate) fn new(note: Option<Note>) -> ImportEntry
        ensures note { spec.note_of result ≡ note_given note }
        ensures read { spec.HasRead [] result }
        ensures length { result.bytes.length ≡ 0 }
        ensures begun { result.begun ≡ false }
        ensures ended { result.ended ≡ None }
    {
        ImportEntry {
            share: share_of(note),
            bytes: ReadBytes::new(),
            begun: false,
            ended: None,
        }
    }

    /// The import has read these bytes too. One without a note has nothing to say of them.
    pub(crate) fn read(&mut self, piece: &[u8]) -> Result<(), AllocError>
        requires { self.old.bytes.length + length piece.now < 2 ^ 63 }
        ensures more { OnOk result ((bytes : List ℕ) → spec.HasRead bytes self.old
            → spec.HasRead (bytes ++ piece.now) self.new) }
        ensures longer { self.new.bytes.length ≤ self.old.bytes.length + length piece.now }
        ensures rest { self.new ≡ record self.old { bytes = self.new.bytes } }
    {
        if self.share.is_none() {
            return Ok(());
        }
        self.bytes.add(piece)?;
        Ok(())
    }

    /// What it says with its next records: what was counted of all that it has read, and its end,
    /// if they are its last.
    pub(crate) fn say(&mut self, counts: &Receipt, ending: Option<Stop>)
        ensures { self.new ≡ spec.says_next self.old counts.now ending }
    {
        let reading = reading_with(&self.bytes, counts);
        let share = self.share.take();
        self.share = share_with(share, self.begun, reading, ending);
    }

    /// What the books answered to them, with the end that was said, if they took all.
    pub(crate) fn hear(&mut self, answers: &[Accepted], ending: Option<Stop>)
        ensures { self.new ≡ spec.hears answers.now ending self.old }
    {
        if !keeps_one(answers) {
            return;
        }
        self.begun = true;
        self.ended = ending;
    }

    /// At this stop its entry is to be ended. After a fault of the store the books take no word.
    pub(crate) fn is_to_end(&self, stop: Stop) -> bool
        ensures { result ≡ spec.is_to_end self.now stop }
    {
        if is_store_stop(stop) {
            return false;
        }
        self.share.is_some() && self.begun && self.ended.is_none()
    }
}
