//! The entries of the journal, made of what calls said.

ghost use Rattle.std.specs.Prelude.{◌≡◌, ◌<◌, ◌≤◌, ◌+◌, [], IfOk, None, OnOk, if◌then◌else◌, length};
ghost use Rattle.std.specs.Prelude.{Some, option_map, take};
ghost use Rattle.book_model.specs.Journal as journal;
ghost use Rattle.book_model.specs.Words.{ending_shown, has, members, place_shown, reading_shown};
ghost use Rattle.book_model.specs.Words.{same_bytes, stop_shown, terms_in, with};
ghost use Rattle.plain_ledger.specs.Journals.{first_day, place_by, said_after, said_from};
ghost use Rattle.plain_ledger.specs.MadeEntries as spec;
ghost use Rattle.plain_ledger.specs.MadeEntries.{act_of, entries_made, entry_of, kept_of};

use crate::journal::{Said, Standing};
use book_core::{copied_note, ending_of};
use book_model::{Ending, Note, Place, Reading, Share, Stop};
use std::alloc::{AllocError, Global};
use tariff_rules::Tariff;

/// What an entry is about.
#[derive(Drop)]
pub(crate) enum MadeAct {
    /// A ruling, by its place.
    Ruling(Place),
    /// An import that goes on: what it has read, and the records that it kept.
    Going(Reading, Vec<Vec<u8>>),
    /// An import that ended, and why.
    Ended(Reading, Ending, Vec<Vec<u8>>),
}

/// An entry.
#[derive(Drop)]
pub(crate) struct MadeEntry {
    pub(crate) note: Note,
    pub(crate) act: MadeAct,
}

/// The number behind one.
fn next_number(before: u32) -> Result<u32, AllocError>
    ensures { IfOk result (λ number. number ≡ before + 1) }
{
    let number = before.checked_add(1).ok_or(AllocError)?;
    Ok(number)
}

/// The first day of a tariff that was taken, by its text.
fn tariff_day(alloc: Global, text: &str) -> Result<i32, AllocError>
    ensures { IfOk result (λ day. day ≡ first_day (terms_in text.now)) }
{
    match Tariff::parse(alloc, text) {
        Ok(tariff) => Ok(tariff.effective()),
        // Its text was read before: only memory can be too little.
        Err(_) => Err(AllocError),
    }
}

/// Where a ruling stands.
fn place_of(alloc: Global, standing: &Standing) -> Result<Place, AllocError>
    ensures { IfOk result (λ place. place_shown place ≡ place_by standing.now) }
{
    match standing {
        Standing::Tariff(text) => Ok(Place::Tariff(tariff_day(alloc, text)?)),
        Standing::Close(period) => Ok(Place::Close(*period)),
        Standing::Choice(before) => Ok(Place::Choice(next_number(*before)?)),
        Standing::Adoption => Ok(Place::Adoption),
        Standing::Replacement(before) => Ok(Place::Replacement(next_number(*before)?)),
        Standing::Credit(before) => Ok(Place::Credit(next_number(*before)?)),
    }
}

/// Records that were kept, with one more.
fn with_one(alloc: Global, kept: Vec<Vec<u8>>, bytes: &[u8]) -> Result<Vec<Vec<u8>>, AllocError>
    ensures { IfOk result (λ more. kept_of more.items ≡ with (kept_of kept.items) bytes.now) }
{
    let own = Vec::from_slice(alloc, bytes)?;
    let mut more = kept;
    more.push(own)?;
    Ok(more)
}

/// An import keeps one more record, if it goes on.
fn kept_in(alloc: Global, act: MadeAct, bytes: &[u8]) -> Result<MadeAct, AllocError>
    ensures { IfOk result (λ made. act_of made ≡ journal.keep_in bytes.now (act_of act)) }
{
    match act {
        MadeAct::Ruling(place) => Ok(MadeAct::Ruling(place)),
        MadeAct::Ended(reading, ending, kept) => Ok(MadeAct::Ended(reading, ending, kept)),
        MadeAct::Going(reading, kept) => {
            let more = with_one(alloc, kept, bytes)?;
            Ok(MadeAct::Going(reading, more))
        }
    }
}

/// An import has read more, if it goes on.
fn read_in(act: MadeAct, reading: Reading) -> MadeAct
    ensures { act_of result ≡ journal.read_on (reading_shown reading) (act_of act) }
{
    match act {
        MadeAct::Ruling(place) => MadeAct::Ruling(place),
        MadeAct::Ended(before, ending, kept) => MadeAct::Ended(before, ending, kept),
        MadeAct::Going(_, kept) => MadeAct::Going(reading, kept),
    }
}

/// An import ends, if it goes on.
fn ended_in(act: MadeAct, stop: Stop) -> MadeAct
    ensures { act_of result ≡ journal.end_with (stop_shown stop) (act_of act) }
{
    match act {
        MadeAct::Ruling(place) => MadeAct::Ruling(place),
        MadeAct::Ended(reading, ending, kept) => MadeAct::Ended(reading, ending, kept),
        MadeAct::Going(reading, kept) => MadeAct::Ended(reading, ending_of(stop), kept),
    }
}

/// The same, where it says why, and all its records were taken.
fn ended_where(act: MadeAct, ending: Option<Stop>, whole: bool) -> MadeAct
    ensures { act_of result ≡ spec.end_where ending whole (act_of act) }
{
    let Some(stop) = ending else {
        return act;
    };
    if !whole {
        return act;
    }
    ended_in(act, stop)
}

/// The entry that an import begins with its first record.
fn begun_import(
    alloc: Global,
    share: &Share,
    whole: bool,
    bytes: &[u8],
) -> Result<MadeEntry, AllocError>
    ensures { IfOk result (λ made. entry_of made ≡ spec.begun_import share.now whole bytes.now) }
{
    let note = copied_note(alloc, &share.note)?;
    let kept = with_one(alloc, Vec::new(alloc), bytes)?;
    let act = ended_where(MadeAct::Going(share.reading, kept), share.ending, whole);
    Ok(MadeEntry { note, act })
}

/// The same, if the import has none yet.
fn begun_if(
    alloc: Global,
    share: &Share,
    whole: bool,
    bytes: &[u8],
) -> Result<Option<MadeEntry>, AllocError>
    ensures { IfOk result (λ made. option_map entry_of made
        ≡ (if share.now.begun then None else Some (spec.begun_import share.now whole bytes.now))) }
{
    if share.begun {
        return Ok(None);
    }
    let made = begun_import(alloc, share, whole, bytes)?;
    Ok(Some(made))
}

/// The entry of a ruling.
fn begun_ruling(alloc: Global, note: &Note, standing: &Standing) -> Result<MadeEntry, AllocError>
    ensures { IfOk result (λ made. entry_of made ≡ spec.begun_ruling note.now standing.now) }
{
    let note = copied_note(alloc, note)?;
    let place = place_of(alloc, standing)?;
    let act = MadeAct::Ruling(place);
    Ok(MadeEntry { note, act })
}

/// The entry that begins with what a call said, if one does.
fn begun_by(alloc: Global, said: &Said) -> Result<Option<MadeEntry>, AllocError>
    ensures { IfOk result (λ made. option_map entry_of made ≡ spec.begun_by said.now) }
{
    match said {
        Said::Ruling(note, standing) => Ok(Some(begun_ruling(alloc, note, standing)?)),
        Said::Import(share, whole, bytes) => Ok(begun_if(alloc, share, *whole, bytes)?),
        Said::Record(_) => Ok(None),
        Said::End(_) => Ok(None),
    }
}

/// What the newest entry is about behind what a call said, where that begins none.
fn changed_by(alloc: Global, act: MadeAct, said: &Said) -> Result<MadeAct, AllocError>
    ensures { IfOk result (λ made. act_of made ≡ spec.change_by said.now (act_of act)) }
{
    match said {
        Said::Ruling(_, _) => Ok(act),
        Said::Record(bytes) => kept_in(alloc, act, bytes),
        Said::Import(share, whole, bytes) => {
            let more = kept_in(alloc, act, bytes)?;
            let read = read_in(more, share.reading);
            Ok(ended_where(read, share.ending, *whole))
        }
        Said::End(stop) => Ok(ended_in(act, *stop)),
    }
}

/// The newest entry is about what one more call said, which begins none.
fn change_last(alloc: Global, made: &mut Vec<MadeEntry>, said: &Said) -> Result<(), AllocError>
    requires { None ≡ spec.begun_by said.now }
    ensures { OnOk result (entries_made made.new.items
        ≡ said_after said.now (entries_made made.old.items)) }
{
    let Some(last) = made.pop() else {
        return Ok(());
    };
    let act = changed_by(alloc, last.act, said)?;
    made.push(MadeEntry {
        note: last.note,
        act,
    })?;
    Ok(())
}

/// Entries with what one more call said.
fn join(alloc: Global, made: &mut Vec<MadeEntry>, said: &Said) -> Result<(), AllocError>
    ensures { OnOk result (entries_made made.new.items
        ≡ said_after said.now (entries_made made.old.items)) }
{
    let Some(entry) = begun_by(alloc, said)? else {
        return change_last(alloc, made, said);
    };
    made.push(entry)?;
    Ok(())
}

/// The entries of what calls said, the oldest first.
pub(crate) fn make_entries(alloc: Global, said: &[Said]) -> Result<Vec<MadeEntry>, AllocError>
    ensures { IfOk result (λ made. entries_made made.items ≡ said_from [] said.now) }
{
    let mut made = Vec::new(alloc);
    for one in said {
        join(alloc, &mut made, one)?;
    }
    Ok(made)
}

/// The bytes are those of the record.
fn is_record(one: &[u8], bytes: &[u8]) -> bool
    ensures { result ≡ same_bytes one.now bytes.now }
{
    one == bytes
}

/// Records that were kept have one with these bytes.
fn has_bytes(kept: &[Vec<u8>], bytes: &[u8]) -> bool
    ensures { result ≡ has (kept_of kept.now) bytes.now }
{
    for one in kept {
        if is_record(one, bytes) {
            return true;
        }
    }
    false
}

/// The first so many of them have one with these bytes.
fn has_among(kept: &[Vec<u8>], count: usize, bytes: &[u8]) -> bool
    requires { count ≤ length kept.now }
    ensures { result ≡ has (kept_of (take count kept.now)) bytes.now }
{
    has_bytes(&kept[..count], bytes)
}

/// So many records, fewer than there may be, with one more, if it is new.
fn counted_with(count: u64, most: u64, there: bool) -> u64
    requires { count < most }
    ensures { result ≡ (if there then count else count + 1) }
{
    if there { count } else { count + 1 }
}

/// How many records they are.
pub(crate) fn count_kept(kept: &[Vec<u8>]) -> u64
    ensures { result ≡ length (members (kept_of kept.now)) }
{
    let mut count: u64 = 0;
    for at in 0..kept.len() {
        let there = has_among(kept, at, &kept[at]);
        count = counted_with(count, at as u64 + 1, there);
    }
    count
}

/// An import kept the record.
fn has_kept(act: &MadeAct, bytes: &[u8]) -> bool
    ensures { result ≡ has (journal.kept_by (act_of act.now)) bytes.now }
{
    match act {
        MadeAct::Ruling(_) => false,
        MadeAct::Going(_, kept) => has_bytes(kept, bytes),
        MadeAct::Ended(_, _, kept) => has_bytes(kept, bytes),
    }
}

/// A number, or another one where a test holds.
fn number_where(test: bool, number: u64, other: u64) -> u64
    ensures { result ≡ (if test then other else number) }
{
    if test { other } else { number }
}

/// The number of the entry of the import that kept the record; 0 where none did.
pub(crate) fn came_by(made: &[MadeEntry], bytes: &[u8]) -> u64
    ensures { result ≡ journal.came_by (entries_made made.now) bytes.now }
{
    let mut number: u64 = 0;
    for at in 0..made.len() {
        let test = has_kept(&made[at].act, bytes);
        number = number_where(test, number, at as u64 + 1);
    }
    number
}
