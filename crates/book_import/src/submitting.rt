//! How the records of a group are submitted to the books.

ghost use Rattle.std.specs.Prelude.{◌≡◌, ◌+◌, ◌<◌, ◌≤◌, ◌^◌, All, IfOk, IfSome, List, None};
ghost use Rattle.std.specs.Prelude.{OnErr, OnOk, Some, length, ℕ};
ghost use Rattle.book_model.specs.Words.{IsUsageRecord};
ghost use Rattle.book_core.specs.Submissions.{TakesOf, records_in};
ghost use Rattle.book_core.specs.Transition.{IsTransition};
ghost use Rattle.book_import.specs.EntryWork.{hears, if_whole, note_of, said_with, says_next};
ghost use Rattle.book_import.specs.Groups.{AsksOf, BooksGroup, IsAfter, IsGroup, left_in};
ghost use Rattle.book_import.specs.Receipts.{counted};

use crate::group::Group;
use crate::import_entry::ImportEntry;
use crate::pending::Pending;
use crate::receipt::Receipt;
use crate::records::{count_ahead, count_both, count_class};
use book_core::{Accepted, Ledger, LedgerFault, Stop};
use smf_type30::Class;
use std::alloc::Global;

/// The end that is said with records, where the books answered to all of them.
fn end_if_whole(answers: &[Accepted], waiting: &[Vec<u8>], ending: Option<Stop>) -> Option<Stop>
    ensures { result ≡ if_whole answers.now waiting.now ending }
{
    if answers.len() == waiting.len() {
        ending
    } else {
        None
    }
}

/// Submits records together, with what their import says of itself: what was counted so far, and
/// its end, if they are its last.
fn submit<L: Ledger>(
    ledger: &mut L,
    waiting: &[Vec<u8>],
    entry: &mut ImportEntry,
    counts: &Receipt,
    ending: Option<Stop>,
) -> Result<Vec<Accepted>, LedgerFault>
    requires some { 0 < length waiting.now }
    requires usage { All (λ one. IsUsageRecord one.items) waiting.now }
    ensures takes { IsTransition (L.seen ledger.old) (L.seen ledger.new)
        (TakesOf (L.seen ledger.old).naming (said_with entry.old counts.now ending)
        (records_in waiting.now) result) }
    ensures some { IfOk result (λ answers. 0 < length answers.items) }
    ensures heard { IfOk result (λ answers. entry.new ≡ hears answers.items
        (if_whole answers.items (records_in waiting.now) ending)
        (says_next entry.old counts.now ending)) }
    ensures said { OnErr result (entry.new ≡ says_next entry.old counts.now ending) }
{
    entry.say(counts, ending);
    match ledger.accept_many(waiting, &entry.share) {
        Ok(answers) => {
            let given = answers.as_slice();
            entry.hear(given, end_if_whole(given, waiting, ending));
            Ok(answers)
        }
        Err(fault) => Err(fault),
    }
}

/// The answer to the first of the records that wait. Where none is left of what the books answered
/// before, they are asked, with all records that wait.
fn next_answer<L: Ledger>(
    ledger: &mut L,
    waiting: &[Vec<u8>],
    pending: &mut Pending,
    entry: &mut ImportEntry,
    counts: &Receipt,
    ending: Option<Stop>,
) -> Result<Accepted, LedgerFault>
    requires some { 0 < length waiting.now }
    requires usage { All (λ one. IsUsageRecord one.items) waiting.now }
    ensures asks { IsTransition (L.seen ledger.old) (L.seen ledger.new)
        (AsksOf (L.seen ledger.old).naming entry.old counts.now ending (records_in waiting.now)
        (left_in pending.old) result (left_in pending.new)) }
    ensures after { IsAfter entry.old counts.now ending (records_in waiting.now)
        (left_in pending.old) result (left_in pending.new) entry.new }
{
    if let Some(answer) = pending.pop() {
        return Ok(answer);
    }
    let answers = submit(ledger, waiting, entry, counts, ending)?;
    Ok(pending.refill(answers))
}

/// Submits the records of a group to the books, in order, and counts each of them once it was
/// answered. The import has read all of them, and ends so, if they are its last.
pub(crate) fn handle_group<L: Ledger>(
    alloc: Global,
    ledger: &mut L,
    receipt: &mut Receipt,
    group: &Group,
    entry: &mut ImportEntry,
    ending: Option<Stop>,
) -> Result<(), LedgerFault>
    requires stands { (records : List (List ℕ)) × IsGroup records group.now }
    requires few { counted receipt.old + length group.now.classes.items < 2 ^ 63 }
    requires fresh { entry.old.ended ≡ None }
    ensures handled { BooksGroup (L.seen ledger.old) (L.seen ledger.new) group.now entry.old
        entry.new receipt.old receipt.new result }
    ensures note { note_of entry.new ≡ note_of entry.old }
    ensures read { entry.new.bytes ≡ entry.old.bytes }
    ensures ended { IfSome entry.new.ended (λ said. ending ≡ Some said) }
    ensures refused { OnErr result (entry.new.ended ≡ None) }
    ensures counted { counted receipt.new ≤ counted receipt.old + length group.now.classes.items }
    ensures more { counted receipt.old ≤ counted receipt.new }
    ensures all { OnOk result (counted receipt.new
        ≡ counted receipt.old + length group.now.classes.items) }
{
    let classes = group.classes.as_slice();
    let mut ahead = count_ahead(receipt, classes);
    let mut waiting = group.usage.as_slice();
    let mut pending = Pending::new(alloc);
    for class in &group.classes {
        if let Class::Usage = *class {
            let accepted = next_answer(ledger, waiting, &mut pending, entry, &ahead, ending)?;
            count_both(receipt, &mut ahead, accepted);
            let (_, later) = waiting.split_at(1);
            waiting = later;
        } else {
            count_class(receipt, *class);
        }
    }
    Ok(())
}
