//! Lists that are written while they are read: what is held of one is an item, what the items so far
//! come to, and the parts that wait to be written.

ghost use Rattle.std.specs.Prelude.{◌≡◌, ◌++◌, ◌<◌, ◌∷◌, [], ℕ, List, IfErr, IfOk, OnOk, false};
ghost use Rattle.std.specs.Prelude.{length, true};
ghost use Rattle.streams.specs.Sinks.{has_failed, writer_of};
ghost use Rattle.book_core.specs.Words.{Reopens};
ghost use Rattle.book_lists.specs.Streamed.{LeavesSome, WritesAllBut, WritesSome, refusal_in};
ghost use Rattle.book_lists.specs.WrittenLists.{WritesList, list_text};
ghost use Rattle.book_lists.specs.Writing.{WritesPrefix, WritesUntil, is_write_fault};
ghost use Rattle.book_lists.specs.Writing.{is_write_or_memory};

use crate::cursors::{Cursor, MOST_ITEMS};
use crate::fault::ReportFault;
use crate::folds::Step;
use crate::waiting::{flush, push_part};
use book_core::{Ledger, Sink};
use std::alloc::{AllocError, Global};
use streams::Writer;

/// How items are written, one after another.
pub trait Lines<Item>: Step<Item> {
    /// What stands above the items.
    ghost above: { Self → List ℕ };

    /// The part of the item of a number, from 0.
    ghost part: { Self → ℕ → Item → List ℕ };

    /// What stands below these items.
    ghost below: { Self → List Item → List ℕ };

    fn head(&self, alloc: Global) -> Result<Vec<u8>, AllocError>
        ensures { IfOk result (λ text. text.items ≡ above self.now) };

    fn line(&self, alloc: Global, number: u64, item: &Item) -> Result<Vec<u8>, AllocError>
        requires { Self.Takes self.now item.now }
        ensures { IfOk result (λ text. text.items ≡ part self.now number item.now) };

    fn end(&self, alloc: Global, state: &Self::State) -> Result<Vec<u8>, AllocError>
        ensures { IfOk result (λ text. (items : List Item) → Self.Has self.now state.now items
            → text.items ≡ below self.now items) };

    /// Something stands above, so no text is empty.
    ghost some: { (lines : Self) → 0 < length (above lines) };
}

/// Counts one more item, and adds its part to what waits.
fn push_item<Item, S: Lines<Item>, W: Writer + Drop>(
    alloc: Global,
    lines: &S,
    number: u64,
    item: &Item,
    state: &mut S::State,
    waiting: &mut Vec<u8>,
    sink: &mut Sink<W>,
) -> Result<(), ReportFault>
    requires takes { S.Takes lines.now item.now }
    requires unwritten { has_failed sink.old ≡ false }
    ensures added { OnOk result ((items : List Item) → S.Has lines.now state.old items
        → S.Has lines.now state.new (items ++ item.now ∷ [])) }
    ensures written { WritesAllBut (waiting.old.items ++ S.part lines.now number item.now)
        waiting.new.items (W.contents (writer_of sink.old)) (W.contents (writer_of sink.new)) result }
    ensures left { 0 < length waiting.old.items
        → LeavesSome (waiting.old.items ++ S.part lines.now number item.now) waiting.new.items
        (W.contents (writer_of sink.old)) (W.contents (writer_of sink.new)) result }
    ensures failed { has_failed sink.new ≡ is_write_fault result }
    ensures fault { IfErr result (λ fault. is_write_or_memory fault ≡ true) }
{
    lines.add(alloc, state, item)?;
    let line = lines.line(alloc, number, item)?;
    push_part(waiting, &line, sink)
}

/// Adds what stands below the items to what waits, and writes it all.
fn write_end<Item, S: Lines<Item>, W: Writer + Drop>(
    alloc: Global,
    lines: &S,
    state: &S::State,
    waiting: &mut Vec<u8>,
    sink: &mut Sink<W>,
) -> Result<(), ReportFault>
    requires { has_failed sink.old ≡ false }
    ensures written { (items : List Item) → S.Has lines.now state.now items
        → WritesPrefix (waiting.old.items ++ S.below lines.now items)
        (W.contents (writer_of sink.old)) (W.contents (writer_of sink.new)) result }
    ensures until { (items : List Item) → S.Has lines.now state.now items
        → 0 < length waiting.old.items
        → WritesUntil (waiting.old.items ++ S.below lines.now items)
        (W.contents (writer_of sink.old)) (W.contents (writer_of sink.new)) result }
    ensures failed { has_failed sink.new ≡ is_write_fault result }
    ensures fault { IfErr result (λ fault. is_write_or_memory fault ≡ true) }
{
    let end = lines.end(alloc, state)?;
    waiting.extend_from_slice(&end)?;
    flush(waiting, sink)
}

/// Writes a list: the whole of it, or, before a fault, a prefix that is not the whole. The first item
/// is asked for before anything else, so that what the ledger refuses comes before any byte; nobody
/// changes the books meanwhile. Nothing is written after a write that failed.
pub fn write_list<L: Ledger, C: Cursor<L>, S: Lines<C::Item>, W: Writer + Drop>(
    alloc: Global,
    ledger: &mut L,
    cursor: &C,
    lines: &S,
    sink: &mut Sink<W>,
) -> Result<(), ReportFault>
    requires { (item : C.Item) → C.IsSound item → S.Takes lines.now item }
    ensures written { WritesList C.shown (S.above lines.now) (S.part lines.now) (S.below lines.now)
        (C.all cursor.now) (L.seen ledger.old) (L.seen ledger.new)
        (W.contents (writer_of sink.old)) (W.contents (writer_of sink.new)) result }
    ensures reopens { Reopens (refusal_in result)
        (L.seen ledger.old).must_reopen (L.seen ledger.new).must_reopen }
    ensures some { WritesSome (list_text (S.above lines.now) (S.part lines.now) (S.below lines.now))
        (W.contents (writer_of sink.old)) (W.contents (writer_of sink.new)) result }
    ensures failed { has_failed sink.old ≡ false → has_failed sink.new ≡ is_write_fault result }
{
    let mut next = cursor.next(ledger, 0, None)?;
    if sink.failed() {
        return Err(ReportFault::Write);
    }
    let mut waiting = lines.head(alloc)?;
    let mut state = lines.begin(alloc)?;
    'items: for before in 0..MOST_ITEMS {
        let Some(item) = next else {
            return write_end(alloc, lines, &state, &mut waiting, sink);
        };
        push_item(alloc, lines, before, &item, &mut state, &mut waiting, sink)?;
        next = cursor.next(ledger, before + 1, Some(item))?;
    }
    // Only a ledger that lies has more.
    Err(ReportFault::Memory)
}
