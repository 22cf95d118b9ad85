//! The records.

ghost use Rattle.tree_tables.specs.Stored.{stored_entry};
ghost use Rattle.book_audit.specs.Looks.{Looks, Tells};
ghost use Rattle.book_audit.specs.Records.{AreRecords, IsChecked};
ghost use Rattle.book_audit.specs.SoundTrees.{AreHeld};

use crate::day_sums::Places;
use crate::details::check_has_detail;
use crate::due::{Due, check_came};
use crate::entry_counts::check_entries;
use crate::finding::{Place, Tree, Wrong};
use crate::marks::check_marks;
use crate::record_bytes::check_data;
use crate::record_row::record_in;
use crate::rulings::Rulings;
use crate::stop::{Stop, met, unsound};
use crate::trees::Trees;
use crate::walk::Walk;
use crate::watch::Watch;
use book_core::{MAX_COST, MAX_HELD};
use sqlite_trees::store::Store;
use std::alloc::Global;
use tree_tables::StoredRecord;

/// How many records there are, and what they cost together.
#[derive(Clone, Copy)]
pub(crate) struct Held {
    pub(crate) records: u64,
    amount: u64,
}

/// A record is as its data, the tariffs and the other trees require. If its own period counts it,
/// its place does, and it has a row of details. What is in `bytes` is lost. Returns whether its own
/// period counts it.
fn check_record<S: Store>(
    alloc: Global,
    trees: &mut Trees<S>,
    rulings: &Rulings,
    places: &mut Places,
    bytes: &mut Vec<u8>,
    stored: &StoredRecord,
) -> Result<bool, Stop>
    ensures right { Tells result trees.old trees.new (λ all counted.
        IsChecked all rulings.now places.old.rows.entries places.new.rows.entries
        (stored_entry stored.now) counted) }
    ensures looks { Looks result trees.old trees.new }
{
    check_data(alloc, rulings, stored)?;
    let counted = check_marks(trees, rulings, stored)?;
    if !counted {
        return Ok(counted);
    }
    check_has_detail(trees, bytes, stored)?;
    if !places.count(&stored.priced)? {
        return Err(unsound(Place::Tree(Tree::Days), Wrong::Limits));
    }
    Ok(counted)
}

/// Reads all records, one at a time. What is in `bytes` is lost.
fn read_records<S: Store, W: Watch>(
    alloc: Global,
    trees: &mut Trees<S>,
    walk: &mut Walk,
    bytes: &mut Vec<u8>,
    rulings: &Rulings,
    places: &mut Places,
    due: &mut Due,
    watch: &mut W,
) -> Result<Held, Stop>
    ensures records { Tells result trees.old trees.new (λ all held. AreRecords all rulings.now
        held.records held.amount places.old.rows.entries places.new.rows.entries
        due.old.left.items due.new.left.items) }
    ensures looks { Looks result trees.old trees.new }
{
    let tree = Tree::Records;
    walk.begin(tree);
    let mut amount = 0u64;
    'records: for records in 0..MAX_HELD as u64 + 1 {
        watch.read(tree, records);
        if !walk.next(trees)? {
            return Ok(Held { records, amount });
        }
        let one = match record_in(alloc, walk.row()) {
            Ok(one) => one,
            Err(error) => return Err(met(tree, error)),
        };
        check_record(alloc, trees, rulings, places, bytes, &one.record)?;
        check_came(due, &one)?;
        let cost = one.record.priced.amount;
        if MAX_COST < cost || MAX_COST - cost < amount {
            return Err(unsound(Place::Tree(tree), Wrong::Limits));
        }
        amount += cost;
    }
    Err(unsound(Place::Tree(tree), Wrong::Limits))
}

/// Reads all records and the trees that find them; the row of the book must be their sum. What is in
/// `bytes` is lost.
pub(crate) fn check_records<S: Store, W: Watch>(
    alloc: Global,
    trees: &mut Trees<S>,
    walk: &mut Walk,
    bytes: &mut Vec<u8>,
    rulings: &Rulings,
    places: &mut Places,
    due: &mut Due,
    watch: &mut W,
) -> Result<Held, Stop>
    ensures records { Tells result trees.old trees.new (λ all held.
        AreHeld all rulings.now held.records places.old.rows.entries places.new.rows.entries
        due.old.left.items due.new.left.items) }
    ensures looks { Looks result trees.old trees.new }
{
    let held = read_records(alloc, trees, walk, bytes, rulings, places, due, watch)?;
    check_entries(trees, walk, Tree::Identities, held.records, watch)?;
    check_entries(trees, walk, Tree::Marks, held.records, watch)?;
    if held.records != rulings.held {
        return Err(unsound(Place::Tree(Tree::Book), Wrong::Held));
    }
    if held.amount != rulings.amount {
        return Err(unsound(Place::Tree(Tree::Book), Wrong::Amount));
    }
    Ok(held)
}
