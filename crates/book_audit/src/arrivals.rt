//! The records, and the entries of the journal by which they came.

ghost use Rattle.book_audit.specs.Looks.{Looks, Tells};
ghost use Rattle.book_audit.specs.SoundTrees.{AreJournaled};

use crate::day_sums::Places;
use crate::due::check_all_came;
use crate::journal::read_journal;
use crate::records::{Held, check_records};
use crate::rulings::Rulings;
use crate::stop::Stop;
use crate::trees::Trees;
use crate::walk::Walk;
use crate::watch::Watch;
use sqlite_trees::store::Store;
use std::alloc::Global;

/// Reads the journal, and then all records: each entry kept the records that came by it. What is in
/// `bytes` is lost.
pub(crate) fn check_arrivals<S: Store, W: Watch>(
    alloc: Global,
    trees: &mut Trees<S>,
    walk: &mut Walk,
    bytes: &mut Vec<u8>,
    rulings: &Rulings,
    places: &mut Places,
    watch: &mut W,
) -> Result<Held, Stop>
    ensures records { Tells result trees.old trees.new (λ all held. AreJournaled all rulings.now
        held.records places.old.rows.entries places.new.rows.entries) }
    ensures looks { Looks result trees.old trees.new }
{
    let mut due = read_journal(alloc, trees, walk, rulings.rule, watch)?;
    let held = check_records(alloc, trees, walk, bytes, rulings, places, &mut due, watch)?;
    check_all_came(&due)?;
    Ok(held)
}
