//! All trees of books.

ghost use Rattle.std.specs.Prelude.{◌≡◌, IfOk, OnOk};
ghost use Rattle.sqlite_trees.specs.View.{IsClean};
ghost use Rattle.tree_rows.specs.Calls.{CommitsNothing, OnlyLooks};
ghost use Rattle.tree_rows.specs.Rows.{IsUnchanged};
ghost use Rattle.tree_tables.specs.Holds.{HasShapes};
ghost use Rattle.book_audit.specs.Looks.{Tells};
ghost use Rattle.book_audit.specs.OfBook.{AreOfBook, sha_names};
ghost use Rattle.book_audit.specs.SoundTrees.{AreSound};

use crate::arrivals::check_arrivals;
use crate::audited::{Audited, Counts};
use crate::day_sums::{Places, check_rows};
use crate::details::check_details;
use crate::lines::check_lines;
use crate::ruled::read_rulings;
use crate::stop::Stop;
use crate::trees::Trees;
use crate::walk::Walk;
use crate::watch::Watch;
use book_model::LedgerFault;
use sqlite_trees::store::{Alter, Store};
use std::alloc::Global;

/// Reads all trees of a file that says it has this form. What is in `bytes` is lost.
fn read_trees<S: Store, W: Watch>(
    alloc: Global,
    trees: &mut Trees<S>,
    walk: &mut Walk,
    bytes: &mut Vec<u8>,
    form: u32,
    watch: &mut W,
) -> Result<Counts, Stop>
    ensures form { IfOk result (λ counts. counts.form ≡ form) }
    ensures sound { Tells result trees.old trees.new AreSound }
    ensures book { Tells result trees.old trees.new (AreOfBook sha_names) }
    ensures same { OnOk result (OnlyLooks S.Store trees.old.store trees.new.store) }
    ensures quiet { CommitsNothing S.Store trees.old.store trees.new.store }
{
    let rulings = read_rulings(alloc, trees, walk, watch)?;
    let mut places = Places::new(alloc);
    let held = check_arrivals(alloc, trees, walk, bytes, &rulings, &mut places, watch)?;
    let lines = check_lines(alloc, trees, walk, &rulings, watch)?;
    let rows = check_rows(alloc, trees, walk, &rulings, places, watch)?;
    check_details(alloc, trees, walk, bytes, &rulings, watch)?;
    Ok(Counts {
        form,
        records: held.records,
        tariffs: rulings.tariffs.len() as u64,
        closes: rulings.closes.len() as u64,
        choices: u64::from(rulings.chosen.count),
        rows,
        lines,
    })
}

/// Reads through the books in a store, and returns what came of it; a fault is that memory or the
/// store failed, or that there are no books. The store is given back.
pub fn audit_trees<S: Alter, W: Watch>(
    alloc: Global,
    store: S,
    watch: &mut W,
) -> (Result<Audited, LedgerFault>, S)
    requires { IsClean (S.Store.view store) → HasShapes (S.Store.view store) }
    ensures book { IfOk result.0 (λ audited. (counts : Counts) → audited ≡ Audited.Sound counts
        → IsClean (S.Store.view result.1)
        → AreOfBook sha_names (S.Store.view store).trees counts) }
    ensures same { IfOk result.0 (λ audited. (counts : Counts) → audited ≡ Audited.Sound counts
        → IsClean (S.Store.view result.1)
        → IsUnchanged (S.Store.view store) (S.Store.view result.1)) }
    ensures quiet { CommitsNothing S.Store store result.1 }
{
    let form = store.version();
    let mut trees = Trees::over(alloc, store);
    let mut walk = Walk::new(alloc);
    let mut bytes = Vec::new(alloc);
    let audited = match read_trees(alloc, &mut trees, &mut walk, &mut bytes, form, watch) {
        Ok(counts) => Ok(Audited::Sound(counts)),
        Err(Stop::Unsound(finding)) => Ok(Audited::Unsound(finding)),
        Err(Stop::Fault(fault)) => Err(fault),
    };
    (audited, trees.into_store())
}
