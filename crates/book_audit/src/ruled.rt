//! All rulings, read one tree after the other.

ghost use Rattle.book_audit.specs.KeptRulings.{AreKept};
ghost use Rattle.book_audit.specs.Looks.{Looks, Tells};
ghost use Rattle.book_audit.specs.SoundTrees.{AreRuled};

use crate::choices::read_choices;
use crate::finding::{Place, Tree, Wrong};
use crate::kept_credits::read_credits;
use crate::kept_replaced::read_replaced;
use crate::rulings::{BookRow, MAX_CLOSES, Rulings, read_book, read_closes, read_tariffs};
use crate::stop::{Stop, unsound};
use crate::trees::Trees;
use crate::walk::Walk;
use crate::watch::Watch;
use sqlite_trees::store::Store;
use std::alloc::Global;

/// Reads the tariffs that were replaced, and the credits.
fn read_kept<S: Store>(
    alloc: Global,
    trees: &mut Trees<S>,
    walk: &mut Walk,
    open_period: u16,
) -> Result<(), Stop>
    ensures kept { Tells result trees.old trees.new (λ all done. AreKept open_period all) }
    ensures looks { Looks result trees.old trees.new }
{
    read_replaced(alloc, trees, walk, open_period)?;
    read_credits(alloc, trees, walk, open_period)?;
    Ok(())
}

/// Reads the rulings of the office.
pub(crate) fn read_rulings<S: Store, W: Watch>(
    alloc: Global,
    trees: &mut Trees<S>,
    walk: &mut Walk,
    watch: &mut W,
) -> Result<Rulings, Stop>
    ensures ruled { Tells result trees.old trees.new AreRuled }
    ensures looks { Looks result trees.old trees.new }
{
    let book = read_book(trees, walk)?;
    let tariffs = read_tariffs(alloc, trees, walk)?;
    let closes = read_closes(alloc, trees, walk)?;
    if closes.len() > MAX_CLOSES {
        return Err(unsound(Place::Tree(Tree::Closes), Wrong::Closes));
    }
    let open = closes.len() as u16 + 1;
    let BookRow { rule, held, amount } = book;
    if !rule.is_by(open) {
        return Err(unsound(Place::Tree(Tree::Book), Wrong::Rule));
    }
    let chosen = read_choices(alloc, trees, walk, rule, open, watch)?;
    read_kept(alloc, trees, walk, open)?;
    Ok(Rulings {
        rule,
        tariffs,
        closes,
        chosen,
        held,
        amount,
    })
}
