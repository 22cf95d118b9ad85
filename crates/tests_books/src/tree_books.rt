//! Books in the trees of a store in memory.

ghost use Rattle.std.specs.Prelude.{IfSome};
ghost use Rattle.sqlite_trees.specs.Memory.{memory_view};
ghost use Rattle.sqlite_trees.specs.View.{IsClean};
ghost use Rattle.tree_tables.specs.Holds.{HasShapes};

use crate::changed_rows::push_change;
use crate::empty_store::EmptyStore;
use crate::names::Names;
use crate::refusals::answer_refusals;
use crate::rows::{AsksOpenBooks, Books};
use crate::shown_rows::push_table;
use crate::stops::answer_stops;
use crate::trees::Trees;
use sqlite_trees::memory::MemStore;
use std::alloc::Global;
use table_ledger::TableLedger;
use tests_scripts::{AnswerText, Ask, LineFault, LineResult, Named};

/// The trees, while no books are open on them.
#[derive(Drop)]
pub(crate) struct TreeBooks {
    trees: Trees<MemStore>,
    names: Names,
}

/// Answers a line that shows or changes rows.
fn answer_by_rows(trees: &mut Trees<MemStore>, ask: Ask<'_>, out: &mut AnswerText) -> LineResult {
    match push_table(trees, ask, out) {
        Err(LineFault::NotUnderstood) => push_change(trees, ask, out),
        answered => answered,
    }
}

impl Books for TreeBooks {
    fn begun(alloc: Global, words: &[&str]) -> Option<TreeBooks> {
        let names = Names::of(words);
        let trees = Trees::over(begun_store(alloc, words, names)?);
        Some(TreeBooks { trees, names })
    }

    fn answer_alone(
        self,
        named: &Named,
        ask: Ask<'_>,
        out: &mut AnswerText,
    ) -> (TreeBooks, LineResult) {
        let TreeBooks { trees, names } = self;
        let mut trees = trees;
        let (trees, answered) = match ask.verb {
            "stops" => answer_stops(named, trees, ask, out),
            "refuses" => answer_refusals(named, trees, ask, out),
            _ => {
                let answered = answer_by_rows(&mut trees, ask, out);
                (trees, answered)
            }
        };
        (TreeBooks { trees, names }, answered)
    }

    fn ask_open<A: AsksOpenBooks>(
        self,
        named: &Named,
        asking: &mut A,
        out: &mut AnswerText,
    ) -> (TreeBooks, LineResult) {
        let TreeBooks { trees, names } = self;
        let (trees, answered) = trees.ask(named, names, asking, out);
        (TreeBooks { trees, names }, answered)
    }
}

/// The store that the words ask for: without books, or with new ones.
fn begun_store(alloc: Global, words: &[&str], names: Names) -> Option<MemStore>
    ensures shaped { IfSome result (λ store. IsClean (memory_view store)
        → HasShapes (memory_view store)) }
{
    match *words {
        ["empty"] => MemStore::empty(alloc),
        ["new" | "one-name"] => new_store(alloc, names),
        _ => None,
    }
}

/// A store with new books, of period 0.
fn new_store(alloc: Global, names: Names) -> Option<MemStore>
    ensures shaped { IfSome result (λ store. IsClean (memory_view store)
        → HasShapes (memory_view store)) }
{
    match TableLedger::create(alloc, MemStore::empty(alloc)?, names) {
        Ok(books) => Some(books.close_store()),
        Err(_refused) => None,
    }
}
