//! What the items of a list come to, as they are read one at a time.

ghost use Rattle.std.specs.Prelude.{◌≡◌, ◌++◌, ◌∷◌, [], List, IfErr, IfOk, OnOk};
ghost use Rattle.book_lists.specs.Cursors.{Folds};

use crate::cursors::{Cursor, MOST_ITEMS};
use book_core::{Ledger, LedgerFault};
use std::alloc::{AllocError, Global};

/// What is made of the items of a list, one after another.
pub trait Step<Item> {
    /// What is held of the items so far.
    type State: Drop;

    /// What an item has to be.
    ghost Takes: { Self → Item → Type 0 };

    /// That is what these items come to.
    ghost Has: { Self → Self.State → List Item → Type 0 };

    /// No items.
    fn begin(&self, alloc: Global) -> Result<Self::State, AllocError>
        ensures { IfOk result (λ state. Has self.now state []) };

    /// One more item.
    fn add(&self, alloc: Global, state: &mut Self::State, item: &Item) -> Result<(), LedgerFault>
        requires { Takes self.now item.now }
        ensures added { OnOk result ((items : List Item) → Has self.now state.old items
            → Has self.now state.new (items ++ item.now ∷ [])) }
        ensures fault { IfErr result (λ fault. fault ≡ LedgerFault.Memory) };
}

/// What all items of a list come to. The first is asked for before anything else, so that what the
/// ledger refuses comes first. Nobody changes the books meanwhile.
pub fn fold<L: Ledger, C: Cursor<L>, S: Step<C::Item>>(
    alloc: Global,
    ledger: &mut L,
    cursor: &C,
    step: &S,
) -> Result<S::State, LedgerFault>
    requires { (item : C.Item) → C.IsSound item → S.Takes step.now item }
    ensures { Folds C.shown (L.seen ledger.old) (L.seen ledger.new)
        (C.all cursor.now (L.seen ledger.old).naming) (S.Has step.now) result }
{
    let mut next = cursor.next(ledger, 0, None)?;
    let mut state = step.begin(alloc)?;
    'items: for before in 0..MOST_ITEMS {
        let Some(item) = next else {
            return Ok(state);
        };
        step.add(alloc, &mut state, &item)?;
        next = cursor.next(ledger, before + 1, Some(item))?;
    }
    // Only a ledger that lies has more.
    Err(LedgerFault::Memory)
}
