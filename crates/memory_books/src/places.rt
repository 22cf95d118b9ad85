//! Books in a list, each under its name.

ghost use Rattle.std.specs.Prelude.{option_map};
ghost use Rattle.memory_books.specs.Kept.{Adds, Finds, IsPlaceOf, Visits};

use crate::kept::KeptLedger;
use named_books::Visit;
use std::alloc::{AllocError, Global};

/// Books under a name.
#[derive(Drop)]
pub struct Kept<L: Drop> {
    pub name: String,
    pub books: L,
}

/// The books of a name.
pub(crate) fn find<'a, L: Drop>(kept: &'a [Kept<L>], name: &str) -> Option<&'a L>
    ensures { Finds kept.now name.now (option_map (λ books. books.now) result) }
{
    for one in kept {
        if one.name.as_str() == name {
            return Some(&one.books);
        }
    }
    None
}

/// Where the books of a name are.
pub(crate) fn place_of<L: Drop>(kept: &[Kept<L>], name: &str) -> Option<usize>
    ensures { IsPlaceOf kept.now name.now result }
{
    for (i, one) in kept.iter().enumerate() {
        if one.name.as_str() == name {
            return Some(i);
        }
    }
    None
}

/// Visits the books of a name, if there are any.
pub(crate) fn visit_kept<L: KeptLedger, V: Visit>(
    kept: &mut Vec<Kept<L>>,
    name: &str,
    visit: &mut V,
) -> Option<V::Answer>
    ensures visits { Visits L.Ledger.seen V.Visit.work V.Visit.comes visit.old visit.new name.now
        kept.old.items kept.new.items result }
{
    let at = place_of(kept.as_slice(), name)?;
    Some(visit.visit(&mut kept[at].books))
}

/// Keeps books under a name, after the others.
pub(crate) fn add<L: Drop>(
    kept: &mut Vec<Kept<L>>,
    alloc: Global,
    name: &str,
    books: L,
) -> Result<(), AllocError>
    ensures { Adds name.now books kept.old.items kept.new.items result }
{
    let name = String::from_str(alloc, name)?;
    kept.push(Kept { name, books })?;
    Ok(())
}
