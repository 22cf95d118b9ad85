//! Tariffs that other texts took the place of.

ghost use Rattle.std.specs.Prelude.{◌≡◌, ◌+◌, ◌++◌, ◌≤◌, All, IfOk, OnOk, length, map};
ghost use Rattle.book_model.specs.Words.{HasDays, ShowsDays, all_replaced_seen, ruling_shown};
ghost use Rattle.plain_ledger.specs.Plain.{replaced_of};
ghost use Rattle.plain_ledger.specs.Replacements.{listed_if};

use book_core::AcceptedTariff;
use book_model::ListedRuling;
use std::alloc::{AllocError, Global};

/// A tariff that another text took the place of, and the period that was open then.
#[derive(Drop)]
pub(crate) struct ReplacedTariff {
    pub(crate) tariff: AcceptedTariff,
    pub(crate) period: u16,
}

/// A ruling that is listed joins others, if it is.
fn push_listed(all: &mut Vec<ListedRuling>, found: Option<ListedRuling>) -> Result<(), AllocError>
    ensures { OnOk result (all.new.items ≡ all.old.items ++ listed_if found) }
{
    if let Some(ruling) = found {
        all.push(ruling)?;
    }
    Ok(())
}

/// Those of some replaced tariffs that came as texts, as the list of rulings shows them.
pub(crate) fn list_replaced(
    alloc: Global,
    replaced: &[ReplacedTariff],
) -> Result<Vec<ListedRuling>, AllocError>
    ensures listed { IfOk result (λ all. map ruling_shown all.items
        ≡ all_replaced_seen (map replaced_of replaced.now)) }
    ensures few { IfOk result (λ all. length all.items ≤ length replaced.now) }
    ensures days { IfOk result (λ all. All (λ one. HasDays (ruling_shown one)) all.items) }
{
    let mut all = Vec::new(alloc);
    for one in replaced {
        push_listed(&mut all, one.tariff.listed_as_replaced(alloc, one.period)?)?;
    }
    Ok(all)
}
