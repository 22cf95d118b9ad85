//! The centres of all periods, each once and in order.

ghost use Rattle.std.specs.Prelude.{◌≡◌, IfOk, OnOk, map};
ghost use Rattle.page_texts.specs.Figures.{figures_seen};
ghost use Rattle.page_texts.specs.OfficePage as spec;

use crate::figures::PeriodFigures;
use smf_text::Name;
use std::alloc::{AllocError, Global};
use std::collections::BTreeSet;

/// The centres that cost something in a period join others, each in its place.
fn join_centres(centres: &mut BTreeSet<Name>, figures: &PeriodFigures) -> Result<(), AllocError>
    ensures { OnOk result (centres.new.keys
        ≡ spec.with_centres centres.old.keys (figures_seen figures.now)) }
{
    for centre in figures.costs.keys() {
        centres.insert(*centre)?;
    }
    Ok(())
}

/// The centres that cost something in some period, each once and in order.
pub(crate) fn all_centres(alloc: Global, periods: &[PeriodFigures]) -> Result<Vec<Name>, AllocError>
    ensures { IfOk result (λ centres.
        centres.items ≡ spec.all_centres (map figures_seen periods.now)) }
{
    let mut centres = BTreeSet::new(alloc);
    for figures in periods {
        join_centres(&mut centres, figures)?;
    }
    centres.into_iter().collect(alloc)
}
