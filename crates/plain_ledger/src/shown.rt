//! Records that are held, as lists show them.

ghost use Rattle.std.specs.Prelude.{◌≡◌};
ghost use Rattle.plain_ledger.specs.Plain.{variant_at};
ghost use Rattle.plain_ledger.specs.PlainDetails.{detail_at};
ghost use Rattle.plain_ledger.specs.Treatments.{line_at, line_of};

use crate::held::HeldRecord;
use crate::treatment::Treatment;
use book_core::{copied, detail_with, line_with};
use book_model::{Detail, Line, Variant};

/// The record that is held under a name, as a list of disputes shows it.
pub(crate) fn variant(name: &[u8; 32], held: &HeldRecord) -> Variant
    ensures { result ≡ variant_at (name.now, held.now) }
{
    let usage = held.usage();
    Variant {
        name: *name,
        priced: held.priced,
        job_id: copied(usage.job_id()),
        program: copied(usage.program()),
        completion: usage.completion(),
        initiation: copied(usage.initiation()),
    }
}

/// The line of the record that is held under a name: a plus or a minus.
fn signed_line(plus: bool, name: &[u8; 32], held: &HeldRecord) -> Line
    ensures { result ≡ line_of plus (name.now, held.now) }
{
    line_with(plus, name, &held.usage(), held.priced)
}

/// The line of the record that is held under a name, where a period adds it or takes it back.
pub(crate) fn line(treatment: Option<Treatment>, name: &[u8; 32], held: &HeldRecord) -> Option<Line>
    ensures { result ≡ line_at treatment (name.now, held.now) }
{
    match treatment {
        Some(Treatment::Added) => Some(signed_line(true, name, held)),
        Some(Treatment::Taken) => Some(signed_line(false, name, held)),
        _ => None,
    }
}

/// The record that is held under a name, as details show it.
pub(crate) fn detail(name: &[u8; 32], held: &HeldRecord) -> Detail
    ensures { result ≡ detail_at (name.now, held.now) }
{
    detail_with(name, &held.usage(), held.priced)
}
