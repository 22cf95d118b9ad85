//! The text of a record, with the entry of the journal by which it came.

ghost use Rattle.std.specs.Prelude.{◌≡◌, option_map};
ghost use Rattle.book_model.specs.Words.{entry_shown};
ghost use Rattle.book_core.specs.Calls.{IsCall};
ghost use Rattle.book_reports.specs.BookTexts.{report_outcome};
ghost use Rattle.book_reports.specs.RecordReports as spec;

use crate::report::Report;
use book_core::{Arrival, Ledger, LedgerFault, ListedEntry};
use report_texts::record_text;
use std::alloc::Global;

/// How many entries stand before the one by which a record came, if one was found and came by one.
fn entries_before(found: Option<Arrival>) -> Option<u64>
    ensures { result ≡ spec.before_found found }
{
    match found {
        None => None,
        Some(arrival) => {
            if arrival.entry == 0 {
                None
            } else {
                Some(arrival.entry - 1)
            }
        }
    }
}

/// The entry by which the first record from a name on came, if it came by one.
fn found_entry<L: Ledger>(
    ledger: &mut L,
    name: &[u8; 32],
) -> Result<Option<ListedEntry>, LedgerFault>
    ensures { IsCall (λ found. option_map entry_shown found) (L.seen ledger.old)
        (L.seen ledger.new) result (spec.found_entry_outcome (L.seen ledger.old).naming name.now) }
{
    let arrival = ledger.arrival_from(name)?;
    let Some(before) = entries_before(arrival) else {
        return Ok(None);
    };
    ledger.entry(before)
}

/// What stands behind the price of the record of a name, by which entry it came, and what became of
/// it.
pub(crate) fn record_report<L: Ledger>(
    alloc: Global,
    ledger: &mut L,
    name: [u8; 32],
) -> Result<Vec<u8>, LedgerFault>
    ensures { IsCall (λ text. text.items) (L.seen ledger.old) (L.seen ledger.new) result
        (report_outcome (L.seen ledger.old).naming (Report.Record name)) }
{
    let entry = found_entry(ledger, &name)?;
    let trail = ledger.trail_of(alloc, &name)?;
    let text = record_text(alloc, &name, &entry, trail)?;
    Ok(text.into_bytes())
}
