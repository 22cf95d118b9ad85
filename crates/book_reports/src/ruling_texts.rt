//! The list of rulings as one text, and the text of a tariff. A ledger gives its rulings one at a
//! time.

ghost use Rattle.std.specs.Prelude.{◌≡◌};
ghost use Rattle.book_core.specs.Calls.{IsCall};
ghost use Rattle.book_reports.specs.BookTexts.{report_outcome};
ghost use Rattle.book_reports.specs.StreamedRulings.{text_by};

use crate::report::Report;
use crate::streamed_rulings::write_rulings;
use book_core::{Ledger, LedgerFault, Sink};
use book_lists::{ReportFault, tariff_at};
use std::alloc::Global;

/// The text that was written into memory, or why it was not.
fn written(text: Vec<u8>, told: Result<(), ReportFault>) -> Result<Vec<u8>, LedgerFault>
    ensures { result ≡ text_by text told }
{
    match told {
        Ok(()) => Ok(text),
        Err(ReportFault::Ledger(fault)) => Err(fault),
        Err(ReportFault::Write | ReportFault::Memory) => Err(LedgerFault::Memory),
    }
}

/// The list of rulings.
pub(crate) fn ruling_list<L: Ledger>(alloc: Global, ledger: &mut L) -> Result<Vec<u8>, LedgerFault>
    ensures { IsCall (λ text. text.items) (L.seen ledger.old) (L.seen ledger.new) result
        (report_outcome (L.seen ledger.old).naming Report.RulingList) }
{
    let mut sink = Sink::new(Vec::new(alloc));
    let told = write_rulings(alloc, ledger, &mut sink);
    written(sink.into_inner(), told)
}

/// More tariffs than any books have.
const MOST_TARIFFS: u64 = 1 << 32;

/// The text of the tariff that begins on a day. No tariff after it is read.
pub(crate) fn tariff_text<L: Ledger>(ledger: &mut L, day: i32) -> Result<Vec<u8>, LedgerFault>
    ensures { IsCall (λ text. text.items) (L.seen ledger.old) (L.seen ledger.new) result
        (report_outcome (L.seen ledger.old).naming (Report.TariffText day)) }
{
    let mut next = tariff_at(ledger, 0)?;
    for before in 0..MOST_TARIFFS {
        let Some(tariff) = next else {
            return Err(LedgerFault::NoSuchTariff);
        };
        let begins = tariff.day;
        if begins == day {
            return Ok(tariff.text.into_bytes());
        }
        next = tariff_at(ledger, before + 1)?;
    }
    Err(LedgerFault::Memory)
}
