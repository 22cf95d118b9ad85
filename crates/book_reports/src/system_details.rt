//! The records that a period counts, each with the system that wrote it, read one at a time.

ghost use Rattle.std.specs.Prelude.{◌≡◌, IfOk, IfSome};
ghost use Rattle.smf_frames.specs.Header.{header_of};
ghost use Rattle.book_model.specs.Words.{IsDay, IsUsage, no_event};
ghost use Rattle.book_core.specs.Words.{IsCall};
ghost use Rattle.book_reports.specs.SystemDetails as spec;

use book_core::{Detail, Ledger, LedgerFault};
use book_lists::Cursor;
use coverage_texts::SystemDetail;
use smf_frames::Header;
use std::alloc::Global;

/// The records that a period counts, with their systems.
#[derive(Drop)]
pub(crate) struct SystemCursor {
    pub(crate) alloc: Global,
    /// The number of the period.
    pub(crate) period: u16,
}

/// The system that wrote a usage record.
#[tactic(auto, using(smf_type30::proofs::UsageFacts::usage))]
fn system_in(bytes: &[u8]) -> [u8; 4]
    requires { IsUsage bytes.now }
    ensures { result ≡ (header_of bytes.now).system }
{
    Header::read(bytes).unwrap().system
}

/// What hinders a ledger that knows the record.
fn hindrance(fault: LedgerFault) -> LedgerFault
    ensures { result ≡ spec.hindrance fault }
{
    match fault {
        LedgerFault::Store => LedgerFault::Store,
        LedgerFault::Reopen => LedgerFault::Reopen,
        // A record that is counted is held under its name: no sound book refuses it.
        _ => LedgerFault::Memory,
    }
}

/// The system of a record that was asked for.
fn system_by(answer: Result<Vec<u8>, LedgerFault>) -> Result<[u8; 4], LedgerFault>
    requires { IfOk answer (λ bytes. IsUsage bytes.items) }
    ensures { spec.IsSystemBy answer result }
{
    match answer {
        Ok(bytes) => Ok(system_in(&bytes)),
        Err(fault) => Err(hindrance(fault)),
    }
}

/// The system of the record that is held under a name.
fn system_named<L: Ledger>(
    alloc: Global,
    ledger: &mut L,
    name: &[u8; 32],
) -> Result<[u8; 4], LedgerFault>
    ensures { IsCall (λ system. system) (L.seen ledger.old) (L.seen ledger.new) result
        (spec.system_outcome (L.seen ledger.old).naming name.now) }
{
    system_by(ledger.record_named(alloc, name))
}

/// The detail of the last record that was read.
fn detail_in(last: Option<SystemDetail>) -> Option<Detail>
    ensures { result ≡ spec.detail_in last }
{
    match last {
        None => None,
        Some(one) => Some(one.detail),
    }
}

/// The first of the records that comes after one, or the first of all.
fn next_on_system<L: Ledger>(
    alloc: Global,
    ledger: &mut L,
    period: u16,
    last: Option<SystemDetail>,
) -> Result<Option<SystemDetail>, LedgerFault>
    ensures item { IsCall (λ found. found) (L.seen ledger.old) (L.seen ledger.new) result
        (λ book. no_event
        (spec.next_on_system (L.seen ledger.old).naming period last book)) }
    ensures shown { IfOk result (λ found. IfSome found (λ one. IsDay one.detail.priced.day)) }
{
    let found = ledger.next_detail(period, None, detail_in(last))?;
    let Some(detail) = found else {
        return Ok(None);
    };
    let system = system_named(alloc, ledger, &detail.name)?;
    Ok(Some(SystemDetail { detail, system }))
}

impl<L: Ledger> Cursor<L> for SystemCursor {
    ghost use Rattle.std.specs.Prelude.{◌≡◌, ◌<◌, IfOk, IfSome, false, option_map};
    ghost use Rattle.book_core.specs.Calls.{IsCall};
    ghost use Rattle.book_model.specs.Words.{IsDay, no_event};
    ghost use Rattle.coverage_texts.specs.declared.coverage_rows.SystemDetail.{SystemDetail};
    ghost use Rattle.book_reports.specs.SystemDetails.{next_on_system, system_details};
    ghost use Rattle.book_reports.specs.SystemsInTurn.{systems_in_turn};

    type Item = SystemDetail;

    ghost Entry = { SystemDetail };

    ghost shown = { λ one. one };

    ghost IsSound = { λ one. IsDay one.detail.priced.day };

    ghost all = { λ cursor naming book. system_details naming cursor.period book };

    ghost asked = { λ cursor naming count last book.
        next_on_system naming cursor.period last book };

    fn next(
        &self,
        ledger: &mut L,
        count: u64,
        last: Option<SystemDetail>,
    ) -> Result<Option<SystemDetail>, LedgerFault>
        requires { 0 < count → (L.seen ledger.old).must_reopen ≡ false }
        ensures item { IsCall (option_map (λ one. one)) (L.seen ledger.old) (L.seen ledger.new)
            result (λ book. no_event (next_on_system (L.seen ledger.old).naming self.now.period
            (option_map (λ one. one) last) book)) }
        ensures sound { IfOk result (λ found. IfSome found (λ one. IsDay one.detail.priced.day)) }
    {
        next_on_system(self.alloc, ledger, self.period, last)
    }

    ghost in_turn = { λ cursor naming book count last.
        systems_in_turn naming book cursor.period count last };
}
