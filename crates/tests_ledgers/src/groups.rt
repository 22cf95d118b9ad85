//! Groups of the records of an import, each one call of books, and the end of the import.

ghost use Rattle.std.specs.Prelude.{All};
ghost use Rattle.book_model.specs.Words.{IsUsageRecord};

use crate::asked::note_of;
use crate::commands::Reported;
use book_core::{Accepted, Ledger, LedgerFault, Reading, Share};
use book_import::Stop;
use smf_frames::{Layout, split};
use smf_type30::{Class, class};
use std::alloc::{AllocError, Global};
use tests_scripts::{Ask, LineFault, LineResult, Named};

/// Usage records.
#[derive(Drop)]
struct UsageRecords {
    records: Vec<Vec<u8>>,
    ghost usable: { All (λ one. IsUsageRecord one.items) records.items },
}

impl UsageRecords {
    ghost use Rattle.book_model.specs.Words.{IsFramed};

    /// One record more, where it is one of usage.
    fn add(&mut self, alloc: Global, bytes: &[u8]) -> Result<(), AllocError>
        requires { IsFramed bytes.now }
    {
        let Class::Usage = class(bytes) else {
            return Ok(());
        };
        let own = Vec::from_slice(alloc, bytes)?;
        self.records.push(own)?;
        Ok(())
    }
}

/// The usage records of a dump.
fn usage_records(alloc: Global, dump: &[u8]) -> LineResult<UsageRecords> {
    let dump = split(alloc, Layout::Rdw, dump)?;
    let mut usage = UsageRecords {
        records: Vec::new(alloc),
    };
    for bytes in &dump.records {
        usage.add(alloc, bytes)?;
    }
    Ok(usage)
}

/// What an import says of itself that has read so many bytes. Of what it counted it says nothing.
fn share_of(alloc: Global, begun: bool, length: usize) -> LineResult<Share> {
    Ok(Share {
        note: note_of(alloc, "1706767270", "meier", "-", "month.smf")?,
        begun,
        reading: Reading {
            digest: [0; 32],
            length: length as u64,
            known: 0,
            unpriced: 0,
            other: 0,
            headers: 0,
            trailers: 0,
            lost: 0,
            continued: 0,
            damaged: 0,
        },
        ending: None,
    })
}

/// Submits the usage records of a dump as one group of an import, which had an entry before, or not.
fn accept_group<L: Ledger>(
    named: &Named,
    ledger: &mut L,
    begun: bool,
    parts: &[&str],
) -> LineResult<Result<Vec<Accepted>, LedgerFault>> {
    let dump = named.read_dump(parts)?;
    let usage = usage_records(named.alloc(), &dump)?;
    if usage.records.is_empty() {
        return Err(LineFault::NotUnderstood);
    }
    let share = share_of(named.alloc(), begun, dump.len())?;
    Ok(ledger.accept_many(&usage.records, &Some(share)))
}

/// What an answer reports: it is one change, or none.
fn reported<T: Drop>(answer: Result<T, LedgerFault>) -> Reported {
    Reported {
        changes: usize::from(answer.is_ok()),
        fault: answer.err(),
    }
}

/// Gives books a group of an import, or its end. None: the line asks for neither, or there was no
/// memory for it.
pub(crate) fn group<L: Ledger>(named: &Named, ledger: &mut L, ask: Ask<'_>) -> Option<Reported> {
    let answer = match (ask.verb, ask.words) {
        ("ended", []) => return Some(reported(ledger.end_import(Stop::End))),
        ("group", ["first", parts @ ..]) => accept_group(named, ledger, false, parts),
        ("group", ["next", parts @ ..]) => accept_group(named, ledger, true, parts),
        _ => return None,
    };
    Some(reported(answer.ok()?))
}
