//! Commands of a run, and what they report.

use crate::asked::asked_by;
use crate::groups::group;
use book_core::{Ledger, LedgerFault, Ruled};
use book_import::{Receipt, Stop};
use office::{Answer, ask_without_reader};
use smf_frames::Layout;
use tests_scripts::{Ask, Named};

/// What books report to a command.
#[derive(Clone, Copy)]
pub struct Reported {
    /// How many changes of the books there were.
    pub changes: usize,
    /// The fault with which it ended, if it did.
    pub fault: Option<LedgerFault>,
}

/// What a receipt reports, if the dump was read to its end or up to a fault of the books.
fn reported_by_receipt(receipt: &Receipt) -> Option<Reported> {
    let fault = match receipt.stop {
        Stop::End => None,
        Stop::Ledger(fault) => Some(fault),
        _ => return None,
    };
    Some(Reported {
        changes: receipt.kept as usize,
        fault,
    })
}

/// What an answer reports, if it is one to a command.
fn report_of(answer: &Result<Answer, LedgerFault>) -> Option<Reported> {
    match answer {
        Ok(Answer::Ruled(ruled)) => Some(Reported {
            changes: usize::from(matches!(*ruled, Ruled::Done)),
            fault: None,
        }),
        Ok(Answer::Receipt(receipt)) => reported_by_receipt(receipt),
        Ok(Answer::Text(_)) => None,
        Err(fault) => Some(Reported {
            changes: 0,
            fault: Some(*fault),
        }),
    }
}

/// Asks books a command, or gives them a group of an import. None: it is not one, or there was no memory for it.
pub fn command<L: Ledger>(named: &Named, ledger: &mut L, ask: Ask<'_>) -> Option<Reported> {
    let Ok(asked) = asked_by(named, Layout::Rdw, ask) else {
        return group(named, ledger, ask);
    };
    let answer = ask_without_reader(named.alloc(), ledger, &asked);
    report_of(&answer)
}
