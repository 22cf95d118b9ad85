//! Answers, as lines.

use book_core::{Accepted, LedgerFault, Ruled};
use book_import::Receipt;
use book_reports::receipt_line_text;
use office::Answer;
use program_output::ledger_refused;
use tests_scripts::AnswerText;

/// Adds the line of a fault, as the program says it.
pub fn push_fault(out: &mut AnswerText, fault: LedgerFault) {
    let _ = ledger_refused(out, fault);
}

/// Adds the answer to a ruling.
pub(crate) fn push_ruled(out: &mut AnswerText, answer: Result<Ruled, LedgerFault>) {
    match answer {
        Ok(Ruled::Done) => out.line("DONE"),
        Ok(Ruled::Already) => out.line("ALREADY"),
        Err(fault) => push_fault(out, fault),
    }
}

/// Adds the answer to a record.
pub(crate) fn push_accepted(out: &mut AnswerText, answer: Result<Accepted, LedgerFault>) {
    match answer {
        Ok(Accepted::Kept) => out.line("KEPT"),
        Ok(Accepted::Known) => out.line("KNOWN"),
        Ok(Accepted::Unpriced) => out.line("UNPRICED"),
        Err(fault) => push_fault(out, fault),
    }
}

/// Adds the line of a receipt.
pub(crate) fn push_receipt(out: &mut AnswerText, receipt: &Receipt) {
    out.bytes(receipt_line_text(receipt).as_bytes());
}

/// Adds the answer to a request.
pub(crate) fn push_answer(out: &mut AnswerText, answer: &Result<Answer, LedgerFault>) {
    match answer {
        Ok(Answer::Ruled(ruled)) => push_ruled(out, Ok(*ruled)),
        Ok(Answer::Receipt(receipt)) => push_receipt(out, receipt),
        Ok(Answer::Text(text)) => out.bytes(text),
        Err(fault) => push_fault(out, *fault),
    }
}
