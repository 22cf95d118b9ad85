//! The line that says what became of a dump, or of the works of its records, in a buffer of fixed
//! size: it takes no memory, so no receipt is lost because memory runs out.

ghost use Rattle.std.specs.Prelude.{◌≡◌, ◌+◌, ◌≤◌, ◌++◌, decimal, length};
ghost use Rattle.arrayvec.specs.ArrayString.{array_string_len};
ghost use Rattle.book_reports.specs.ReceiptLines as spec;

use arrayvec::ArrayString;
use book_import::{Receipt, Stop};
use itoa::Buffer;

/// Room for any receipt line: nine counts of up to 20 digits, their words, and the stop.
pub type ReceiptLine = ArrayString<320>;

/// Appends a number, of up to 20 digits.
fn push_number(line: &mut ReceiptLine, number: u64)
    requires { array_string_len line.old + 20 ≤ 320 }
    ensures bytes { line.new.bytes ≡ line.old.bytes ++ decimal number }
    ensures room { array_string_len line.new ≤ array_string_len line.old + 20 }
{
    let mut digits = Buffer::new();
    line.push_str(digits.format(number));
}

/// Appends a word and a number, and a blank after each.
fn push_count(line: &mut ReceiptLine, word: &str, count: u64)
    requires { array_string_len line.old + length word.now + 22 ≤ 320 }
    ensures bytes { line.new.bytes ≡ line.old.bytes ++ spec.count_text word.now count }
    ensures room { array_string_len line.new
        ≤ array_string_len line.old + length word.now + 22 }
{
    line.push_str(word);
    line.push_str(" ");
    push_number(line, count);
    line.push_str(" ");
}

/// Appends the counts of usage records.
fn push_usage(line: &mut ReceiptLine, receipt: &Receipt)
    requires { array_string_len line.old + 83 ≤ 320 }
    ensures bytes { line.new.bytes ≡ line.old.bytes ++ spec.usage_counts receipt.now }
    ensures room { array_string_len line.new ≤ array_string_len line.old + 83 }
{
    push_count(line, "KEPT", receipt.kept);
    push_count(line, "KNOWN", receipt.known);
    push_count(line, "UNPRICED", receipt.unpriced);
}

/// Appends the counts of the other records.
fn push_others(line: &mut ReceiptLine, receipt: &Receipt)
    requires { array_string_len line.old + 172 ≤ 320 }
    ensures bytes { line.new.bytes ≡ line.old.bytes ++ spec.other_counts receipt.now }
    ensures room { array_string_len line.new ≤ array_string_len line.old + 172 }
{
    push_count(line, "OTHER", receipt.other);
    push_count(line, "HEADERS", receipt.headers);
    push_count(line, "TRAILERS", receipt.trailers);
    push_count(line, "LOST", receipt.lost);
    push_count(line, "CONTINUED", receipt.continued);
    push_count(line, "DAMAGED", receipt.damaged);
}

/// Appends a word and the number of a fault.
fn push_fault(line: &mut ReceiptLine, word: &str, number: u8)
    requires { array_string_len line.old + length word.now + 21 ≤ 320 }
    ensures bytes { line.new.bytes ≡ line.old.bytes ++ spec.fault_text word.now number }
    ensures room { array_string_len line.new
        ≤ array_string_len line.old + length word.now + 21 }
{
    line.push_str(word);
    line.push_str(" ");
    push_number(line, u64::from(number));
}

/// Appends why no further record was handled.
fn push_stop(line: &mut ReceiptLine, stop: Stop)
    requires { array_string_len line.old + 27 ≤ 320 }
    ensures bytes { line.new.bytes ≡ line.old.bytes ++ spec.stop_text stop }
    ensures room { array_string_len line.new ≤ array_string_len line.old + 27 }
{
    match stop {
        Stop::End => line.push_str("END"),
        Stop::Frame(fault) => push_fault(line, "FRAME", fault.number()),
        Stop::Read => line.push_str("READ"),
        Stop::ReadLimit => line.push_str("READLIMIT"),
        Stop::Ledger(fault) => push_fault(line, "LEDGER", fault.number()),
    }
}

/// Why no further record was handled.
pub(crate) fn stop_text(stop: Stop) -> ReceiptLine
    ensures { result.bytes ≡ spec.stop_text stop }
{
    let mut text = ReceiptLine::new();
    push_stop(&mut text, stop);
    text
}

/// The line that says what became of the records of a dump, and why no further one was handled.
pub fn receipt_line_text(receipt: &Receipt) -> ReceiptLine
    ensures { result.bytes ≡ spec.receipt_line_text receipt.now }
{
    let mut line = ReceiptLine::new();
    push_usage(&mut line, receipt);
    push_others(&mut line, receipt);
    line.push_str("STOP ");
    push_stop(&mut line, receipt.stop);
    line.push_str("\n");
    line
}

/// The line that says what became of the works of a dump's records that were to be withheld, and
/// why no further one was.
pub fn withheld_line_text(
    withheld: usize,
    already: usize,
    not_held: usize,
    stop: Stop,
) -> ReceiptLine
    ensures { result.bytes ≡ spec.withheld_line_text withheld already not_held stop }
{
    let mut line = ReceiptLine::new();
    push_count(&mut line, "WITHHELD", withheld as u64);
    push_count(&mut line, "ALREADY", already as u64);
    push_count(&mut line, "NOT HELD", not_held as u64);
    line.push_str("STOP ");
    push_stop(&mut line, stop);
    line.push_str("\n");
    line
}
