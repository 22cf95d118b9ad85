//! What a line says of a fault after the program's name, in a buffer of fixed size.

ghost use Rattle.std.specs.Prelude.{◌≡◌, ◌+◌, ◌≤◌, ◌++◌, codes, decimal, length};
ghost use Rattle.arrayvec.specs.ArrayString.{array_string_len};
ghost use Rattle.book_reports.specs.ReceiptLines.{fault_text};
ghost use Rattle.tariff_rules.specs.Faults.{key_text};
ghost use Rattle.program_output.specs.Messages as spec;

use arrayvec::ArrayString;
use book_core::LedgerFault;
use itoa::Buffer;
use tariff_rules::{Key, TariffFault};

/// Room for a word, a number of up to 20 digits, and a key or another such number.
pub(crate) type Message = ArrayString<64>;

/// Appends a number, of up to 20 digits.
fn push_number(text: &mut Message, number: u64)
    requires { array_string_len text.old + 20 ≤ 64 }
    ensures bytes { text.new.bytes ≡ text.old.bytes ++ decimal number }
    ensures room { array_string_len text.new ≤ array_string_len text.old + 20 }
{
    let mut digits = Buffer::new();
    text.push_str(digits.format(number));
}

/// The number of a fault, after the word for what it numbers.
pub(crate) fn numbered(word: &str, number: u8) -> Message
    requires { length word.now ≤ 8 }
    ensures bytes { result.bytes ≡ fault_text word.now number }
    ensures room { array_string_len result ≤ 29 }
{
    let mut text = Message::new();
    text.push_str(word);
    text.push_str(" ");
    push_number(&mut text, u64::from(number));
    text
}

/// The same of a tariff's fault, and the key that is wrong.
#[tactic(auto, using(crate::proofs::MessageLemmas::key_short))]
fn key_message(number: u8, key: Key) -> Message
    ensures { result.bytes ≡ fault_text (codes "tariff") number ++ codes " " ++ key_text key }
{
    let mut text = numbered("tariff", number);
    text.push_str(" ");
    text.push_str(key.text());
    text
}

/// The same of a refusal of the books, and the period that is open.
fn period_message(number: u8, period: u16) -> Message
    ensures { result.bytes ≡ fault_text (codes "ledger") number ++ codes " " ++ decimal period }
{
    let mut text = numbered("ledger", number);
    text.push_str(" ");
    push_number(&mut text, u64::from(period));
    text
}

/// A tariff's fault with its number, and the key that is wrong.
fn tariff_message(fault: TariffFault) -> Message
    ensures { result.bytes ≡ spec.tariff_message fault }
{
    let number = fault.number();
    match fault {
        TariffFault::Missing(key) | TariffFault::Range(key) => key_message(number, key),
        _ => numbered("tariff", number),
    }
}

/// A ledger's fault with its number, and what it carries.
pub(crate) fn ledger_message(fault: LedgerFault) -> Message
    ensures { result.bytes ≡ spec.ledger_message fault }
{
    let number = fault.number();
    match fault {
        LedgerFault::TariffRefused(fault) => tariff_message(fault),
        LedgerFault::WrongPeriod(period) => period_message(number, period),
        _ => numbered("ledger", number),
    }
}
