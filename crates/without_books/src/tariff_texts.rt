//! The texts of tariff files.

ghost use Rattle.std.specs.Prelude.{◌≡◌, ◌≤◌, IfErr, IfOk, OnOk, length, string_bytes};
ghost use Rattle.tariff_rules.specs.Limits.{most_text};
ghost use Rattle.without_books.specs.Faults.{IsNoText, IsTextOf};

use crate::command_fault::CommandFault;
use crate::inputs::Inputs;
use book_core::LedgerFault;
use std::alloc::Global;
use std::io::Read;
use tariff_rules::{MAX_TEXT, TariffFault};

/// The text of a tariff file: what the file of that name holds, where that is known. It is not too
/// long.
pub fn tariff_text<F: Inputs>(alloc: Global, inputs: &F, file: &str) -> Result<String, CommandFault>
    ensures { IsTextOf ((F.held inputs.now).holds file.now) result }
{
    read_text(alloc, inputs.open(file)?)
}

/// The text that a reader gives, which is read to its end unless it is too long.
fn read_text<R: Read + Drop>(alloc: Global, reader: R) -> Result<String, CommandFault>
    ensures { IsTextOf (R.remaining reader) result }
{
    let mut bytes = Vec::new(alloc);
    reader.take(MAX_TEXT as u64 + 1).read_to_end(&mut bytes)?;
    text_of(bytes)
}

/// The text that bytes are, if a tariff may have it.
fn text_of(bytes: Vec<u8>) -> Result<String, CommandFault>
    ensures text { IfOk result (λ text. string_bytes text ≡ bytes.items) }
    ensures short { OnOk result (length bytes.items ≤ most_text) }
    ensures refused { IfErr result (IsNoText bytes.items) }
{
    if bytes.len() > MAX_TEXT {
        return Err(CommandFault::Ledger(LedgerFault::TariffRefused(TariffFault::TooMany)));
    }
    match String::from_utf8(bytes) {
        Ok(text) => Ok(text),
        Err(_) => Err(CommandFault::Ledger(LedgerFault::TariffRefused(TariffFault::Syntax))),
    }
}
