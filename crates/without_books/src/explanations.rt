//! What numbers and words mean, and what to do.

ghost use Rattle.std.specs.Prelude.{◌≡◌, IfOk, string_bytes};
ghost use Rattle.streams.specs.Failures.{HasFailed};
ghost use Rattle.without_books.specs.Faults.{IsPrinted};
ghost use Rattle.without_books.specs.Reading as spec;
ghost use Rattle.without_books.specs.Reading.{TellsOf};

use crate::command_fault::CommandFault;
use crate::printed_text::print_text;
use book_core::LedgerFault;
use command_line::NumberKind;
use program_output::{Explanation, FaultKind, WordKind, explained};
use std::alloc::{AllocError, Global};
use streams::Writer;
use text_drafts::Draft;

/// Says what a number or a word means.
pub fn explain<O: Writer + Drop>(
    alloc: Global,
    kind: NumberKind,
    number: u16,
    output: &mut O,
) -> Result<(), CommandFault>
    ensures { TellsOf (spec.kind_of kind) number (O.contents output.old) (O.contents output.new)
        (∥ HasFailed O.may_answer output.new ∥₁) result }
{
    let Some(Explanation { meaning, advice }) = explained(numbered(kind), number) else {
        return Err(CommandFault::Number);
    };
    tell_lines(alloc, meaning, advice, output)
}

/// Writes what a number means and what to do.
fn tell_lines<O: Writer + Drop>(
    alloc: Global,
    meaning: &str,
    advice: &str,
    output: &mut O,
) -> Result<(), CommandFault>
    ensures { IsPrinted (spec.explanation_text meaning.now advice.now)
        (O.contents output.old) (O.contents output.new) (∥ HasFailed O.may_answer output.new ∥₁)
        result }
{
    match explanation_text(alloc, meaning, advice) {
        Ok(text) => print_text(text.as_str(), output),
        Err(_) => Err(CommandFault::Ledger(LedgerFault::Memory)),
    }
}

/// What a number means and what to do, a line each.
fn explanation_text(alloc: Global, meaning: &str, advice: &str) -> Result<String, AllocError>
    ensures { IfOk result (λ text. string_bytes text
        ≡ spec.explanation_text meaning.now advice.now) }
{
    let mut text = Draft::new(alloc);
    text.push_str(meaning);
    text.push_str("\n");
    text.push_str(advice);
    text.push_str("\n");
    text.finish()
}

fn numbered(kind: NumberKind) -> FaultKind
    ensures { result ≡ spec.kind_of kind }
{
    match kind {
        NumberKind::Frame => FaultKind::Frame,
        NumberKind::Ledger => FaultKind::Ledger,
        NumberKind::Tariff => FaultKind::Tariff,
        NumberKind::Damaged => FaultKind::Damage,
        NumberKind::Io => FaultKind::Word(WordKind::Io),
        NumberKind::Busy => FaultKind::Word(WordKind::Busy),
        NumberKind::Exists => FaultKind::Word(WordKind::Exists),
        NumberKind::Word => FaultKind::Word(WordKind::Word),
        NumberKind::Unsound => FaultKind::Word(WordKind::Unsound),
        NumberKind::Log => FaultKind::Word(WordKind::Log),
        NumberKind::Layout => FaultKind::Word(WordKind::Layout),
        NumberKind::Far => FaultKind::Word(WordKind::Far),
        NumberKind::Torn => FaultKind::Word(WordKind::Torn),
    }
}
