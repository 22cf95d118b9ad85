//! Trials: a dump from standard input is priced in new books, which are not kept.

ghost use Rattle.std.specs.Prelude.{◌≡◌, IfErr, IfOk, Ok, true};
ghost use Rattle.streams.specs.Failures.{HasFailed};
ghost use Rattle.streams.specs.Sinks.{has_failed, writer_of};
ghost use Rattle.tariff_rules.specs.TariffFile.{terms_in};
ghost use Rattle.book_lists.specs.Writing.{is_write_fault};
ghost use Rattle.without_books.specs.Faults.{IsFaultIn};
ghost use Rattle.without_books.specs.Reading.{IsTariffRead, TriesBy, TriesUnder, lasting, trial_end};

use crate::command_fault::CommandFault;
use crate::ended::Ended;
use crate::first_bytes::{LookedAt, look_at};
use crate::inputs::Inputs;
use crate::tariff_texts::tariff_text;
use book_core::{LedgerFault, Sink, Source};
use book_import::{MAX_READS, Receipt};
use book_reports::ReportFault;
use program_output::{is_receipt_torn, trial};
use smf_frames::Layout;
use std::alloc::Global;
use std::io::Read;
use streams::Writer;
use tariff_rules::{Tariff, TariffFault};

/// Prices the records of the input under one tariff. None means a rate outside its limits.
pub fn run_trial<I: Read + Drop, O: Writer + Drop>(
    alloc: Global,
    layout: Layout,
    has_to_be_whole: bool,
    tariff: Option<Tariff>,
    input: I,
    output: O,
) -> (Ended, O)
    ensures { TriesBy layout has_to_be_whole tariff (I.remaining input) (O.contents output)
        (O.contents result.1) (∥ HasFailed O.may_answer result.1 ∥₁) result.0 }
{
    let Some(tariff) = tariff else {
        return (Ended::without_log(Err(CommandFault::Usage)), output);
    };
    let LookedAt { reader, is_misread } = look_at(alloc, layout, input);
    let mut source = Source::new(reader);
    let mut sink = Sink::new(output);
    let told = trial(alloc, &mut source, layout, MAX_READS, tariff, &mut sink);
    end_trial(has_to_be_whole, is_misread, told, sink)
}

/// How a trial ends that came to this, and the output as its texts left it.
fn end_trial<O: Writer + Drop>(
    has_to_be_whole: bool,
    is_misread: bool,
    told: Result<Receipt, ReportFault>,
    sink: Sink<O>,
) -> (Ended, O)
    requires { has_failed sink ≡ is_write_fault told }
    ensures ended { result.0 ≡ trial_end has_to_be_whole is_misread told }
    ensures writer { result.1 ≡ writer_of sink }
    ensures failed { is_write_fault told ≡ true → ∥ HasFailed O.may_answer result.1 ∥₁ }
{
    let ended = trial_ended(has_to_be_whole, is_misread, told);
    (ended, sink.into_inner())
}

/// Prices the records of the input under the tariff of a file, whatever its first day is.
pub fn run_trial_under<F: Inputs, I: Read + Drop, O: Writer + Drop>(
    alloc: Global,
    inputs: &F,
    layout: Layout,
    has_to_be_whole: bool,
    file: &str,
    input: I,
    output: O,
) -> (Ended, O)
    ensures { TriesUnder ((F.held inputs.now).holds file.now) layout has_to_be_whole
        (I.remaining input) (O.contents output) (O.contents result.1)
        (∥ HasFailed O.may_answer result.1 ∥₁) result.0 }
{
    match read_tariff(alloc, inputs, file) {
        Ok(tariff) => run_trial(alloc, layout, has_to_be_whole, Some(tariff), input, output),
        Err(fault) => (Ended::without_log(Err(fault)), output),
    }
}

/// The tariff of a file, in force on every day.
fn read_tariff<F: Inputs>(alloc: Global, inputs: &F, file: &str) -> Result<Tariff, CommandFault>
    ensures { IsTariffRead ((F.held inputs.now).holds file.now) result }
{
    let text = tariff_text(alloc, inputs, file)?;
    lasting_tariff(alloc, text.as_str())
}

/// The tariff of a text, in force on every day.
fn lasting_tariff(alloc: Global, text: &str) -> Result<Tariff, CommandFault>
    ensures lasts { IfOk result (λ tariff. lasting (terms_in text.now) ≡ Ok tariff) }
    ensures refused { IfErr result (IsFaultIn (lasting (terms_in text.now))) }
{
    match Tariff::parse(alloc, text) {
        Ok(tariff) => Ok(tariff.on_every_day()),
        Err(TariffFault::Memory) => Err(CommandFault::Ledger(LedgerFault::Memory)),
        Err(why) => Err(CommandFault::Ledger(LedgerFault::TariffRefused(why))),
    }
}

/// How a trial ends of a dump that looks misread or not.
fn trial_ended(has_to_be_whole: bool, is_misread: bool, told: Result<Receipt, ReportFault>) -> Ended
    ensures { result ≡ trial_end has_to_be_whole is_misread told }
{
    match told {
        Ok(receipt) => {
            let is_torn = is_receipt_torn(&receipt);
            Ended::at_stop(receipt.stop, has_to_be_whole, is_misread, is_torn)
        }
        Err(fault) => Ended::without_log(Err(CommandFault::from(fault))),
    }
}
