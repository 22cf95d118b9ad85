//! A text on its way to standard output.

ghost use Rattle.std.specs.Prelude.{◌≡◌, IfErr, OnErr, false, true};
ghost use Rattle.std.specs.Io.KnownBytes.{Keeps};
ghost use Rattle.streams.specs.Failures.{HasFailed};
ghost use Rattle.without_books.specs.Faults.{IsFileFault, IsPrinted};
ghost use Rattle.without_books.specs.ServedLines.{GainsBy};

use crate::command_fault::CommandFault;
use book_reports::ReportFault;
use program_output::hand_all;
use streams::Writer;

/// Writes a text, so that it has left the program. Where that fails the output has a prefix of it.
pub fn print_text<O: Writer>(text: &str, output: &mut O) -> Result<(), CommandFault>
    ensures { IsPrinted text.now (O.contents output.old) (O.contents output.new)
        (∥ HasFailed O.may_answer output.new ∥₁) result }
{
    print_bytes(text.as_bytes(), output)
}

/// Writes bytes, as a text is written.
fn print_bytes<O: Writer>(bytes: &[u8], output: &mut O) -> Result<(), CommandFault>
    ensures printed { IsPrinted bytes.now (O.contents output.old) (O.contents output.new)
        (∥ HasFailed O.may_answer output.new ∥₁) result }

    // Only a write or a flush that failed is called a failure, and nothing was written after it.
    ensures failed { OnErr result (∥ HasFailed O.may_answer output.new ∥₁) }
{
    let written = hand_all(output, bytes);
    let size = bytes.len();
    if written < size {
        return Err(CommandFault::Report(ReportFault::Write));
    }
    match let_out(output) {
        Ok(()) => Ok(()),
        Err(fault) => Err(fault),
    }
}

/// Sees to it that what was written has left the program.
pub fn let_out<O: Writer>(output: &mut O) -> Result<(), CommandFault>
    ensures kept { Keeps (O.contents output.old) (O.contents output.new) }
    ensures fault { IfErr result IsFileFault }

    // Only a flush that failed is called a failure.
    ensures failed { OnErr result (∥ HasFailed O.may_answer output.new ∥₁) }
{
    match output.let_go() {
        Ok(()) => Ok(()),
        Err(error) => Err(CommandFault::from(error)),
    }
}

/// Writes bytes, and says whether a write failed, or took nothing: then there are no more.
pub(crate) fn fails_to_write<O: Writer>(output: &mut O, bytes: &[u8]) -> bool
    ensures gains { GainsBy false result (O.contents output.old) (O.contents output.new) bytes.now }
    ensures failed { result ≡ true → ∥ HasFailed O.may_answer output.new ∥₁ }
{
    match print_bytes(bytes, output) {
        Ok(()) => false,
        Err(_) => true,
    }
}
