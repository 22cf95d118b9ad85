ghost use Rattle.std.specs.Prelude.{◌≡◌};
ghost use Rattle.program_output.specs.Messages.{AreSaid};
ghost use Rattle.without_books.specs.Faults as spec;
ghost use Rattle.without_books.specs.Faults.{fault_lines, fault_status, unclear_line};

use book_core::LedgerFault;
use book_import::Stop;
use book_reports::ReportFault;
use command_line::Unclear;
use named_books::RepositoryFault;
use program_output::{
    NamesFault, Status, books_busy, books_unsound, input_refused, input_refused_at, io_failed,
    ledger_refused, ledger_refused_at, no_such_number, report_failed, stopped, words_refused,
};
use std::alloc::AllocError;
use std::io;
use std::io::ErrorKind;
use streams::Writer;

/// What is said of a word that is no amount of a credit.
const NO_AMOUNT: &str = "error: AMOUNT has four decimals and is not 0\n";

/// What is said of a word that is no reason of one.
const NO_REASON: &str = "error: REASON has 1 to 200 printable characters\n";

/// Why a command did not do what it was asked.
#[derive(Clone, Copy)]
pub enum CommandFault {
    /// A file or the output failed, or is not there.
    Io,
    /// A number is outside its limits.
    Usage,
    /// Nothing has this number.
    Number,
    /// The file is there already.
    Exists,
    /// Another program has the file of the books open.
    Busy,
    /// Words that do not say together what is asked.
    Unclear(Unclear),
    /// A word is no date, or no name of a record or of a centre.
    Argument,
    /// A word is no amount that may be credited.
    Amount,
    /// A word is no reason of a credit.
    Reason,
    /// The line of this number, of a list of names, is no name.
    ArgumentAt(usize),
    Ledger(LedgerFault),
    /// The books refused to choose the record that the line of this number names.
    LedgerAt(LedgerFault, usize),
    Report(ReportFault),
    /// An import stopped before the dump's end.
    Stopped(Stop),
    /// An audit found the books unsound.
    Unsound,
    /// A dump that had to be whole is torn, and was not imported.
    Torn,
    /// The day of a ruling that had to be near is far.
    Far,
}

impl CommandFault {
    /// Says it on standard error, in one line; of a rate outside its limits it says nothing.
    pub fn write_to<E: Writer>(self, errors: &mut E) -> Status
        ensures status { result ≡ fault_status self }
        ensures said { AreSaid E.contents E.may_answer (fault_lines self) errors.old errors.new }
    {
        match self {
            CommandFault::Io => io_failed(errors),
            CommandFault::Usage => Status::Usage,
            CommandFault::Number => no_such_number(errors),
            CommandFault::Exists => input_refused(errors, "exists"),
            CommandFault::Busy => books_busy(errors),
            CommandFault::Unclear(why) => words_refused(errors, unclear_text(why)),
            CommandFault::Argument => input_refused(errors, "word"),
            CommandFault::Amount => words_refused(errors, NO_AMOUNT),
            CommandFault::Reason => words_refused(errors, NO_REASON),
            CommandFault::ArgumentAt(line) => input_refused_at(errors, "word", line),
            CommandFault::Ledger(fault) => ledger_refused(errors, fault),
            CommandFault::LedgerAt(fault, line) => ledger_refused_at(errors, fault, line),
            CommandFault::Report(fault) => report_failed(errors, fault),
            CommandFault::Stopped(stop) => stopped(errors, stop),
            CommandFault::Unsound => books_unsound(errors),
            CommandFault::Torn => input_refused(errors, "torn"),
            CommandFault::Far => input_refused(errors, "far"),
        }
    }
}

/// What is said of words that do not say what is asked.
fn unclear_text(why: Unclear) -> &'static str
    ensures { result.now ≡ unclear_line why }
{
    match why {
        Unclear::Choice => "error: choose takes either SHA256 or --from FILE\n",
        Unclear::Dump => "error: choose takes --dump FILE with --none, and alone\n",
        Unclear::Import => "error: choose takes --import NUMBER with --none, and alone\n",
        Unclear::Prices => "error: trial takes either rates or --tariff FILE\n",
        Unclear::Period => "error: PERIOD is a number without a sign or a leading 0\n",
        Unclear::Form => "error: bill takes either --csv or --html\n",
        Unclear::Note => "error: NAME has up to 40 printable characters, and TEXT up to 200\n",
    }
}

/// A dump was read to its end, or why not.
pub fn end_of(stop: Stop) -> Result<(), CommandFault>
    ensures { result ≡ spec.end_of stop }
{
    match stop {
        Stop::End => Ok(()),
        stop => Err(CommandFault::Stopped(stop)),
    }
}

impl From<io::Error> for CommandFault {
    ghost use Rattle.std.specs.IoError.{error_kind};
    ghost use Rattle.without_books.specs.Faults.{io_fault};

    ghost from_gives = { λ error fault. fault ≡ io_fault (error_kind error) };

    fn from(error: io::Error) -> CommandFault {
        if error.kind() == ErrorKind::OutOfMemory {
            CommandFault::Ledger(LedgerFault::Memory)
        } else {
            CommandFault::Io
        }
    }
}

impl From<AllocError> for CommandFault {
    ghost use Rattle.without_books.specs.declared.command_fault.CommandFault.TheVariants.{Ledger};
    ghost use Rattle.book_model.specs.declared.fault.LedgerFault.TheVariants.{Memory};

    ghost from_gives = { λ _ fault. fault ≡ Ledger Memory };

    fn from(_: AllocError) -> CommandFault {
        CommandFault::Ledger(LedgerFault::Memory)
    }
}

impl From<LedgerFault> for CommandFault {
    ghost use Rattle.without_books.specs.declared.command_fault.CommandFault.TheVariants.{Ledger};

    ghost from_gives = { λ refused fault. fault ≡ Ledger refused };

    fn from(fault: LedgerFault) -> CommandFault {
        CommandFault::Ledger(fault)
    }
}

impl From<RepositoryFault> for CommandFault {
    ghost use Rattle.without_books.specs.Faults.{shelf_fault};

    ghost from_gives = { λ refused fault. fault ≡ shelf_fault refused };

    fn from(fault: RepositoryFault) -> CommandFault {
        match fault {
            RepositoryFault::Io => CommandFault::Io,
            RepositoryFault::Exists => CommandFault::Exists,
            RepositoryFault::Busy => CommandFault::Busy,
            RepositoryFault::Ledger(fault) => CommandFault::Ledger(fault),
            RepositoryFault::Unseen => CommandFault::Ledger(LedgerFault::Memory),
        }
    }
}

impl From<NamesFault> for CommandFault {
    ghost use Rattle.without_books.specs.Faults.{names_fault};

    ghost from_gives = { λ refused fault. fault ≡ names_fault refused };

    fn from(fault: NamesFault) -> CommandFault {
        match fault {
            NamesFault::Memory => CommandFault::Ledger(LedgerFault::Memory),
            NamesFault::Line(number) => CommandFault::ArgumentAt(number),
            NamesFault::TooMany => CommandFault::Ledger(LedgerFault::Full),
        }
    }
}

impl From<ReportFault> for CommandFault {
    ghost use Rattle.without_books.specs.declared.command_fault.CommandFault.TheVariants.{Report};

    ghost from_gives = { λ refused fault. fault ≡ Report refused };

    fn from(fault: ReportFault) -> CommandFault {
        CommandFault::Report(fault)
    }
}
