//! What the program says on standard error, and the status that goes with it. A line that can't be
//! written is dropped: the status says the same.

ghost use Rattle.std.specs.Prelude.{◌≡◌, ◌≤◌, [], ◌∷◌, length};
ghost use Rattle.std.specs.IoError.{error_kind};
ghost use Rattle.program_output.specs.Messages.{AreSaid, arguments_line, busy_line, far_line};
ghost use Rattle.program_output.specs.Messages.{io_line, layout_line, ledger_line, line_at, line_of};
ghost use Rattle.program_output.specs.Messages.{log_line, no_number_line};
ghost use Rattle.program_output.specs.Messages.{report_line, stop_lines, torn_line, unsound_line};
ghost use Rattle.program_output.specs.Messages as messages;
ghost use Rattle.program_output.specs.Statuses as statuses;
ghost use Rattle.program_output.specs.Statuses.{arguments_status, log_status, report_status};
ghost use Rattle.program_output.specs.Statuses.{stop_status};

use crate::error_line::{say, say_at, say_line};
use crate::fault_message::{ledger_message, numbered};
use crate::status::Status;
use book_core::LedgerFault;
use book_import::Stop;
use book_reports::ReportFault;
use std::io;
use std::io::ErrorKind;
use streams::Writer;

/// The status of a ledger's fault.
fn ledger_status(fault: LedgerFault) -> Status
    ensures { result ≡ statuses.ledger_status fault }
{
    match fault {
        LedgerFault::Memory => Status::Memory,
        LedgerFault::Store | LedgerFault::Reopen | LedgerFault::NotBooks => Status::Store,
        LedgerFault::OldForm | LedgerFault::NewForm => Status::Store,
        _ => Status::Refused,
    }
}

/// Says that a file, a socket or the output failed.
pub fn io_failed<E: Writer>(errors: &mut E) -> Status
    ensures status { result ≡ Status.Io }
    ensures said { AreSaid E.contents E.may_answer (io_line ∷ []) errors.old errors.new }
{
    say_line(errors, "io");
    Status::Io
}

/// Says that memory ran out.
pub fn out_of_memory<E: Writer>(errors: &mut E) -> Status
    ensures status { result ≡ Status.Memory }
    ensures said { AreSaid E.contents E.may_answer (ledger_line LedgerFault.Memory ∷ [])
        errors.old errors.new }
{
    ledger_refused(errors, LedgerFault::Memory)
}

/// Says that the words could not be taken over: one is not UTF-8, or there was no memory for them.
pub fn arguments_failed<E: Writer>(errors: &mut E, error: &io::Error) -> Status
    ensures status { result ≡ arguments_status (error_kind error.now) }
    ensures said { AreSaid E.contents E.may_answer (arguments_line (error_kind error.now) ∷ [])
        errors.old errors.new }
{
    match error.kind() {
        ErrorKind::OutOfMemory => out_of_memory(errors),
        _ => {
            say(errors, "error: a word is not UTF-8\n");
            Status::Usage
        }
    }
}

/// Says that nothing has the number that was to be explained, and which numbers there are.
pub fn no_such_number<E: Writer>(errors: &mut E) -> Status
    ensures status { result ≡ Status.Usage }
    ensures said { AreSaid E.contents E.may_answer (no_number_line ∷ []) errors.old errors.new }
{
    say(
        errors,
        "error: nothing has this number: frame has 1 to 8, ledger 1 to 20, tariff 1 to 7, damaged \
         1 to 9, a word none\n",
    );
    Status::Usage
}

/// Says in a word why the input was refused.
pub fn input_refused<E: Writer>(errors: &mut E, word: &str) -> Status
    requires { length word.now ≤ 64 }
    ensures status { result ≡ Status.Refused }
    ensures said { AreSaid E.contents E.may_answer (line_of word.now ∷ []) errors.old errors.new }
{
    say_line(errors, word);
    Status::Refused
}

/// Says the same of a line of a file.
pub fn input_refused_at<E: Writer>(errors: &mut E, word: &str, number: usize) -> Status
    requires { length word.now ≤ 64 }
    ensures status { result ≡ Status.Refused }
    ensures said { AreSaid E.contents E.may_answer (line_at word.now number ∷ [])
        errors.old errors.new }
{
    say_at(errors, word, number);
    Status::Refused
}

/// Says why words are refused each of which is right.
pub fn words_refused<E: Writer>(errors: &mut E, text: &str) -> Status
    ensures status { result ≡ Status.Usage }
    ensures said { AreSaid E.contents E.may_answer (text.now ∷ []) errors.old errors.new }
{
    say(errors, text);
    Status::Usage
}

/// Says that an audit found books unsound.
pub fn books_unsound<E: Writer>(errors: &mut E) -> Status
    ensures status { result ≡ Status.Store }
    ensures said { AreSaid E.contents E.may_answer (unsound_line ∷ []) errors.old errors.new }
{
    say_line(errors, "unsound");
    Status::Store
}

/// Says that another program has the file of the books open.
pub fn books_busy<E: Writer>(errors: &mut E) -> Status
    ensures status { result ≡ Status.Store }
    ensures said { AreSaid E.contents E.may_answer (busy_line ∷ []) errors.old errors.new }
{
    say_line(errors, "busy");
    Status::Store
}

/// Says that the log beside the books holds a part of them. A change of books that went well ends so
/// with a status of its own: a copy of their file alone may lack it.
pub fn log_left<E: Writer>(errors: &mut E, status: Status, is_change: bool) -> Status
    ensures status { result ≡ log_status status is_change }
    ensures said { AreSaid E.contents E.may_answer (log_line ∷ []) errors.old errors.new }
{
    say_line(errors, "log");
    match status {
        Status::Done if is_change => Status::Store,
        _ => status,
    }
}

/// Says that a dump reads as blocks and was read as segments alone. The status stays as it is.
pub fn layout_noticed<E: Writer>(errors: &mut E)
    ensures { AreSaid E.contents E.may_answer (layout_line ∷ []) errors.old errors.new }
{
    say_line(errors, "layout");
}

/// Says that a ruling is dated long after the newest record. The status stays as it is.
pub fn far_noticed<E: Writer>(errors: &mut E)
    ensures { AreSaid E.contents E.may_answer (far_line ∷ []) errors.old errors.new }
{
    say_line(errors, "far");
}

/// Says that a dump has no record, or fewer trailers than headers. The status stays as it is.
pub fn torn_noticed<E: Writer>(errors: &mut E)
    ensures { AreSaid E.contents E.may_answer (torn_line ∷ []) errors.old errors.new }
{
    say_line(errors, "torn");
}

/// Says why a ledger refused.
pub fn ledger_refused<E: Writer>(errors: &mut E, fault: LedgerFault) -> Status
    ensures status { result ≡ statuses.ledger_status fault }
    ensures said { AreSaid E.contents E.may_answer (ledger_line fault ∷ []) errors.old errors.new }
{
    let message = ledger_message(fault);
    say_line(errors, message.as_str());
    ledger_status(fault)
}

/// Says why a ledger refused what a line of a file asks.
pub fn ledger_refused_at<E: Writer>(errors: &mut E, fault: LedgerFault, number: usize) -> Status
    ensures status { result ≡ statuses.ledger_status fault }
    ensures said { AreSaid E.contents E.may_answer (line_at (messages.ledger_message fault) number ∷ [])
        errors.old errors.new }
{
    let message = ledger_message(fault);
    say_at(errors, message.as_str(), number);
    ledger_status(fault)
}

/// Says why a report was not written.
pub fn report_failed<E: Writer>(errors: &mut E, fault: ReportFault) -> Status
    ensures status { result ≡ report_status fault }
    ensures said { AreSaid E.contents E.may_answer (report_line fault ∷ []) errors.old errors.new }
{
    match fault {
        ReportFault::Write => io_failed(errors),
        ReportFault::Memory => out_of_memory(errors),
        ReportFault::Ledger(fault) => ledger_refused(errors, fault),
    }
}

/// Says why a dump was not read to its end, if it was not.
pub fn stopped<E: Writer>(errors: &mut E, stop: Stop) -> Status
    ensures status { result ≡ stop_status stop }
    ensures said { AreSaid E.contents E.may_answer (stop_lines stop) errors.old errors.new }
{
    match stop {
        Stop::End => Status::Done,
        Stop::Frame(fault) => {
            let message = numbered("frame", fault.number());
            say_line(errors, message.as_str());
            Status::Refused
        }
        Stop::Read | Stop::ReadLimit => io_failed(errors),
        Stop::Ledger(fault) => ledger_refused(errors, fault),
    }
}
