//! What the program says of a fault, and the status with which it ends.

use crate::faults::{report_fault, stop_of};
use book_reports::ReportFault;
use program_output::{
    Status, arguments_failed, far_noticed, layout_noticed, report_failed, stopped, torn_noticed,
};
use std::io;
use std::io::ErrorKind;
use tests_scripts::{AnswerText, LineFault, LineResult};

/// Says why the words could not be taken over.
fn say_words(out: &mut AnswerText, kind: ErrorKind) -> Status {
    let error: io::Error = kind.into();
    arguments_failed(out, &error)
}

/// Says why a report was not written, with the number of the fault.
fn say_report(out: &mut AnswerText, fault: ReportFault) -> Status {
    let status = report_failed(out, fault);
    out.value_line("FAULT ", fault.number());
    status
}

/// Adds what the program says of `report FAULT`, `stop STOP`, `words not_utf8` or
/// `words no_memory`, and its status.
fn push_failure(words: &[&str], out: &mut AnswerText) -> LineResult {
    let status = match words {
        ["report", fault @ ..] => say_report(out, report_fault(fault)?),
        ["stop", stop @ ..] => stopped(out, stop_of(stop)?),
        ["words", "not_utf8"] => say_words(out, ErrorKind::InvalidData),
        ["words", "no_memory"] => say_words(out, ErrorKind::OutOfMemory),
        _ => return Err(LineFault::NotUnderstood),
    };
    out.value_line("STATUS ", status.code());
    Ok(())
}

/// Adds what the program says of a failure, or of `layout`, `far` or `torn`, which have no status.
pub(crate) fn push_message(words: &[&str], out: &mut AnswerText) -> LineResult {
    match words {
        ["layout"] => layout_noticed(out),
        ["far"] => far_noticed(out),
        ["torn"] => torn_noticed(out),
        _ => return push_failure(words, out),
    }
    Ok(())
}
