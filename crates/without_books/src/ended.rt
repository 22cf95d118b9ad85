//! How a command ended, and what it says of that on standard error.

ghost use Rattle.std.specs.Prelude.{◌≡◌};
ghost use Rattle.program_output.specs.Messages.{AreSaid};
ghost use Rattle.without_books.specs.DumpEnds.{dump_end};
ghost use Rattle.without_books.specs.Faults as spec;
ghost use Rattle.without_books.specs.Faults.{came_lines, came_status, error_lines, notice_lines};
ghost use Rattle.without_books.specs.Faults.{settled_as, status_by, told_lines, told_status};
ghost use Rattle.without_books.specs.Faults.{without_log};

use crate::command_fault::{CommandFault, end_of};
use crate::notice::{Notice, dump_notice};
use book_import::Stop;
use program_output::{Status, log_left};
use streams::Writer;

/// How a command ended.
#[derive(Drop)]
pub struct Ended {
    /// It did what it was asked, or why not.
    pub came: Result<(), CommandFault>,
    /// The log beside the books holds a part of them.
    pub has_log: bool,
    /// It may have changed the books.
    pub is_change: bool,
    /// What it noticed of a dump or of a day.
    pub notice: Option<Notice>,
}

impl Ended {
    /// How a command ended that left no log and noticed nothing.
    pub fn without_log(came: Result<(), CommandFault>) -> Ended
        ensures { result ≡ without_log came }
    {
        Ended {
            came,
            has_log: false,
            is_change: false,
            notice: None,
        }
    }

    /// How a command ended that read a dump up to a stop, and opened no books.
    pub fn at_stop(stop: Stop, has_to_be_whole: bool, is_misread: bool, is_torn: bool) -> Ended
        ensures { result ≡ dump_end has_to_be_whole is_misread is_torn stop }
    {
        Ended {
            came: end_of(stop),
            has_log: false,
            is_change: false,
            notice: dump_notice(has_to_be_whole, is_misread, is_torn, stop),
        }
    }

    /// Says on standard error why it was not done, what it noticed, and where the books are in two
    /// files.
    #[tactic(auto, using(program_output::proofs::MessageLemmas::said_then))]
    pub fn write_to<E: Writer>(self, errors: &mut E) -> Status
        ensures status { result ≡ status_by self }
        ensures said { AreSaid E.contents E.may_answer (error_lines self) errors.old errors.new }
    {
        let status = say_told(self.came, self.notice, errors);
        if self.has_log {
            log_left(errors, status, self.is_change)
        } else {
            status
        }
    }
}

/// How a command ended that may have found a fault before it opened any books.
pub fn settled(came: Result<Ended, CommandFault>) -> Ended
    ensures { result ≡ settled_as came }
{
    match came {
        Ok(ended) => ended,
        Err(fault) => Ended::without_log(Err(fault)),
    }
}

/// Says why a command was not done, if it was not, and what it noticed.
#[tactic(auto, using(program_output::proofs::MessageLemmas::said_then))]
fn say_told<E: Writer>(
    came: Result<(), CommandFault>,
    notice: Option<Notice>,
    errors: &mut E,
) -> Status
    ensures status { result ≡ told_status came notice }
    ensures said { AreSaid E.contents E.may_answer (told_lines came notice) errors.old errors.new }
{
    let status = say_fault(came, errors);
    say_notice(notice, errors);
    noticed_status(notice, status)
}

/// The exit status, with what was noticed.
fn noticed_status(notice: Option<Notice>, status: Status) -> Status
    ensures { result ≡ spec.noticed_status notice status }
{
    match notice {
        Some(Notice::NotWhole) => unwhole_status(status),
        _ => status,
    }
}

/// That of a command that went well, but for a dump that had to be whole.
fn unwhole_status(status: Status) -> Status
    ensures { result ≡ spec.unwhole_status status }
{
    match status {
        Status::Done => Status::Store,
        _ => status,
    }
}

/// Says what a command noticed, if it did.
fn say_notice<E: Writer>(notice: Option<Notice>, errors: &mut E)
    ensures { AreSaid E.contents E.may_answer (notice_lines notice) errors.old errors.new }
{
    if let Some(notice) = notice {
        notice.write_to(errors);
    }
}

/// Says why a command was not done, if it was not.
pub fn say_fault<E: Writer>(came: Result<(), CommandFault>, errors: &mut E) -> Status
    ensures status { result ≡ came_status came }
    ensures said { AreSaid E.contents E.may_answer (came_lines came) errors.old errors.new }
{
    match came {
        Ok(()) => Status::Done,
        Err(fault) => fault.write_to(errors),
    }
}
