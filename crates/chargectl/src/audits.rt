//! Audits of books, and of copies of them.

ghost use Rattle.streams.specs.Failures.{HasFailed};
ghost use Rattle.chargectl.specs.Audits.{AuditsBooks, BacksUp, EndsAudit};

use crate::book_commands::print;
use crate::watched_rows::WatchedRows;
use book_audit::{Audited, AuditedRepository, audit_text};
use named_books::{Opened, RepositoryFault};
use office::Answer;
use std::alloc::Global;
use std::io::IsTerminal;
use streams::Writer;
use without_books::{CommandFault, Ended};

/// Audits the whole file of books, and prints the result.
pub(crate) fn audit<S: AuditedRepository, O: Writer + Drop>(
    rt: &HostRuntime,
    repository: &S,
    book: &str,
    quiet: bool,
    output: O,
) -> (Result<Ended, CommandFault>, O)
    ensures { AuditsBooks book.now (S.shelf repository.now) (S.shelf repository.now)
        (O.contents output) (O.contents result.1) (∥ HasFailed O.may_answer result.1 ∥₁) result.0 }
{
    if let Err(fault) = repository.expect(book) {
        return (Err(CommandFault::from(fault)), output);
    }
    let mut rows = WatchedRows::new(rt, !quiet && rt.stderr().is_terminal());
    let Opened { answer, has_log } = repository.audit(book, &mut rows);
    rows.clear();
    let (came, output) = show_audited(rt.alloc(), answer, output);
    let ended = Ended {
        came,
        has_log,
        is_change: false,
        notice: None,
    };
    (Ok(ended), output)
}

/// Copies books to another file, audits the copy, and prints the result.
pub(crate) fn back_up<S: AuditedRepository, O: Writer + Drop>(
    rt: &HostRuntime,
    repository: &mut S,
    book: &str,
    copy: &str,
    quiet: bool,
    output: O,
) -> (Result<Ended, CommandFault>, O)
    ensures { BacksUp book.now copy.now (S.shelf repository.old) (S.shelf repository.new)
        (O.contents output) (O.contents result.1) (∥ HasFailed O.may_answer result.1 ∥₁) result.0 }
{
    if let Err(fault) = repository.expect(book) {
        return (Err(CommandFault::from(fault)), output);
    }
    let mut rows = WatchedRows::new(rt, !quiet && rt.stderr().is_terminal());
    let Opened { answer, has_log } = repository.back_up(book, copy, &mut rows);
    rows.clear();
    let (came, output) = show_audited(rt.alloc(), answer, output);
    let ended = Ended {
        came,
        has_log,
        is_change: false,
        notice: None,
    };
    (Ok(ended), output)
}

/// Prints what came of an audit.
fn show_audited<O: Writer + Drop>(
    alloc: Global,
    audited: Result<Audited, RepositoryFault>,
    output: O,
) -> (Result<(), CommandFault>, O)
    ensures { EndsAudit audited (O.contents output) (O.contents result.1)
        (∥ HasFailed O.may_answer result.1 ∥₁) result.0 }
{
    match audited {
        Ok(audited) => write_audited(alloc, &audited, output),
        Err(fault) => (Err(CommandFault::from(fault)), output),
    }
}

/// Writes what was found. Books that are unsound end the command so, whatever became of the text.
fn write_audited<O: Writer + Drop>(
    alloc: Global,
    audited: &Audited,
    output: O,
) -> (Result<(), CommandFault>, O)
    ensures { EndsAudit (Ok audited.now) (O.contents output) (O.contents result.1)
        (∥ HasFailed O.may_answer result.1 ∥₁) result.0 }
{
    let text = match audit_text(alloc, audited) {
        Ok(text) => text,
        Err(fault) => return (Err(CommandFault::from(fault)), output),
    };
    let (written, output) = print(&Answer::Text(text.into_bytes()), output);
    match audited {
        Audited::Sound(_) => (written, output),
        Audited::Unsound(_) => (Err(CommandFault::Unsound), output),
    }
}
