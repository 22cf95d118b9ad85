//! Where a fault is, and why, as far as a second look shows it. The look comes after the command has
//! ended, and may meet another state than the command met: it is advice, and no status rests on it.

use crate::causes::{
    cause_of_books, cause_of_new, cause_of_port, cause_of_read, in_place_of_log, is_file, is_there,
};
use crate::command_fault::CommandFault;
use crate::inputs::HostInputs;
use crate::refused_lines::line_in_file;
use crate::tariff_texts::tariff_text;
use book_core::LedgerFault;
use book_import::Stop;
use book_reports::ReportFault;
use command_line::{BookRequest, Request, Ruling};
use program_output::Cause;
use tariff_rules::{Entry, Tariff, TariffFault};

/// What may be in the way of a file that is made, by what follows its path: it, its log and its
/// journal, and the file in which it is begun, with those of that.
const NEW_FILES: [&str; 6] = ["", "-wal", "-journal", "-new", "-new-wal", "-new-journal"];

/// The same of the copy of books on which a dry run works.
const TRIAL_FILES: [&str; 3] = ["-try", "-try-wal", "-try-journal"];

/// What a fault is about, in the words of the command.
#[derive(Clone, Copy)]
pub(crate) enum Place<'a> {
    /// A file, by its path.
    File(&'a str),
    /// A file beside another, by the path of that and what follows it.
    Beside(&'a str, &'static str),
    /// A port of this machine.
    Port(u16),
    /// Standard input.
    Input,
    /// Standard output.
    Output,
}

/// Where in a tariff file or a list a fault is.
#[derive(Clone, Copy)]
pub(crate) enum Within {
    /// The line, counted from 1: where a tariff file is no TOML document, or what a list says there was
    /// refused.
    Line(u64),
    /// The entry of a tariff file that is no rule.
    Entry(Entry),
}

/// Where a fault is, and why.
#[derive(Clone, Copy)]
pub(crate) struct Spot<'a> {
    pub(crate) place: Place<'a>,
    /// Where in a file.
    pub(crate) within: Option<Within>,
    /// None where the fault's own line says it.
    pub(crate) cause: Option<Cause>,
}

impl<'a> Spot<'a> {
    fn at(place: Place<'a>, cause: Option<Cause>) -> Spot<'a> {
        Spot {
            place,
            within: None,
            cause,
        }
    }

    /// In a file, whose fault its own line says.
    fn in_file(path: Option<&'a str>) -> Option<Spot<'a>> {
        Some(Spot::at(Place::File(path?), None))
    }
}

/// The files and the port that the words of a command name.
#[derive(Clone, Copy)]
pub(crate) struct Places<'a> {
    /// The books that have to be there.
    books: Option<&'a str>,
    /// The file that is read: a dump, a tariff or a list of names.
    read: Option<&'a str>,
    /// The file that is made: new books, or a copy of books.
    new: Option<&'a str>,
    /// What may be in the way of a file that is made, by what follows this path.
    made: Option<(&'a str, &'static [&'static str])>,
    port: Option<u16>,
    /// Where a dump comes from.
    dump: Place<'a>,
}

impl<'a> Places<'a> {
    pub(crate) fn of(request: Request<'a>) -> Places<'a> {
        match request {
            Request::OfBooks { book, asked, .. } => Places::of_books(book, asked),
            Request::TrialUnder { file, .. } => Places::of_file(Some(file), Place::Input),
            Request::Check { dump, .. } => Places::of_file(Some(dump.file), Place::File(dump.file)),
            Request::Trial { .. } | Request::Explain { .. } | Request::Unclear(_) => {
                Places::of_file(None, Place::Input)
            }
        }
    }

    fn of_file(read: Option<&'a str>, dump: Place<'a>) -> Places<'a> {
        Places {
            books: None,
            read,
            new: None,
            made: None,
            port: None,
            dump,
        }
    }

    fn of_books(book: &'a str, asked: BookRequest<'a>) -> Places<'a> {
        let mut places = Places {
            books: Some(book),
            read: read_by(asked),
            new: None,
            made: made_by(book, asked),
            port: None,
            dump: Place::Input,
        };
        match asked {
            BookRequest::Init => {
                places.books = None;
                places.new = Some(book);
            }
            BookRequest::BackUp { copy, .. } => places.new = Some(copy),
            BookRequest::Serve { port, .. } => places.port = Some(port),
            BookRequest::Import(dump) => places.dump = Place::File(dump.file),
            BookRequest::WithholdDump { file, .. } => places.dump = Place::File(file),
            _ => (),
        }
        places
    }

    /// Where a fault is. None where it is in no file, port or stream.
    pub(crate) fn spot_of(self, rt: &HostRuntime, fault: CommandFault) -> Option<Spot<'a>> {
        match fault {
            CommandFault::Io => Some(self.failed(rt)),
            CommandFault::Busy => self.in_use(),
            CommandFault::Exists => self.in_the_way(rt),
            // Of an unsound copy nothing is left.
            CommandFault::Unsound => Spot::in_file(self.books),
            CommandFault::ArgumentAt(line) | CommandFault::LedgerAt(_, line) => self.in_line(line),
            CommandFault::Torn => Spot::in_file(self.read),
            CommandFault::Ledger(refused) => self.refused(rt, refused),
            CommandFault::Report(ReportFault::Ledger(refused)) => self.refused(rt, refused),
            CommandFault::Report(ReportFault::Write) => Some(output_failed()),
            CommandFault::Stopped(stop) => self.stopped(rt, stop),
            _ => None,
        }
    }

    /// The line of a list that was refused. Empty where none was, or a second look does not find it.
    pub(crate) fn refused_line(self, rt: &HostRuntime, fault: CommandFault) -> Vec<u8> {
        let Some(path) = self.read else {
            return Vec::new(rt.alloc());
        };
        match fault {
            CommandFault::ArgumentAt(line) | CommandFault::LedgerAt(_, line) => {
                line_in_file(rt, path, line)
            }
            _ => Vec::new(rt.alloc()),
        }
    }

    /// In a line of the file that is read.
    fn in_line(self, line: usize) -> Option<Spot<'a>> {
        Some(Spot {
            place: Place::File(self.read?),
            within: Some(Within::Line(line as u64)),
            cause: None,
        })
    }

    /// The books that another program has open: new ones are made under a second name.
    fn in_use(self) -> Option<Spot<'a>> {
        let place = match self.books {
            Some(path) => Place::File(path),
            None => Place::Beside(self.new?, "-new"),
        };
        Some(Spot::at(place, Some(Cause::Taken)))
    }

    /// The file that is in the way of one that was to be made, or of the log of the books: the first
    /// that a second look finds.
    fn in_the_way(self, rt: &HostRuntime) -> Option<Spot<'a>> {
        if let Some((path, endings)) = self.made {
            for &ending in endings {
                if is_there(rt, path, ending) {
                    return Some(Spot::at(Place::Beside(path, ending), None));
                }
            }
        }
        if let Some(path) = self.books {
            if let Some(ending) = in_place_of_log(rt, path) {
                return Some(Spot::at(Place::Beside(path, ending), None));
            }
        }
        Spot::in_file(self.new.or(self.books))
    }

    /// The first of the places that a second look finds at fault. Where there is none, the file that
    /// was to be made has failed, or else the output.
    fn failed(self, rt: &HostRuntime) -> Spot<'a> {
        if let Some(path) = self.books {
            if let Some(cause) = cause_of_books(rt, path) {
                return Spot::at(Place::File(path), Some(cause));
            }
        }
        if let Some(path) = self.read {
            if let Some(cause) = cause_of_read(rt, path) {
                return Spot::at(Place::File(path), Some(cause));
            }
        }
        if let Some(port) = self.port {
            if let Some(cause) = cause_of_port(rt, port) {
                return Spot::at(Place::Port(port), Some(cause));
            }
        }
        match self.new {
            Some(path) => self.failed_new(rt, path),
            None => output_failed(),
        }
    }

    /// A copy that has its name is whole.
    fn failed_new(self, rt: &HostRuntime, path: &'a str) -> Spot<'a> {
        if self.books.is_some() {
            if is_there(rt, path, "") {
                return output_failed();
            }
        }
        let cause = cause_of_new(rt, path).unwrap_or(Cause::Failed);
        Spot::at(Place::File(path), Some(cause))
    }

    /// Where the books refused.
    fn refused(self, rt: &HostRuntime, fault: LedgerFault) -> Option<Spot<'a>> {
        match fault {
            LedgerFault::TariffRefused(fault) => {
                let path = self.read?;
                Some(Spot {
                    place: Place::File(path),
                    within: fault_place(rt, path, fault),
                    cause: None,
                })
            }
            LedgerFault::Store
            | LedgerFault::Reopen
            | LedgerFault::NotBooks
            | LedgerFault::OldForm
            | LedgerFault::NewForm => Spot::in_file(self.books.or(self.new)),
            _ => None,
        }
    }

    /// Where the reading of a dump stopped.
    fn stopped(self, rt: &HostRuntime, stop: Stop) -> Option<Spot<'a>> {
        match stop {
            Stop::End => None,
            Stop::Frame(_) => Some(Spot::at(self.dump, None)),
            Stop::Read | Stop::ReadLimit => Some(Spot::at(self.dump, Some(self.dump_cause(rt)))),
            Stop::Ledger(fault) => self.refused(rt, fault),
        }
    }

    fn dump_cause(self, rt: &HostRuntime) -> Cause {
        match self.dump {
            Place::File(path) => cause_of_read(rt, path).unwrap_or(Cause::Failed),
            _ => Cause::Failed,
        }
    }
}

/// The file that a request to books reads.
fn read_by<'a>(asked: BookRequest<'a>) -> Option<&'a str> {
    match asked {
        BookRequest::Rule(Ruling::Tariff { file })
        | BookRequest::RuleNear(Ruling::Tariff { file })
        | BookRequest::DryRun(Ruling::Tariff { file })
        | BookRequest::Rule(Ruling::Replace { file })
        | BookRequest::RuleNear(Ruling::Replace { file })
        | BookRequest::DryRun(Ruling::Replace { file })
        | BookRequest::ChooseListed { file, .. }
        | BookRequest::TryListed { file, .. }
        | BookRequest::WithholdDump { file, .. }
        | BookRequest::WhatIf { file, .. } => Some(file),
        BookRequest::Import(dump) => Some(dump.file),
        _ => None,
    }
}

/// What may be in the way of a file that a request to books makes, by what follows a path.
fn made_by<'a>(
    book: &'a str,
    asked: BookRequest<'a>,
) -> Option<(&'a str, &'static [&'static str])> {
    match asked {
        BookRequest::Init => Some((book, &NEW_FILES)),
        BookRequest::BackUp { copy, .. } => Some((copy, &NEW_FILES)),
        BookRequest::DryRun(_) | BookRequest::TryListed { .. } => Some((book, &TRIAL_FILES)),
        _ => None,
    }
}

fn output_failed<'a>() -> Spot<'a> {
    Spot::at(Place::Output, Some(Cause::Failed))
}

/// Where in a tariff file its fault is. None where that is in no line and in no entry, where the file
/// can't be read again, and where memory runs out.
fn fault_place(rt: &HostRuntime, path: &str, fault: TariffFault) -> Option<Within> {
    if !is_file(rt, path) {
        return None;
    }
    let text = tariff_text(rt.alloc(), &HostInputs::of(rt), path).ok()?;
    match fault {
        TariffFault::Syntax => line_in(rt, text.as_str()),
        _ => entry_in(rt, text.as_str()),
    }
}

/// The line at which a text is no TOML document.
fn line_in(rt: &HostRuntime, text: &str) -> Option<Within> {
    match toml::table_from_str(rt.alloc(), text) {
        Ok(_) => None,
        Err(error) => {
            let span = error.span()?;
            Some(Within::Line(line_at(text.as_bytes(), span.start)))
        }
    }
}

/// The line of a place among bytes, counted from 1.
fn line_at(bytes: &[u8], place: usize) -> u64 {
    let mut line: u64 = 1;
    for byte in bytes.iter().take(place) {
        if *byte == b'\n' {
            line = line.saturating_add(1);
        }
    }
    line
}

/// The entry at which the text of a tariff file has its fault.
fn entry_in(rt: &HostRuntime, text: &str) -> Option<Within> {
    let entry = Tariff::entry_at_fault(rt.alloc(), text).ok()??;
    Some(Within::Entry(entry))
}
