//! What a person is told of a fault besides the line that the formats fix: where it is, why, and what
//! `explain` says of it. It is told on a terminal, or where it is asked for; so any other script reads
//! what it always read.

ghost use Rattle.std.specs.Prelude.{◌≡◌, ◌++◌};
ghost use Rattle.without_books.specs.HelpLines as spec;
ghost use Rattle.without_books.specs.HelpLines.{TellsTopic, entry_text, line_text, place_text};
ghost use Rattle.without_books.specs.HelpLines.{spot_line, why_text, within_text};

use crate::asked_help::{is_asked, push_heading};
use crate::command_fault::CommandFault;
use crate::ended::Ended;
use crate::notice::Notice;
use crate::places::{Place, Places, Spot, Within};
use crate::shown_paths::{push_path, push_plain_bytes};
use book_core::LedgerFault;
use book_import::Stop;
use book_reports::ReportFault;
use command_line::Request;
use program_output::{Cause, Explanation, FaultKind, WordKind, cause_text, explained};
use std::io::{IsTerminal, Write};
use tariff_rules::Entry;
use text_drafts::Draft;

/// What a command says on standard error.
#[derive(Clone, Copy)]
pub struct Said {
    fault: Option<CommandFault>,
    notice: Option<Notice>,
    has_log: bool,
}

impl Said {
    /// What a command says that ended so.
    pub fn by(ended: &Ended) -> Said {
        let fault = match &ended.came {
            Ok(()) => None,
            Err(fault) => Some(*fault),
        };
        Said {
            fault,
            notice: ended.notice,
            has_log: ended.has_log,
        }
    }

    fn is_nothing(&self) -> bool {
        self.fault.is_none() && self.notice.is_none() && !self.has_log
    }
}

/// Tells a person more of what was said, where standard error is a terminal; or where the words or the
/// environment ask for it, below when the command ended, and its words. What can't be written there is
/// dropped, as all of standard error is.
pub fn help(rt: &HostRuntime, words: &[String], request: Request<'_>, said: Said) {
    let mut errors = rt.stderr();
    let is_terminal = errors.is_terminal();
    if said.is_nothing() || !(is_terminal || is_asked(rt, words)) {
        return;
    }
    let mut out = Draft::new(rt.alloc());
    if !is_terminal {
        push_heading(&mut out, rt, words);
    }
    push_help(&mut out, rt, request, said);
    if let Some(text) = out.whole() {
        let _ = errors.write_all(text.as_bytes());
    }
}

/// Adds the lines for a person.
fn push_help(out: &mut Draft, rt: &HostRuntime, request: Request<'_>, said: Said) {
    if let Some(fault) = said.fault {
        let places = Places::of(request);
        if let Some(spot) = places.spot_of(rt, fault) {
            let line = places.refused_line(rt, fault);
            push_spot(out, spot, line.as_slice().trim_ascii_end());
        }
        if let Some(topic) = fault_topic(fault) {
            push_topic(out, topic);
        }
    }
    if let Some(notice) = said.notice {
        push_topic(out, notice_topic(notice));
    }
    if said.has_log {
        push_topic(out, word_topic(WordKind::Log));
    }
}

/// What `explain` is asked.
#[derive(Clone, Copy)]
pub(crate) struct Topic {
    kind: FaultKind,
    number: u16,
}

/// What `explain` is asked of a fault. None where its line says all.
fn fault_topic(fault: CommandFault) -> Option<Topic>
    ensures { result ≡ spec.fault_topic fault }
{
    match fault {
        CommandFault::Io => Some(word_topic(WordKind::Io)),
        CommandFault::Exists => Some(word_topic(WordKind::Exists)),
        CommandFault::Busy => Some(word_topic(WordKind::Busy)),
        CommandFault::Argument | CommandFault::ArgumentAt(_) => Some(word_topic(WordKind::Word)),
        CommandFault::Ledger(refused) | CommandFault::LedgerAt(refused, _) => {
            Some(ledger_topic(refused))
        }
        CommandFault::Report(refused) => Some(report_topic(refused)),
        CommandFault::Stopped(stop) => stop_topic(stop),
        CommandFault::Unsound => Some(word_topic(WordKind::Unsound)),
        CommandFault::Torn => Some(word_topic(WordKind::Torn)),
        CommandFault::Far => Some(word_topic(WordKind::Far)),
        CommandFault::Usage | CommandFault::Number | CommandFault::Unclear(_) => None,
        CommandFault::Amount | CommandFault::Reason => None,
    }
}

fn word_topic(word: WordKind) -> Topic
    ensures { result ≡ spec.word_topic word }
{
    Topic {
        kind: FaultKind::Word(word),
        number: 0,
    }
}

/// The number of a refusal of the books; of a text that is no tariff, that of the tariff's fault.
fn ledger_topic(refused: LedgerFault) -> Topic
    ensures { result ≡ spec.ledger_topic refused }
{
    match refused {
        LedgerFault::TariffRefused(fault) => Topic {
            kind: FaultKind::Tariff,
            number: u16::from(fault.number()),
        },
        _ => Topic {
            kind: FaultKind::Ledger,
            number: u16::from(refused.number()),
        },
    }
}

fn report_topic(refused: ReportFault) -> Topic
    ensures { result ≡ spec.report_topic refused }
{
    match refused {
        ReportFault::Write => word_topic(WordKind::Io),
        ReportFault::Memory => ledger_topic(LedgerFault::Memory),
        ReportFault::Ledger(refused) => ledger_topic(refused),
    }
}

fn stop_topic(stop: Stop) -> Option<Topic>
    ensures { result ≡ spec.stop_topic stop }
{
    match stop {
        Stop::End => None,
        Stop::Frame(fault) => Some(Topic {
            kind: FaultKind::Frame,
            number: u16::from(fault.number()),
        }),
        Stop::Read | Stop::ReadLimit => Some(word_topic(WordKind::Io)),
        Stop::Ledger(refused) => Some(ledger_topic(refused)),
    }
}

fn notice_topic(notice: Notice) -> Topic
    ensures { result ≡ spec.notice_topic notice }
{
    match notice {
        Notice::Layout => word_topic(WordKind::Layout),
        Notice::Far => word_topic(WordKind::Far),
        Notice::Torn | Notice::NotWhole => word_topic(WordKind::Torn),
    }
}

/// Adds what `explain` says of a topic.
fn push_topic(out: &mut Draft, topic: Topic)
    ensures { TellsTopic topic out.old out.new }
{
    let Some(Explanation { meaning, advice }) = explained(topic.kind, topic.number) else {
        return;
    };
    out.push_str("  ");
    out.push_str(meaning);
    out.push_str("\n  ");
    out.push_str(advice);
    out.push_str("\n");
}

/// Adds where a fault is, what stands there, and why.
fn push_spot(out: &mut Draft, spot: Spot<'_>, line: &[u8])
    ensures { out.new ≡ out.old ++ spot_line spot.entry line.now }
{
    out.push_str("  ");
    push_place(out, spot.place);
    push_within(out, spot.within);
    push_line(out, line);
    push_cause(out, spot.cause);
    out.push_str("\n");
}

fn push_place(out: &mut Draft, place: Place<'_>)
    ensures { out.new ≡ out.old ++ place_text place.entry }
{
    match place {
        Place::File(path) => push_path(out, path),
        Place::Beside(path, ending) => {
            push_path(out, path);
            out.push_str(ending);
        }
        Place::Port(number) => {
            out.push_str("port ");
            out.push_number(u64::from(number));
        }
        Place::Input => out.push_str("standard input"),
        Place::Output => out.push_str("standard output"),
    }
}

fn push_within(out: &mut Draft, within: Option<Within>)
    ensures { out.new ≡ out.old ++ within_text within }
{
    match within {
        Some(Within::Line(number)) => {
            out.push_str(", line ");
            out.push_number(number);
        }
        Some(Within::Entry(entry)) => push_entry(out, entry),
        None => (),
    }
}

fn push_entry(out: &mut Draft, entry: Entry)
    ensures { out.new ≡ out.old ++ entry_text entry }
{
    match entry {
        Entry::Shift(number) => {
            out.push_str(", shift ");
            out.push_number(u64::from(number));
        }
        Entry::Centre(number) => {
            out.push_str(", centre ");
            out.push_number(u64::from(number));
        }
    }
}

/// Adds what a line of a list says, if anything is known of it.
fn push_line(out: &mut Draft, line: &[u8])
    ensures { out.new ≡ out.old ++ line_text line.now }
{
    if line.is_empty() {
        return;
    }
    out.push_str(": ");
    push_plain_bytes(out, line);
}

fn push_cause(out: &mut Draft, cause: Option<Cause>)
    ensures { out.new ≡ out.old ++ why_text cause }
{
    if let Some(cause) = cause {
        out.push_str(": ");
        out.push_str(cause_text(cause));
    }
}
