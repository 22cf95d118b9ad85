//! Lines on books.

use crate::answers::{push_accepted, push_receipt, push_ruled};
use crate::changed_texts::push_changes;
use crate::day::Day;
use crate::dump_reading::Reading;
use crate::each_call::answer_each_call;
use crate::failing_reads::import_each_read;
use crate::http_lines::answer_request;
use crate::lines::BookLines;
use crate::refusing_ledger::RefusingLedger;
use crate::request_lists::{push_answers, push_repeated, push_request};
use crate::text_writing::push_text;
use crate::texts::{BookText, TextOf};
use book_core::{Ledger, Ruled, Source};
use book_import::import;
use smf_frames::{Layout, split};
use smf_type30::{Class, class};
use std::alloc::Global;
use tests_scripts::{AnswerText, Ask, LineFault, LineResult, Named};

/// Closes the periods from one up to another, the first through a day, each other one through the
/// next day, up to the first close that is not done. Adds the answer to that one. Answers how many
/// were done.
fn close_periods<L: Ledger>(
    ledger: &mut L,
    from: u16,
    end: u16,
    first: Day,
    out: &mut AnswerText,
) -> u16 {
    let mut done: u16 = 0;
    for period in from..end {
        let Some(day) = first.days_later(done) else {
            break;
        };
        match ledger.close(period, day.number, &None) {
            Ok(Ruled::Done) => done = done.saturating_add(1),
            other => {
                push_ruled(out, other);
                break;
            }
        }
    }
    done
}

/// Closes the periods `FROM..END`, and adds how many were done.
fn close_each<L: Ledger>(ledger: &mut L, words: &[&str], out: &mut AnswerText) -> LineResult {
    let [periods, day] = words else {
        return Err(LineFault::NotUnderstood);
    };
    let (from, end) = periods.split_once("..").ok_or(LineFault::NotUnderstood)?;
    let (from, end) = (from.parse::<u16>()?, end.parse::<u16>()?);
    let first = Day::of(day)?;
    let done = close_periods(ledger, from, end, first, out);
    out.value_line("DONE ", done);
    Ok(())
}

/// Reads the dump of parts into books.
fn import_dump<L: Ledger>(
    named: &Named,
    ledger: &mut L,
    reading: Reading,
    parts: &[&str],
    out: &mut AnswerText,
) -> LineResult {
    let dump = named.read_dump(parts)?;
    let mut source = Source::new(reading.reader(&dump));
    let reads = reading.allowed();
    let receipt = import(
        named.alloc(),
        &mut source,
        reading.layout,
        reads,
        None,
        ledger,
    );
    push_receipt(out, &receipt);
    reading.push_asked(out, source.asked());
    Ok(())
}

/// Gives each usage record of a dump to books.
fn accept_each<L: Ledger>(
    alloc: Global,
    ledger: &mut L,
    dump: &[u8],
    out: &mut AnswerText,
) -> LineResult {
    let dump = split(alloc, Layout::Rdw, dump)?;
    for bytes in &dump.records {
        if let Class::Usage = class(bytes) {
            push_accepted(out, ledger.accept(bytes));
        }
    }
    Ok(())
}

/// Asks books the requests of a body: as one list, or as one that repeats them.
fn push_list<L: Ledger>(
    named: &Named,
    layout: Layout,
    ledger: &mut L,
    ask: Ask<'_>,
    out: &mut AnswerText,
) -> LineResult {
    match ask.words {
        [times] => push_repeated(named, layout, ledger, ask.body, times, out),
        _ => push_answers(named, layout, ledger, ask.body, out),
    }
}

impl BookLines {
    /// Adds a text.
    fn push_book_text<L: Ledger>(
        &self,
        named: &Named,
        ledger: &mut L,
        ask: Ask<'_>,
        out: &mut AnswerText,
    ) -> LineResult {
        let text = BookText::of(named, ask)?;
        push_text(
            named.alloc(),
            &mut TextOf { ledger, text },
            self.writing,
            out,
        );
        Ok(())
    }
}

/// Answers a line on books by calls of theirs.
fn answer_by_calls<L: Ledger>(
    lines: &mut BookLines,
    named: &Named,
    ledger: &mut L,
    ask: Ask<'_>,
    out: &mut AnswerText,
) -> LineResult {
    let (alloc, reading, words) = (named.alloc(), lines.reading, ask.words);
    match ask.verb {
        "import" => import_dump(named, ledger, reading, words, out),
        "import-each-read" => import_each_read(named, ledger, reading, words, out),
        "accept" => accept_each(alloc, ledger, &named.read_dump(words)?, out),
        "closes" => close_each(ledger, words, out),
        "list" => push_list(named, reading.layout, ledger, ask, out),
        "changes" => {
            push_changes(&mut lines.shown_texts, ledger, out);
            Ok(())
        }
        "tariff" | "replace" | "close" | "choose" | "withhold" | "credit" | "adopt" | "noted" => {
            push_request(named, reading.layout, ledger, ask, out)
        }
        "what-if" | "what-if-table" => push_request(named, reading.layout, ledger, ask, out),
        _ => lines.push_book_text(named, ledger, ask, out),
    }
}

/// Answers a line that is asked of books, by calls or by requests over HTTP.
pub(crate) fn answer_once<L: Ledger>(
    lines: &mut BookLines,
    named: &Named,
    ledger: &mut L,
    ask: Ask<'_>,
    out: &mut AnswerText,
) -> LineResult {
    match answer_by_calls(lines, named, ledger, ask, out) {
        Err(LineFault::NotUnderstood) => {
            answer_request(&mut lines.connection, named, ledger, ask, out)
        }
        answered => answered,
    }
}

/// Answers a line that is asked of books, or `each-call` with such a line after it.
pub fn answer<L: Ledger>(
    lines: &mut BookLines,
    named: &Named,
    ledger: &mut L,
    ask: Ask<'_>,
    out: &mut AnswerText,
) -> LineResult {
    if ask.verb == "each-call" {
        return answer_each_call(lines, named, ledger, ask, out);
    }
    answer_once(
        lines,
        named,
        &mut RefusingLedger::new(ledger, None),
        ask,
        out,
    )
}
