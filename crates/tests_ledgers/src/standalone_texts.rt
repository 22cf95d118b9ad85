//! Texts that are made without books.

use crate::dump_reading::Reading;
use crate::text_writing::{Writes, Written};
use book_core::{Sink, Source};
use book_import::{Receipt, Stop};
use book_reports::{receipt_line, receipt_line_text, write_text};
use program_output::{check_list, trial};
use std::alloc::Global;
use tariff_rules::Tariff;
use tests_scripts::{LimitedWriter, Limits};

/// A text that is made without books.
#[derive(Drop)]
pub(crate) enum StandaloneText<'a> {
    Text(&'a str),
    Receipt(Receipt),
    /// What the records of a dump are.
    Check(Reading, Vec<u8>),
    /// What a dump costs by the rates of a second of CPU time, of 1,000 blocks and of a record.
    Trial(Reading, [u64; 3], Vec<u8>),
}

/// Writes what the records of a dump are.
fn check(alloc: Global, reading: Reading, dump: &[u8], limits: Limits) -> Written {
    let mut source = Source::new(reading.reader(dump));
    let mut sink = Sink::new(LimitedWriter::new(alloc, limits));
    let reads = reading.allowed();
    let answer = check_list(alloc, &mut source, reading.layout, false, reads, &mut sink);
    let mut written = Written::of(alloc, sink, answer.map(|checked| checked.stop));
    reading.push_asked(&mut written.message, source.asked());
    written
}

/// Writes what a dump costs. Its receipt is added too where that is not the first line.
fn run_trial(
    alloc: Global,
    reading: Reading,
    tariff: Tariff,
    dump: &[u8],
    limits: Limits,
) -> Written {
    let mut source = Source::new(reading.reader(dump));
    let mut sink = Sink::new(LimitedWriter::new(alloc, limits));
    let reads = reading.allowed();
    let answer = trial(alloc, &mut source, reading.layout, reads, tariff, &mut sink);
    let mut written = Written::of(alloc, sink, answer.map(|receipt| receipt.stop));
    if let Ok(receipt) = answer {
        let line = receipt_line_text(&receipt);
        if !written.writer.taken.starts_with(line.as_bytes()) {
            written.message.bytes(line.as_bytes());
        }
    }
    reading.push_asked(&mut written.message, source.asked());
    written
}

impl Writes for StandaloneText<'_> {
    fn write_to(&mut self, alloc: Global, limits: Limits) -> Written {
        let mut sink = Sink::new(LimitedWriter::new(alloc, limits));
        let answer = match &*self {
            StandaloneText::Text(text) => write_text(&mut sink, text),
            StandaloneText::Receipt(receipt) => receipt_line(receipt, &mut sink),
            StandaloneText::Check(reading, dump) => return check(alloc, *reading, dump, limits),
            StandaloneText::Trial(reading, rates, dump) => {
                let [cpu, excp, record] = *rates;
                if let Some(tariff) = Tariff::flat(alloc, cpu, excp, record) {
                    return run_trial(alloc, *reading, tariff, dump, limits);
                }
                let mut written = Written::of(alloc, sink, Ok(Stop::End));
                written.message.line("RATES TOO HIGH");
                return written;
            }
        };
        Written::of(alloc, sink, answer.and(Ok(Stop::End)))
    }
}
