//! Faults and stops, by their names.

use book_core::LedgerFault;
use book_import::Stop;
use book_reports::ReportFault;
use smf_frames::FrameFault;
use tariff_rules::{Key, TariffFault};
use tests_scripts::{LineFault, LineResult, value_of};

/// The keys of a tariff file.
const KEYS: [Key; 18] = [
    Key::Effective,
    Key::Rates,
    Key::StepCpu,
    Key::StepExcp,
    Key::StepRecord,
    Key::JobCpu,
    Key::JobExcp,
    Key::JobRecord,
    Key::Shift,
    Key::Name,
    Key::Days,
    Key::From,
    Key::To,
    Key::Percent,
    Key::Centre,
    Key::Account,
    Key::Prefix,
    Key::Job,
];

/// The key of a word.
fn key_of(word: &str) -> LineResult<Key> {
    for key in KEYS {
        if key.text() == word {
            return Ok(key);
        }
    }
    Err(LineFault::NotUnderstood)
}

/// The faults of a tariff file that name no key.
const TARIFF_FAULTS: [(&str, TariffFault); 5] = [
    ("syntax", TariffFault::Syntax),
    ("name", TariffFault::Name),
    ("shift_conflict", TariffFault::ShiftConflict),
    ("too_many", TariffFault::TooMany),
    ("memory", TariffFault::Memory),
];

/// The fault of a tariff file.
fn tariff_fault(words: &[&str]) -> LineResult<TariffFault> {
    match words {
        ["missing", key] => Ok(TariffFault::Missing(key_of(key)?)),
        ["range", key] => Ok(TariffFault::Range(key_of(key)?)),
        [word] => value_of(&TARIFF_FAULTS, word),
        _ => Err(LineFault::NotUnderstood),
    }
}

/// The faults of books that are a word alone.
const LEDGER_FAULTS: [(&str, LedgerFault); 18] = [
    ("memory", LedgerFault::Memory),
    ("store", LedgerFault::Store),
    ("reopen", LedgerFault::Reopen),
    ("full", LedgerFault::Full),
    ("digest_clash", LedgerFault::DigestClash),
    ("tariff_date", LedgerFault::TariffDate),
    ("tariff_exists", LedgerFault::TariffExists),
    ("records_dated", LedgerFault::RecordsDated),
    ("not_later", LedgerFault::NotLater),
    ("no_such_period", LedgerFault::NoSuchPeriod),
    ("no_such_record", LedgerFault::NoSuchRecord),
    ("not_disputed", LedgerFault::NotDisputed),
    ("old_rule", LedgerFault::OldRule),
    ("not_books", LedgerFault::NotBooks),
    ("old_form", LedgerFault::OldForm),
    ("new_form", LedgerFault::NewForm),
    ("no_such_tariff", LedgerFault::NoSuchTariff),
    ("no_such_centre", LedgerFault::NoSuchCentre),
];

/// The fault of books: `tariff` with a tariff's fault, `wrong_period` with the open period, or a
/// word alone.
fn ledger_fault(words: &[&str]) -> LineResult<LedgerFault> {
    match words {
        ["tariff", fault @ ..] => Ok(LedgerFault::TariffRefused(tariff_fault(fault)?)),
        ["wrong_period", open] => Ok(LedgerFault::WrongPeriod(open.parse::<u16>()?)),
        [word] => value_of(&LEDGER_FAULTS, word),
        _ => Err(LineFault::NotUnderstood),
    }
}

/// The faults of a dump's segments.
const FRAME_FAULTS: [(&str, FrameFault); 8] = [
    ("segment_length", FrameFault::SegmentLength),
    ("block_length", FrameFault::BlockLength),
    ("extended_block", FrameFault::ExtendedBlock),
    ("segment_crosses_block", FrameFault::SegmentCrossesBlock),
    ("orphan_segment", FrameFault::OrphanSegment),
    ("missing_last", FrameFault::MissingLast),
    ("record_too_long", FrameFault::RecordTooLong),
    ("truncated", FrameFault::Truncated),
];

/// The fault of a report: `write`, `memory`, or `ledger` with the fault of books.
pub(crate) fn report_fault(words: &[&str]) -> LineResult<ReportFault> {
    match words {
        ["write"] => Ok(ReportFault::Write),
        ["memory"] => Ok(ReportFault::Memory),
        ["ledger", fault @ ..] => Ok(ReportFault::Ledger(ledger_fault(fault)?)),
        _ => Err(LineFault::NotUnderstood),
    }
}

/// Why reading stopped: `end`, `read`, `read_limit`, `frame` with a fault of segments, or `ledger`
/// with a fault of books.
pub(crate) fn stop_of(words: &[&str]) -> LineResult<Stop> {
    match words {
        ["end"] => Ok(Stop::End),
        ["read"] => Ok(Stop::Read),
        ["read_limit"] => Ok(Stop::ReadLimit),
        ["frame", fault] => Ok(Stop::Frame(value_of(&FRAME_FAULTS, fault)?)),
        ["ledger", fault @ ..] => Ok(Stop::Ledger(ledger_fault(fault)?)),
        _ => Err(LineFault::NotUnderstood),
    }
}
