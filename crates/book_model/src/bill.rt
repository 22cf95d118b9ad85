use crate::line::Line;
use crate::row::ChargeRow;
use smf_text::Name;
use tariff_rules::{Letterhead, Rates};

/// The charge rows of a period's records, those of steps and those of jobs apart.
#[derive(Drop)]
pub struct WorkRows {
    /// The rows of the steps that ended.
    pub steps: Vec<ChargeRow>,
    /// The rows of the jobs that ended. What a job used is what its steps used.
    pub jobs: Vec<ChargeRow>,
}

/// An adjustment line, as a bill shows it.
#[derive(Clone, Copy)]
pub struct BilledLine {
    pub line: Line,
    /// Of a plus line the number of the period that the record's day belongs to, of a minus line
    /// that of the period that had charged the record.
    pub period: Option<u16>,
}

/// What is held back while it is in dispute.
#[derive(Clone, Copy)]
pub struct HeldBack {
    /// How many disputes there are.
    pub disputes: u64,
    /// The least amount that choices among their records come to, in ten-thousandths of the money
    /// unit.
    pub least: u64,
    /// The greatest.
    pub greatest: u64,
}

/// A tariff that is in force on a day of the period, by its rates.
#[derive(Clone, Copy)]
pub struct BilledTariff {
    /// Its first day, in days since 1970-01-01.
    pub day: i32,
    pub step: Rates,
    pub job: Rates,
}

/// A shift of such a tariff, with its percent.
#[derive(Clone, Copy)]
pub struct BilledShift {
    /// The first day of the tariff, in days since 1970-01-01.
    pub day: i32,
    pub shift: Name,
    /// In percent of the tariff's rates.
    pub percent: u16,
}

/// A credit that the office gave a centre while a period was open.
#[derive(Drop)]
pub struct Credit {
    pub period: u16,
    pub centre: Name,
    /// In ten-thousandths of the money unit. It is taken from what the centre owes; one below 0 is
    /// added to it.
    pub amount: i64,
    pub reason: String,
}

/// The bill of a period, for a centre or for the whole office.
#[derive(Drop)]
pub struct Bill {
    pub work: WorkRows,
    /// What came late, and what was reversed.
    pub lines: Vec<BilledLine>,
    /// The credits of the period, in the order in which they were given.
    pub credits: Vec<Credit>,
    /// A closed period holds nothing back: what is decided later comes late in the period that is
    /// open then.
    pub held_back: Option<HeldBack>,
    /// The day that the period before was closed through, if there is one.
    pub before: Option<i32>,
    /// In the order of their days.
    pub tariffs: Vec<BilledTariff>,
    /// Those of these tariffs, of each in the order of their names.
    pub shifts: Vec<BilledShift>,
    /// That of the last of these tariffs.
    pub letterhead: Letterhead,
}
