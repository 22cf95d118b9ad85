//! The parts of a bill's sheet.

use text_drafts::RowDraft;

/// A part, by its name.
#[derive(Clone, Copy)]
pub enum PartName {
    /// What is charged, what came late, what was reversed, what is owed, what is booked and what is
    /// credited: of the centre, or of each centre and of all.
    Sums,
    /// The prices of the tariffs.
    Prices,
    /// The percents of their shifts.
    Percents,
    /// What steps cost, by tariff and shift.
    StepsByShift,
    /// What jobs cost, by tariff and shift.
    JobsByShift,
    /// What steps cost, by day and shift.
    StepsByDay,
    /// What jobs cost, by day and shift.
    JobsByDay,
    /// What came late.
    Late,
    /// What was reversed.
    Reversed,
    /// What is credited.
    Credits,
}

/// What the rows of a part are, and so which columns they have.
#[derive(Clone, Copy)]
pub enum Layout {
    /// The name of a centre, and its sums but that of its credits.
    Sums,
    /// The same with what is credited.
    CreditedSums,
    /// A tariff, what its prices are of, and three prices.
    Prices,
    /// A tariff, a shift and its percent.
    Percents,
    /// A tariff or a day, a shift, its percent, a count, CPU time, blocks and an amount.
    Work,
    /// The same, where CPU time and blocks stay blank, as they cost nothing.
    Counts,
    /// A record: its day, shift, job, program, JES job id, step, period, amount and name.
    Records,
    /// The reason of a credit, and its amount.
    Credits,
}

/// A part: rows of fields, which are all texts.
#[derive(Drop)]
pub struct Part {
    pub name: PartName,
    pub layout: Layout,
    pub rows: Vec<RowDraft>,
    /// The row of their sums, where there is one.
    pub total: Option<RowDraft>,
}

/// What stands on each bill.
#[derive(Drop)]
pub struct Sheet {
    pub sums: Part,
    pub prices: Part,
    pub percents: Part,
}

/// What the sums of a centre are made of.
#[derive(Drop)]
pub struct CentreParts {
    pub steps_by_shift: Part,
    pub jobs_by_shift: Part,
    pub steps_by_day: Part,
    pub jobs_by_day: Part,
    pub late: Part,
    pub reversed: Part,
    pub credits: Part,
}
