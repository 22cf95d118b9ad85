//! The rows of work: what steps or jobs cost, by day and shift, and by tariff and shift.

ghost use Rattle.std.specs.Prelude.{◌≡◌, ◌∷◌, ◌++◌, [], All, IfOk, if◌then◌else◌};
ghost use Rattle.std.specs.Fmt.{decimal};
ghost use Rattle.book_model.specs.Words.{AreRows, IsDay};
ghost use Rattle.report_texts.specs.Columns.{seconds_text};
ghost use Rattle.bill_texts.specs.Sheets.{part_shown};
ghost use Rattle.bill_texts.specs.WorkRows as spec;

use crate::part::{Layout, Part, PartName};
use crate::shift_sums::by_tariff;
use book_model::{BilledShift, BilledTariff, ChargeRow};
use report_texts::{add_amount, add_day, add_number, add_seconds, row_sums};
use smf_text::Name;
use std::alloc::{AllocError, Global};
use text_drafts::RowDraft;

/// Work of a day, or of the tariff that begins on it, in one shift, with the shift's percent.
#[derive(Clone, Copy)]
pub(crate) struct WorkRow {
    /// Days since 1970-01-01.
    pub(crate) day: i32,
    pub(crate) shift: Name,
    /// In percent of the tariff's rates.
    pub(crate) percent: u16,
    pub(crate) count: u64,
    /// CPU time, in hundredths of a second.
    pub(crate) cpu: u64,
    pub(crate) blocks: u64,
    /// In ten-thousandths of the money unit.
    pub(crate) amount: u64,
}

/// The entry is the shift's, of a tariff that has begun by a day.
fn is_shift_on(day: i32, name: Name, shift: &BilledShift) -> bool
    ensures { result ≡ spec.is_shift_on day name shift.now }
{
    !(day < shift.day) && shift.shift == name
}

/// The percent of an entry, if it is the shift's, else what was found before.
fn percent_by(day: i32, name: Name, found: u16, shift: &BilledShift) -> u16
    ensures { result ≡ spec.percent_by day name found shift.now }
{
    if is_shift_on(day, name, shift) {
        shift.percent
    } else {
        found
    }
}

/// A shift's percent on a day.
#[tactic(auto, unfolding(crate::specs::WorkRows::percent_on))]
pub(crate) fn percent_on(shifts: &[BilledShift], day: i32, name: Name) -> u16
    ensures { result ≡ spec.percent_on shifts.now day name }
{
    let mut found = 0;
    for shift in shifts {
        found = percent_by(day, name, found, shift);
    }
    found
}

/// A row of work with its percent.
#[tactic(auto, unfolding(crate::specs::WorkRows::day_row))]
fn day_row(shifts: &[BilledShift], row: &ChargeRow) -> WorkRow
    ensures { result ≡ spec.day_row shifts.now row.now }
{
    WorkRow {
        day: row.day,
        shift: row.shift,
        percent: percent_on(shifts, row.day, row.shift),
        count: row.count,
        cpu: row.cpu,
        blocks: row.blocks,
        amount: row.amount,
    }
}

/// Adds CPU time, where it has a price.
pub(crate) fn add_cpu(fields: &mut RowDraft, has_work: bool, cpu: u64)
    ensures { fields.new ≡ fields.old ++ (if has_work then seconds_text cpu else []) ∷ [] }
{
    if has_work {
        add_seconds(fields, cpu);
    } else {
        fields.add_str("");
    }
}

/// Adds blocks, where they have a price.
pub(crate) fn add_blocks(fields: &mut RowDraft, has_work: bool, blocks: u64)
    ensures { fields.new ≡ fields.old ++ (if has_work then decimal blocks else []) ∷ [] }
{
    if has_work {
        add_number(fields, blocks);
    } else {
        fields.add_str("");
    }
}

/// The fields of a row of work.
#[tactic(auto, unfolding(crate::specs::WorkRows::work_fields))]
fn work_fields(alloc: Global, has_work: bool, row: &WorkRow) -> RowDraft
    requires { IsDay row.now.day }
    ensures { result ≡ spec.work_fields has_work row.now }
{
    let mut fields = RowDraft::new(alloc);
    add_day(&mut fields, row.day);
    fields.add_str(row.shift.text());
    add_number(&mut fields, u64::from(row.percent));
    add_number(&mut fields, row.count);
    add_cpu(&mut fields, has_work, row.cpu);
    add_blocks(&mut fields, has_work, row.blocks);
    add_amount(&mut fields, row.amount);
    fields
}

/// The fields of the row of a day.
#[tactic(auto, unfolding(crate::specs::WorkRows::day_row))]
fn day_fields(alloc: Global, has_work: bool, shifts: &[BilledShift], row: &ChargeRow) -> RowDraft
    requires { IsDay row.now.day }
    ensures { result ≡ spec.work_fields has_work (spec.day_row shifts.now row.now) }
{
    work_fields(alloc, has_work, &day_row(shifts, row))
}

/// The rows of work by day and shift.
fn day_rows(
    alloc: Global,
    has_work: bool,
    shifts: &[BilledShift],
    rows: &[ChargeRow],
) -> Result<Vec<RowDraft>, AllocError>
    requires { All (λ row. IsDay row.day) rows.now }
    ensures { IfOk result (λ made. made.items ≡ spec.day_rows has_work shifts.now rows.now) }
{
    let mut made = Vec::new(alloc);
    for row in rows {
        made.push(day_fields(alloc, has_work, shifts, row))?;
    }
    Ok(made)
}

/// The fields of the sums of rows.
#[tactic(auto, unfolding(crate::specs::WorkRows::total_work))]
fn total_work(alloc: Global, has_work: bool, rows: &[ChargeRow]) -> RowDraft
    requires { AreRows rows.now }
    ensures { result ≡ spec.total_work has_work rows.now }
{
    let (count, cpu, blocks, amount) = row_sums(rows);
    let mut fields = RowDraft::new(alloc);
    fields.add_str("TOTAL");
    fields.add_str("");
    fields.add_str("");
    add_number(&mut fields, count);
    add_cpu(&mut fields, has_work, cpu);
    add_blocks(&mut fields, has_work, blocks);
    add_amount(&mut fields, amount);
    fields
}

/// The columns of work.
fn work_layout(has_work: bool) -> Layout
    ensures { result ≡ spec.work_layout has_work }
{
    if has_work {
        Layout::Work
    } else {
        Layout::Counts
    }
}

/// Jobs have a price for CPU time or for blocks.
fn prices_work(tariff: &BilledTariff) -> bool
    ensures { result ≡ spec.prices_work tariff.now }
{
    0 < tariff.job.cpu() || 0 < tariff.job.excp()
}

/// So they have by one more tariff, or by one before.
fn or_prices_work(found: bool, tariff: &BilledTariff) -> bool
    ensures { result ≡ spec.or_prices_work found tariff.now }
{
    if prices_work(tariff) { true } else { found }
}

/// Some tariff has such a price.
#[tactic(auto, unfolding(crate::specs::WorkRows::jobs_have_work))]
pub(crate) fn jobs_have_work(tariffs: &[BilledTariff]) -> bool
    ensures { result ≡ spec.jobs_have_work tariffs.now }
{
    let mut found = false;
    for tariff in tariffs {
        found = or_prices_work(found, tariff);
    }
    found
}

/// What work cost by day and shift.
pub(crate) fn by_day(
    alloc: Global,
    name: PartName,
    has_work: bool,
    shifts: &[BilledShift],
    rows: &[ChargeRow],
) -> Result<Part, AllocError>
    requires { AreRows rows.now }
    ensures { IfOk result (λ part. part_shown part
        ≡ spec.work_part name has_work rows.now (spec.day_rows has_work shifts.now rows.now)) }
{
    let made = day_rows(alloc, has_work, shifts, rows)?;
    Ok(Part {
        name,
        layout: work_layout(has_work),
        rows: made,
        total: Some(total_work(alloc, has_work, rows)),
    })
}

/// What work cost by tariff and shift.
pub(crate) fn by_shift(
    alloc: Global,
    name: PartName,
    has_work: bool,
    tariffs: &[BilledTariff],
    shifts: &[BilledShift],
    rows: &[ChargeRow],
) -> Result<Part, AllocError>
    requires tariffs { All (λ tariff. IsDay tariff.day) tariffs.now }
    requires rows { AreRows rows.now }
    ensures { IfOk result (λ part. part_shown part ≡ spec.work_part name has_work rows.now
        (spec.shift_rows has_work tariffs.now shifts.now rows.now)) }
{
    let sums = by_tariff(alloc, tariffs, rows)?;
    let made = day_rows(alloc, has_work, shifts, &sums)?;
    Ok(Part {
        name,
        layout: work_layout(has_work),
        rows: made,
        total: Some(total_work(alloc, has_work, rows)),
    })
}
