//! Statements: what a period is charged.

ghost use Rattle.std.specs.Prelude.{◌≡◌, ◌++◌, IfOk, codes, flat_map, string_bytes, sum_by};
ghost use Rattle.std.specs.Option.{ForSome};
ghost use Rattle.book_model.specs.Words.{IsDay, AreRows, day_text_of};
ghost use Rattle.report_texts.specs.Columns.{amount_text, left_aligned};
ghost use Rattle.report_texts.specs.Statements as spec;

use crate::columns::{
    push_amount, push_count, push_left, push_left_aligned, push_right, push_right_aligned,
    push_time_used,
};
use crate::periods::push_title;
use book_model::ChargeRow;
use std::alloc::{AllocError, Global};
use text_drafts::Draft;

/// Appends the columns that say where work is charged.
#[tactic(auto, unfolding(crate::specs::Statements::key_columns))]
pub(crate) fn push_key(out: &mut Draft, day: &str, centre: &str, shift: &str)
    ensures { out.new ≡ out.old ++ spec.key_columns day.now centre.now shift.now }
{
    push_left_aligned(out, 10, day);
    push_left_aligned(out, 16, centre);
    push_left_aligned(out, 16, shift);
}

/// Appends a day in its column.
fn push_day_column(out: &mut Draft, day: i32)
    requires { IsDay day }
    ensures { out.new ≡ out.old ++ left_aligned 10 (day_text_of day) ++ codes " " }
{
    let mut text = Draft::new(out.alloc());
    text.push_day(day);
    push_left(out, 10, &text);
}

/// Appends the same columns, by the day.
#[tactic(auto, unfolding(crate::specs::Statements::key_columns))]
pub(crate) fn push_place(out: &mut Draft, day: i32, centre: &str, shift: &str)
    requires { IsDay day }
    ensures { out.new ≡ out.old ++ spec.key_columns (day_text_of day) centre.now shift.now }
{
    push_day_column(out, day);
    push_left_aligned(out, 16, centre);
    push_left_aligned(out, 16, shift);
}

/// Appends the columns that say how much work it is.
pub(crate) fn push_work(out: &mut Draft, count: &str, cpu: &str, blocks: &str)
    ensures { out.new ≡ out.old ++ spec.work_columns count.now cpu.now blocks.now }
{
    push_right_aligned(out, 8, count);
    out.push(' ');
    push_right_aligned(out, 19, cpu);
    out.push(' ');
    push_right_aligned(out, 18, blocks);
    out.push(' ');
}

/// Appends the column that says what it costs, and ends the line.
fn push_last(out: &mut Draft, amount: &str)
    ensures { out.new ≡ out.old ++ spec.amount_column amount.now }
{
    push_right_aligned(out, 21, amount);
    out.push('\n');
}

/// Appends the same column of ten-thousandths of the money unit, and ends the line.
fn push_cost(out: &mut Draft, amount: u64)
    ensures { out.new ≡ out.old ++ spec.amount_column (amount_text amount) }
{
    let mut cost = Draft::new(out.alloc());
    push_amount(&mut cost, amount);
    push_right(out, 21, &cost);
    out.push('\n');
}

/// Appends the columns of numbers: a count of records, their CPU time in hundredths of a second,
/// their blocks, and what they cost in ten-thousandths of the money unit.
#[tactic(auto, unfolding(crate::specs::Statements::number_columns))]
pub(crate) fn push_numbers(out: &mut Draft, count: u64, cpu: u64, blocks: u64, amount: u64)
    ensures { out.new ≡ out.old ++ spec.number_columns count cpu blocks amount }
{
    push_count(out, 8, count);
    out.push(' ');
    push_time_used(out, 19, cpu);
    out.push(' ');
    push_count(out, 18, blocks);
    out.push(' ');
    push_cost(out, amount);
}

/// Appends the line above the rows.
fn push_heading(out: &mut Draft)
    ensures { out.new ≡ out.old ++ spec.heading }
{
    push_key(out, "DAY", "CENTRE", "SHIFT");
    push_work(out, "COUNT", "CPU", "BLOCKS");
    push_last(out, "AMOUNT");
}

/// Appends the line of a row.
fn push_row(out: &mut Draft, row: &ChargeRow)
    requires { IsDay row.now.day }
    ensures { out.new ≡ out.old ++ spec.row_line row.now }
{
    push_place(out, row.day, row.centre.text(), row.shift.text());
    push_numbers(out, row.count, row.cpu, row.blocks, row.amount);
}

/// Appends the lines of rows.
#[tactic(auto, using(std::proofs::lemmas::List::flat_map_more))]
fn push_rows(out: &mut Draft, rows: &[ChargeRow])
    requires { AreRows rows.now }
    ensures { out.new ≡ out.old ++ flat_map spec.row_line rows.now }
{
    for row in rows {
        push_row(out, row);
    }
}

/// The sums of rows: how many records there are, their CPU time, their blocks, and what they cost.
#[tactic(auto, using(std::proofs::lemmas::List::Sums::sum_by_more_le))]
pub fn row_sums(rows: &[ChargeRow]) -> (u64, u64, u64, u64)
    requires { AreRows rows.now }
    ensures { result ≡ (
      sum_by (λ row. row.count) rows.now,
      sum_by (λ row. row.cpu) rows.now,
      sum_by (λ row. row.blocks) rows.now,
      sum_by (λ row. row.amount) rows.now,
    ) }
{
    let mut count = 0;
    let mut cpu = 0;
    let mut blocks = 0;
    let mut amount = 0;
    for row in rows {
        count += row.count;
        cpu += row.cpu;
        blocks += row.blocks;
        amount += row.amount;
    }
    (count, cpu, blocks, amount)
}

/// Appends a line below the rows: a word, and the sums of some rows.
pub(crate) fn push_sums_line(out: &mut Draft, word: &str, rows: &[ChargeRow])
    requires { AreRows rows.now }
    ensures { out.new ≡ out.old ++ spec.sums_line word.now rows.now }
{
    let (count, cpu, blocks, amount) = row_sums(rows);
    push_key(out, word, "", "");
    push_numbers(out, count, cpu, blocks, amount);
}

/// Appends the lines of rows: the one above them, their own, and the one of their sums.
pub(crate) fn push_row_lines(out: &mut Draft, rows: &[ChargeRow])
    requires { AreRows rows.now }
    ensures { out.new ≡ out.old ++ spec.row_lines rows.now }
{
    push_heading(out);
    push_rows(out, rows);
    push_sums_line(out, "TOTAL", rows);
}

/// The statement of a period: by its number, the day that it was closed through, if it was, and its
/// charge rows in the order in which the books give them.
pub fn statement_text(
    alloc: Global,
    period: u16,
    through: Option<i32>,
    rows: &[ChargeRow],
) -> Result<String, AllocError>
    requires through { ForSome through IsDay }
    requires rows { AreRows rows.now }
    ensures { IfOk result (λ text.
        string_bytes text ≡ spec.statement_text period through rows.now) }
{
    let mut out = Draft::new(alloc);
    push_title(&mut out, "STATEMENT", period, through);
    push_row_lines(&mut out, rows);
    out.finish()
}
