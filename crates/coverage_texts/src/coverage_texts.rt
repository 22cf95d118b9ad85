//! Coverage of a period as a list and as a table of comma-separated values.

ghost use Rattle.std.specs.Prelude.{◌≡◌, ◌++◌, [], ◌∷◌, All, IfOk, codes, filter, flat_map};
ghost use Rattle.std.specs.Prelude.{length, string_bytes, ◌==◌};
ghost use Rattle.std.specs.Option.{ForSome};
ghost use Rattle.book_model.specs.Words.{IsDay, show_text};
ghost use Rattle.report_texts.specs.Columns.{left_aligned};
ghost use Rattle.coverage_texts.specs.Coverage as spec;

use crate::coverage_rows::CoverageRow;
use report_texts::{
    add_day, add_number, add_row, add_shown, push_count, push_left, push_time, push_title,
};
use std::alloc::{AllocError, Global};
use text_drafts::{Draft, RowDraft, TableDraft};

/// Appends a time of day, or `-` where there is none.
#[tactic(auto, unfolding(crate::specs::Coverage::time_or_dash))]
fn push_time_or_dash(out: &mut Draft, time: Option<u32>)
    ensures { out.new ≡ out.old ++ spec.time_or_dash time }
{
    match time {
        None => out.push('-'),
        Some(time) => push_time(out, time),
    }
}

/// Appends the name of a system in its column.
fn push_system(out: &mut Draft, system: &[u8])
    ensures { out.new ≡ out.old ++ left_aligned 4 (show_text system.now) ++ codes " " }
{
    let mut text = Draft::new(out.alloc());
    text.push_shown(system);
    push_left(out, 4, &text);
}

/// Appends a time in its column.
fn push_time_column(out: &mut Draft, time: Option<u32>)
    ensures { out.new ≡ out.old ++ left_aligned 11 (spec.time_or_dash time) ++ codes " " }
{
    let mut text = Draft::new(out.alloc());
    push_time_or_dash(&mut text, time);
    push_left(out, 11, &text);
}

/// Appends which day and which system a row is of, and how many records it has.
#[tactic(auto, unfolding(crate::specs::Coverage::place_columns))]
fn push_place(out: &mut Draft, row: &CoverageRow)
    requires { IsDay row.now.day }
    ensures { out.new ≡ out.old ++ spec.place_columns row.now }
{
    out.push_day(row.day);
    out.push(' ');
    push_system(out, &row.system);
    push_count(out, 9, row.count);
    out.push(' ');
}

/// Appends the first and the last time of a row, and ends the line.
#[tactic(auto, unfolding(crate::specs::Coverage::time_columns))]
fn push_times(out: &mut Draft, row: &CoverageRow)
    ensures { out.new ≡ out.old ++ spec.time_columns row.now }
{
    push_time_column(out, row.first);
    push_time_or_dash(out, row.last);
    out.push('\n');
}

/// Appends the line of a row.
#[tactic(auto, unfolding(crate::specs::Coverage::coverage_line))]
fn push_row(out: &mut Draft, row: &CoverageRow)
    requires { IsDay row.now.day }
    ensures { out.new ≡ out.old ++ spec.coverage_line row.now }
{
    push_place(out, row);
    push_times(out, row);
}

/// Appends the lines of rows.
#[tactic(auto, using(std::proofs::lemmas::List::flat_map_more))]
fn push_rows(out: &mut Draft, rows: &[CoverageRow])
    requires { All (λ row. IsDay row.day) rows.now }
    ensures { out.new ≡ out.old ++ flat_map spec.coverage_line rows.now }
{
    for row in rows {
        push_row(out, row);
    }
}

/// How many rows have no record.
pub fn count_gaps(rows: &[CoverageRow]) -> usize
    ensures { result ≡ length (filter (λ row. row.count == 0) rows.now) }
{
    rows.iter().filter(|row| row.count == 0).count()
}

/// Appends the line below the others.
#[tactic(auto, unfolding(crate::specs::Coverage::gaps_line))]
fn push_gaps(out: &mut Draft, rows: &[CoverageRow])
    ensures { out.new ≡ out.old ++ spec.gaps_line rows.now }
{
    out.push_str("GAPS ");
    out.push_number(count_gaps(rows) as u64);
    out.push('\n');
}

/// The coverage of a period as a list: by its number, the day that it was closed through, if it
/// was, and its rows.
pub fn coverage_text(
    alloc: Global,
    period: u16,
    through: Option<i32>,
    rows: &[CoverageRow],
) -> Result<String, AllocError>
    requires through { ForSome through IsDay }
    requires rows { All (λ row. IsDay row.day) rows.now }
    ensures { IfOk result (λ text.
        string_bytes text ≡ spec.coverage_text period through rows.now) }
{
    let mut out = Draft::new(alloc);
    push_title(&mut out, "COVERAGE", period, through);
    push_rows(&mut out, rows);
    push_gaps(&mut out, rows);
    out.finish()
}

/// Adds the names of the columns.
fn add_heading(table: &mut TableDraft)
    ensures { table.new ≡ table.old ++ spec.coverage_heading }
{
    let names: [&[u8]; 6] = [b"period", b"day", b"system", b"count", b"first", b"last"];
    table.add_texts(&names);
}

/// Adds a time of day, or `-` where there is none.
fn add_time(fields: &mut RowDraft, time: Option<u32>)
    ensures { fields.new ≡ fields.old ++ spec.time_or_dash time ∷ [] }
{
    let mut text = Draft::new(fields.alloc());
    push_time_or_dash(&mut text, time);
    fields.add_draft(&text);
}

/// Adds which day and which system a row is of.
#[tactic(auto, unfolding(crate::specs::Coverage::place_fields))]
fn add_place(fields: &mut RowDraft, row: &CoverageRow)
    requires { IsDay row.now.day }
    ensures { fields.new ≡ fields.old ++ spec.place_fields row.now }
{
    add_day(fields, row.day);
    add_shown(fields, &row.system);
}

/// Adds how many records a row has, and their first and last time.
#[tactic(auto, unfolding(crate::specs::Coverage::count_fields))]
fn add_count(fields: &mut RowDraft, row: &CoverageRow)
    ensures { fields.new ≡ fields.old ++ spec.count_fields row.now }
{
    add_number(fields, row.count);
    add_time(fields, row.first);
    add_time(fields, row.last);
}

/// Adds the line of a row.
#[tactic(auto, unfolding(crate::specs::Coverage::coverage_fields))]
fn add_coverage(table: &mut TableDraft, period: u16, row: &CoverageRow)
    requires { IsDay row.now.day }
    ensures { table.new ≡ table.old ++ spec.coverage_row period row.now }
{
    let mut fields = RowDraft::new(table.alloc());
    add_number(&mut fields, u64::from(period));
    add_place(&mut fields, row);
    add_count(&mut fields, row);
    add_row(table, &fields);
}

/// Adds the lines of rows.
#[tactic(auto, using(std::proofs::lemmas::List::flat_map_more))]
fn add_all(table: &mut TableDraft, period: u16, rows: &[CoverageRow])
    requires { All (λ row. IsDay row.day) rows.now }
    ensures { table.new ≡ table.old ++ flat_map (spec.coverage_row period) rows.now }
{
    for row in rows {
        add_coverage(table, period, row);
    }
}

/// The coverage of a period as a table: a heading, and a line for each of its rows.
pub fn coverage_table(
    alloc: Global,
    period: u16,
    rows: &[CoverageRow],
) -> Result<Vec<u8>, AllocError>
    requires { All (λ row. IsDay row.day) rows.now }
    ensures { IfOk result (λ table. table.items ≡ spec.coverage_table period rows.now) }
{
    let mut table = TableDraft::new(alloc);
    add_heading(&mut table);
    add_all(&mut table, period, rows);
    table.finish()
}
