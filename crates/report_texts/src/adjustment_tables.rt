//! Adjustments as tables of comma-separated values.

ghost use Rattle.std.specs.Prelude.{◌≡◌, ◌++◌, IfOk};
ghost use Rattle.book_model.specs.Words.{AreLines, IsDay};
ghost use Rattle.report_texts.specs.AdjustmentTables as spec;
ghost use Rattle.report_texts.specs.Tables.{fields_line};

use crate::adjustment_lists::word_of;
use crate::fields::{add_key, add_name, add_number, add_row, add_shown, add_signed};
use book_model::Line;
use std::alloc::{AllocError, Global};
use text_drafts::{RowDraft, TableDraft};

/// Adds the names of the columns.
fn add_heading(table: &mut TableDraft)
    ensures { table.new ≡ table.old ++ spec.line_heading }
{
    let names: [&[u8]; 8] = [
        b"period", b"action", b"day", b"centre", b"shift", b"amount", b"name", b"job",
    ];
    table.add_texts(&names);
}

/// Adds what a line does, and where its record is charged.
#[tactic(auto, unfolding(crate::specs::AdjustmentTables::place_fields))]
fn add_place(row: &mut RowDraft, line: &Line)
    requires { IsDay line.now.priced.day }
    ensures { row.new ≡ row.old ++ spec.place_fields line.now }
{
    row.add_str(word_of(line));
    add_key(row, &line.priced);
}

/// Adds what a line charges or reverses, and which record it is of.
#[tactic(auto, unfolding(crate::specs::AdjustmentTables::record_fields))]
fn add_record(row: &mut RowDraft, line: &Line)
    ensures { row.new ≡ row.old ++ spec.record_fields line.now }
{
    add_signed(row, line);
    add_name(row, &line.name);
    add_shown(row, &line.job);
}

/// Adds the row of a line.
#[tactic(auto, unfolding(crate::specs::AdjustmentTables::line_fields))]
fn add_line(table: &mut TableDraft, period: u16, line: &Line)
    requires { IsDay line.now.priced.day }
    ensures { table.new ≡ table.old ++ fields_line (spec.line_fields period line.now) }
{
    let mut row = RowDraft::new(table.alloc());
    add_number(&mut row, u64::from(period));
    add_place(&mut row, line);
    add_record(&mut row, line);
    add_row(table, &row);
}

/// The adjustments of a period as a table: a heading, and a row for each of its lines, in the order
/// in which the books give them.
#[tactic(auto, using(std::proofs::lemmas::List::flat_map_more))]
pub fn adjustment_table(alloc: Global, period: u16, lines: &[Line]) -> Result<Vec<u8>, AllocError>
    requires { AreLines lines.now }
    ensures { IfOk result (λ table. table.items ≡ spec.adjustment_table period lines.now) }
{
    let mut table = TableDraft::new(alloc);
    add_heading(&mut table);
    for line in lines {
        add_line(&mut table, period, line);
    }
    table.finish()
}
