//! Charge rows as tables of comma-separated values.

ghost use Rattle.std.specs.Prelude.{◌≡◌, ◌++◌, IfOk};
ghost use Rattle.book_model.specs.Words.{AreRows, IsDay, IsName};
ghost use Rattle.report_texts.specs.StatementTables as spec;
ghost use Rattle.report_texts.specs.Tables.{IsPlain};

use crate::fields::{add_amount, add_day, add_number, add_row, add_seconds};
use book_model::ChargeRow;
use std::alloc::{AllocError, Global};
use text_drafts::{RowDraft, TableDraft};

/// Adds the names of the columns, of which the last one has the amounts.
fn add_heading(table: &mut TableDraft, amounts: &[u8])
    requires { IsPlain amounts.now }
    ensures { table.new ≡ table.old ++ spec.table_heading amounts.now }
{
    let names: [&[u8]; 8] = [
        b"period", b"day", b"centre", b"shift", b"count", b"cpu", b"blocks", amounts,
    ];
    table.add_texts(&names);
}

/// Adds the fields of a charge row.
fn add_fields(fields: &mut RowDraft, period: u16, row: &ChargeRow)
    requires { IsDay row.now.day }
    ensures fields { fields.new ≡ fields.old ++ spec.table_fields period row.now }
    ensures centre { IsName row.now.centre }
    ensures shift { IsName row.now.shift }
{
    add_number(fields, u64::from(period));
    add_day(fields, row.day);
    fields.add_str(row.centre.text());
    fields.add_str(row.shift.text());
    add_number(fields, row.count);
    add_seconds(fields, row.cpu);
    add_number(fields, row.blocks);
    add_amount(fields, row.amount);
}

/// Adds the row of a charge row.
fn add_line(table: &mut TableDraft, period: u16, row: ChargeRow)
    requires { IsDay row.day }
    ensures { table.new ≡ table.old ++ spec.table_line period row }
{
    let mut fields = RowDraft::new(table.alloc());
    add_fields(&mut fields, period, &row);
    add_row(table, &fields);
}

/// Charge rows of a period as a table: a heading, whose last column has this name, and a row for
/// each of them.
#[tactic(auto, using(std::proofs::lemmas::List::flat_map_more))]
pub(crate) fn row_table(
    alloc: Global,
    amounts: &[u8],
    period: u16,
    rows: &[ChargeRow],
) -> Result<Vec<u8>, AllocError>
    requires amounts { IsPlain amounts.now }
    requires rows { AreRows rows.now }
    ensures { IfOk result (λ table. table.items ≡ spec.row_table amounts.now period rows.now) }
{
    let mut table = TableDraft::new(alloc);
    add_heading(&mut table, amounts);
    for row in rows {
        add_line(&mut table, period, *row);
    }
    table.finish()
}

/// The statement of a period as a table: a heading, and a row for each of its charge rows, in the
/// order in which the books give them.
pub fn statement_table(
    alloc: Global,
    period: u16,
    rows: &[ChargeRow],
) -> Result<Vec<u8>, AllocError>
    requires { AreRows rows.now }
    ensures { IfOk result (λ table. table.items ≡ spec.statement_table period rows.now) }
{
    row_table(alloc, b"amount", period, rows)
}
