//! Details as tables of comma-separated values, in parts: the heading, and the row of a record. A
//! table may have millions of rows, so it is never made whole.

ghost use Rattle.std.specs.Prelude.{◌≡◌, ◌++◌, IfOk};
ghost use Rattle.book_model.specs.Words.{IsDay};
ghost use Rattle.report_texts.specs.DetailTables as spec;

use crate::fields::{
    add_amount, add_key, add_name, add_number, add_number_or_dash, add_row, add_seconds, add_shown,
};
use crate::moments::push_time;
use book_model::Detail;
use std::alloc::{AllocError, Global};
use text_drafts::{Draft, RowDraft, TableDraft};

/// Adds the names of the columns.
fn add_heading(table: &mut TableDraft)
    ensures { table.new ≡ table.old ++ spec.details_heading }
{
    let names: [&[u8]; 13] = [
        b"period", b"day", b"centre", b"shift", b"time", b"job", b"program", b"jobid", b"step",
        b"cpu", b"blocks", b"amount", b"name",
    ];
    table.add_texts(&names);
}

/// Adds which work a record is of.
#[tactic(auto, unfolding(crate::specs::DetailTables::job_fields))]
fn add_job(row: &mut RowDraft, detail: &Detail)
    ensures { row.new ≡ row.old ++ spec.job_fields detail.now }
{
    let mut time = Draft::new(row.alloc());
    push_time(&mut time, detail.time);
    row.add_draft(&time);
    add_shown(row, &detail.job);
    add_shown(row, &detail.program);
    add_shown(row, &detail.job_id);
    add_number_or_dash(row, detail.step);
}

/// Adds how much work that is, what it costs, and which record it is.
#[tactic(auto, unfolding(crate::specs::DetailTables::cost_fields))]
fn add_cost(row: &mut RowDraft, detail: &Detail)
    ensures { row.new ≡ row.old ++ spec.cost_fields detail.now }
{
    add_seconds(row, detail.priced.cpu);
    add_number(row, detail.priced.excp);
    add_amount(row, detail.priced.amount);
    add_name(row, &detail.name);
}

/// The names of the columns, which stand above the rows.
pub fn detail_table_head(alloc: Global) -> Result<Vec<u8>, AllocError>
    ensures { IfOk result (λ head. head.items ≡ spec.details_heading) }
{
    let mut table = TableDraft::new(alloc);
    add_heading(&mut table);
    table.finish()
}

/// The row of a record of a period.
#[tactic(auto, unfolding(crate::specs::DetailTables::detail_fields))]
pub fn detail_row(alloc: Global, period: u16, detail: &Detail) -> Result<Vec<u8>, AllocError>
    requires { IsDay detail.now.priced.day }
    ensures { IfOk result (λ row. row.items ≡ spec.detail_row period detail.now) }
{
    let mut row = RowDraft::new(alloc);
    add_number(&mut row, u64::from(period));
    add_key(&mut row, &detail.priced);
    add_job(&mut row, detail);
    add_cost(&mut row, detail);
    let mut table = TableDraft::new(alloc);
    add_row(&mut table, &row);
    table.finish()
}
