//! The statement on a period's page.

ghost use Rattle.std.specs.Prelude.{◌≡◌, ◌++◌, flat_map};
ghost use Rattle.book_model.specs.Words.{AreRows, IsDay};
ghost use Rattle.page_texts.specs.PeriodTables as spec;

use crate::markup::{
    push_cell, push_day_cell, push_money_cell, push_number_cell, push_seconds_cell, push_text_cell,
};
use book_model::ChargeRow;
use report_texts::row_sums;
use text_drafts::Draft;

/// What stands above the rows.
const HEAD: &str = "\
    <div class='scroll'>\n<table class='statement'>\n<caption>Statement</caption>\n<thead><tr>\
    <th scope='col'>Day</th><th scope='col'>Centre</th><th scope='col'>Shift</th>\
    <th scope='col'>Records</th><th scope='col'>CPU seconds</th>\
    <th scope='col'>Blocks</th><th scope='col'>Amount</th></tr></thead>\n<tbody>";

/// Appends what stands above the rows.
#[tactic(auto, unfolding(crate::specs::PeriodTables::statement_head))]
fn push_head(out: &mut Draft)
    ensures { out.new ≡ out.old ++ spec.statement_head }
{
    out.push_str(HEAD);
}

/// Appends the row of a charge row.
#[tactic(auto, unfolding(crate::specs::PeriodTables::statement_row, crate::specs::Markup::table_row))]
fn push_charge_row(out: &mut Draft, row: &ChargeRow)
    requires { IsDay row.now.day }
    ensures { out.new ≡ out.old ++ spec.statement_row row.now }
{
    out.push_str("<tr>");
    push_day_cell(out, row.day);
    push_text_cell(out, row.centre.text());
    push_text_cell(out, row.shift.text());
    push_number_cell(out, row.count);
    push_seconds_cell(out, row.cpu);
    push_number_cell(out, row.blocks);
    push_money_cell(out, row.amount);
    out.push_str("</tr>\n");
}

/// Appends the rows of charge rows.
#[tactic(auto, using(std::proofs::lemmas::List::flat_map_more))]
fn push_charge_rows(out: &mut Draft, rows: &[ChargeRow])
    requires { AreRows rows.now }
    ensures { out.new ≡ out.old ++ flat_map spec.statement_row rows.now }
{
    for row in rows {
        push_charge_row(out, row);
    }
}

/// Appends the end of the statement, with the sums of charge rows.
fn push_foot(out: &mut Draft, rows: &[ChargeRow])
    requires { AreRows rows.now }
    ensures { out.new ≡ out.old ++ spec.statement_foot rows.now }
{
    let (count, cpu, blocks, amount) = row_sums(rows);
    out.push_str("</tbody>\n<tfoot><tr>");
    push_cell(out, "Total");
    push_cell(out, "");
    push_cell(out, "");
    push_number_cell(out, count);
    push_seconds_cell(out, cpu);
    push_number_cell(out, blocks);
    push_money_cell(out, amount);
    out.push_str("</tr>\n</tfoot>\n</table>\n</div>\n");
}

/// Appends the statement of charge rows.
#[tactic(auto, unfolding(crate::specs::PeriodTables::statement_part))]
pub(crate) fn push_statement_part(out: &mut Draft, rows: &[ChargeRow])
    requires { AreRows rows.now }
    ensures { out.new ≡ out.old ++ spec.statement_part rows.now }
{
    push_head(out);
    push_charge_rows(out, rows);
    push_foot(out, rows);
}
