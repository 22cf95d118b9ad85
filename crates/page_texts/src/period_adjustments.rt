//! The adjustments on a period's page.

ghost use Rattle.std.specs.Prelude.{◌≡◌, ◌++◌, flat_map};
ghost use Rattle.book_model.specs.Words.{AreLines, IsDay};
ghost use Rattle.report_texts.specs.AdjustmentLists as lists;
ghost use Rattle.page_texts.specs.Markup.{cell};
ghost use Rattle.page_texts.specs.PeriodTables as spec;

use crate::amounts::push_signed;
use crate::markup::{push_cell, push_day_cell, push_record_cell, push_shown_cell, push_text_cell};
use book_model::Line;
use report_texts::{figures_of, word_of};
use text_drafts::Draft;

/// What stands above the rows.
const HEAD: &str = "\
    <div class='scroll'>\n<table class='adjustments'>\n<caption>Adjustments</caption>\n\
    <thead><tr><th scope='col'>Sign</th><th scope='col'>Day</th>\
    <th scope='col'>Centre</th><th scope='col'>Shift</th><th scope='col'>Amount</th>\
    <th scope='col'>Record</th><th scope='col'>Job</th></tr></thead>\n<tbody>";

/// Appends what stands above the rows.
#[tactic(auto, unfolding(crate::specs::PeriodTables::adjustment_head))]
fn push_head(out: &mut Draft)
    ensures { out.new ≡ out.old ++ spec.adjustment_head }
{
    out.push_str(HEAD);
}

/// Appends a cell of what is charged less what is reversed.
#[tactic(auto, unfolding(crate::specs::Markup::cell))]
fn push_signed_cell(out: &mut Draft, charged: u64, taken: u64)
    ensures { out.new ≡ out.old ++ cell (lists.signed_text charged taken) }
{
    out.push_str("<td>");
    push_signed(out, u128::from(charged), u128::from(taken));
    out.push_str("</td>");
}

/// Appends a cell of what a line charges, or of a minus sign and what it takes back.
fn push_amount_cell(out: &mut Draft, line: &Line)
    ensures { out.new ≡ out.old ++ cell
        (lists.signed_text (lists.charged_amount line.now) (lists.reversed_amount line.now)) }
{
    let amount = line.priced.amount;
    if line.plus {
        push_signed_cell(out, amount, 0);
    } else {
        push_signed_cell(out, 0, amount);
    }
}

/// Appends the row of an adjustment line.
#[tactic(auto, unfolding(crate::specs::PeriodTables::adjustment_row, crate::specs::Markup::table_row))]
fn push_line(out: &mut Draft, line: &Line)
    requires { IsDay line.now.priced.day }
    ensures { out.new ≡ out.old ++ spec.adjustment_row line.now }
{
    out.push_str("<tr>");
    push_cell(out, word_of(line));
    push_day_cell(out, line.priced.day);
    push_text_cell(out, line.priced.centre.text());
    push_text_cell(out, line.priced.shift.text());
    push_amount_cell(out, line);
    push_record_cell(out, &line.name);
    push_shown_cell(out, &line.job);
    out.push_str("</tr>\n");
}

/// Appends the rows of adjustment lines.
#[tactic(auto, using(std::proofs::lemmas::List::flat_map_more))]
fn push_lines(out: &mut Draft, lines: &[Line])
    requires { AreLines lines.now }
    ensures { out.new ≡ out.old ++ flat_map spec.adjustment_row lines.now }
{
    for line in lines {
        push_line(out, line);
    }
}

/// Appends the end of the adjustments, with their sum.
fn push_foot(out: &mut Draft, lines: &[Line])
    requires { AreLines lines.now }
    ensures { out.new ≡ out.old ++ spec.adjustment_foot lines.now }
{
    let sums = figures_of(&[], lines, 0);
    out.push_str("</tbody>\n<tfoot><tr>");
    push_cell(out, "Total");
    push_cell(out, "");
    push_cell(out, "");
    push_cell(out, "");
    push_signed_cell(out, sums.added, sums.reversed);
    push_cell(out, "");
    push_cell(out, "");
    out.push_str("</tr>\n</tfoot>\n</table>\n</div>\n");
}

/// Appends the adjustments of lines.
#[tactic(auto, unfolding(crate::specs::PeriodTables::adjustment_part))]
pub(crate) fn push_adjustment_part(out: &mut Draft, lines: &[Line])
    requires { AreLines lines.now }
    ensures { out.new ≡ out.old ++ spec.adjustment_part lines.now }
{
    push_head(out);
    push_lines(out, lines);
    push_foot(out, lines);
}
