//! Cells of tables, and the links in them.

ghost use Rattle.std.specs.Prelude.{◌≡◌, ◌++◌};
ghost use Rattle.std.specs.Fmt.{decimal};
ghost use Rattle.book_model.specs.Words.{IsDay, day_text_of, show_text};
ghost use Rattle.html_text.specs.Escaping as page;
ghost use Rattle.report_texts.specs.Columns as columns;
ghost use Rattle.page_texts.specs.Markup as spec;

use crate::amounts::push_money;
use html_text::{push_escaped, push_shown};
use report_texts::seconds_text;
use text_drafts::Draft;

/// Appends a cell of a page's text.
#[tactic(auto, unfolding(crate::specs::Markup::cell))]
pub(crate) fn push_cell(out: &mut Draft, text: &str)
    ensures { out.new ≡ out.old ++ spec.cell text.now }
{
    out.push_str("<td>");
    out.push_str(text);
    out.push_str("</td>");
}

/// Appends a cell of a text that is none of a page's.
#[tactic(auto, unfolding(crate::specs::Markup::cell))]
pub(crate) fn push_text_cell(out: &mut Draft, text: &str)
    ensures { out.new ≡ out.old ++ spec.cell (page.escaped text.now) }
{
    out.push_str("<td>");
    push_escaped(out, text);
    out.push_str("</td>");
}

/// Appends a cell of bytes of a dump.
#[tactic(auto, unfolding(crate::specs::Markup::cell))]
pub(crate) fn push_shown_cell(out: &mut Draft, bytes: &[u8])
    ensures { out.new ≡ out.old ++ spec.cell (page.escaped (show_text bytes.now)) }
{
    out.push_str("<td>");
    push_shown(out, bytes);
    out.push_str("</td>");
}

/// Appends a cell of a day.
#[tactic(auto, unfolding(crate::specs::Markup::cell))]
pub(crate) fn push_day_cell(out: &mut Draft, day: i32)
    requires { IsDay day }
    ensures { out.new ≡ out.old ++ spec.cell (day_text_of day) }
{
    out.push_str("<td>");
    out.push_day(day);
    out.push_str("</td>");
}

/// Appends a cell of a number.
#[tactic(auto, unfolding(crate::specs::Markup::cell))]
pub(crate) fn push_number_cell(out: &mut Draft, number: u64)
    ensures { out.new ≡ out.old ++ spec.cell (decimal number) }
{
    out.push_str("<td>");
    out.push_number(number);
    out.push_str("</td>");
}

/// Appends a cell of an amount.
#[tactic(auto, unfolding(crate::specs::Markup::cell))]
pub(crate) fn push_money_cell(out: &mut Draft, amount: u64)
    ensures { out.new ≡ out.old ++ spec.cell (columns.amount_text amount) }
{
    out.push_str("<td>");
    push_money(out, amount);
    out.push_str("</td>");
}

/// Appends a cell of hundredths of a second, in seconds.
#[tactic(auto, unfolding(crate::specs::Markup::cell))]
pub(crate) fn push_seconds_cell(out: &mut Draft, hundredths: u64)
    ensures { out.new ≡ out.old ++ spec.cell (columns.seconds_text hundredths) }
{
    out.push_str("<td>");
    let made = seconds_text(out.alloc(), hundredths);
    out.push_made(&hundredths, made);
    out.push_str("</td>");
}

/// Appends a cell of a link to the page of a period.
pub(crate) fn push_period_cell(out: &mut Draft, period: u64)
    ensures { out.new ≡ out.old ++ spec.cell (spec.period_link period) }
{
    out.push_str("<td><a href='/period/");
    out.push_number(period);
    out.push_str("'>");
    out.push_number(period);
    out.push_str("</a></td>");
}

/// Appends a cell of a link to the text of the record of a name.
pub(crate) fn push_record_cell(out: &mut Draft, name: &[u8])
    ensures { out.new ≡ out.old ++ spec.cell (spec.record_link name.now) }
{
    out.push_str("<td><a href='/record/");
    out.push_lower_hex(name);
    out.push_str("'>");
    out.push_lower_hex(name);
    out.push_str("</a></td>");
}
