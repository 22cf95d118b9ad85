//! Pictures: amounts as bars.

ghost use Rattle.std.specs.Prelude.{◌≡◌, ◌≤◌, ◌++◌, flat_map};
ghost use Rattle.page_texts.specs.Bars as spec;
ghost use Rattle.page_texts.specs.Markup.{cell};

use crate::amounts::push_money;
use crate::markup::push_money_cell;
use html_text::push_escaped;
use report_texts::cost_among;
use smf_text::Name;
use std::collections::BTreeMap;
use text_drafts::Draft;

/// The width of a picture.
const PICTURE_WIDTH: u64 = 10_000;

/// What stands before the text of a picture, for those who do not see it.
pub(crate) const PICTURE_START: &str =
    "<svg viewBox='0 0 10000 1' preserveAspectRatio='none' role='img' aria-label='";

/// How many centres have a colour of their own.
pub(crate) const COLOURS: usize = 8;

/// The colour of the centre of an index: those after them share one, which is grey.
pub(crate) fn colour_of(index: usize) -> usize
    ensures { result ≡ spec.colour_of index }
{
    if index < COLOURS { index } else { COLOURS }
}

/// How long an amount is where the greatest has the whole width.
#[tactic(auto, unfolding(crate::specs::Bars::bar_length))]
fn bar_length(most: u64, amount: u64) -> u64
    ensures long { result ≡ spec.bar_length most amount }
    ensures within { result ≤ spec.picture_width }
{
    let whole = if most == 0 { 1 } else { most };
    let long = u128::from(amount) * u128::from(PICTURE_WIDTH) / u128::from(whole);
    if long < u128::from(PICTURE_WIDTH) {
        long as u64
    } else {
        PICTURE_WIDTH
    }
}

/// Appends what is charged for something, in a line.
#[tactic(auto, unfolding(crate::specs::Bars::cost_title))]
fn push_cost_title(out: &mut Draft, label: &Draft, amount: u64)
    ensures { out.new ≡ out.old ++ spec.cost_title label.now amount }
{
    out.push_draft(label);
    out.push_str(" ");
    push_money(out, amount);
}

/// Appends a bar of a colour, from a place on. A pointer shows what is charged for what.
fn push_bar(out: &mut Draft, colour: usize, start: u64, long: u64, label: &Draft, amount: u64)
    ensures { out.new
        ≡ out.old ++ spec.bar colour start long (spec.cost_title label.now amount) }
{
    out.push_str("<rect class='c");
    out.push_number(colour as u64);
    out.push_str("' x='");
    out.push_number(start);
    out.push_str("' width='");
    out.push_number(long);
    out.push_str("' height='1'><title>");
    push_cost_title(out, label, amount);
    out.push_str("</title></rect>");
}

/// Appends the picture of one bar, of the first colour.
fn push_bar_picture(out: &mut Draft, long: u64, label: &Draft, amount: u64)
    ensures { out.new ≡ out.old ++ spec.bar_picture long label.now amount }
{
    out.push_str(PICTURE_START);
    push_cost_title(out, label, amount);
    out.push_str("'>");
    push_bar(out, 0, 0, long, label, amount);
    out.push_str("</svg>");
}

/// Appends the cells of what an amount is charged for: its text, its bar and the amount.
#[tactic(auto, unfolding(crate::specs::Markup::cell))]
pub(crate) fn push_bar_cells(out: &mut Draft, most: u64, label: &Draft, amount: u64)
    ensures { out.new ≡ out.old ++ flat_map cell (spec.bar_cells most label.now amount) }
{
    out.push_str("<td>");
    out.push_draft(label);
    out.push_str("</td><td>");
    push_bar_picture(out, bar_length(most, amount), label, amount);
    out.push_str("</td>");
    push_money_cell(out, amount);
}

/// Appends the row of these.
#[tactic(auto, unfolding(crate::specs::Bars::bar_row, crate::specs::Markup::table_row))]
pub(crate) fn push_bar_row(out: &mut Draft, most: u64, label: &Draft, amount: u64)
    ensures { out.new ≡ out.old ++ spec.bar_row most label.now amount }
{
    out.push_str("<tr>");
    push_bar_cells(out, most, label, amount);
    out.push_str("</tr>\n");
}

/// Appends the bar of the centre of an index. One without cost has none.
#[tactic(auto, unfolding(crate::specs::Bars::centre_bar))]
fn push_centre_bar(out: &mut Draft, index: usize, start: u64, long: u64, centre: Name, amount: u64)
    ensures { out.new ≡ out.old ++ spec.centre_bar index start long centre amount }
{
    if amount == 0 {
        return;
    }
    let mut label = Draft::new(out.alloc());
    push_escaped(&mut label, centre.text());
    push_bar(out, colour_of(index), start, long, &label, amount);
}

/// Appends the bars of centres, one after the other, by what each costs.
pub(crate) fn push_centre_bars(
    out: &mut Draft,
    most: u64,
    costs: &BTreeMap<Name, u64>,
    centres: &[Name],
)
    ensures { out.new ≡ out.old ++ spec.bars_from most costs.now.entries 0 0 centres.now }
{
    let mut start = 0;
    for (index, centre) in centres.iter().enumerate() {
        let amount = cost_among(costs, *centre);
        let long = bar_length(most, amount);
        push_centre_bar(out, index, start, long, *centre, amount);
        let end = start + long;
        start = if end < PICTURE_WIDTH {
            end
        } else {
            PICTURE_WIDTH
        };
    }
}
