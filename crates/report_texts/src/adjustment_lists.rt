//! Lists of adjustments: what a period adds to closed periods and reverses.

ghost use Rattle.std.specs.Prelude.{◌≡◌, ◌++◌, IfOk, flat_map, string_bytes, sum_by};
ghost use Rattle.std.specs.Option.{ForSome};
ghost use Rattle.book_model.specs.Words.{IsDay, AreLines};
ghost use Rattle.report_texts.specs.AdjustmentLists as spec;
ghost use Rattle.report_texts.specs.Columns.{right_aligned};

use crate::columns::{push_amount, push_left_aligned, push_right};
use crate::periods::push_title;
use crate::statements::{push_key, push_place};
use book_model::Line;
use std::alloc::{AllocError, Global};
use text_drafts::Draft;

/// Appends what is charged less what is reversed, in units: a minus sign comes before what is below
/// zero.
#[tactic(auto, unfolding(crate::specs::AdjustmentLists::signed_text))]
pub fn push_difference(out: &mut Draft, charged: u64, taken: u64)
    ensures { out.new ≡ out.old ++ spec.signed_text charged taken }
{
    if charged >= taken {
        push_amount(out, charged - taken);
    } else {
        out.push('-');
        push_amount(out, taken - charged);
    }
}

/// Appends what is charged less what is reversed, in units, at the right of a column.
pub(crate) fn push_signed(out: &mut Draft, width: usize, charged: u64, taken: u64)
    ensures { out.new ≡ out.old ++ right_aligned width (spec.signed_text charged taken) }
{
    let mut text = Draft::new(out.alloc());
    push_difference(&mut text, charged, taken);
    push_right(out, width, &text);
}

/// What a line charges.
pub(crate) fn charged_amount(line: &Line) -> u64
    ensures { result ≡ spec.charged_amount line.now }
{
    if line.plus { line.priced.amount } else { 0 }
}

/// What a line reverses.
pub(crate) fn reversed_amount(line: &Line) -> u64
    ensures { result ≡ spec.reversed_amount line.now }
{
    if line.plus { 0 } else { line.priced.amount }
}

/// Appends which record a line is of, and ends the line.
#[tactic(auto, unfolding(crate::specs::AdjustmentLists::name_columns))]
pub(crate) fn push_record(out: &mut Draft, line: &Line)
    ensures { out.new ≡ out.old ++ spec.name_columns line.now }
{
    out.push(' ');
    out.push_lower_hex(&line.name);
    out.push(' ');
    out.push_shown(&line.job);
    out.push('\n');
}

/// The word for whether a line charges its record, or takes the charge back.
pub fn word_of(line: &Line) -> &'static str
    ensures { result.now ≡ spec.word_of line.now.plus }
{
    if line.plus { "PLUS" } else { "MINUS" }
}

/// Appends the columns that say what a line does, and where its record is charged.
#[tactic(auto, unfolding(crate::specs::AdjustmentLists::line_place, crate::specs::AdjustmentLists::action_columns))]
fn push_line_place(out: &mut Draft, line: &Line)
    requires { IsDay line.now.priced.day }
    ensures { out.new ≡ out.old ++ spec.line_place line.now }
{
    let centre = line.priced.centre.text();
    let shift = line.priced.shift.text();
    push_left_aligned(out, 5, word_of(line));
    push_place(out, line.priced.day, centre, shift);
}

/// Appends the line of a record.
#[tactic(auto, unfolding(crate::specs::AdjustmentLists::adjustment_line, crate::specs::AdjustmentLists::signed_column))]
fn push_line(out: &mut Draft, line: &Line)
    requires { IsDay line.now.priced.day }
    ensures { out.new ≡ out.old ++ spec.adjustment_line line.now }
{
    push_line_place(out, line);
    push_signed(out, 21, charged_amount(line), reversed_amount(line));
    push_record(out, line);
}

/// Appends the lines of records.
#[tactic(auto, using(std::proofs::lemmas::List::flat_map_more))]
pub(crate) fn push_lines(out: &mut Draft, lines: &[Line])
    requires { AreLines lines.now }
    ensures { out.new ≡ out.old ++ flat_map spec.adjustment_line lines.now }
{
    for line in lines {
        push_line(out, line);
    }
}

/// What lines charge, and what they reverse.
#[tactic(auto, using(std::proofs::lemmas::List::Sums::sum_by_more_le, crate::proofs::AmountLemmas::charged_within, crate::proofs::AmountLemmas::reversed_within))]
pub(crate) fn sums(lines: &[Line]) -> (u64, u64)
    requires { AreLines lines.now }
    ensures { result ≡ (sum_by spec.charged_amount lines.now, sum_by spec.reversed_amount lines.now) }
{
    let mut charged = 0;
    let mut taken = 0;
    for line in lines {
        charged += charged_amount(line);
        taken += reversed_amount(line);
    }
    (charged, taken)
}

/// Appends the line below the others.
#[tactic(auto, unfolding(crate::specs::AdjustmentLists::sum_line, crate::specs::AdjustmentLists::action_columns, crate::specs::AdjustmentLists::signed_column))]
pub(crate) fn push_sum(out: &mut Draft, lines: &[Line])
    requires { AreLines lines.now }
    ensures { out.new ≡ out.old ++ spec.sum_line lines.now }
{
    let (charged, taken) = sums(lines);
    push_left_aligned(out, 5, "TOTAL");
    push_key(out, "", "", "");
    push_signed(out, 21, charged, taken);
    out.push('\n');
}

/// The list of the adjustments of a period: by its number, the day that it was closed through, if
/// it was, and its lines in the order in which the books give them.
pub fn adjustment_list_text(
    alloc: Global,
    period: u16,
    through: Option<i32>,
    lines: &[Line],
) -> Result<String, AllocError>
    requires through { ForSome through IsDay }
    requires lines { AreLines lines.now }
    ensures { IfOk result (λ text.
        string_bytes text ≡ spec.adjustment_list_text period through lines.now) }
{
    let mut out = Draft::new(alloc);
    push_title(&mut out, "ADJUSTMENTS", period, through);
    push_lines(&mut out, lines);
    push_sum(&mut out, lines);
    out.finish()
}
