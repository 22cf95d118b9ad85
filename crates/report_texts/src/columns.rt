//! Texts in columns, and numbers with decimal places.

ghost use Rattle.std.specs.Prelude.{◌≡◌, ◌++◌, IfOk, OnOk, codes, string_bytes, decimal};
ghost use Rattle.report_texts.specs.Columns as spec;

use std::alloc::{AllocError, Global};
use text_drafts::Draft;

/// Appends blanks.
pub fn push_blanks(out: &mut Draft, count: usize)
    ensures { out.new ≡ out.old ++ spec.blanks count }
{
    for _ in 0..count {
        out.push(' ');
    }
}

/// Appends a text at the left of a column, and the blank after the column. A text that is wider than
/// the column is kept whole.
pub(crate) fn push_left_aligned(out: &mut Draft, width: usize, text: &str)
    ensures { out.new ≡ out.old ++ spec.left_aligned width text.now ++ codes " " }
{
    out.push_str(text);
    push_blanks(out, width.saturating_sub(text.len()));
    out.push(' ');
}

/// Appends a text at the right of a column. A text that is wider than the column is kept whole.
pub fn push_right_aligned(out: &mut Draft, width: usize, text: &str)
    ensures { out.new ≡ out.old ++ spec.right_aligned width text.now }
{
    push_blanks(out, width.saturating_sub(text.len()));
    out.push_str(text);
}

/// Appends what a draft says at the left of a column, and the blank after the column.
pub fn push_left(out: &mut Draft, width: usize, text: &Draft)
    ensures { out.new ≡ out.old ++ spec.left_aligned width text.now ++ codes " " }
{
    match text.whole() {
        Some(text) => push_left_aligned(out, width, text),
        None => out.leave_out(&(width, text)),
    }
}

/// Appends what a draft says at the right of a column.
pub(crate) fn push_right(out: &mut Draft, width: usize, text: &Draft)
    ensures { out.new ≡ out.old ++ spec.right_aligned width text.now }
{
    match text.whole() {
        Some(text) => push_right_aligned(out, width, text),
        None => out.leave_out(&(width, text)),
    }
}

/// Appends a number at the right of a column.
pub fn push_count(out: &mut Draft, width: usize, number: u64)
    ensures { out.new ≡ out.old ++ spec.right_aligned width (decimal number) }
{
    let mut text = Draft::new(out.alloc());
    text.push_number(number);
    push_right(out, width, &text);
}

/// Appends a number, or `-` where there is none.
#[tactic(auto, unfolding(crate::specs::Columns::number_text))]
pub(crate) fn push_number_or_dash(out: &mut Draft, number: Option<u16>)
    ensures { out.new ≡ out.old ++ spec.number_text number }
{
    match number {
        None => out.push('-'),
        Some(number) => out.push_number(u64::from(number)),
    }
}

/// Appends hundredths of a second, in seconds.
pub fn push_seconds(out: &mut Draft, hundredths: u64)
    ensures { out.new ≡ out.old ++ spec.seconds_text hundredths }
{
    let made = seconds_text(out.alloc(), hundredths);
    out.push_made(&hundredths, made);
}

/// Appends hundredths of a second, in seconds, at the right of a column.
pub(crate) fn push_time_used(out: &mut Draft, width: usize, hundredths: u64)
    ensures { out.new ≡ out.old ++ spec.right_aligned width (spec.seconds_text hundredths) }
{
    let mut text = Draft::new(out.alloc());
    push_seconds(&mut text, hundredths);
    push_right(out, width, &text);
}

/// Appends ten-thousandths of the money unit, in units.
pub fn push_amount(out: &mut Draft, amount: u64)
    ensures { out.new ≡ out.old ++ spec.amount_text amount }
{
    let made = amount_text(out.alloc(), amount);
    out.push_made(&amount, made);
}

/// Appends the same of an amount that may be below zero: a minus sign comes before it then.
#[tactic(auto, unfolding(crate::specs::Columns::credit_text))]
pub fn push_credit_amount(out: &mut Draft, amount: i64)
    ensures { out.new ≡ out.old ++ spec.credit_text amount }
{
    if amount < 0 {
        out.push('-');
    }
    push_amount(out, amount.unsigned_abs());
}

/// Appends ten-thousandths of the money unit, in units, at the right of a column.
pub(crate) fn push_money(out: &mut Draft, width: usize, amount: u64)
    ensures { out.new ≡ out.old ++ spec.right_aligned width (spec.amount_text amount) }
{
    let mut text = Draft::new(out.alloc());
    push_amount(&mut text, amount);
    push_right(out, width, &text);
}

/// Appends a number in decimal digits to a text.
pub fn push_number(out: &mut String, number: u64) -> Result<(), AllocError>
    ensures { OnOk result (string_bytes out.new ≡ string_bytes out.old ++ decimal number) }
{
    write!(out, "{number}")
}

/// Appends what a draft says to a text.
pub(crate) fn push_draft(out: &mut String, draft: &Draft) -> Result<(), AllocError>
    ensures { OnOk result (string_bytes out.new ≡ string_bytes out.old ++ draft.now) }
{
    match draft.whole() {
        Some(text) => out.push_str(text),
        None => Err(AllocError),
    }
}

/// Hundredths of a second, in seconds.
#[tactic(auto, using(crate::proofs::ColumnLemmas::places_written), unfolding(crate::specs::Columns::seconds_text))]
pub fn seconds_text(alloc: Global, hundredths: u64) -> Result<String, AllocError>
    ensures { IfOk result (λ text. string_bytes text ≡ spec.seconds_text hundredths) }
{
    let seconds = hundredths / 100;
    let rest = hundredths % 100;
    format!(in alloc; "{seconds}.{rest:02}")
}

/// Ten-thousandths of the money unit, in units.
#[tactic(auto, using(crate::proofs::ColumnLemmas::places_written), unfolding(crate::specs::Columns::amount_text))]
fn amount_text(alloc: Global, amount: u64) -> Result<String, AllocError>
    ensures { IfOk result (λ text. string_bytes text ≡ spec.amount_text amount) }
{
    let units = amount / 10_000;
    let rest = amount % 10_000;
    format!(in alloc; "{units}.{rest:04}")
}
