//! Lists of periods: the closed ones in order, and then the open one.

ghost use Rattle.std.specs.Prelude.{◌≡◌, ◌++◌, All, IfOk, string_bytes};
ghost use Rattle.std.specs.Option.{ForSome};
ghost use Rattle.book_model.specs.Words.{IsDay};
ghost use Rattle.report_texts.specs.PeriodLists as spec;

use crate::periods::push_head;
use std::alloc::{AllocError, Global};
use text_drafts::Draft;

/// Appends the line of a period.
#[tactic(auto, unfolding(crate::specs::PeriodLists::period_line))]
fn push_period(out: &mut Draft, period: u64, through: Option<i32>)
    requires { ForSome through IsDay }
    ensures { out.new ≡ out.old ++ spec.period_line period through }
{
    out.push_number(period);
    out.push(' ');
    push_head(out, through);
    out.push('\n');
}

/// Appends the lines of closed periods, numbered from 1.
fn push_closed(out: &mut Draft, closes: &[i32])
    requires { All IsDay closes.now }
    ensures { out.new ≡ out.old ++ spec.closed_lines 1 closes.now }
{
    for (before, through) in closes.iter().enumerate() {
        push_period(out, before as u64 + 1, Some(*through));
    }
}

/// The list of periods, by the days through which they were closed, in order. The open period comes
/// after them.
pub fn period_list_text(alloc: Global, closes: &[i32]) -> Result<String, AllocError>
    requires { All IsDay closes.now }
    ensures { IfOk result (λ text. string_bytes text ≡ spec.period_list_text closes.now) }
{
    let open = closes.len() as u64 + 1;
    let mut out = Draft::new(alloc);
    out.push_str("PERIODS ");
    out.push_number(open);
    out.push('\n');
    push_closed(&mut out, closes);
    push_period(&mut out, open, None);
    out.finish()
}
