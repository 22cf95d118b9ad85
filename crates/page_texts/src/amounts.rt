//! Amounts, and whether a period is open, by the definitions of the reports.

ghost use Rattle.std.specs.Prelude.{◌≡◌, ◌++◌, IfOk, string_bytes};
ghost use Rattle.std.specs.Option.{ForSome};
ghost use Rattle.book_model.specs.Words.{IsDay};
ghost use Rattle.report_texts.specs.AdjustmentLists as lists;
ghost use Rattle.report_texts.specs.Columns as columns;
ghost use Rattle.report_texts.specs.Periods as periods;

use std::alloc::{AllocError, Global};
use text_drafts::Draft;

/// Ten-thousandths of the money unit, in units.
#[tactic(auto, using(report_texts::proofs::ColumnLemmas::places_written), unfolding(report_texts::specs::Columns::amount_text))]
fn amount_text(alloc: Global, amount: u128) -> Result<String, AllocError>
    ensures { IfOk result (λ text. string_bytes text ≡ columns.amount_text amount) }
{
    let units = amount / 10_000;
    let rest = (amount % 10_000) as u64;
    format!(in alloc; "{units}.{rest:04}")
}

/// Appends an amount.
fn push_amount(out: &mut Draft, amount: u128)
    ensures { out.new ≡ out.old ++ columns.amount_text amount }
{
    let made = amount_text(out.alloc(), amount);
    out.push_made(&amount, made);
}

/// Appends an amount of 64 bits.
pub(crate) fn push_money(out: &mut Draft, amount: u64)
    ensures { out.new ≡ out.old ++ columns.amount_text amount }
{
    push_amount(out, u128::from(amount));
}

/// Appends what is charged less what is reversed, in units: a minus sign comes before what is below
/// zero.
#[tactic(auto, unfolding(report_texts::specs::AdjustmentLists::signed_text))]
pub(crate) fn push_signed(out: &mut Draft, charged: u128, taken: u128)
    ensures { out.new ≡ out.old ++ lists.signed_text charged taken }
{
    if charged >= taken {
        push_amount(out, charged - taken);
        return;
    }
    out.push_str("-");
    push_amount(out, taken - charged);
}

/// Appends whether a period is open, or the day that it was closed through.
#[tactic(auto, unfolding(report_texts::specs::Periods::head_text))]
pub(crate) fn push_head(out: &mut Draft, through: Option<i32>)
    requires { ForSome through IsDay }
    ensures { out.new ≡ out.old ++ periods.head_text through }
{
    let Some(day) = through else {
        out.push_str("OPEN");
        return;
    };
    out.push_str("CLOSED THROUGH ");
    out.push_day(day);
}
