//! The life of a record, as a record's text shows it.

ghost use Rattle.std.specs.Prelude.{◌≡◌, ◌++◌, ◌-ℤ◌, pos};
ghost use Rattle.std.specs.Fmt.{signed_decimal};
ghost use Rattle.book_model.specs.Lives as lives;
ghost use Rattle.report_texts.specs.LifeLines as spec;

use crate::ruling_lists::push_period;
use book_model::{Deed, Turn};
use text_drafts::Draft;

/// The word for what a period did.
#[tactic(auto, unfolding(crate::specs::LifeLines::deed_text))]
fn deed_text(deed: Deed) -> &'static str
    ensures { result.now ≡ spec.deed_text deed }
{
    match deed {
        Deed::Charged => "CHARGED",
        Deed::Added => "ADDED",
        Deed::Reversed => "REVERSED",
    }
}

/// Appends the line of a period that did something with the record.
#[tactic(auto, unfolding(crate::specs::LifeLines::turn_line))]
fn push_turn(out: &mut Draft, turn: &Turn)
    ensures { out.new ≡ out.old ++ spec.turn_line turn.now }
{
    out.push_str("  ");
    push_period(out, turn.period);
    out.push(' ');
    out.push_str(deed_text(turn.deed));
    out.push('\n');
}

/// How often the record is charged, and how often a charge is reversed.
#[tactic(auto, using(std::proofs::lemmas::List::Sums::count_by_more_yes, std::proofs::lemmas::List::Sums::count_by_more_no))]
fn counts(life: &[Turn]) -> (u64, u64)
    ensures { result ≡ (lives.charges_in life.now, lives.reversals_in life.now) }
{
    let mut charges = 0;
    let mut reversals = 0;
    for turn in life {
        if turn.deed.is_charge() {
            charges += 1;
        } else {
            reversals += 1;
        }
    }
    (charges, reversals)
}

/// Appends one number less another, a minus sign before what is below zero.
#[tactic(auto, using(crate::proofs::DifferenceLemmas::from_zero, crate::proofs::DifferenceLemmas::below_zero))]
fn push_difference(out: &mut Draft, more: u64, less: u64)
    ensures { out.new ≡ out.old ++ signed_decimal (pos more -ℤ pos less) }
{
    if more >= less {
        out.push_number(more - less);
    } else {
        out.push('-');
        out.push_number(less - more);
    }
}

/// Appends how many periods did something with the record, a line for each, and the net.
#[tactic(auto, using(std::proofs::lemmas::List::flat_map_more), unfolding(crate::specs::LifeLines::life_lines, crate::specs::LifeLines::net_line))]
pub(crate) fn push_life(out: &mut Draft, life: &[Turn])
    ensures { out.new ≡ out.old ++ spec.life_lines life.now }
{
    out.push_str("LIFE ");
    out.push_number(life.len() as u64);
    out.push('\n');
    for turn in life {
        push_turn(out, turn);
    }
    let (charges, reversals) = counts(life);
    out.push_str("NET ");
    push_difference(out, charges, reversals);
    out.push('\n');
}
