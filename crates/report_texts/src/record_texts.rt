//! The text of one record: what stands behind its price, and what became of it.

ghost use Rattle.std.specs.Prelude.{◌≡◌, ◌++◌, All, IfOk, option_map, string_bytes};
ghost use Rattle.book_model.specs.Words.{IsDay, IsTrail, entry_shown, trail_shown};
ghost use Rattle.report_texts.specs.RecordTexts as spec;

use crate::dispute_lists::push_members;
use crate::life_lines::push_life;
use crate::reckoning_lines::push_reckoning;
use crate::ruling_lists::push_period;
use crate::usage_lines::push_usage;
use book_model::{ListedEntry, NamedChoice, Trail, Variant};
use std::alloc::{AllocError, Global};
use text_drafts::Draft;

/// Appends the line of the record's name.
#[tactic(auto, unfolding(crate::specs::RecordTexts::record_line))]
fn push_record(out: &mut Draft, name: &[u8])
    ensures { out.new ≡ out.old ++ spec.record_line name.now }
{
    out.push_str("RECORD ");
    out.push_lower_hex(name);
    out.push('\n');
}

/// Keeps the others than the record of a name, in their order.
fn keep_rivals(members: &mut Vec<Variant>, name: &[u8; 32])
    requires { All (λ member. IsDay member.priced.day) members.old.items }
    ensures kept { members.new.items ≡ spec.rivals_of name.now members.old.items }
    ensures days { All (λ member. IsDay member.priced.day) members.new.items }
{
    members.retain(|member| member.name != *name);
}

/// Appends the number of a record's rivals, and a line for each.
#[tactic(auto, unfolding(crate::specs::RecordTexts::rival_lines))]
fn push_rivals(out: &mut Draft, rivals: &[Variant])
    requires { All (λ member. IsDay member.priced.day) rivals.now }
    ensures { out.new ≡ out.old ++ spec.rival_lines rivals.now }
{
    out.push_str("RIVALS ");
    out.push_number(rivals.len() as u64);
    out.push('\n');
    push_members(out, rivals);
}

/// Appends the line of a choice.
#[tactic(auto, unfolding(crate::specs::RecordTexts::choice_line))]
fn push_choice(out: &mut Draft, choice: &NamedChoice)
    ensures { out.new ≡ out.old ++ spec.choice_line choice.now }
{
    out.push_str("  ");
    push_period(out, choice.period);
    out.push(' ');
    out.push_lower_hex(&choice.name);
    if !choice.counts {
        out.push_str(" NONE");
    }
    out.push('\n');
}

/// Appends the number of choices, and a line for each.
#[tactic(auto, using(std::proofs::lemmas::List::flat_map_more), unfolding(crate::specs::RecordTexts::choice_lines))]
fn push_choices(out: &mut Draft, choices: &[NamedChoice])
    ensures { out.new ≡ out.old ++ spec.choice_lines choices.now }
{
    out.push_str("CHOICES ");
    out.push_number(choices.len() as u64);
    out.push('\n');
    for choice in choices {
        push_choice(out, choice);
    }
}

/// The text of the record of a name, by its trail and the entry by which it came.
pub fn record_text(
    alloc: Global,
    name: &[u8; 32],
    entry: &Option<ListedEntry>,
    mut trail: Trail,
) -> Result<String, AllocError>
    requires { IsTrail (trail_shown trail) }
    ensures { IfOk result (λ text. string_bytes text
        ≡ spec.record_text name.now (option_map entry_shown entry.now) (trail_shown trail)) }
{
    let mut out = Draft::new(alloc);
    push_record(&mut out, name);
    push_usage(&mut out, &trail.bytes, trail.period, entry);
    push_reckoning(&mut out, &trail.reckoning);
    keep_rivals(&mut trail.members, name);
    push_rivals(&mut out, &trail.members);
    push_choices(&mut out, &trail.choices);
    push_life(&mut out, &trail.life);
    out.finish()
}
