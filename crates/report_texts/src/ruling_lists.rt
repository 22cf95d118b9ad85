//! Lists of rulings, in parts: what stands above the lines, and a line. A list may have a million
//! lines, so it is never made whole here.

ghost use Rattle.std.specs.Prelude.{◌≡◌, ◌++◌, IfOk, OnOk, string_bytes};
ghost use Rattle.book_model.specs.Words.{HasDays, IsDay, ruling_shown, ChoiceSeen, TariffSeen};
ghost use Rattle.book_model.specs.Words.{CreditSeen, ReplacedSeen, WithheldSeen};
ghost use Rattle.report_texts.specs.RulingLists as spec;

use crate::columns::{push_credit_amount, push_draft};
use book_model::ListedRuling;
use sha2::{Digest, Sha256};
use smf_text::Name;
use std::alloc::{AllocError, Global};
use text_drafts::Draft;

/// What stands above the lines, to which they are appended.
pub fn ruling_list_head(alloc: Global) -> Result<String, AllocError>
    ensures { IfOk result (λ text. string_bytes text ≡ spec.ruling_list_head) }
{
    String::from_str(alloc, "RULINGS\n")
}

/// Appends the SHA-256 of a tariff's file and its length, by its text.
#[tactic(auto, unfolding(crate::specs::RulingLists::file_columns))]
fn push_file(out: &mut Draft, text: &str)
    ensures { out.new ≡ out.old ++ spec.file_columns text.now }
{
    out.push_lower_hex(&Sha256::digest(text.as_bytes()));
    out.push(' ');
    out.push_number(text.len() as u64);
}

/// Appends the number of the period that was open when something was ruled.
#[tactic(auto, unfolding(crate::specs::RulingLists::period_column))]
pub(crate) fn push_period(out: &mut Draft, period: u16)
    ensures { out.new ≡ out.old ++ spec.period_column period }
{
    out.push_str("PERIOD ");
    out.push_number(u64::from(period));
}

/// Appends the words of a tariff.
#[tactic(auto, unfolding(crate::specs::RulingLists::tariff_words))]
fn push_tariff(out: &mut Draft, day: i32, text: &str)
    requires { IsDay day }
    ensures { out.new ≡ out.old ++ spec.tariff_words day text.now }
{
    out.push_str("TARIFF ");
    out.push_day(day);
    out.push(' ');
    push_file(out, text);
}

/// Appends the words of a tariff that took the place of another, by the number of that.
#[tactic(auto, unfolding(crate::specs::RulingLists::replacing_words))]
pub(crate) fn push_replacing(out: &mut Draft, day: i32, text: &str, number: u32)
    requires { IsDay day }
    ensures { out.new ≡ out.old ++ spec.replacing_words day text.now number }
{
    push_tariff(out, day, text);
    out.push_str(" REPLACES ");
    out.push_number(u64::from(number));
}

/// Appends a close, by its period and its day.
#[tactic(auto, unfolding(crate::specs::RulingLists::close_words))]
pub(crate) fn push_close_words(out: &mut Draft, period: u16, through: i32)
    requires { IsDay through }
    ensures { out.new ≡ out.old ++ spec.close_words period through }
{
    out.push_str("CLOSE ");
    out.push_number(u64::from(period));
    out.push(' ');
    out.push_day(through);
}

/// Appends the record that was named, by the number of the choice and its period.
#[tactic(auto, unfolding(crate::specs::RulingLists::choice_columns))]
fn push_named(out: &mut Draft, number: u32, period: u16, name: &[u8])
    ensures { out.new ≡ out.old ++ spec.choice_columns number period name.now }
{
    out.push_number(u64::from(number));
    out.push(' ');
    push_period(out, period);
    out.push(' ');
    out.push_lower_hex(name);
}

/// Appends the words of a choice.
#[tactic(auto, unfolding(crate::specs::RulingLists::ruling_words))]
fn push_choice(out: &mut Draft, number: u32, period: u16, name: &[u8])
    ensures { out.new ≡ out.old ++ spec.ruling_words (ChoiceSeen number period name.now) }
{
    out.push_str("CHOICE ");
    push_named(out, number, period, name);
}

/// Appends the words of a choice of none.
#[tactic(auto, unfolding(crate::specs::RulingLists::ruling_words))]
fn push_withheld(out: &mut Draft, number: u32, period: u16, name: &[u8])
    ensures { out.new ≡ out.old ++ spec.ruling_words (WithheldSeen number period name.now) }
{
    out.push_str("NONE ");
    push_named(out, number, period, name);
}

/// Appends the words of a tariff that was replaced.
#[tactic(auto, unfolding(crate::specs::RulingLists::ruling_words))]
fn push_replaced(out: &mut Draft, day: i32, period: u16, text: &str)
    requires { IsDay day }
    ensures { out.new ≡ out.old ++ spec.ruling_words (ReplacedSeen day period text.now) }
{
    out.push_str("REPLACED ");
    out.push_day(day);
    out.push(' ');
    push_period(out, period);
    out.push(' ');
    push_file(out, text);
}

/// Appends a credit, by its centre and its amount, with its reason.
#[tactic(auto, unfolding(crate::specs::RulingLists::reasoned_credit))]
fn push_reasoned_credit(out: &mut Draft, centre: Name, amount: i64, reason: &str)
    ensures { out.new ≡ out.old ++ spec.reasoned_credit centre amount reason.now }
{
    out.push_str(centre.text());
    out.push(' ');
    push_credit_amount(out, amount);
    out.push(' ');
    out.push_str(reason);
}

/// Appends the words of a credit.
#[tactic(auto, unfolding(crate::specs::RulingLists::ruling_words))]
fn push_credit(out: &mut Draft, number: u32, period: u16, centre: Name, amount: i64, reason: &str)
    ensures { out.new
        ≡ out.old ++ spec.ruling_words (CreditSeen number period centre amount reason.now) }
{
    out.push_str("CREDIT ");
    out.push_number(u64::from(number));
    out.push(' ');
    push_period(out, period);
    out.push(' ');
    push_reasoned_credit(out, centre, amount, reason);
}

/// Appends the words of a ruling.
#[tactic(auto, unfolding(crate::specs::RulingLists::ruling_words))]
pub(crate) fn push_ruling_words(out: &mut Draft, ruling: &ListedRuling)
    requires { HasDays (ruling_shown ruling.now) }
    ensures { out.new ≡ out.old ++ spec.ruling_words (ruling_shown ruling.now) }
{
    match ruling {
        ListedRuling::Tariff { day, text } => push_tariff(out, *day, text.as_str()),
        ListedRuling::Close { period, through } => push_close_words(out, *period, *through),
        ListedRuling::Choice {
            number,
            period,
            name,
        } => push_choice(out, *number, *period, name),
        ListedRuling::Adoption { period } => {
            out.push_str("ADOPTED ");
            push_period(out, *period);
        }
        ListedRuling::Withheld {
            number,
            period,
            name,
        } => push_withheld(out, *number, *period, name),
        ListedRuling::Replaced { day, period, text } => {
            push_replaced(out, *day, *period, text.as_str());
        }
        ListedRuling::Credit {
            number,
            period,
            centre,
            amount,
            reason,
        } => push_credit(out, *number, *period, *centre, *amount, reason.as_str()),
    }
}

/// Appends the line of a ruling.
#[tactic(auto, unfolding(crate::specs::RulingLists::ruling_line))]
fn push_ruling(out: &mut Draft, ruling: &ListedRuling)
    requires { HasDays (ruling_shown ruling.now) }
    ensures { out.new ≡ out.old ++ spec.ruling_line (ruling_shown ruling.now) }
{
    push_ruling_words(out, ruling);
    out.push('\n');
}

/// Appends the line of a ruling to a text.
pub fn push_ruling_line(
    alloc: Global,
    out: &mut String,
    ruling: &ListedRuling,
) -> Result<(), AllocError>
    requires { HasDays (ruling_shown ruling.now) }
    ensures { OnOk result (string_bytes out.new
        ≡ string_bytes out.old ++ spec.ruling_line (ruling_shown ruling.now)) }
{
    let mut line = Draft::new(alloc);
    push_ruling(&mut line, ruling);
    push_draft(out, &line)
}
