//! How the price of a record came about, as a record's text shows it.

ghost use Rattle.std.specs.Prelude.{◌≡◌, ◌++◌};
ghost use Rattle.book_model.specs.Words.{IsDay};
ghost use Rattle.report_texts.specs.Columns.{number_text};
ghost use Rattle.report_texts.specs.ReckoningLines as spec;

use crate::columns::{push_amount, push_seconds};
use smf_text::Name;
use tariff_rules::Reckoning;
use text_drafts::Draft;

/// How many parts make a ten-thousandth of the money unit.
const WHOLE_PARTS: u64 = 100_000;

/// The parts that a hundredth of a second has, at one percent, by the rate of a CPU second.
const HUNDREDTH_PARTS: u64 = 10;

/// The parts that a record has, at one percent, by its own rate.
const RECORD_PARTS: u64 = 1000;

/// Appends the number of the rule that decided, if one did.
#[tactic(auto, unfolding(crate::specs::Columns::number_text))]
fn push_rule(out: &mut Draft, rule: Option<u64>)
    ensures { out.new ≡ out.old ++ number_text rule }
{
    match rule {
        Some(number) => out.push_number(number),
        None => out.push('-'),
    }
}

/// Appends a shift or a centre, and the rule that gave it.
#[tactic(auto, unfolding(crate::specs::ReckoningLines::rule_columns))]
fn push_ruled(out: &mut Draft, word: &str, name: Name, rule: Option<u64>)
    ensures { out.new ≡ out.old ++ spec.rule_columns word.now name rule }
{
    out.push_str(word);
    out.push_str(name.text());
    out.push_str(" RULE ");
    push_rule(out, rule);
}

/// Appends the tariff, and what its rules gave.
#[tactic(auto, unfolding(crate::specs::ReckoningLines::rules_line))]
fn push_tariff(out: &mut Draft, reckoning: &Reckoning)
    requires { IsDay reckoning.now.effective }
    ensures { out.new ≡ out.old ++ spec.rules_line reckoning.now }
{
    out.push_str("TARIFF ");
    out.push_day(reckoning.effective);
    push_ruled(out, " SHIFT ", reckoning.priced.shift, reckoning.shift_rule);
    push_ruled(
        out,
        " CENTRE ",
        reckoning.priced.centre,
        reckoning.centre_rule,
    );
    out.push('\n');
}

/// Appends one number by another.
#[tactic(auto, unfolding(crate::specs::ReckoningLines::product_text))]
fn push_product(out: &mut Draft, number: u64, other: u64)
    ensures { out.new ≡ out.old ++ spec.product_text number other }
{
    out.push_number(number);
    out.push_str(" * ");
    out.push_number(other);
}

/// Appends the parts of the formula.
#[tactic(auto, unfolding(crate::specs::ReckoningLines::parts_text))]
fn push_parts(out: &mut Draft, reckoning: &Reckoning)
    ensures { out.new ≡ out.old ++ spec.parts_text reckoning.now }
{
    out.push('(');
    push_product(out, HUNDREDTH_PARTS, reckoning.priced.cpu);
    out.push_str(" * ");
    out.push_number(reckoning.cpu_rate);
    out.push_str(" + ");
    push_product(out, reckoning.priced.excp, reckoning.excp_rate);
    out.push_str(" + ");
    push_product(out, RECORD_PARTS, reckoning.record_fee);
    out.push(')');
}

/// Appends the formula, and what it comes to.
#[tactic(auto, unfolding(crate::specs::ReckoningLines::price_line, crate::specs::ReckoningLines::whole_text))]
fn push_price(out: &mut Draft, reckoning: &Reckoning)
    ensures { out.new ≡ out.old ++ spec.price_line reckoning.now }
{
    out.push_str("PRICE ");
    push_parts(out, reckoning);
    out.push_str(" * ");
    out.push_number(u64::from(reckoning.percent));
    out.push_str(" / ");
    out.push_number(WHOLE_PARTS);
    out.push_str(" = ");
    out.push_number(reckoning.priced.amount);
    out.push('\n');
}

/// Appends how a price came about.
#[tactic(auto, unfolding(crate::specs::ReckoningLines::reckoning_lines, crate::specs::ReckoningLines::measured_line, crate::specs::ReckoningLines::amount_line))]
pub(crate) fn push_reckoning(out: &mut Draft, reckoning: &Reckoning)
    requires { IsDay reckoning.now.effective }
    ensures { out.new ≡ out.old ++ spec.reckoning_lines reckoning.now }
{
    out.push_str("CPU ");
    push_seconds(out, reckoning.priced.cpu);
    out.push_str(" BLOCKS ");
    out.push_number(reckoning.priced.excp);
    out.push('\n');
    push_tariff(out, reckoning);
    push_price(out, reckoning);
    out.push_str("AMOUNT ");
    push_amount(out, reckoning.priced.amount);
    out.push('\n');
}
