//! Dry runs: what a ruling would answer, and what it would change of the period that is open.

ghost use Rattle.std.specs.Prelude.{◌≡◌, ◌++◌, IfOk, codes, string_bytes};
ghost use Rattle.report_texts.specs.Columns.{left_aligned};
ghost use Rattle.report_texts.specs.DryRuns as spec;
ghost use Rattle.report_texts.specs.DryRuns.{NamesDay};

use crate::adjustment_lists::push_signed;
use crate::columns::{push_count, push_left, push_left_aligned, push_money, push_right_aligned};
use crate::figures::Figures;
use crate::ruling_lists::push_close_words;
use book_model::Ruled;
use smf_text::Name;
use std::alloc::{AllocError, Global};
use text_drafts::Draft;

/// A ruling, as a dry run names it.
#[derive(Clone, Copy)]
pub enum TriedRuling {
    /// A tariff with this first day, in days since 1970-01-01.
    Tariff(i32),
    /// The close of a period through a day, in days since 1970-01-01.
    Close { period: u16, through: i32 },
    /// The choice of the record that is held under a name.
    Choose([u8; 32]),
    /// The adoption of the second rule of identity.
    Adopt,
    /// A tariff with this first day, in days since 1970-01-01, in the place of another.
    Replace(i32),
    /// The choice of none of the work of the record that is held under a name.
    Withhold([u8; 32]),
    /// A credit of a period to a centre.
    Credit { period: u16, centre: Name },
}

/// Appends a credit, by its period and its centre.
#[tactic(auto, unfolding(crate::specs::DryRuns::credit_words))]
fn push_credit_words(out: &mut Draft, period: u16, centre: Name)
    ensures { out.new ≡ out.old ++ spec.credit_words period centre }
{
    out.push_str("CREDIT ");
    out.push_number(u64::from(period));
    out.push(' ');
    out.push_str(centre.text());
}

/// Appends a ruling.
#[tactic(auto, unfolding(crate::specs::DryRuns::ruling_words))]
fn push_ruling(out: &mut Draft, ruling: TriedRuling)
    requires { NamesDay ruling }
    ensures { out.new ≡ out.old ++ spec.ruling_words ruling }
{
    match ruling {
        TriedRuling::Tariff(first) => {
            out.push_str("TARIFF ");
            out.push_day(first);
        }
        TriedRuling::Close { period, through } => push_close_words(out, period, through),
        TriedRuling::Choose(name) => {
            out.push_str("CHOOSE ");
            out.push_lower_hex(&name);
        }
        TriedRuling::Adopt => out.push_str("ADOPT"),
        TriedRuling::Replace(first) => {
            out.push_str("TARIFF ");
            out.push_day(first);
            out.push_str(" REPLACE");
        }
        TriedRuling::Withhold(name) => {
            out.push_str("CHOOSE NONE ");
            out.push_lower_hex(&name);
        }
        TriedRuling::Credit { period, centre } => push_credit_words(out, period, centre),
    }
}

/// What is answered to a ruling, in one word.
fn answer_word(answer: Ruled) -> &'static str
    ensures { result.now ≡ spec.answer_word answer }
{
    match answer {
        Ruled::Done => "DONE",
        Ruled::Already => "ALREADY",
    }
}

/// Appends the first line.
#[tactic(auto, unfolding(crate::specs::DryRuns::dry_run_head))]
fn push_head(out: &mut Draft, ruling: &TriedRuling, answer: Ruled)
    requires { NamesDay ruling.now }
    ensures { out.new ≡ out.old ++ spec.dry_run_head ruling.now answer }
{
    out.push_str("DRY RUN ");
    push_ruling(out, *ruling);
    out.push(' ');
    out.push_str(answer_word(answer));
    out.push('\n');
}

/// Appends the line of a figure: which it is, what it was, and what it is then.
#[tactic(auto, unfolding(crate::specs::DryRuns::figure_line))]
fn push_figure(out: &mut Draft, name: &str, before: &str, after: &str)
    ensures { out.new ≡ out.old ++ spec.figure_line name.now before.now after.now }
{
    push_left_aligned(out, 16, name);
    push_right_aligned(out, 21, before);
    out.push(' ');
    push_right_aligned(out, 21, after);
    out.push('\n');
}

/// Appends the name of a figure of a period, in its column.
#[tactic(auto, unfolding(crate::specs::DryRuns::figure_name))]
fn push_figure_name(out: &mut Draft, word: &str, period: u32)
    ensures { out.new ≡ out.old ++ left_aligned 16 (spec.figure_name word.now period) ++ codes " " }
{
    let mut name = Draft::new(out.alloc());
    name.push_str(word);
    name.push(' ');
    name.push_number(u64::from(period));
    push_left(out, 16, &name);
}

/// Appends the line of what is counted.
#[tactic(auto, unfolding(crate::specs::DryRuns::figure_line))]
fn push_count_line(out: &mut Draft, name: &str, before: u64, after: u64)
    ensures { out.new ≡ out.old ++ spec.count_line name.now before after }
{
    push_left_aligned(out, 16, name);
    push_count(out, 21, before);
    out.push(' ');
    push_count(out, 21, after);
    out.push('\n');
}

/// Appends the line of what the period's statement comes to.
#[tactic(auto, unfolding(crate::specs::DryRuns::statement_line, crate::specs::DryRuns::figure_line))]
fn push_statement(out: &mut Draft, period: u16, before: &Figures, after: &Figures)
    ensures { out.new ≡ out.old ++ spec.statement_line period before.now after.now }
{
    push_figure_name(out, "STATEMENT", u32::from(period));
    push_money(out, 21, before.statement);
    out.push(' ');
    push_money(out, 21, after.statement);
    out.push('\n');
}

/// Appends the line of what the period's adjustments come to.
#[tactic(auto, unfolding(crate::specs::DryRuns::adjustments_line, crate::specs::DryRuns::figure_line))]
fn push_adjustments(out: &mut Draft, period: u16, before: &Figures, after: &Figures)
    ensures { out.new ≡ out.old ++ spec.adjustments_line period before.now after.now }
{
    push_figure_name(out, "ADJUSTMENTS", u32::from(period));
    push_signed(out, 21, before.added, before.reversed);
    out.push(' ');
    push_signed(out, 21, after.added, after.reversed);
    out.push('\n');
}

/// Appends the line of how many records a period counts.
#[tactic(auto, unfolding(crate::specs::DryRuns::records_line, crate::specs::DryRuns::figure_line))]
fn push_records(out: &mut Draft, period: u32, before: u64, after: u64)
    ensures { out.new ≡ out.old ++ spec.records_line period before after }
{
    push_figure_name(out, "RECORDS", period);
    push_count(out, 21, before);
    out.push(' ');
    push_count(out, 21, after);
    out.push('\n');
}

/// Appends the line of how many credits a period has.
#[tactic(auto, unfolding(crate::specs::DryRuns::credits_line, crate::specs::DryRuns::figure_line))]
fn push_credits(out: &mut Draft, period: u16, before: u64, after: u64)
    ensures { out.new ≡ out.old ++ spec.credits_line period before after }
{
    push_figure_name(out, "CREDITS", u32::from(period));
    push_count(out, 21, before);
    out.push(' ');
    push_count(out, 21, after);
    out.push('\n');
}

/// How many records that the period counts a tariff prices anew, of those dated on days on which it
/// is in force.
fn priced_anew(answer: Ruled, dated: u64) -> u64
    ensures { result ≡ spec.priced_anew answer dated }
{
    match answer {
        Ruled::Done => dated,
        Ruled::Already => 0,
    }
}

/// Appends the line of the ruling: the records of the period that a tariff prices anew, those of
/// the period after the one that is open, the disputes, or the credits of the period.
#[tactic(auto, unfolding(crate::specs::DryRuns::own_line))]
fn push_own(
    out: &mut Draft,
    ruling: TriedRuling,
    answer: Ruled,
    period: u16,
    before: u64,
    after: u64,
)
    ensures { out.new ≡ out.old ++ spec.own_line ruling answer period before after }
{
    match ruling {
        TriedRuling::Tariff(_) | TriedRuling::Replace(_) => {
            push_count_line(out, "PRICED", 0, priced_anew(answer, after))
        }
        TriedRuling::Close { .. } => push_records(out, u32::from(period) + 1, before, after),
        TriedRuling::Choose(_) | TriedRuling::Withhold(_) | TriedRuling::Adopt => {
            push_count_line(out, "DISPUTES", before, after)
        }
        TriedRuling::Credit { .. } => push_credits(out, period, before, after),
    }
}

/// Appends the lines of figures.
fn push_figures(
    out: &mut Draft,
    ruling: TriedRuling,
    answer: Ruled,
    period: u16,
    before: &Figures,
    after: &Figures,
)
    ensures { out.new ≡ out.old ++ spec.figure_lines ruling answer period before.now after.now }
{
    push_figure(out, "", "BEFORE", "AFTER");
    push_statement(out, period, before, after);
    push_adjustments(out, period, before, after);
    push_records(out, u32::from(period), before.records, after.records);
    push_own(out, ruling, answer, period, before.own, after.own);
}

/// A dry run of a ruling: its answer, and the figures of the period that was open, by its number,
/// before the ruling and after it.
pub fn dry_run_text(
    alloc: Global,
    ruling: TriedRuling,
    answer: Ruled,
    period: u16,
    before: &Figures,
    after: &Figures,
) -> Result<String, AllocError>
    requires { NamesDay ruling }
    ensures { IfOk result (λ text. string_bytes text
        ≡ spec.dry_run_text ruling answer period before.now after.now) }
{
    let mut out = Draft::new(alloc);
    push_head(&mut out, &ruling, answer);
    push_figures(&mut out, ruling, answer, period, before, after);
    out.finish()
}
