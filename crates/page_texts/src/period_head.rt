//! The head of a period's page, and its foot with the links.

ghost use Rattle.std.specs.Prelude.{◌≡◌, ◌++◌, flat_map, map, option_map, string_bytes};
ghost use Rattle.std.specs.Option.{ForSome};
ghost use Rattle.book_model.specs.Words.{IsDay};
ghost use Rattle.page_texts.specs.Figures.{figures_seen};
ghost use Rattle.page_texts.specs.PeriodHead as spec;

use crate::amounts::{push_head, push_money};
use crate::figures::{PeriodFigures, has_credits, push_credits, push_owed};
use crate::letterheads::push_office_name;
use coverage_texts::{CoverageRow, count_gaps};
use std::alloc::Global;
use tariff_rules::Letterhead;
use text_drafts::Draft;

/// Whose page it is.
#[derive(Clone, Copy)]
pub struct PeriodHead<'a> {
    /// The number of the period.
    pub number: u16,
    /// What the last of its tariffs says of the office.
    pub letterhead: &'a Letterhead,
}

/// The title.
#[tactic(auto, unfolding(crate::specs::PeriodHead::period_title))]
pub(crate) fn period_title(alloc: Global, period: u16) -> Draft
    ensures { result ≡ spec.period_title period }
{
    let mut title = Draft::new(alloc);
    title.push_str("Period ");
    title.push_number(u64::from(period));
    title
}

/// Appends a sum of credits.
fn push_credits_sum(out: &mut Draft, figures: &PeriodFigures)
    ensures { out.new ≡ out.old ++ spec.credits_sum (figures_seen figures.now) }
{
    out.push_str("<div><dt>Credits</dt><dd>");
    push_credits(out, figures);
    out.push_str("</dd></div>\n");
}

/// Appends it where the period has credits.
#[tactic(auto, unfolding(crate::specs::PeriodHead::credits_figure))]
fn push_credits_figure(out: &mut Draft, figures: &PeriodFigures)
    ensures { out.new ≡ out.old ++ spec.credits_figure (figures_seen figures.now) }
{
    if has_credits(figures) {
        push_credits_sum(out, figures);
    }
}

/// Appends the sums of the period.
fn push_period_sums(out: &mut Draft, figures: &PeriodFigures)
    ensures { out.new ≡ out.old ++ spec.period_sums (figures_seen figures.now) }
{
    out.push_str("<dl>\n<div><dt>Charged</dt><dd>");
    push_money(out, figures.charged);
    out.push_str("</dd></div>\n<div><dt>Added</dt><dd>");
    push_money(out, figures.added);
    out.push_str("</dd></div>\n<div><dt>Reversed</dt><dd>");
    push_money(out, figures.reversed);
    out.push_str("</dd></div>\n");
    push_credits_figure(out, figures);
    out.push_str("<div><dt>Owed</dt><dd>");
    push_owed(out, figures);
    out.push_str("</dd></div>\n");
}

/// Appends what stands above the parts of the page: the office's name, under its title whether the
/// period is open, and its sums.
pub(crate) fn push_period_head(
    out: &mut Draft,
    office: &Option<String>,
    title: &Draft,
    through: Option<i32>,
    figures: &PeriodFigures,
)
    requires { ForSome through IsDay }
    ensures { out.new ≡ out.old
        ++ spec.period_head (option_map (λ text. string_bytes text) office.now) title.now through
        (figures_seen figures.now) }
{
    out.push_str("<header>\n<p><a href='/'>");
    push_office_name(out, "Office", office);
    out.push_str("</a></p>\n<h1>");
    out.push_draft(title);
    out.push_str("</h1>\n<p>");
    push_head(out, through);
    out.push_str("</p>\n</header>\n");
    push_period_sums(out, figures);
}

/// Appends how many gaps a coverage has, where anything is counted.
#[tactic(auto, unfolding(crate::specs::PeriodHead::gaps_text))]
fn push_gaps(out: &mut Draft, coverage: &[CoverageRow])
    ensures { out.new ≡ out.old ++ spec.gaps_text coverage.now }
{
    if coverage.is_empty() {
        out.push_str("No records");
    } else {
        out.push_number(count_gaps(coverage) as u64);
    }
}

/// Appends what stands below the sums: the gaps.
pub(crate) fn push_gaps_figure(out: &mut Draft, coverage: &[CoverageRow])
    ensures { out.new ≡ out.old ++ spec.gaps_figure coverage.now }
{
    out.push_str("<div><dt>Gaps</dt><dd>");
    push_gaps(out, coverage);
    out.push_str("</dd></div>\n</dl>\n");
}

/// Appends a link to a report on a period, by the report's path.
#[tactic(auto, unfolding(crate::specs::PeriodHead::report_link))]
fn push_link(out: &mut Draft, period: u16, path: &str)
    ensures { out.new ≡ out.old ++ spec.report_link period path.now }
{
    out.push_str("<a href='/");
    out.push_str(path);
    out.push_str("/");
    out.push_number(u64::from(period));
    out.push_str("'>");
    out.push_str(path);
    out.push_str("</a>\n");
}

/// Appends links to reports on a period.
#[tactic(auto, using(std::proofs::lemmas::List::flat_map_more))]
fn push_links(out: &mut Draft, period: u16, paths: &[&str])
    ensures { out.new ≡ out.old
        ++ flat_map (spec.report_link period) (map (λ path. path.now) paths.now) }
{
    for path in paths {
        push_link(out, period, path);
    }
}

/// Appends the links to the reports on a period and back, and the end of the page.
#[tactic(auto, unfolding(crate::specs::PeriodHead::period_foot))]
pub(crate) fn push_period_foot(out: &mut Draft, period: u16)
    ensures { out.new ≡ out.old ++ spec.period_foot period }
{
    let paths: [&str; 11] = [
        "bill",
        "bill-csv",
        "statement",
        "statement-csv",
        "adjustments",
        "adjustments-csv",
        "details",
        "details-csv",
        "focus",
        "coverage",
        "coverage-csv",
    ];
    out.push_str("<nav aria-label='Texts'>\n<a href='/'>office</a>\n");
    push_links(out, period, &paths);
    out.push_str("</nav>\n</main>\n</body>\n</html>\n");
}
