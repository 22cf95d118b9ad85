//! How reports name a period.

ghost use Rattle.std.specs.Prelude.{◌≡◌, ◌++◌};
ghost use Rattle.std.specs.Option.{ForSome};
ghost use Rattle.book_model.specs.Words.{IsDay};
ghost use Rattle.report_texts.specs.Periods.{head_text, title_end, title_line};

use text_drafts::Draft;

/// Appends the head of a period: whether it is open, or the day that it was closed through.
#[tactic(auto, unfolding(crate::specs::Periods::head_text))]
pub fn push_head(out: &mut Draft, through: Option<i32>)
    requires { ForSome through IsDay }
    ensures { out.new ≡ out.old ++ head_text through }
{
    match through {
        None => out.push_str("OPEN"),
        Some(day) => {
            out.push_str("CLOSED THROUGH ");
            out.push_day(day);
        }
    }
}

/// Appends what comes after a report's name in its first line.
#[tactic(auto, unfolding(crate::specs::Periods::title_end))]
pub(crate) fn push_title_end(out: &mut Draft, period: u16, through: Option<i32>)
    requires { ForSome through IsDay }
    ensures { out.new ≡ out.old ++ title_end period through }
{
    out.push_str(" PERIOD ");
    out.push_number(u64::from(period));
    out.push(' ');
    push_head(out, through);
    out.push('\n');
}

/// Appends the first line of a report on a period.
#[tactic(auto, unfolding(crate::specs::Periods::title_line, crate::specs::Periods::title_end))]
pub fn push_title(out: &mut Draft, report: &str, period: u16, through: Option<i32>)
    requires { ForSome through IsDay }
    ensures { out.new ≡ out.old ++ title_line report.now period through }
{
    out.push_str(report);
    push_title_end(out, period, through);
}
