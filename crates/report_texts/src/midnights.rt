//! Midnights: the moments at which days begin, and at which the days before them have ended.

ghost use Rattle.std.specs.Prelude.{◌≡◌, [], ◌∷◌, ◌++◌};
ghost use Rattle.report_texts.specs.Midnights as spec;
ghost use Rattle.report_texts.specs.Midnights.{IsMidnight};

use smf_text::LAST_DAY;
use text_drafts::{Draft, RowDraft};

/// Appends the date of a day that begins.
#[tactic(auto, unfolding(crate::specs::Midnights::midnight_date))]
fn push_date(out: &mut Draft, day: i32)
    requires { IsMidnight day }
    ensures { out.new ≡ out.old ++ spec.midnight_date day }
{
    if LAST_DAY < day {
        out.push_str("2100-01-01");
    } else {
        out.push_day(day);
    }
}

/// Appends the moment at which a day begins.
#[tactic(auto, unfolding(crate::specs::Midnights::midnight_text))]
fn push_midnight(out: &mut Draft, day: i32)
    requires { IsMidnight day }
    ensures { out.new ≡ out.old ++ spec.midnight_text day }
{
    push_date(out, day);
    out.push_str("T00:00:00Z");
}

/// Adds the moment at which a day begins.
pub(crate) fn add_midnight(row: &mut RowDraft, day: i32)
    requires { IsMidnight day }
    ensures { row.new ≡ row.old ++ spec.midnight_text day ∷ [] }
{
    let mut text = Draft::new(row.alloc());
    push_midnight(&mut text, day);
    row.add_draft(&text);
}
