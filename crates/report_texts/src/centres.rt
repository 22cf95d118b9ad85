//! Reports on one centre: of what a period has, what is charged to the centre.

ghost use Rattle.std.specs.Prelude.{◌≡◌, ◌++◌, IfOk, string_bytes};
ghost use Rattle.std.specs.Option.{ForSome};
ghost use Rattle.book_model.specs.Words.{AreLines, AreRows, IsDay};
ghost use Rattle.report_texts.specs.Centres as spec;
ghost use Rattle.report_texts.specs.Periods.{title_line};

use crate::adjustment_lists::{push_lines, push_sum};
use crate::adjustment_tables::adjustment_table;
use crate::periods::push_title_end;
use crate::statement_tables::statement_table;
use crate::statements::push_row_lines;
use book_model::{ChargeRow, Line};
use smf_text::Name;
use std::alloc::{AllocError, Global};
use text_drafts::Draft;

/// Keeps the rows of the centre, in their order.
pub(crate) fn keep_rows(rows: &mut Vec<ChargeRow>, centre: Name)
    requires { AreRows rows.old.items }
    ensures kept { rows.new.items ≡ spec.rows_of_centre centre rows.old.items }
    ensures rows { AreRows rows.new.items }
{
    rows.retain(|row| row.centre == centre);
}

/// Keeps the lines of the centre, in their order.
pub fn keep_lines(lines: &mut Vec<Line>, centre: Name)
    requires { AreLines lines.old.items }
    ensures kept { lines.new.items ≡ spec.lines_of_centre centre lines.old.items }
    ensures lines { AreLines lines.new.items }
{
    lines.retain(|line| line.priced.centre == centre);
}

/// Appends the first line of a report on the centre in a period.
#[tactic(auto, unfolding(crate::specs::Centres::centre_title, crate::specs::Periods::title_line, crate::specs::Periods::title_end))]
pub fn push_centre_title(
    out: &mut Draft,
    report: &str,
    centre: Name,
    period: u16,
    through: Option<i32>,
)
    requires { ForSome through IsDay }
    ensures { out.new
        ≡ out.old ++ title_line (spec.centre_title report.now centre) period through }
{
    out.push_str(report);
    out.push_str(" CENTRE ");
    out.push_str(centre.text());
    push_title_end(out, period, through);
}

/// The statement of a centre for a period: by all charge rows of the period.
pub fn centre_statement_text(
    alloc: Global,
    centre: Name,
    period: u16,
    through: Option<i32>,
    mut rows: Vec<ChargeRow>,
) -> Result<String, AllocError>
    requires through { ForSome through IsDay }
    requires rows { AreRows rows.items }
    ensures { IfOk result (λ text.
        string_bytes text ≡ spec.centre_statement_text centre period through rows.items) }
{
    let mut out = Draft::new(alloc);
    push_centre_title(&mut out, "STATEMENT", centre, period, through);
    keep_rows(&mut rows, centre);
    push_row_lines(&mut out, &rows);
    out.finish()
}

/// The same as a table: a heading, and a row for each charge row of the centre.
pub fn centre_statement_table(
    alloc: Global,
    centre: Name,
    period: u16,
    mut rows: Vec<ChargeRow>,
) -> Result<Vec<u8>, AllocError>
    requires { AreRows rows.items }
    ensures { IfOk result (λ table.
        table.items ≡ spec.centre_statement_table centre period rows.items) }
{
    keep_rows(&mut rows, centre);
    statement_table(alloc, period, &rows)
}

/// The adjustments of a centre in a period: by all lines of the period.
pub fn centre_adjustments_text(
    alloc: Global,
    centre: Name,
    period: u16,
    through: Option<i32>,
    mut lines: Vec<Line>,
) -> Result<String, AllocError>
    requires through { ForSome through IsDay }
    requires lines { AreLines lines.items }
    ensures { IfOk result (λ text.
        string_bytes text ≡ spec.centre_adjustments_text centre period through lines.items) }
{
    let mut out = Draft::new(alloc);
    push_centre_title(&mut out, "ADJUSTMENTS", centre, period, through);
    keep_lines(&mut lines, centre);
    push_lines(&mut out, &lines);
    push_sum(&mut out, &lines);
    out.finish()
}

/// The same as a table: a heading, and a row for each line of the centre.
pub fn centre_adjustment_table(
    alloc: Global,
    centre: Name,
    period: u16,
    mut lines: Vec<Line>,
) -> Result<Vec<u8>, AllocError>
    requires { AreLines lines.items }
    ensures { IfOk result (λ table.
        table.items ≡ spec.centre_adjustment_table centre period lines.items) }
{
    keep_lines(&mut lines, centre);
    adjustment_table(alloc, period, &lines)
}
