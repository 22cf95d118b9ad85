//! A sheet as a text.

ghost use Rattle.std.specs.Prelude.{◌≡◌, ◌++◌, flat_map};
ghost use Rattle.csv.specs.Records.{fields_of};
ghost use Rattle.report_texts.specs.Columns.{left_aligned};
ghost use Rattle.bill_texts.specs.SheetTexts as spec;
ghost use Rattle.bill_texts.specs.Sheets.{part_shown, parts_shown, sheet_shown};
ghost use Rattle.bill_texts.specs.Sheets as sheets;

use crate::column::{Column, columns_of};
use crate::part::{CentreParts, Layout, Part, PartName, Sheet};
use csv::StringRecord;
use report_texts::{push_blanks, push_right_aligned};
use text_drafts::{Draft, RowDraft};

/// The text at a place of a row, none where the row ends before.
#[tactic(auto, unfolding(crate::specs::Sheets::text_at))]
pub fn text_at(fields: &StringRecord, place: usize) -> &str
    ensures { result.now ≡ sheets.text_at (fields_of fields.now) place }
{
    match fields.get(place) {
        Some(text) => text,
        None => "",
    }
}

/// Appends a text at the left of a column.
fn push_left(out: &mut Draft, width: usize, text: &str)
    ensures { out.new ≡ out.old ++ left_aligned width text.now }
{
    out.push_str(text);
    push_blanks(out, width.saturating_sub(text.len()));
}

/// Appends words on a line of their own, if there are some.
#[tactic(auto, unfolding(crate::specs::SheetTexts::below_text))]
fn push_below(out: &mut Draft, text: &str)
    ensures { out.new ≡ out.old ++ spec.below_text text.now }
{
    if 0 < text.len() {
        out.push_str("\n  ");
        out.push_str(text);
    }
}

/// Appends what stands in a column.
#[tactic(auto, unfolding(crate::specs::SheetTexts::column_text))]
fn push_column(out: &mut Draft, row: &StringRecord, column: &Column)
    ensures { out.new ≡ out.old ++ spec.column_text (fields_of row.now) column.now }
{
    match *column {
        Column::First(place, width) => push_left(out, width, text_at(row, place)),
        Column::Word(place, width) => {
            out.push(' ');
            push_left(out, width, text_at(row, place));
        }
        Column::Number(place, width) => {
            out.push(' ');
            push_right_aligned(out, width, text_at(row, place));
        }
        Column::Figure(place, width) => {
            out.push(' ');
            push_right_aligned(out, width, text_at(row, place));
        }
        Column::Below(place) => push_below(out, text_at(row, place)),
    }
}

/// Appends what stands in some columns.
#[tactic(auto, using(std::proofs::lemmas::List::flat_map_more))]
fn push_columns(out: &mut Draft, row: &StringRecord, columns: &[Column])
    ensures { out.new ≡ out.old ++ flat_map (spec.column_text (fields_of row.now)) columns.now }
{
    for column in columns {
        push_column(out, row, column);
    }
}

/// Appends the line of a row.
#[tactic(auto, unfolding(crate::specs::SheetTexts::row_text))]
fn push_row(out: &mut Draft, layout: Layout, row: &RowDraft)
    ensures { out.new ≡ out.old ++ spec.row_text layout row.now }
{
    match row.whole() {
        Some(fields) => {
            push_columns(out, fields, columns_of(layout));
            out.push('\n');
        }
        None => out.leave_out(&(layout, row)),
    }
}

/// Appends the lines of rows.
#[tactic(auto, using(std::proofs::lemmas::List::flat_map_more))]
fn push_rows(out: &mut Draft, layout: Layout, rows: &[RowDraft])
    ensures { out.new ≡ out.old ++ flat_map (spec.row_text layout) rows.now }
{
    for row in rows {
        push_row(out, layout, row);
    }
}

/// Appends the line of sums, where there is one.
#[tactic(auto, unfolding(crate::specs::SheetTexts::total_text))]
fn push_total(out: &mut Draft, layout: Layout, total: &Option<RowDraft>)
    ensures { out.new ≡ out.old ++ spec.total_text layout total.now }
{
    match total {
        None => {}
        Some(row) => push_row(out, layout, row),
    }
}

/// Appends the title of a part, and the word above its days.
#[tactic(auto, unfolding(crate::specs::SheetTexts::title))]
fn push_title(out: &mut Draft, name: PartName)
    ensures { out.new ≡ out.old ++ spec.title name }
{
    match name {
        PartName::Sums => {}
        PartName::Prices => out.push_str("PRICES\n"),
        PartName::Percents => out.push_str("PERCENTS\n"),
        PartName::StepsByShift => out.push_str("STEPS BY SHIFT\nTARIFF     "),
        PartName::JobsByShift => out.push_str("JOBS BY SHIFT\nTARIFF     "),
        PartName::StepsByDay => out.push_str("STEPS BY DAY\nDAY        "),
        PartName::JobsByDay => out.push_str("JOBS BY DAY\nDAY        "),
        PartName::Late => out.push_str("LATE\n"),
        PartName::Reversed => out.push_str("REVERSED\n"),
        PartName::Credits => out.push_str("CREDITS\n"),
    }
}

/// Appends two texts.
fn push_both(out: &mut Draft, first: &str, second: &str)
    ensures { out.new ≡ out.old ++ (first.now ++ second.now) }
{
    out.push_str(first);
    out.push_str(second);
}

/// Appends the words above the columns of work.
fn push_work_heading(out: &mut Draft, work: &str)
    ensures { out.new ≡ out.old ++ spec.work_heading work.now }
{
    out.push_str("SHIFT            PERCENT      COUNT");
    out.push_str(work);
    out.push_str("                AMOUNT\n");
}

/// Appends the words above the columns.
#[tactic(auto, unfolding(crate::specs::SheetTexts::heading))]
fn push_heading(out: &mut Draft, layout: Layout)
    ensures { out.new ≡ out.old ++ spec.heading layout }
{
    match layout {
        Layout::Sums => push_both(
            out,
            "CENTRE                 CHARGED          LATE      REVERSED",
            "          OWED        BOOKED\n",
        ),
        Layout::CreditedSums => push_both(
            out,
            "CENTRE                 CHARGED          LATE      REVERSED",
            "       CREDITS          OWED        BOOKED\n",
        ),
        Layout::Prices => push_both(
            out,
            "TARIFF     OF A                         RECORD             CPU",
            "     1000 BLOCKS\n",
        ),
        Layout::Percents => out.push_str("TARIFF     SHIFT            PERCENT\n"),
        Layout::Work => push_work_heading(out, "             CPU          BLOCKS"),
        Layout::Counts => push_work_heading(out, "                                "),
        Layout::Records => push_both(
            out,
            "DAY        SHIFT            JOB      PROGRAM  JOBID     STEP PERIOD",
            "                           AMOUNT\n",
        ),
        Layout::Credits => push_both(
            out,
            "REASON                                                            ",
            "                            AMOUNT\n",
        ),
    }
}

/// Appends all lines of a part.
#[tactic(auto, unfolding(crate::specs::SheetTexts::part_lines))]
fn push_part_lines(out: &mut Draft, part: &Part)
    ensures { out.new ≡ out.old ++ spec.part_lines (part_shown part.now) }
{
    push_title(out, part.name);
    push_heading(out, part.layout);
    push_rows(out, part.layout, &part.rows);
    push_total(out, part.layout, &part.total);
}

/// Appends a part, if it has rows.
#[tactic(auto, unfolding(crate::specs::SheetTexts::part_text))]
fn push_part(out: &mut Draft, part: &Part)
    ensures { out.new ≡ out.old ++ spec.part_text (part_shown part.now) }
{
    if 0 < part.rows.len() {
        push_part_lines(out, part);
    }
}

/// Appends the sums of a sheet.
pub(crate) fn push_sums(out: &mut Draft, sheet: &Sheet)
    ensures { out.new ≡ out.old ++ spec.part_lines (sheet_shown sheet.now).sums }
{
    push_part_lines(out, &sheet.sums);
}

/// Appends the prices and the percents.
#[tactic(auto, unfolding(crate::specs::SheetTexts::terms_text))]
pub(crate) fn push_terms(out: &mut Draft, sheet: &Sheet)
    ensures { out.new ≡ out.old ++ spec.terms_text (sheet_shown sheet.now) }
{
    push_part(out, &sheet.prices);
    push_part(out, &sheet.percents);
}

/// Appends what the sums of a centre are made of.
#[tactic(auto, unfolding(crate::specs::SheetTexts::parts_text))]
pub(crate) fn push_parts(out: &mut Draft, parts: &CentreParts)
    ensures { out.new ≡ out.old ++ spec.parts_text (parts_shown parts.now) }
{
    push_part(out, &parts.steps_by_shift);
    push_part(out, &parts.jobs_by_shift);
    push_part(out, &parts.steps_by_day);
    push_part(out, &parts.jobs_by_day);
    push_part(out, &parts.late);
    push_part(out, &parts.reversed);
    push_part(out, &parts.credits);
}
