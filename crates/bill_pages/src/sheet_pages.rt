//! A sheet on a page: of each part its title, the words above its columns, and its rows.

ghost use Rattle.std.specs.Prelude.{◌≡◌, ◌++◌, decimal, flat_map};
ghost use Rattle.csv.specs.Records.{fields_of};
ghost use Rattle.html_text.specs.Escaping.{escaped};
ghost use Rattle.bill_pages.specs.Grouped.{grouped};
ghost use Rattle.bill_pages.specs.SheetPages as spec;
ghost use Rattle.bill_texts.specs.Sheets.{part_shown, parts_shown, sheet_shown};
ghost use Rattle.bill_texts.specs.Sheets as sheets;

use crate::grouped::push_figure;
use bill_texts::{CentreParts, Column, Layout, Part, PartName, Sheet, columns_of, text_at};
use csv::StringRecord;
use html_text::push_escaped;
use text_drafts::{Draft, RowDraft};

/// Appends a cell of words.
#[tactic(auto, unfolding(crate::specs::SheetPages::cell))]
fn push_word(out: &mut Draft, text: &str)
    ensures { out.new ≡ out.old ++ spec.cell (escaped text.now) }
{
    out.push_str("<td>");
    push_escaped(out, text);
    out.push_str("</td>");
}

/// Appends a cell of a figure.
#[tactic(auto, unfolding(crate::specs::SheetPages::cell))]
fn push_number(out: &mut Draft, text: &str)
    ensures { out.new ≡ out.old ++ spec.cell (grouped text.now) }
{
    out.push_str("<td>");
    push_figure(out, text);
    out.push_str("</td>");
}

/// Appends a cell of what a page shows.
#[tactic(auto, unfolding(crate::specs::SheetPages::cell))]
fn push_shown(out: &mut Draft, shown: &Draft)
    ensures { out.new ≡ out.old ++ spec.cell shown.now }
{
    out.push_str("<td>");
    out.push_draft(shown);
    out.push_str("</td>");
}

/// Appends what stands in a column but the first.
#[tactic(auto, unfolding(crate::specs::SheetPages::column_page))]
fn push_column(out: &mut Draft, row: &StringRecord, column: &Column)
    ensures { out.new ≡ out.old ++ spec.column_page (fields_of row.now) column.now }
{
    match *column {
        Column::First(_, _) => {}
        Column::Word(place, _) => push_word(out, text_at(row, place)),
        Column::Number(place, _) => push_word(out, text_at(row, place)),
        Column::Figure(place, _) => push_number(out, text_at(row, place)),
        Column::Below(_) => {}
    }
}

/// Appends what stands in some columns.
#[tactic(auto, using(std::proofs::lemmas::List::flat_map_more))]
fn push_columns(out: &mut Draft, row: &StringRecord, columns: &[Column])
    ensures { out.new ≡ out.old ++ flat_map (spec.column_page (fields_of row.now)) columns.now }
{
    for column in columns {
        push_column(out, row, column);
    }
}

/// Appends a row, by what its first cell shows.
#[tactic(auto, unfolding(crate::specs::SheetPages::row_page))]
fn push_cells(out: &mut Draft, layout: Layout, first: &Draft, row: &StringRecord)
    ensures { out.new ≡ out.old ++ spec.row_page layout first.now (fields_of row.now) }
{
    out.push_str("<tr>");
    push_shown(out, first);
    push_columns(out, row, columns_of(layout));
    out.push_str("</tr>\n");
}

/// Appends a row whose first cell is a word.
fn push_words(out: &mut Draft, layout: Layout, row: &StringRecord)
    ensures { out.new ≡ out.old ++ spec.row_page layout
        (escaped (sheets.text_at (fields_of row.now) 0)) (fields_of row.now) }
{
    let mut first = Draft::new(out.alloc());
    push_escaped(&mut first, text_at(row, 0));
    push_cells(out, layout, &first, row);
}

/// What a price is of.
#[tactic(auto, unfolding(crate::specs::SheetPages::price_kind))]
fn push_price_kind(out: &mut Draft, word: &str)
    ensures { out.new ≡ out.old ++ spec.price_kind word.now }
{
    if word == "STEP" {
        out.push_str("Step");
    } else {
        out.push_str("Job");
    }
}

/// Appends a cell of that.
#[tactic(auto, unfolding(crate::specs::SheetPages::cell))]
fn push_price_kind_cell(out: &mut Draft, word: &str)
    ensures { out.new ≡ out.old ++ spec.cell (spec.price_kind word.now) }
{
    out.push_str("<td>");
    push_price_kind(out, word);
    out.push_str("</td>");
}

/// Appends the row of three prices.
#[tactic(auto, unfolding(crate::specs::SheetPages::price_page))]
fn push_prices(out: &mut Draft, row: &StringRecord)
    ensures { out.new ≡ out.old ++ spec.price_page (fields_of row.now) }
{
    out.push_str("<tr>");
    push_word(out, text_at(row, 0));
    push_price_kind_cell(out, text_at(row, 1));
    push_number(out, text_at(row, 2));
    push_number(out, text_at(row, 3));
    push_number(out, text_at(row, 4));
    out.push_str("</tr>\n");
}

/// Appends a record, with its name below it.
#[tactic(auto, unfolding(crate::specs::SheetPages::record_page))]
fn push_record(out: &mut Draft, row: &StringRecord)
    ensures { out.new ≡ out.old ++ spec.record_page (fields_of row.now) }
{
    out.push_str("<tbody>\n");
    push_words(out, Layout::Records, row);
    out.push_str("<tr class='name'><td colspan='8'>");
    push_escaped(out, text_at(row, 8));
    out.push_str("</td></tr>\n</tbody>\n");
}

/// Appends a link to the bill of a centre for a period.
#[tactic(auto, unfolding(crate::specs::SheetPages::centre_link))]
fn push_centre_link(out: &mut Draft, period: u16, row: &StringRecord)
    ensures { out.new ≡ out.old ++ spec.centre_link (decimal period) (fields_of row.now) }
{
    out.push_str("<a href='/bill/");
    out.push_number(u64::from(period));
    out.push_str("/");
    push_escaped(out, text_at(row, 0));
    out.push_str("'>");
    push_escaped(out, text_at(row, 0));
    out.push_str("</a>");
}

/// Appends the sums of a centre.
fn push_centre(out: &mut Draft, period: u16, layout: Layout, row: &StringRecord)
    ensures { out.new ≡ out.old ++ spec.row_page layout
        (spec.centre_link (decimal period) (fields_of row.now)) (fields_of row.now) }
{
    let mut first = Draft::new(out.alloc());
    push_centre_link(&mut first, period, row);
    push_cells(out, layout, &first, row);
}

/// Appends a row of a part, on the page of a period.
#[tactic(auto, unfolding(crate::specs::SheetPages::line_page))]
fn push_fields(out: &mut Draft, period: u16, layout: Layout, row: &StringRecord)
    ensures { out.new ≡ out.old ++ spec.line_page (decimal period) layout (fields_of row.now) }
{
    match layout {
        Layout::Sums => push_centre(out, period, Layout::Sums, row),
        Layout::CreditedSums => push_centre(out, period, Layout::CreditedSums, row),
        Layout::Prices => push_prices(out, row),
        Layout::Percents => push_words(out, Layout::Percents, row),
        Layout::Work => push_words(out, Layout::Work, row),
        Layout::Counts => push_words(out, Layout::Counts, row),
        Layout::Records => push_record(out, row),
        Layout::Credits => push_words(out, Layout::Credits, row),
    }
}

/// Appends it, if there was memory to make it.
fn push_line(out: &mut Draft, period: u16, layout: Layout, row: &RowDraft)
    ensures { out.new ≡ out.old ++ spec.line_page (decimal period) layout row.now }
{
    match row.whole() {
        Some(fields) => push_fields(out, period, layout, fields),
        None => out.leave_out(&((period, layout), row)),
    }
}

/// Appends the rows of a part.
#[tactic(auto, using(std::proofs::lemmas::List::flat_map_more))]
fn push_lines(out: &mut Draft, period: u16, layout: Layout, rows: &[RowDraft])
    ensures { out.new ≡ out.old ++ flat_map (spec.line_page (decimal period) layout) rows.now }
{
    for row in rows {
        push_line(out, period, layout, row);
    }
}

/// Appends what stands before the rows of a part.
#[tactic(auto, unfolding(crate::specs::SheetPages::body_start))]
fn push_body_start(out: &mut Draft, layout: Layout)
    ensures { out.new ≡ out.old ++ spec.body_start layout }
{
    match layout {
        Layout::Records => {}
        _ => out.push_str("<tbody>\n"),
    }
}

/// Appends what stands behind them.
#[tactic(auto, unfolding(crate::specs::SheetPages::body_end))]
fn push_body_end(out: &mut Draft, layout: Layout)
    ensures { out.new ≡ out.old ++ spec.body_end layout }
{
    match layout {
        Layout::Records => {}
        _ => out.push_str("</tbody>\n"),
    }
}

/// Appends a row of sums.
#[tactic(auto, unfolding(crate::specs::SheetPages::total_row))]
fn push_sums(out: &mut Draft, layout: Layout, row: &StringRecord)
    ensures { out.new ≡ out.old ++ spec.total_row layout (fields_of row.now) }
{
    let mut first = Draft::new(out.alloc());
    first.push_str("Total");
    out.push_str("<tfoot>\n");
    push_cells(out, layout, &first, row);
    out.push_str("</tfoot>\n");
}

/// Appends the row of sums, if there was memory to make it.
fn push_total_row(out: &mut Draft, layout: Layout, row: &RowDraft)
    ensures { out.new ≡ out.old ++ spec.total_row layout row.now }
{
    match row.whole() {
        Some(fields) => push_sums(out, layout, fields),
        None => out.leave_out(&(layout, row)),
    }
}

/// Appends it where there is one.
#[tactic(auto, unfolding(crate::specs::SheetPages::total_page))]
fn push_total(out: &mut Draft, layout: Layout, total: &Option<RowDraft>)
    ensures { out.new ≡ out.old ++ spec.total_page layout total.now }
{
    match total {
        None => {}
        Some(row) => push_total_row(out, layout, row),
    }
}

const SUMS_START: &str = "\
    <table class='rows centres'>\n<thead>\n<tr class='title'>\
    <th colspan='6' scope='colgroup'>\
";

const CREDITED_START: &str = "\
    <table class='rows centres credited'>\n<thead>\n<tr class='title'>\
    <th colspan='7' scope='colgroup'>\
";

const PRICES_START: &str = "\
    <table class='prices'>\n<thead>\n<tr class='title'>\
    <th colspan='5' scope='colgroup'>\
";

const PERCENTS_START: &str = "\
    <table class='shifts'>\n<thead>\n<tr class='title'>\
    <th colspan='3' scope='colgroup'>\
";

const WORK_START: &str = "\
    <table class='rows work'>\n<thead>\n<tr class='title'>\
    <th colspan='7' scope='colgroup'>\
";

const RECORDS_START: &str = "\
    <table class='rows records'>\n<thead>\n<tr class='title'>\
    <th colspan='8' scope='colgroup'>\
";

const CREDITS_START: &str = "\
    <table class='rows credits'>\n<thead>\n<tr class='title'>\
    <th colspan='2' scope='colgroup'>\
";

const SUMS_HEADINGS: &str = "\
    </th><th scope='col'>Charged</th><th scope='col'>Late</th>\
    <th scope='col'>Reversed</th><th scope='col'>Owed</th><th scope='col'>\
    Booked</th></tr>\n</thead>\n\
";

const CREDITED_HEADINGS: &str = "\
    </th><th scope='col'>Charged</th><th scope='col'>Late</th>\
    <th scope='col'>Reversed</th><th scope='col'>Credits</th>\
    <th scope='col'>Owed</th><th scope='col'>Booked</th></tr>\n</thead>\n\
";

const PRICES_HEADINGS: &str = "\
    </th><th scope='col'>For a</th><th scope='col'>Record</th>\
    <th scope='col'>CPU second</th><th scope='col'>1,000 blocks</th></tr>\
    \n</thead>\n\
";

const PERCENTS_HEADINGS: &str = "\
    </th><th scope='col'>Shift</th><th scope='col'>Percent</th></tr>\
    \n</thead>\n\
";

const WORK_HEADINGS: &str = "\
    </th><th scope='col'>Shift</th><th scope='col'>Percent</th>\
    <th scope='col'>Count</th><th scope='col'>CPU seconds</th>\
    <th scope='col'>Blocks</th><th scope='col'>Amount</th></tr>\n</thead>\n\
";

const COUNTS_HEADINGS: &str = "\
    </th><th scope='col'>Shift</th><th scope='col'>Percent</th>\
    <th scope='col'>Count</th><th scope='col'></th><th scope='col'></th>\
    <th scope='col'>Amount</th></tr>\n</thead>\n\
";

const RECORDS_HEADINGS: &str = "\
    </th><th scope='col'>Shift</th><th scope='col'>Job</th><th scope='col'>\
    Program</th><th scope='col'>Job id</th><th scope='col'>Step</th>\
    <th scope='col'>Of period</th><th scope='col'>Amount</th></tr>\n</thead>\n\
";

const CREDITS_HEADINGS: &str = "</th><th scope='col'>Amount</th></tr>\n</thead>\n";

/// Appends the beginning of a table.
#[tactic(auto, unfolding(crate::specs::SheetPages::table_start))]
fn push_table_start(out: &mut Draft, layout: Layout)
    ensures { out.new ≡ out.old ++ spec.table_start layout }
{
    match layout {
        Layout::Sums => out.push_str(SUMS_START),
        Layout::CreditedSums => out.push_str(CREDITED_START),
        Layout::Prices => out.push_str(PRICES_START),
        Layout::Percents => out.push_str(PERCENTS_START),
        Layout::Work => out.push_str(WORK_START),
        Layout::Counts => out.push_str(WORK_START),
        Layout::Records => out.push_str(RECORDS_START),
        Layout::Credits => out.push_str(CREDITS_START),
    }
}

/// Appends its title.
#[tactic(auto, unfolding(crate::specs::SheetPages::page_title))]
fn push_title(out: &mut Draft, name: PartName)
    ensures { out.new ≡ out.old ++ spec.page_title name }
{
    match name {
        PartName::Sums => out.push_str("Centres"),
        PartName::Prices => out.push_str("Prices"),
        PartName::Percents => out.push_str("Percents"),
        PartName::StepsByShift => out.push_str("Steps by shift"),
        PartName::JobsByShift => out.push_str("Jobs by shift"),
        PartName::StepsByDay => out.push_str("Steps by day"),
        PartName::JobsByDay => out.push_str("Jobs by day"),
        PartName::Late => out.push_str("Late"),
        PartName::Reversed => out.push_str("Reversed"),
        PartName::Credits => out.push_str("Credits"),
    }
}

/// Appends the word above its first column.
#[tactic(auto, unfolding(crate::specs::SheetPages::first_heading))]
fn push_first_heading(out: &mut Draft, name: PartName)
    ensures { out.new ≡ out.old ++ spec.first_heading name }
{
    match name {
        PartName::Sums => out.push_str("Centre"),
        PartName::Prices => out.push_str("From"),
        PartName::Percents => out.push_str("From"),
        PartName::StepsByShift => out.push_str("Tariff"),
        PartName::JobsByShift => out.push_str("Tariff"),
        PartName::StepsByDay => out.push_str("Day"),
        PartName::JobsByDay => out.push_str("Day"),
        PartName::Late => out.push_str("Day"),
        PartName::Reversed => out.push_str("Day"),
        PartName::Credits => out.push_str("Reason"),
    }
}

/// Appends the words above the others.
#[tactic(auto, unfolding(crate::specs::SheetPages::other_headings))]
fn push_other_headings(out: &mut Draft, layout: Layout)
    ensures { out.new ≡ out.old ++ spec.other_headings layout }
{
    match layout {
        Layout::Sums => out.push_str(SUMS_HEADINGS),
        Layout::CreditedSums => out.push_str(CREDITED_HEADINGS),
        Layout::Prices => out.push_str(PRICES_HEADINGS),
        Layout::Percents => out.push_str(PERCENTS_HEADINGS),
        Layout::Work => out.push_str(WORK_HEADINGS),
        Layout::Counts => out.push_str(COUNTS_HEADINGS),
        Layout::Records => out.push_str(RECORDS_HEADINGS),
        Layout::Credits => out.push_str(CREDITS_HEADINGS),
    }
}

/// Appends all that stands above the rows of a part.
#[tactic(auto, unfolding(crate::specs::SheetPages::part_head))]
fn push_part_head(out: &mut Draft, part: &Part)
    ensures { out.new ≡ out.old ++ spec.part_head (part_shown part.now) }
{
    push_table_start(out, part.layout);
    push_title(out, part.name);
    out.push_str("</th></tr>\n<tr><th scope='col'>");
    push_first_heading(out, part.name);
    push_other_headings(out, part.layout);
}

/// Appends a part, on the page of a period.
#[tactic(auto, unfolding(crate::specs::SheetPages::part_lines))]
pub(crate) fn push_part_lines(out: &mut Draft, period: u16, part: &Part)
    ensures { out.new ≡ out.old ++ spec.part_lines (decimal period) (part_shown part.now) }
{
    push_part_head(out, part);
    push_body_start(out, part.layout);
    push_lines(out, period, part.layout, &part.rows);
    push_body_end(out, part.layout);
    push_total(out, part.layout, &part.total);
    out.push_str("</table>\n");
}

/// Appends it, if it has rows.
#[tactic(auto, unfolding(crate::specs::SheetPages::part_page))]
fn push_part(out: &mut Draft, period: u16, part: &Part)
    ensures { out.new ≡ out.old ++ spec.part_page (decimal period) (part_shown part.now) }
{
    if 0 < part.rows.len() {
        push_part_lines(out, period, part);
    }
}

/// Appends the prices and the percents.
#[tactic(auto, unfolding(crate::specs::SheetPages::both_terms))]
fn push_both_terms(out: &mut Draft, period: u16, sheet: &Sheet)
    ensures { out.new ≡ out.old ++ spec.both_terms (decimal period) (sheet_shown sheet.now) }
{
    out.push_str("<div class='both'>\n");
    push_part(out, period, &sheet.prices);
    push_part(out, period, &sheet.percents);
    out.push_str("</div>\n");
}

/// Appends these, if there are prices.
#[tactic(auto, unfolding(crate::specs::SheetPages::terms_page))]
pub(crate) fn push_terms(out: &mut Draft, period: u16, sheet: &Sheet)
    ensures { out.new ≡ out.old ++ spec.terms_page (decimal period) (sheet_shown sheet.now) }
{
    if 0 < sheet.prices.rows.len() {
        push_both_terms(out, period, sheet);
    }
}

/// Appends what the sums of a centre are made of.
#[tactic(auto, unfolding(crate::specs::SheetPages::parts_page))]
pub(crate) fn push_parts(out: &mut Draft, period: u16, parts: &CentreParts)
    ensures { out.new ≡ out.old ++ spec.parts_page (decimal period) (parts_shown parts.now) }
{
    push_part(out, period, &parts.steps_by_shift);
    push_part(out, period, &parts.jobs_by_shift);
    push_part(out, period, &parts.steps_by_day);
    push_part(out, period, &parts.jobs_by_day);
    push_part(out, period, &parts.late);
    push_part(out, period, &parts.reversed);
    push_part(out, period, &parts.credits);
}
