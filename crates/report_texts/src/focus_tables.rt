//! What a period charges, as a table of cost and usage by FOCUS 1.0.

ghost use Rattle.std.specs.Prelude.{◌≡◌, [], ◌∷◌, ◌++◌, IfOk, flat_map};
ghost use Rattle.book_model.specs.Words.{AreLines, AreRows, IsDay};
ghost use Rattle.report_texts.specs.FocusTables as spec;
ghost use Rattle.report_texts.specs.FocusTables.{ChargeSeen, LineSeen};
ghost use Rattle.report_texts.specs.Midnights.{IsMidnight};
ghost use Rattle.report_texts.specs.Tables.{fields_line};

use crate::adjustment_lists::{charged_amount, push_difference, reversed_amount, word_of};
use crate::fields::{add_row, add_seconds};
use crate::midnights::add_midnight;
use book_model::{ChargeRow, Line};
use smf_text::Name;
use std::alloc::{AllocError, Global};
use text_drafts::{Draft, RowDraft, TableDraft};

/// Who bills, in which currency, and for which days.
#[derive(Clone, Copy)]
pub struct FocusHead<'a> {
    /// The office.
    pub office: &'a str,
    /// A currency by its code of ISO 4217.
    pub currency: &'a str,
    /// The day that the period begins on, in days since 1970-01-01. After a close through the last
    /// day that is known it is the day after that.
    pub begins: i32,
    /// The last day of the period.
    pub last: i32,
}

/// Adds the names of the columns.
fn add_heading(table: &mut TableDraft)
    ensures { table.new ≡ table.old ++ fields_line spec.focus_columns }
{
    let names: [&[u8]; 27] = [
        b"BillingAccountId",
        b"BillingAccountName",
        b"InvoiceIssuerName",
        b"ProviderName",
        b"PublisherName",
        b"BillingCurrency",
        b"BillingPeriodStart",
        b"BillingPeriodEnd",
        b"ServiceCategory",
        b"ServiceName",
        b"SubAccountId",
        b"SubAccountName",
        b"ChargePeriodStart",
        b"ChargePeriodEnd",
        b"ChargeCategory",
        b"ChargeClass",
        b"ChargeFrequency",
        b"ChargeDescription",
        b"ConsumedQuantity",
        b"ConsumedUnit",
        b"PricingQuantity",
        b"PricingUnit",
        b"BilledCost",
        b"EffectiveCost",
        b"ContractedCost",
        b"ListCost",
        b"Tags",
    ];
    table.add_texts(&names);
}

/// Adds who bills.
#[tactic(auto, unfolding(crate::specs::FocusTables::office_fields))]
fn add_office(fields: &mut RowDraft, office: &str)
    ensures { fields.new ≡ fields.old ++ spec.office_fields office.now }
{
    fields.add_str(office);
    fields.add_str(office);
    fields.add_str(office);
    fields.add_str(office);
    fields.add_str(office);
}

/// Adds in which currency, for which period, and what for.
#[tactic(auto, unfolding(crate::specs::FocusTables::period_fields))]
fn add_period(fields: &mut RowDraft, head: &FocusHead<'_>)
    requires begins { IsMidnight head.now.begins }
    requires last { IsDay head.now.last }
    ensures { fields.new ≡ fields.old ++ spec.period_fields (spec.head_shown head.now) }
{
    fields.add_str(head.currency);
    add_midnight(fields, head.begins);
    add_midnight(fields, head.last + 1);
    fields.add_str("Compute");
    fields.add_str("Batch processing");
}

/// Adds who is charged, for which day.
#[tactic(auto, unfolding(crate::specs::FocusTables::place_fields))]
fn add_place(fields: &mut RowDraft, centre: Name, day: i32)
    requires { IsDay day }
    ensures { fields.new ≡ fields.old ++ spec.place_fields centre day }
{
    fields.add_str(centre.text());
    fields.add_str(centre.text());
    add_midnight(fields, day);
    add_midnight(fields, day + 1);
}

/// Appends how many records a charge row sums.
#[tactic(auto, unfolding(crate::specs::FocusTables::records_text))]
fn push_records(out: &mut Draft, row: &ChargeRow)
    ensures { out.new ≡ out.old ++ spec.records_text row.now }
{
    out.push_str("Records: ");
    out.push_number(row.count);
}

/// Appends the record of a line.
#[tactic(auto, unfolding(crate::specs::FocusTables::record_text))]
fn push_record(out: &mut Draft, line: &Line)
    ensures { out.new ≡ out.old ++ spec.record_text line.now }
{
    out.push_str("Record: ");
    out.push_lower_hex(&line.name);
}

/// Adds what a charge row is for, and how much was used.
#[tactic(auto, unfolding(crate::specs::FocusTables::charge_usage))]
fn add_usage(fields: &mut RowDraft, row: &ChargeRow)
    ensures { fields.new ≡ fields.old ++ spec.charge_usage row.now }
{
    let mut about = Draft::new(fields.alloc());
    push_records(&mut about, row);
    fields.add_str("Usage");
    fields.add_str("");
    fields.add_str("Usage-Based");
    fields.add_draft(&about);
    add_seconds(fields, row.cpu);
    fields.add_str("CPU-Seconds");
    add_seconds(fields, row.cpu);
    fields.add_str("CPU-Seconds");
}

/// Adds what a line is for. How much its record used stands in no row.
#[tactic(auto, unfolding(crate::specs::FocusTables::line_usage))]
fn add_correction(fields: &mut RowDraft, line: &Line)
    ensures { fields.new ≡ fields.old ++ spec.line_usage line.now }
{
    let mut about = Draft::new(fields.alloc());
    push_record(&mut about, line);
    fields.add_str("Usage");
    fields.add_str("Correction");
    fields.add_str("Usage-Based");
    fields.add_draft(&about);
    fields.add_str("");
    fields.add_str("");
    fields.add_str("");
    fields.add_str("");
}

/// Adds what a row costs, before discounts and after them: there are none.
#[tactic(auto, unfolding(crate::specs::FocusTables::cost_fields))]
fn add_cost(fields: &mut RowDraft, charged: u64, reversed: u64)
    ensures { fields.new ≡ fields.old ++ spec.cost_fields charged reversed }
{
    let mut cost = Draft::new(fields.alloc());
    push_difference(&mut cost, charged, reversed);
    fields.add_draft(&cost);
    fields.add_draft(&cost);
    fields.add_draft(&cost);
    fields.add_draft(&cost);
}

/// Appends the shift and the kind of a row.
#[tactic(auto, unfolding(crate::specs::FocusTables::tags_text))]
fn push_tags(out: &mut Draft, shift: Name, kind: &str)
    ensures { out.new ≡ out.old ++ spec.tags_text shift kind.now }
{
    out.push_str("{\"Shift\":\"");
    out.push_str(shift.text());
    out.push_str("\",\"Line\":\"");
    out.push_str(kind);
    out.push_str("\"}");
}

/// Adds the shift and the kind of a row.
fn add_tags(fields: &mut RowDraft, shift: Name, kind: &str)
    ensures { fields.new ≡ fields.old ++ spec.tags_text shift kind.now ∷ [] }
{
    let mut tags = Draft::new(fields.alloc());
    push_tags(&mut tags, shift, kind);
    fields.add_draft(&tags);
}

/// Adds the row of a charge row.
fn add_charge(table: &mut TableDraft, head: &FocusHead<'_>, row: &ChargeRow)
    requires begins { IsMidnight head.now.begins }
    requires last { IsDay head.now.last }
    requires day { IsDay row.now.day }
    ensures { table.new
        ≡ table.old ++ spec.row_line (spec.head_shown head.now) (ChargeSeen row.now) }
{
    let mut fields = RowDraft::new(table.alloc());
    add_office(&mut fields, head.office);
    add_period(&mut fields, head);
    add_place(&mut fields, row.centre, row.day);
    add_usage(&mut fields, row);
    add_cost(&mut fields, row.amount, 0);
    add_tags(&mut fields, row.shift, "CHARGE");
    add_row(table, &fields);
}

/// Adds the row of a line.
fn add_line(table: &mut TableDraft, head: &FocusHead<'_>, line: &Line)
    requires begins { IsMidnight head.now.begins }
    requires last { IsDay head.now.last }
    requires day { IsDay line.now.priced.day }
    ensures { table.new
        ≡ table.old ++ spec.row_line (spec.head_shown head.now) (LineSeen line.now) }
{
    let mut fields = RowDraft::new(table.alloc());
    add_office(&mut fields, head.office);
    add_period(&mut fields, head);
    add_place(&mut fields, line.priced.centre, line.priced.day);
    add_correction(&mut fields, line);
    add_cost(&mut fields, charged_amount(line), reversed_amount(line));
    add_tags(&mut fields, line.priced.shift, word_of(line));
    add_row(table, &fields);
}

/// Adds the rows of charge rows.
#[tactic(auto, using(std::proofs::lemmas::List::flat_map_more))]
fn add_charges(table: &mut TableDraft, head: &FocusHead<'_>, rows: &[ChargeRow])
    requires begins { IsMidnight head.now.begins }
    requires last { IsDay head.now.last }
    requires rows { AreRows rows.now }
    ensures { table.new ≡ table.old
        ++ flat_map (λ row. spec.row_line (spec.head_shown head.now) (ChargeSeen row)) rows.now }
{
    for row in rows {
        add_charge(table, head, row);
    }
}

/// Adds the rows of lines.
#[tactic(auto, using(std::proofs::lemmas::List::flat_map_more))]
fn add_lines(table: &mut TableDraft, head: &FocusHead<'_>, lines: &[Line])
    requires begins { IsMidnight head.now.begins }
    requires last { IsDay head.now.last }
    requires lines { AreLines lines.now }
    ensures { table.new ≡ table.old
        ++ flat_map (λ line. spec.row_line (spec.head_shown head.now) (LineSeen line)) lines.now }
{
    for line in lines {
        add_line(table, head, line);
    }
}

/// Adds the rows of both.
fn add_rows(table: &mut TableDraft, head: &FocusHead<'_>, rows: &[ChargeRow], lines: &[Line])
    requires begins { IsMidnight head.now.begins }
    requires last { IsDay head.now.last }
    requires rows { AreRows rows.now }
    requires lines { AreLines lines.now }
    ensures { table.new ≡ table.old ++ flat_map (spec.row_line (spec.head_shown head.now))
        (spec.focus_rows rows.now lines.now) }
{
    add_charges(table, head, rows);
    add_lines(table, head, lines);
}

/// The table of a period: a heading, a row for each of its charge rows, and one for each of its
/// adjustment lines.
pub fn focus_table(
    alloc: Global,
    head: &FocusHead<'_>,
    rows: &[ChargeRow],
    lines: &[Line],
) -> Result<Vec<u8>, AllocError>
    requires begins { IsMidnight head.now.begins }
    requires last { IsDay head.now.last }
    requires rows { AreRows rows.now }
    requires lines { AreLines lines.now }
    ensures { IfOk result (λ table. table.items
        ≡ spec.focus_table (spec.head_shown head.now) (spec.focus_rows rows.now lines.now)) }
{
    let mut table = TableDraft::new(alloc);
    add_heading(&mut table);
    add_rows(&mut table, head, rows, lines);
    table.finish()
}
