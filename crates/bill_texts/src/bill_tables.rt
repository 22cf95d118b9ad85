//! Bills as tables of comma-separated values.

ghost use Rattle.std.specs.Prelude.{◌≡◌, [], ◌∷◌, ◌++◌, All, IfOk, flat_map, map};
ghost use Rattle.book_model.specs.Words.{AreRows, IsDay, bill_shown, credit_shown, day_text_of};
ghost use Rattle.report_texts.specs.Charges.{FitCharges, IsBill};
ghost use Rattle.report_texts.specs.Tables.{fields_line};
ghost use Rattle.bill_texts.specs.BillTables as spec;

use crate::booking::push_booked_by_centre;
use crate::work_rows::{add_blocks, add_cpu, jobs_have_work, percent_on};
use book_model::{Bill, BilledLine, BilledShift, BilledTariff, ChargeRow, Credit, Line};
use report_texts::{
    CentreCharges, Charges, add_amount, add_day, add_key, add_name, add_number, add_number_or_dash,
    add_row, add_shown, add_signed, office_charges, plain_credit, push_credits, push_difference,
    push_owed, word_of,
};
use smf_text::Name;
use std::alloc::{AllocError, Global};
use tariff_rules::Rates;
use text_drafts::{Draft, RowDraft, TableDraft};

/// Adds the names of the columns of a centre's bill.
fn add_heading(table: &mut TableDraft)
    ensures { table.new ≡ table.old ++ fields_line spec.bill_heading }
{
    let names: [&[u8]; 16] = [
        b"period",
        b"day",
        b"centre",
        b"shift",
        b"kind",
        b"count",
        b"cpu",
        b"blocks",
        b"amount",
        b"of_period",
        b"name",
        b"job",
        b"program",
        b"jobid",
        b"step",
        b"percent",
    ];
    table.add_texts(&names);
}

/// Adds three fields that stay empty.
fn add_blanks(fields: &mut RowDraft)
    ensures { fields.new ≡ fields.old ++ [] ∷ [] ∷ [] ∷ [] }
{
    fields.add_str("");
    fields.add_str("");
    fields.add_str("");
}

/// Adds where a row of work is charged.
#[tactic(auto, unfolding(crate::specs::BillTables::row_key_fields))]
fn add_place(fields: &mut RowDraft, row: &ChargeRow)
    requires { IsDay row.now.day }
    ensures { fields.new ≡ fields.old ++ spec.row_key_fields row.now }
{
    add_day(fields, row.day);
    fields.add_str(row.centre.text());
    fields.add_str(row.shift.text());
}

/// Adds what a row of work is and how much, what it costs, and its percent.
#[tactic(auto, unfolding(crate::specs::BillTables::work_fields))]
fn add_work(fields: &mut RowDraft, kind: &str, has_work: bool, percent: u16, row: &ChargeRow)
    ensures { fields.new ≡ fields.old ++ spec.work_fields kind.now has_work percent row.now }
{
    fields.add_str(kind);
    add_number(fields, row.count);
    add_cpu(fields, has_work, row.cpu);
    add_blocks(fields, has_work, row.blocks);
    add_amount(fields, row.amount);
    add_blanks(fields);
    add_blanks(fields);
    add_number(fields, u64::from(percent));
}

/// Adds the row of a row of work.
#[tactic(auto, unfolding(crate::specs::BillTables::work_row))]
fn add_work_row(
    table: &mut TableDraft,
    period: u16,
    kind: &str,
    has_work: bool,
    shifts: &[BilledShift],
    row: &ChargeRow,
)
    requires { IsDay row.now.day }
    ensures { table.new ≡ table.old ++ spec.work_row period kind.now has_work shifts.now row.now }
{
    let mut fields = RowDraft::new(table.alloc());
    add_number(&mut fields, u64::from(period));
    add_place(&mut fields, row);
    let percent = percent_on(shifts, row.day, row.shift);
    add_work(&mut fields, kind, has_work, percent, row);
    add_row(table, &fields);
}

/// Adds the rows of steps, or of jobs.
#[tactic(auto, using(std::proofs::lemmas::List::flat_map_more))]
fn add_all_work(
    table: &mut TableDraft,
    period: u16,
    kind: &str,
    has_work: bool,
    shifts: &[BilledShift],
    rows: &[ChargeRow],
)
    requires { AreRows rows.now }
    ensures { table.new ≡ table.old
        ++ flat_map (spec.work_row period kind.now has_work shifts.now) rows.now }
{
    for row in rows {
        add_work_row(table, period, kind, has_work, shifts, row);
    }
}

/// Adds what a line does, and its amount.
#[tactic(auto, unfolding(crate::specs::BillTables::line_fields))]
fn add_side(fields: &mut RowDraft, line: &Line)
    ensures { fields.new ≡ fields.old ++ spec.line_fields line.now }
{
    fields.add_str(word_of(line));
    add_blanks(fields);
    add_signed(fields, line);
}

/// Adds which record a line is of.
#[tactic(auto, unfolding(crate::specs::BillTables::record_fields))]
fn add_record(fields: &mut RowDraft, billed: &BilledLine)
    ensures { fields.new ≡ fields.old ++ spec.record_fields billed.now }
{
    let line = &billed.line;
    add_number_or_dash(fields, billed.period);
    add_name(fields, &line.name);
    add_shown(fields, &line.job);
    add_shown(fields, &line.program);
    add_shown(fields, &line.job_id);
    add_number_or_dash(fields, line.step);
}

/// Adds all of these. A line has no percent.
#[tactic(auto, unfolding(crate::specs::BillTables::billed_fields))]
fn add_line(fields: &mut RowDraft, billed: &BilledLine)
    ensures { fields.new ≡ fields.old ++ spec.billed_fields billed.now }
{
    add_side(fields, &billed.line);
    add_record(fields, billed);
    fields.add_str("");
}

/// Adds the row of a line.
#[tactic(auto, unfolding(crate::specs::BillTables::billed_row))]
fn add_billed(table: &mut TableDraft, period: u16, billed: &BilledLine)
    requires { IsDay billed.now.line.priced.day }
    ensures { table.new ≡ table.old ++ spec.billed_row period billed.now }
{
    let mut fields = RowDraft::new(table.alloc());
    add_number(&mut fields, u64::from(period));
    add_key(&mut fields, &billed.line.priced);
    add_line(&mut fields, billed);
    add_row(table, &fields);
}

/// Adds the rows of lines.
#[tactic(auto, using(std::proofs::lemmas::List::flat_map_more))]
fn add_lines(table: &mut TableDraft, period: u16, billed: &[BilledLine])
    requires { All (λ one. IsDay one.line.priced.day) billed.now }
    ensures { table.new ≡ table.old ++ flat_map (spec.billed_row period) billed.now }
{
    for one in billed {
        add_billed(table, period, one);
    }
}

/// Adds what a credit comes to, with its reason.
#[tactic(auto, unfolding(crate::specs::BillTables::given_fields))]
fn add_given(fields: &mut RowDraft, credit: &Credit)
    ensures { fields.new ≡ fields.old ++ spec.given_fields (credit_shown credit.now) }
{
    let plain = plain_credit(credit);
    let mut amount = Draft::new(fields.alloc());
    push_difference(&mut amount, plain.debited, plain.credited);
    fields.add_draft(&amount);
    fields.add_str("");
    fields.add_str("");
    fields.add_str(credit.reason.as_str());
    add_blanks(fields);
    fields.add_str("");
}

/// Adds the row of a credit.
#[tactic(auto, unfolding(crate::specs::BillTables::credit_row))]
fn add_credit(table: &mut TableDraft, period: u16, credit: &Credit)
    ensures { table.new ≡ table.old ++ spec.credit_row period (credit_shown credit.now) }
{
    let mut fields = RowDraft::new(table.alloc());
    add_number(&mut fields, u64::from(period));
    fields.add_str("");
    fields.add_str(credit.centre.text());
    fields.add_str("");
    fields.add_str("CREDIT");
    add_blanks(&mut fields);
    add_given(&mut fields, credit);
    add_row(table, &fields);
}

/// Adds the rows of credits.
#[tactic(auto, using(std::proofs::lemmas::List::flat_map_more))]
fn add_credits(table: &mut TableDraft, period: u16, credits: &[Credit])
    ensures { table.new
        ≡ table.old ++ flat_map (spec.credit_row period) (map credit_shown credits.now) }
{
    for credit in credits {
        add_credit(table, period, credit);
    }
}

/// Adds the row of some prices.
#[tactic(auto, unfolding(crate::specs::BillTables::price_row))]
fn add_prices(table: &mut TableDraft, period: u16, centre: Name, day: i32, kind: &str, rates: Rates)
    requires { IsDay day }
    ensures { table.new
        ≡ table.old ++ spec.price_row period centre (day_text_of day) kind.now rates }
{
    let mut fields = RowDraft::new(table.alloc());
    add_number(&mut fields, u64::from(period));
    add_day(&mut fields, day);
    fields.add_str(centre.text());
    fields.add_str("");
    fields.add_str(kind);
    add_amount(&mut fields, rates.record_fee());
    add_amount(&mut fields, rates.cpu());
    add_amount(&mut fields, rates.excp());
    add_blanks(&mut fields);
    add_blanks(&mut fields);
    fields.add_str("");
    fields.add_str("");
    add_row(table, &fields);
}

/// Adds a percent. It has nothing else.
#[tactic(auto, unfolding(crate::specs::BillTables::percent_fields))]
fn add_percent(fields: &mut RowDraft, percent: u16)
    ensures { fields.new ≡ fields.old ++ spec.percent_fields percent }
{
    fields.add_str("PERCENT");
    add_blanks(fields);
    add_blanks(fields);
    add_blanks(fields);
    fields.add_str("");
    add_number(fields, u64::from(percent));
}

/// Adds the row of a shift's percent.
#[tactic(auto, unfolding(crate::specs::BillTables::percent_row))]
fn add_percent_row(table: &mut TableDraft, period: u16, centre: Name, shift: &BilledShift)
    requires { IsDay shift.now.day }
    ensures { table.new ≡ table.old ++ spec.percent_row period centre shift.now }
{
    let mut fields = RowDraft::new(table.alloc());
    add_number(&mut fields, u64::from(period));
    add_day(&mut fields, shift.day);
    fields.add_str(centre.text());
    fields.add_str(shift.shift.text());
    add_percent(&mut fields, shift.percent);
    add_row(table, &fields);
}

/// Adds it, where it is a shift of the tariff that begins on a day.
#[tactic(auto, unfolding(crate::specs::BillTables::percent_rows))]
fn add_percent_of(table: &mut TableDraft, period: u16, centre: Name, day: i32, shift: &BilledShift)
    requires { IsDay shift.now.day }
    ensures { table.new ≡ table.old ++ spec.percent_rows period centre day shift.now }
{
    if shift.day == day {
        add_percent_row(table, period, centre, shift);
    }
}

/// Adds the rows of the percents of the tariff that begins on a day.
#[tactic(auto, using(std::proofs::lemmas::List::flat_map_more))]
fn add_percents(table: &mut TableDraft, period: u16, centre: Name, day: i32, shifts: &[BilledShift])
    requires { All (λ shift. IsDay shift.day) shifts.now }
    ensures { table.new
        ≡ table.old ++ flat_map (spec.percent_rows period centre day) shifts.now }
{
    for shift in shifts {
        add_percent_of(table, period, centre, day, shift);
    }
}

/// Adds the rows of a tariff: its prices, and its percents.
#[tactic(auto, unfolding(crate::specs::BillTables::tariff_rows))]
fn add_tariff(
    table: &mut TableDraft,
    period: u16,
    centre: Name,
    shifts: &[BilledShift],
    tariff: &BilledTariff,
)
    requires tariff { IsDay tariff.now.day }
    requires shifts { All (λ shift. IsDay shift.day) shifts.now }
    ensures { table.new ≡ table.old ++ spec.tariff_rows period centre shifts.now tariff.now }
{
    add_prices(table, period, centre, tariff.day, "STEP-PRICE", tariff.step);
    add_prices(table, period, centre, tariff.day, "JOB-PRICE", tariff.job);
    add_percents(table, period, centre, tariff.day, shifts);
}

/// Adds the rows of tariffs.
#[tactic(auto, using(std::proofs::lemmas::List::flat_map_more))]
fn add_tariffs(
    table: &mut TableDraft,
    period: u16,
    centre: Name,
    shifts: &[BilledShift],
    tariffs: &[BilledTariff],
)
    requires tariffs { All (λ tariff. IsDay tariff.day) tariffs.now }
    requires shifts { All (λ shift. IsDay shift.day) shifts.now }
    ensures { table.new
        ≡ table.old ++ flat_map (spec.tariff_rows period centre shifts.now) tariffs.now }
{
    for tariff in tariffs {
        add_tariff(table, period, centre, shifts, tariff);
    }
}

/// The bill of a centre for a period as a table: a heading, a row for each row of steps, each row
/// of jobs, each line and each credit that the centre has in it, and rows for the prices and percents
/// of its tariffs.
pub fn bill_table(
    alloc: Global,
    centre: Name,
    period: u16,
    bill: &Bill,
) -> Result<Vec<u8>, AllocError>
    requires { IsBill (bill_shown bill.now) }
    ensures { IfOk result (λ table.
        table.items ≡ spec.bill_table centre period (bill_shown bill.now)) }
{
    let has_work = jobs_have_work(&bill.tariffs);
    let mut table = TableDraft::new(alloc);
    add_heading(&mut table);
    add_all_work(
        &mut table,
        period,
        "STEPS",
        true,
        &bill.shifts,
        &bill.work.steps,
    );
    add_all_work(
        &mut table,
        period,
        "JOBS",
        has_work,
        &bill.shifts,
        &bill.work.jobs,
    );
    add_lines(&mut table, period, &bill.lines);
    add_credits(&mut table, period, &bill.credits);
    add_tariffs(&mut table, period, centre, &bill.shifts, &bill.tariffs);
    table.finish()
}

/// Adds the names of the columns of the office's bill.
fn add_office_heading(table: &mut TableDraft)
    ensures { table.new ≡ table.old ++ fields_line spec.office_columns }
{
    let names: [&[u8]; 9] = [
        b"period",
        b"centre",
        b"steps",
        b"jobs",
        b"late",
        b"reversed",
        b"owed",
        b"booked",
        b"credits",
    ];
    table.add_texts(&names);
}

/// Adds what a centre is charged, the sum that it owes, what is booked of that, and what is credited.
#[tactic(auto, unfolding(crate::specs::BillTables::charge_fields))]
fn add_charges(fields: &mut RowDraft, decimals: u8, charges: &Charges)
    requires { FitCharges charges.now }
    ensures { fields.new ≡ fields.old ++ spec.charge_fields decimals charges.now }
{
    let mut owed = Draft::new(fields.alloc());
    push_owed(&mut owed, charges);
    let mut booked = Draft::new(fields.alloc());
    push_booked_by_centre(&mut booked, decimals, charges);
    let mut credits = Draft::new(fields.alloc());
    push_credits(&mut credits, charges);
    add_amount(fields, charges.steps);
    add_amount(fields, charges.jobs);
    add_amount(fields, charges.late);
    add_amount(fields, charges.reversed);
    fields.add_draft(&owed);
    fields.add_draft(&booked);
    fields.add_draft(&credits);
}

/// Adds the row of a centre.
#[tactic(auto, unfolding(crate::specs::BillTables::centre_row))]
fn add_centre(table: &mut TableDraft, period: u16, decimals: u8, own: &CentreCharges)
    requires { FitCharges own.now.charges }
    ensures { table.new ≡ table.old ++ spec.centre_row period decimals own.now }
{
    let mut fields = RowDraft::new(table.alloc());
    add_number(&mut fields, u64::from(period));
    fields.add_str(own.centre.text());
    add_charges(&mut fields, decimals, &own.charges);
    add_row(table, &fields);
}

/// Adds the rows of centres.
#[tactic(auto, using(std::proofs::lemmas::List::flat_map_more))]
fn add_centres(table: &mut TableDraft, period: u16, decimals: u8, each: &[CentreCharges])
    requires { All (λ one. FitCharges one.charges) each.now }
    ensures { table.new ≡ table.old ++ flat_map (spec.centre_row period decimals) each.now }
{
    for own in each {
        add_centre(table, period, decimals, own);
    }
}

/// The bill of the office for a period as a table: a heading, and a row for each centre that has a
/// row, a line or a credit in it.
pub fn office_bill_table(alloc: Global, period: u16, bill: &Bill) -> Result<Vec<u8>, AllocError>
    requires { IsBill (bill_shown bill.now) }
    ensures { IfOk result (λ table.
        table.items ≡ spec.office_bill_table period (bill_shown bill.now)) }
{
    let own = office_charges(alloc, bill)?;
    let mut table = TableDraft::new(alloc);
    add_office_heading(&mut table);
    add_centres(&mut table, period, bill.letterhead.decimals, &own.each);
    table.finish()
}
