//! Lists of details, in parts: what stands above the lines, a line, and the total. A list may have
//! millions of lines, so it is never made whole.

ghost use Rattle.std.specs.Prelude.{◌≡◌, ◌++◌, IfOk, OnOk, codes, string_bytes};
ghost use Rattle.std.specs.Option.{ForSome};
ghost use Rattle.book_model.specs.Words.{IsDay, show_text};
ghost use Rattle.report_texts.specs.Columns.{left_aligned};
ghost use Rattle.report_texts.specs.DetailLists as spec;

use crate::centres::push_centre_title;
use crate::columns::{
    push_count, push_draft, push_left, push_left_aligned, push_money, push_right_aligned,
    push_time_used,
};
use crate::moments::push_time;
use crate::periods::push_title;
use crate::statements::{push_key, push_numbers, push_place, push_work};
use book_model::Detail;
use smf_text::Name;
use std::alloc::{AllocError, Global};
use text_drafts::Draft;

/// Appends the columns that say which work it is.
#[tactic(auto, unfolding(crate::specs::DetailLists::job_columns))]
fn push_job(out: &mut Draft, time: &str, job: &str, program: &str, job_id: &str)
    ensures { out.new ≡ out.old ++ spec.job_columns time.now job.now program.now job_id.now }
{
    push_left_aligned(out, 11, time);
    push_left_aligned(out, 8, job);
    push_left_aligned(out, 8, program);
    push_left_aligned(out, 8, job_id);
}

/// Appends the columns that say where a record is charged.
#[tactic(auto, unfolding(crate::specs::DetailLists::detail_place))]
fn push_detail_place(out: &mut Draft, detail: &Detail)
    requires { IsDay detail.now.priced.day }
    ensures { out.new ≡ out.old ++ spec.detail_place detail.now }
{
    let centre = detail.priced.centre.text();
    let shift = detail.priced.shift.text();
    push_place(out, detail.priced.day, centre, shift);
}

/// Appends bytes as they are shown, in a column of 8.
fn push_shown_column(out: &mut Draft, bytes: &[u8])
    ensures { out.new ≡ out.old ++ left_aligned 8 (show_text bytes.now) ++ codes " " }
{
    let mut text = Draft::new(out.alloc());
    text.push_shown(bytes);
    push_left(out, 8, &text);
}

/// Appends the columns that say which work a record is of.
#[tactic(auto, unfolding(crate::specs::DetailLists::detail_job, crate::specs::DetailLists::job_columns))]
fn push_detail_job(out: &mut Draft, detail: &Detail)
    ensures { out.new ≡ out.old ++ spec.detail_job detail.now }
{
    let mut time = Draft::new(out.alloc());
    push_time(&mut time, detail.time);
    push_left(out, 11, &time);
    push_shown_column(out, &detail.job);
    push_shown_column(out, &detail.program);
    push_shown_column(out, &detail.job_id);
}

/// Appends the columns of a record's numbers.
#[tactic(auto, unfolding(crate::specs::DetailLists::detail_work, crate::specs::Columns::number_text))]
fn push_detail_work(out: &mut Draft, detail: &Detail)
    ensures { out.new ≡ out.old ++ spec.detail_work detail.now }
{
    match detail.step {
        None => push_right_aligned(out, 8, "-"),
        Some(step) => push_count(out, 8, u64::from(step)),
    }
    out.push(' ');
    push_time_used(out, 19, detail.priced.cpu);
    out.push(' ');
    push_count(out, 18, detail.priced.excp);
    out.push(' ');
    push_money(out, 21, detail.priced.amount);
}

/// Appends the line of a record.
#[tactic(auto, unfolding(crate::specs::DetailLists::detail_line))]
fn push_detail(out: &mut Draft, detail: &Detail)
    requires { IsDay detail.now.priced.day }
    ensures { out.new ≡ out.old ++ spec.detail_line detail.now }
{
    push_detail_place(out, detail);
    push_detail_job(out, detail);
    push_detail_work(out, detail);
    out.push(' ');
    out.push_lower_hex(&detail.name);
    out.push('\n');
}

/// Appends the line of a record to a text.
pub fn push_detail_line(alloc: Global, out: &mut String, detail: &Detail) -> Result<(), AllocError>
    requires { IsDay detail.now.priced.day }
    ensures { OnOk result (string_bytes out.new
        ≡ string_bytes out.old ++ spec.detail_line detail.now) }
{
    let mut line = Draft::new(alloc);
    push_detail(&mut line, detail);
    push_draft(out, &line)
}

/// Appends the line above the records.
#[tactic(auto, unfolding(crate::specs::DetailLists::detail_heading))]
fn push_detail_heading(out: &mut Draft)
    ensures { out.new ≡ out.old ++ spec.detail_heading }
{
    push_key(out, "DAY", "CENTRE", "SHIFT");
    push_job(out, "TIME", "JOB", "PROGRAM", "JOBID");
    push_work(out, "STEP", "CPU", "BLOCKS");
    push_right_aligned(out, 21, "AMOUNT");
    out.push_str(" NAME");
    out.push('\n');
}

/// What stands above the records of a period, or of one centre in it.
pub fn detail_head(
    alloc: Global,
    centre: Option<Name>,
    period: u16,
    through: Option<i32>,
) -> Result<String, AllocError>
    requires { ForSome through IsDay }
    ensures { IfOk result (λ text. string_bytes text ≡ spec.detail_head centre period through) }
{
    let mut out = Draft::new(alloc);
    match centre {
        None => push_title(&mut out, "DETAILS", period, through),
        Some(centre) => push_centre_title(&mut out, "DETAILS", centre, period, through),
    }
    push_detail_heading(&mut out);
    out.finish()
}

/// The line below the records, by how many there are and what they come to.
#[tactic(auto, unfolding(crate::specs::DetailLists::detail_total))]
pub fn detail_total(
    alloc: Global,
    count: u64,
    cpu: u64,
    blocks: u64,
    amount: u64,
) -> Result<String, AllocError>
    ensures { IfOk result (λ text.
        string_bytes text ≡ spec.detail_total count cpu blocks amount) }
{
    let mut out = Draft::new(alloc);
    push_key(&mut out, "TOTAL", "", "");
    push_job(&mut out, "", "", "", "");
    push_numbers(&mut out, count, cpu, blocks, amount);
    out.finish()
}
