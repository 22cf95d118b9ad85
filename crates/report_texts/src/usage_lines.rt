//! What a record of usage says, as a record's text shows it.

ghost use Rattle.std.specs.Prelude.{◌≡◌, ◌++◌, IsSome, option_map};
ghost use Rattle.smf_type30.specs.Accounts.{fields_in};
ghost use Rattle.book_model.specs.Words.{IsUsage, entry_shown};
ghost use Rattle.report_texts.specs.UsageLines as spec;

use crate::columns::push_number_or_dash;
use crate::dispute_lists::{push_completion, push_job, push_moment};
use crate::journal_lists::push_came_line;
use crate::moments::push_day_time;
use book_model::ListedEntry;
use smf_type30::{Type30, split_account};
use text_drafts::Draft;

/// Appends when a record was written, and the period that its day belongs to.
#[tactic(auto, unfolding(crate::specs::UsageLines::dated_line))]
fn push_dated(out: &mut Draft, usage: &Type30<'_>, period: u16)
    ensures { out.new ≡ out.old ++ spec.dated_line usage.now period }
{
    let moment = usage.moment();
    out.push_str("DATED ");
    push_day_time(out, moment.day, moment.time);
    out.push_str(" IN PERIOD ");
    out.push_number(u64::from(period));
    out.push('\n');
}

/// Appends which work a record measures.
#[tactic(auto, unfolding(crate::specs::UsageLines::work_line, crate::specs::DisputeLists::reader_text, crate::specs::UsageLines::subtype_text))]
fn push_work(out: &mut Draft, usage: &Type30<'_>)
    ensures { out.new ≡ out.old ++ spec.work_line usage.now }
{
    let identity = usage.identity();
    push_job(out, &identity);
    push_moment(out, " READER ", &identity, 12);
    out.push_str(" SUBTYPE ");
    out.push_number(u64::from(usage.subtype()));
    out.push_str(" STEP ");
    push_number_or_dash(out, usage.ended_step());
    out.push('\n');
}

/// Appends when the work was initiated, and how it ended.
#[tactic(auto, unfolding(crate::specs::UsageLines::start_columns))]
fn push_start(out: &mut Draft, usage: &Type30<'_>)
    ensures { out.new ≡ out.old ++ spec.start_columns usage.now }
{
    push_moment(out, "START ", usage.initiation(), 0);
    out.push_str(" COMPLETION ");
    push_completion(out, usage.completion());
}

/// Appends the job id and the program.
#[tactic(auto, unfolding(crate::specs::UsageLines::program_columns))]
fn push_program(out: &mut Draft, usage: &Type30<'_>)
    ensures { out.new ≡ out.old ++ spec.program_columns usage.now }
{
    out.push(' ');
    out.push_shown(usage.job_id());
    out.push(' ');
    out.push_shown(usage.program());
}

/// Appends the line of an accounting field.
#[tactic(auto, unfolding(crate::specs::UsageLines::account_line))]
fn push_account(out: &mut Draft, field: &[u8])
    ensures { out.new ≡ out.old ++ spec.account_line field.now }
{
    out.push_str("  ");
    out.push_shown(field);
    out.push('\n');
}

/// Appends the lines of the given number of accounting fields at the start of a text.
fn push_fields(out: &mut Draft, count: u16, text: &[u8])
    requires { IsSome (fields_in count text.now) }
    ensures { out.new ≡ out.old ++ spec.account_lines (fields_in count text.now) }
{
    let mut rest = text;
    for _ in 0..count {
        let Some((field, after)) = split_account(rest) else {
            return;
        };
        push_account(out, field);
        rest = after;
    }
}

/// Appends how many accounting fields a usage record has, and a line for each.
#[tactic(auto, unfolding(crate::specs::UsageLines::accounts_text, smf_type30::specs::Accounts::accounts_of))]
fn push_accounts(out: &mut Draft, usage: &Type30<'_>)
    ensures { out.new ≡ out.old ++ spec.accounts_text usage.now }
{
    let count = usage.account_count();
    out.push_str(" ACCOUNTS ");
    out.push_number(u64::from(count));
    out.push('\n');
    push_fields(out, count, usage.accounts());
}

/// Appends what a usage record says, the period that its day belongs to, and the entry by which it
/// came.
#[tactic(auto, unfolding(crate::specs::UsageLines::usage_lines))]
pub(crate) fn push_usage(out: &mut Draft, bytes: &[u8], period: u16, entry: &Option<ListedEntry>)
    requires { IsUsage bytes.now }
    ensures { out.new ≡ out.old
        ++ spec.usage_lines bytes.now period (option_map entry_shown entry.now) }
{
    let usage = Type30::of_usage(bytes);
    push_dated(out, &usage, period);
    push_came_line(out, entry);
    push_work(out, &usage);
    push_start(out, &usage);
    push_program(out, &usage);
    push_accounts(out, &usage);
}
