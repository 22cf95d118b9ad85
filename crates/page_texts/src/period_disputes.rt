//! The disputes on a period's page.

ghost use Rattle.std.specs.Prelude.{◌≡◌, ◌⊎◌, ◌++◌, All, IfOk, flat_map, length, map, string_bytes};
ghost use Rattle.std.specs.List.{list_any};
ghost use Rattle.book_model.specs.Words.{AreDisputes, IsDay, IsDispute, dispute_shown};
ghost use Rattle.book_model.specs.Words.{identity2_length, identity_length, is_between};
ghost use Rattle.report_texts.specs.DisputeLists as lists;
ghost use Rattle.html_text.specs.Escaping as page;
ghost use Rattle.page_texts.specs.Markup.{cell};
ghost use Rattle.page_texts.specs.PeriodTables as spec;

use crate::closes::is_between;
use crate::frame::push_table_end;
use crate::markup::{push_day_cell, push_money_cell, push_record_cell, push_shown_cell};
use book_model::{Dispute, Variant};
use html_text::push_escaped;
use report_texts::push_identity_line;
use std::alloc::{AllocError, Global};
use text_drafts::Draft;

/// What stands above the rows.
const HEAD: &str = "\
    <div class='scroll'>\n<table class='disputes'>\n<caption>Disputes</caption>\n<thead><tr>\
    <th scope='col'>Record</th><th scope='col'>Day</th><th scope='col'>Amount</th>\
    <th scope='col'>Completion</th><th scope='col'>Job id</th>\
    <th scope='col'>Program</th></tr></thead>\n<tbody>";

/// Appends what stands above the rows.
#[tactic(auto, unfolding(crate::specs::PeriodTables::dispute_head))]
fn push_head(out: &mut Draft)
    ensures { out.new ≡ out.old ++ spec.dispute_head }
{
    out.push_str(HEAD);
}

/// Appends a completion code and a termination indicator.
#[tactic(auto, unfolding(report_texts::specs::DisputeLists::completion_text))]
fn push_completion(out: &mut Draft, completion: Option<[u8; 4]>)
    ensures { out.new ≡ out.old ++ lists.completion_text completion }
{
    let Some(bytes) = completion else {
        out.push_str("----");
        return;
    };
    out.push_upper_hex(&bytes[..2]);
    out.push_str("/");
    out.push_upper_hex(&bytes[2..]);
}

/// Appends a cell of these.
#[tactic(auto, unfolding(crate::specs::Markup::cell))]
fn push_completion_cell(out: &mut Draft, completion: Option<[u8; 4]>)
    ensures { out.new ≡ out.old ++ cell (lists.completion_text completion) }
{
    out.push_str("<td>");
    push_completion(out, completion);
    out.push_str("</td>");
}

/// Appends the row of a record in dispute.
#[tactic(auto, unfolding(crate::specs::PeriodTables::member_row, crate::specs::Markup::table_row))]
fn push_member(out: &mut Draft, member: &Variant)
    requires { IsDay member.now.priced.day }
    ensures { out.new ≡ out.old ++ spec.member_row member.now }
{
    out.push_str("<tr>");
    push_record_cell(out, &member.name);
    push_day_cell(out, member.priced.day);
    push_money_cell(out, member.priced.amount);
    push_completion_cell(out, member.completion);
    push_shown_cell(out, &member.job_id);
    push_shown_cell(out, &member.program);
    out.push_str("</tr>\n");
}

/// Appends the rows of records in dispute.
#[tactic(auto, using(std::proofs::lemmas::List::flat_map_more))]
fn push_members(out: &mut Draft, members: &[Variant])
    requires { All (λ member. IsDay member.priced.day) members.now }
    ensures { out.new ≡ out.old ++ flat_map spec.member_row members.now }
{
    for member in members {
        push_member(out, member);
    }
}

/// The line of an identity, as the list of disputes has it.
fn identity_line(alloc: Global, identity: &[u8]) -> Result<String, AllocError>
    requires { (length identity.now ≡ identity_length) ⊎ (length identity.now ≡ identity2_length) }
    ensures { IfOk result (λ text. string_bytes text ≡ lists.identity_line identity.now) }
{
    let mut text = String::new(alloc);
    push_identity_line(alloc, &mut text, identity)?;
    Ok(text)
}

/// Appends that line, as a page shows it.
fn push_identity_text(out: &mut Draft, identity: &[u8])
    requires { (length identity.now ≡ identity_length) ⊎ (length identity.now ≡ identity2_length) }
    ensures { out.new ≡ out.old ++ page.escaped (lists.identity_line identity.now) }
{
    match identity_line(out.alloc(), identity) {
        Ok(line) => push_escaped(out, line.as_str()),
        Err(_) => out.leave_out(&identity),
    }
}

/// Appends the row of an identity.
fn push_identity(out: &mut Draft, identity: &[u8])
    requires { (length identity.now ≡ identity_length) ⊎ (length identity.now ≡ identity2_length) }
    ensures { out.new ≡ out.old ++ spec.identity_row identity.now }
{
    out.push_str("<tr><th colspan='6' scope='rowgroup'>");
    push_identity_text(out, identity);
    out.push_str("</th></tr>\n");
}

/// One of the records is dated after a close, if there was one, and no later than another.
fn is_dated(before: Option<i32>, through: Option<i32>, members: &[Variant]) -> bool
    ensures { result
        ≡ list_any (λ member. is_between before through member.priced.day) members.now }
{
    for member in members {
        if is_between(before, through, member.priced.day) {
            return true;
        }
    }
    false
}

/// Whether a dispute of these records stands on the page: on that of an open period each does.
fn is_shown_in(before: Option<i32>, through: Option<i32>, members: &[Variant]) -> bool
    ensures { result ≡ spec.is_shown_in before through members.now }
{
    match through {
        None => true,
        Some(_) => is_dated(before, through, members),
    }
}

/// Appends the rows of a dispute that stands on the page: its identity, and its records.
#[tactic(auto, unfolding(crate::specs::PeriodTables::dated_rows, crate::specs::PeriodTables::dispute_rows))]
fn push_dated(out: &mut Draft, before: Option<i32>, through: Option<i32>, dispute: &Dispute)
    requires { IsDispute (dispute_shown dispute.now) }
    ensures { out.new
        ≡ out.old ++ spec.dated_rows before through (dispute_shown dispute.now) }
{
    if !is_shown_in(before, through, &dispute.members) {
        return;
    }
    push_identity(out, &dispute.identity);
    push_members(out, &dispute.members);
}

/// Appends the rows of the disputes that stand on the page.
#[tactic(auto, using(std::proofs::lemmas::List::flat_map_more))]
fn push_disputes(out: &mut Draft, before: Option<i32>, through: Option<i32>, disputes: &[Dispute])
    requires { AreDisputes (map dispute_shown disputes.now) }
    ensures { out.new ≡ out.old
        ++ flat_map (spec.dated_rows before through) (map dispute_shown disputes.now) }
{
    for dispute in disputes {
        push_dated(out, before, through, dispute);
    }
}

/// Appends the disputes of the office that stand on a period's page: of the open one all of them,
/// as they hold work back now; of a closed one those that have a record dated in it.
#[tactic(auto, unfolding(crate::specs::PeriodTables::dispute_part))]
pub(crate) fn push_dispute_part(
    out: &mut Draft,
    before: Option<i32>,
    through: Option<i32>,
    disputes: &[Dispute],
)
    requires { AreDisputes (map dispute_shown disputes.now) }
    ensures { out.new ≡ out.old
        ++ spec.dispute_part before through (map dispute_shown disputes.now) }
{
    push_head(out);
    push_disputes(out, before, through, disputes);
    push_table_end(out);
}
