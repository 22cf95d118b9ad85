//! Lists of disputes: the identities that two or more held records have, each with these records.

ghost use Rattle.std.specs.Prelude.{◌≡◌, ◌⊎◌, ◌+◌, ◌≤◌, ◌++◌, All, IfOk, OnOk};
ghost use Rattle.std.specs.Prelude.{flat_map, length, map, string_bytes};
ghost use Rattle.book_model.specs.Words.{IsDay, AreDisputes, IsDispute, dispute_shown};
ghost use Rattle.book_model.specs.Words.{identity2_length, identity_length};
ghost use Rattle.smf_frames.specs.Number as numbers;
ghost use Rattle.report_texts.specs.DisputeLists as spec;

use crate::columns::{push_draft, push_money};
use book_model::{Dispute, Variant};
use byteorder::{BigEndian, ByteOrder};
use std::alloc::{AllocError, Global};
use text_drafts::Draft;

/// The bytes of an identity by the second rule.
const SECOND_LENGTH: usize = 32;

/// The given number of bytes at an offset.
pub(crate) fn part(bytes: &[u8], at: usize, count: usize) -> &[u8]
    requires { at + count ≤ length bytes.now }
    ensures { result.now ≡ numbers.part bytes.now at count }
{
    &bytes[at..at + count]
}

/// Appends the system and the job of an identity.
#[tactic(auto, unfolding(crate::specs::DisputeLists::job_text))]
pub(crate) fn push_job(out: &mut Draft, identity: &[u8])
    requires { identity_length ≤ length identity.now }
    ensures { out.new ≡ out.old ++ spec.job_text identity.now }
{
    out.push_shown(part(identity, 0, 4));
    out.push(' ');
    out.push_shown(part(identity, 4, 8));
}

/// Appends a word, then the time and the date that stand at an offset of an identity.
#[tactic(auto, unfolding(crate::specs::DisputeLists::moment_text))]
pub(crate) fn push_moment(out: &mut Draft, word: &str, identity: &[u8], at: usize)
    requires { at + 8 ≤ length identity.now }
    ensures { out.new ≡ out.old ++ spec.moment_text
        word.now (numbers.part identity.now at 4) (numbers.part identity.now (at + 4) 4) }
{
    out.push_str(word);
    out.push_upper_hex(part(identity, at, 4));
    out.push(' ');
    out.push_upper_hex(part(identity, at + 4, 4));
}

/// Appends the subtype and the step number of an identity.
#[tactic(auto, unfolding(crate::specs::DisputeLists::step_text))]
fn push_step(out: &mut Draft, identity: &[u8])
    requires { identity_length ≤ length identity.now }
    ensures { out.new ≡ out.old ++ spec.step_text identity.now }
{
    out.push_str(" SUBTYPE ");
    out.push_number(u64::from(BigEndian::read_u16(&identity[20..])));
    out.push_str(" STEP ");
    out.push_number(u64::from(BigEndian::read_u16(&identity[22..])));
}

/// Appends the line of the identity that the records of a dispute share.
#[tactic(auto, unfolding(crate::specs::DisputeLists::identity_line, crate::specs::DisputeLists::reader_text, crate::specs::DisputeLists::start_text))]
pub fn push_identity(out: &mut Draft, identity: &[u8])
    requires { (length identity.now ≡ identity_length) ⊎ (length identity.now ≡ identity2_length) }
    ensures { out.new ≡ out.old ++ spec.identity_line identity.now }
{
    push_job(out, identity);
    push_moment(out, " READER ", identity, 12);
    push_step(out, identity);
    if identity.len() == SECOND_LENGTH {
        push_moment(out, " START ", identity, 24);
    }
    out.push('\n');
}

/// Appends the same line to a text.
pub fn push_identity_line(
    alloc: Global,
    out: &mut String,
    identity: &[u8],
) -> Result<(), AllocError>
    requires { (length identity.now ≡ identity_length) ⊎ (length identity.now ≡ identity2_length) }
    ensures { OnOk result (string_bytes out.new
        ≡ string_bytes out.old ++ spec.identity_line identity.now) }
{
    let mut line = Draft::new(alloc);
    push_identity(&mut line, identity);
    push_draft(out, &line)
}

/// Appends a completion code and a termination indicator.
#[tactic(auto, unfolding(crate::specs::DisputeLists::completion_text))]
pub fn push_completion(out: &mut Draft, completion: Option<[u8; 4]>)
    ensures { out.new ≡ out.old ++ spec.completion_text completion }
{
    match completion {
        None => out.push_str("----"),
        Some(bytes) => {
            out.push_upper_hex(part(&bytes, 0, 2));
            out.push('/');
            out.push_upper_hex(part(&bytes, 2, 2));
        }
    }
}

/// Appends the name of a record, its day and its price.
#[tactic(auto, unfolding(crate::specs::DisputeLists::price_columns))]
fn push_price(out: &mut Draft, member: &Variant)
    requires { IsDay member.now.priced.day }
    ensures { out.new ≡ out.old ++ spec.price_columns member.now }
{
    out.push_lower_hex(&member.name);
    out.push(' ');
    out.push_day(member.priced.day);
    out.push(' ');
    push_money(out, 21, member.priced.amount);
}

/// Appends how the work of a record ended, and which work it was.
#[tactic(auto, unfolding(crate::specs::DisputeLists::run_columns))]
fn push_work(out: &mut Draft, member: &Variant)
    ensures { out.new ≡ out.old ++ spec.run_columns member.now }
{
    push_completion(out, member.completion);
    out.push(' ');
    out.push_shown(&member.job_id);
    out.push(' ');
    out.push_shown(&member.program);
}

/// Appends the line of a record.
#[tactic(auto, unfolding(crate::specs::DisputeLists::member_line))]
fn push_member(out: &mut Draft, member: &Variant)
    requires { IsDay member.now.priced.day }
    ensures { out.new ≡ out.old ++ spec.member_line member.now }
{
    out.push_str("  ");
    push_price(out, member);
    out.push(' ');
    push_work(out, member);
    out.push('\n');
}

/// Appends the lines of records.
#[tactic(auto, using(std::proofs::lemmas::List::flat_map_more))]
pub(crate) fn push_members(out: &mut Draft, members: &[Variant])
    requires { All (λ member. IsDay member.priced.day) members.now }
    ensures { out.new ≡ out.old ++ flat_map spec.member_line members.now }
{
    for member in members {
        push_member(out, member);
    }
}

/// Appends the lines of an identity and its records.
#[tactic(auto, unfolding(crate::specs::DisputeLists::dispute_lines))]
fn push_lines(out: &mut Draft, dispute: &Dispute)
    requires { IsDispute (dispute_shown dispute.now) }
    ensures { out.new ≡ out.old ++ spec.dispute_lines (dispute_shown dispute.now) }
{
    push_identity(out, &dispute.identity);
    push_members(out, &dispute.members);
}

/// Appends the same lines to a text.
pub fn push_dispute(alloc: Global, out: &mut String, dispute: &Dispute) -> Result<(), AllocError>
    requires { IsDispute (dispute_shown dispute.now) }
    ensures { OnOk result (string_bytes out.new
        ≡ string_bytes out.old ++ spec.dispute_lines (dispute_shown dispute.now)) }
{
    let mut lines = Draft::new(alloc);
    push_lines(&mut lines, dispute);
    push_draft(out, &lines)
}

/// Appends the lines of identities and their records.
#[tactic(auto, using(std::proofs::lemmas::List::flat_map_more))]
fn push_disputes(out: &mut Draft, disputes: &[Dispute])
    requires { AreDisputes (map dispute_shown disputes.now) }
    ensures { out.new ≡ out.old ++ flat_map spec.dispute_lines (map dispute_shown disputes.now) }
{
    for dispute in disputes {
        push_lines(out, dispute);
    }
}

/// Appends what stands above the lines of so many disputes.
#[tactic(auto, unfolding(crate::specs::DisputeLists::dispute_list_head))]
fn push_head(out: &mut Draft, count: u64)
    ensures { out.new ≡ out.old ++ spec.dispute_list_head count }
{
    out.push_str("DISPUTES ");
    out.push_number(count);
    out.push('\n');
}

/// What stands above the lines of so many disputes.
pub fn dispute_list_head(alloc: Global, count: u64) -> Result<String, AllocError>
    ensures { IfOk result (λ text. string_bytes text ≡ spec.dispute_list_head count) }
{
    let mut out = Draft::new(alloc);
    push_head(&mut out, count);
    out.finish()
}

/// The list of disputes, in the order in which the books give them.
pub fn dispute_list_text(alloc: Global, disputes: &[Dispute]) -> Result<String, AllocError>
    requires { AreDisputes (map dispute_shown disputes.now) }
    ensures { IfOk result (λ text.
        string_bytes text ≡ spec.dispute_list_text (map dispute_shown disputes.now)) }
{
    let mut out = Draft::new(alloc);
    push_head(&mut out, disputes.len() as u64);
    push_disputes(&mut out, disputes);
    out.finish()
}
