//! Disputes as tables of comma-separated values.

ghost use Rattle.std.specs.Prelude.{◌≡◌, [], ◌∷◌, ◌++◌, ◌≤◌, All, IfOk, flat_map, length, map};
ghost use Rattle.book_model.specs.Words.{IsDay, IsDispute, AreDisputes, dispute_shown};
ghost use Rattle.book_model.specs.Words.{identity_length};
ghost use Rattle.report_texts.specs.DisputeTables as spec;
ghost use Rattle.report_texts.specs.Moments.{moment_of};

use crate::dispute_lists::{part, push_completion};
use crate::fields::{add_amount, add_day, add_name, add_number, add_row, add_seconds, add_shown};
use crate::moments::push_moment_of;
use book_model::{Dispute, Variant};
use byteorder::{BigEndian, ByteOrder};
use std::alloc::{AllocError, Global};
use text_drafts::{Draft, RowDraft, TableDraft};

/// Adds the names of the columns.
fn add_heading(table: &mut TableDraft)
    ensures { table.new ≡ table.old ++ spec.member_heading }
{
    let names: [&[u8]; 15] = [
        b"dispute",
        b"system",
        b"job",
        b"reader",
        b"initiation",
        b"subtype",
        b"step",
        b"name",
        b"day",
        b"cpu",
        b"blocks",
        b"amount",
        b"completion",
        b"jobid",
        b"program",
    ];
    table.add_texts(&names);
}

/// Adds when something happened.
fn add_moment(row: &mut RowDraft, moment: &[u8])
    requires { length moment.now ≡ 8 }
    ensures { row.new ≡ row.old ++ moment_of moment.now ∷ [] }
{
    let mut text = Draft::new(row.alloc());
    push_moment_of(&mut text, moment);
    row.add_draft(&text);
}

/// Adds the system and the job of an identity, and when a reader took the job in.
#[tactic(auto, unfolding(crate::specs::DisputeTables::identity_fields))]
fn add_job(row: &mut RowDraft, identity: &[u8])
    requires { identity_length ≤ length identity.now }
    ensures { row.new ≡ row.old ++ spec.identity_fields identity.now }
{
    add_shown(row, part(identity, 0, 4));
    add_shown(row, part(identity, 4, 8));
    add_moment(row, part(identity, 12, 8));
}

/// Adds the subtype and the step number of an identity.
#[tactic(auto, unfolding(crate::specs::DisputeTables::step_fields))]
fn add_step(row: &mut RowDraft, identity: &[u8])
    requires { identity_length ≤ length identity.now }
    ensures { row.new ≡ row.old ++ spec.step_fields identity.now }
{
    add_number(row, u64::from(BigEndian::read_u16(&identity[20..])));
    add_number(row, u64::from(BigEndian::read_u16(&identity[22..])));
}

/// Adds which work a record measures.
#[tactic(auto, unfolding(crate::specs::DisputeTables::disputed_fields))]
fn add_work(row: &mut RowDraft, dispute: u64, identity: &[u8], initiation: &[u8; 8])
    requires { identity_length ≤ length identity.now }
    ensures { row.new ≡ row.old ++ spec.disputed_fields dispute identity.now initiation.now }
{
    add_number(row, dispute);
    add_job(row, identity);
    add_moment(row, initiation);
    add_step(row, identity);
}

/// Adds which record it is, its day, what it measures and what it costs.
#[tactic(auto, unfolding(crate::specs::DisputeTables::price_fields))]
fn add_price(row: &mut RowDraft, member: &Variant)
    requires { IsDay member.now.priced.day }
    ensures { row.new ≡ row.old ++ spec.price_fields member.now }
{
    add_name(row, &member.name);
    add_day(row, member.priced.day);
    add_seconds(row, member.priced.cpu);
    add_number(row, member.priced.excp);
    add_amount(row, member.priced.amount);
}

/// Adds how the work of a record ended, and which work it was.
#[tactic(auto, unfolding(crate::specs::DisputeTables::run_fields))]
fn add_run(row: &mut RowDraft, member: &Variant)
    ensures { row.new ≡ row.old ++ spec.run_fields member.now }
{
    let mut text = Draft::new(row.alloc());
    push_completion(&mut text, member.completion);
    row.add_draft(&text);
    add_shown(row, &member.job_id);
    add_shown(row, &member.program);
}

/// Adds the row of a record.
#[tactic(auto, unfolding(crate::specs::DisputeTables::member_fields))]
fn add_member(table: &mut TableDraft, dispute: u64, identity: &[u8], member: &Variant)
    requires identity { identity_length ≤ length identity.now }
    requires day { IsDay member.now.priced.day }
    ensures { table.new ≡ table.old ++ spec.member_row dispute identity.now member.now }
{
    let mut row = RowDraft::new(table.alloc());
    add_work(&mut row, dispute, identity, &member.initiation);
    add_price(&mut row, member);
    add_run(&mut row, member);
    add_row(table, &row);
}

/// Adds the rows of records.
#[tactic(auto, using(std::proofs::lemmas::List::flat_map_more))]
fn add_members(table: &mut TableDraft, dispute: u64, identity: &[u8], members: &[Variant])
    requires identity { identity_length ≤ length identity.now }
    requires days { All (λ member. IsDay member.priced.day) members.now }
    ensures { table.new
        ≡ table.old ++ flat_map (spec.member_row dispute identity.now) members.now }
{
    for member in members {
        add_member(table, dispute, identity, member);
    }
}

/// Adds the rows of disputes, numbered from 1.
fn add_disputes(table: &mut TableDraft, disputes: &[Dispute])
    requires { AreDisputes (map dispute_shown disputes.now) }
    ensures { table.new ≡ table.old ++ spec.rows_from 1 (map dispute_shown disputes.now) }
{
    for (before, dispute) in disputes.iter().enumerate() {
        let number = before as u64 + 1;
        add_members(table, number, &dispute.identity, &dispute.members);
    }
}

/// The names of the columns, which stand above the rows.
pub fn dispute_table_head(alloc: Global) -> Result<Vec<u8>, AllocError>
    ensures { IfOk result (λ head. head.items ≡ spec.member_heading) }
{
    let mut table = TableDraft::new(alloc);
    add_heading(&mut table);
    table.finish()
}

/// The rows of a dispute of this number.
pub fn dispute_rows(alloc: Global, number: u64, dispute: &Dispute) -> Result<Vec<u8>, AllocError>
    requires { IsDispute (dispute_shown dispute.now) }
    ensures { IfOk result (λ rows.
        rows.items ≡ spec.dispute_rows number (dispute_shown dispute.now)) }
{
    let mut table = TableDraft::new(alloc);
    add_members(&mut table, number, &dispute.identity, &dispute.members);
    table.finish()
}

/// The disputes as a table: a heading, and a row for each record in dispute, in the order in which
/// the books give them.
pub fn dispute_table(alloc: Global, disputes: &[Dispute]) -> Result<Vec<u8>, AllocError>
    requires { AreDisputes (map dispute_shown disputes.now) }
    ensures { IfOk result (λ table.
        table.items ≡ spec.dispute_table (map dispute_shown disputes.now)) }
{
    let mut table = TableDraft::new(alloc);
    add_heading(&mut table);
    add_disputes(&mut table, disputes);
    table.finish()
}
