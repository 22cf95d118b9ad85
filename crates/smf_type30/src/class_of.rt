ghost use Rattle.std.specs.Prelude.{◌≡◌, ◌≤◌, ◌↔◌, length, IsTrue, IfOk, IfErr, None, Ok, Some};
ghost use Rattle.smf_text.specs.Day.{IsDay};
ghost use Rattle.smf_text.specs.PackedDate.{packed_day_of};
ghost use Rattle.smf_frames.specs.Header.{header_len};
ghost use Rattle.smf_frames.specs.Header.{header_of};
ghost use Rattle.smf_type30.specs.declared.record_class.Class.TheVariants.{Usage, Damaged};
ghost use Rattle.smf_type30.specs.declared.damage.Damage.TheVariants.{Accounting};
ghost use Rattle.smf_type30.specs.Accounts.{HasNoAccounts};
ghost use Rattle.smf_type30.specs.Layout.{triplets_end};
ghost use Rattle.smf_type30.specs.Class as spec;

use crate::accounts::has_accounts;
use crate::damage::Damage;
use crate::layout::{
    COMPLETION, DATA_LOST, DUMP_HEADER, DUMP_TRAILER, IDENTIFICATION, IO_ACTIVITY, JOB_END,
    PROCESSOR, STEP_END, SUBTYPE, SUBTYPE_END, TRIPLETS_END, WORK,
};
use crate::moment::{Moment, moment_in};
use crate::number::number2;
use crate::record_class::Class;
use crate::section::{count, fits};
use smf_frames::Header;

/// The first damage of the sections of a work record.
#[tactic(auto, unfolding(crate::specs::Class::section_damage))]
pub fn section_damage(bytes: &[u8]) -> Option<Damage>
    requires { triplets_end ≤ length bytes.now }
    ensures { result ≡ spec.section_damage bytes.now }
{
    if count(bytes, IDENTIFICATION) == 0 {
        return Some(Damage::NoIdentification);
    }
    if !fits(bytes, IDENTIFICATION) {
        return Some(Damage::Identification);
    }
    if !fits(bytes, PROCESSOR) {
        return Some(Damage::Processor);
    }
    if !fits(bytes, IO_ACTIVITY) {
        return Some(Damage::InputOutput);
    }
    if !fits(bytes, COMPLETION) {
        return Some(Damage::Completion);
    }
    if !has_accounts(bytes) {
        return Some(Damage::Accounting);
    }
    None
}

/// When an undamaged work record was moved into the SMF buffer, or else its first damage: of its
/// header, or of its sections. The record is one that measures CPU time.
#[tactic(auto, unfolding(crate::specs::Class::damage_of))]
pub fn undamaged(bytes: &[u8], header: &Header) -> Result<Moment, Damage>
    requires long { triplets_end ≤ length bytes.now }
    requires header { header.now ≡ header_of bytes.now }
    ensures day { IfOk result (λ moment. packed_day_of header.now.date ≡ Ok moment.day) }
    ensures is_day { IfOk result (λ moment. IsDay moment.day) }
    ensures time { IfOk result (λ moment. moment.time ≡ header.now.time) }
    ensures none { IfOk result (λ moment. spec.damage_of bytes.now ≡ None) }
    ensures damage { IfErr result (λ damage. spec.damage_of bytes.now ≡ Some damage) }
{
    let moment = moment_in(header)?;
    match section_damage(bytes) {
        None => Ok(moment),
        Some(damage) => Err(damage),
    }
}

/// Whether a record has its triplets, is of type 30, ends a step or a job, and measures CPU time.
#[tactic(auto, unfolding(crate::specs::Usage::subtype_of, crate::specs::Class::measures_work))]
pub fn has_usage(bytes: &[u8], header: &Header) -> bool
    requires header { header.now ≡ header_of bytes.now }
    ensures { IsTrue result
        ↔ (triplets_end ≤ length bytes.now) × IsTrue (spec.measures_work bytes.now) }
{
    if bytes.len() < TRIPLETS_END || header.kind != WORK {
        return false;
    }
    let subtype = number2(bytes, SUBTYPE);
    (subtype == STEP_END || subtype == JOB_END) && count(bytes, PROCESSOR) != 0
}

/// The class of a work record.
#[tactic(auto, unfolding(crate::specs::Usage::subtype_of, crate::specs::Class::class_of_work))]
fn class_of_work(bytes: &[u8], header: &Header) -> Class
    requires long { header_len ≤ length bytes.now }
    requires header { header.now ≡ header_of bytes.now }
    ensures { result ≡ spec.class_of_work bytes.now }
{
    if bytes.len() < SUBTYPE_END {
        return Class::Damaged(Damage::Short);
    }
    let subtype = number2(bytes, SUBTYPE);
    if !(subtype == STEP_END || subtype == JOB_END) {
        return Class::Other;
    }
    if bytes.len() < TRIPLETS_END {
        return Class::Damaged(Damage::Short);
    }
    if count(bytes, PROCESSOR) == 0 {
        return Class::Continuation;
    }
    match undamaged(bytes, header) {
        Ok(_) => Class::Usage,
        Err(damage) => Class::Damaged(damage),
    }
}

/// The class of a record, its descriptor included.
#[tactic(auto, unfolding(crate::specs::Class::class_of))]
pub fn class(bytes: &[u8]) -> Class
    ensures class { result ≡ spec.class_of bytes.now }
    ensures work { result ≡ Usage → IsTrue (spec.measures_work bytes.now) }
    ensures accounts { result ≡ Damaged Accounting → HasNoAccounts bytes.now }
{
    let Some(header) = Header::read(bytes) else {
        return Class::Damaged(Damage::Short);
    };
    match header.kind {
        DUMP_HEADER => Class::DumpHeader,
        DUMP_TRAILER => Class::DumpTrailer,
        DATA_LOST => Class::DataLost,
        WORK => class_of_work(bytes, &header),
        _ => Class::Other,
    }
}
