ghost use Rattle.std.specs.Prelude.{◌≡◌, ◌≤◌, ◌<◌, ◌+◌, ◌-◌, ◌^◌, ◌↔◌, ◌⊎◌, ◌++◌, drop, length, take, IsTrue, IsOk, IsSome, IfOk, IfErr, IfSome, Some, option_copied};
ghost use Rattle.smf_text.specs.Day.{IsDay};
ghost use Rattle.smf_type30.specs.Layout.{accounting, hundredths_per_day, identification, initiation, job_end, job_id, job_name, program_name, step_end, step_number, triplets_end};
ghost use Rattle.smf_type30.specs.Accounts.{IsAccount, fields_in};
ghost use Rattle.smf_type30.specs.Section.{count_of, offset_of, part_in};
ghost use Rattle.smf_type30.specs.Usage as spec;
ghost use Rattle.smf_type30.specs.Class.{IsUsage, measures_work, read_fault};

use crate::accounts;
use crate::class_of::{has_usage, undamaged};
use crate::damage::Damage;
use crate::layout::{
    ACCOUNTING, BLOCKS, COMPLETION, Field, IDENTIFICATION, INITIATION, IO_ACTIVITY, JOB_END,
    JOB_ID, JOB_NAME, PROCESSOR, PROGRAM_NAME, READER_START, SRB_TIME, STEP_NUMBER, SUBTYPE,
    TCB_TIME, TRIPLETS_END,
};
use crate::moment::{Moment, moment_in};
use crate::number::{number2, number4, part};
use crate::section::{count, section_bytes};
use byteorder::{BigEndian, ByteOrder};
use smf_frames::Header;
use std::marker::Model;
use std::ops::Range;

/// A record that measures the work of a step or a job, and lends its fields.
#[derive(Drop)]
pub struct Type30<'a> {
    bytes: &'a [u8],
    system: [u8; 4],
    moment: Moment,
}

impl<'a> Model for Type30<'a> {
    ghost use Rattle.std.specs.Prelude.{List, ℕ};
    ghost use Rattle.smf_type30.specs.SectionBytes.{IsRead};

    ghost Value = { List ℕ };

    ghost view = { λ usage. usage.bytes.now };

    ghost invariant = { λ usage. IsRead usage.bytes.now usage.system usage.moment };
}

impl<'a> Type30<'a> {
    /// Reads a record, its descriptor included, that measures work if it is long enough to say so.
    /// One that is no usage record is answered with its damage: with `Short` where it ends before
    /// its triplets do, whatever its type.
    #[tactic(auto, using(crate::proofs::UsageFacts::reading))]
    pub fn read(bytes: &'a [u8]) -> Result<Type30<'a>, Damage>
        requires { triplets_end ≤ length bytes.now → IsTrue (measures_work bytes.now) }
        ensures usage { IsOk result ↔ IsUsage bytes.now }
        ensures value { IfOk result (λ usage. usage ≡ bytes.now) }
        ensures damage { IfErr result (λ damage. read_fault bytes.now ≡ Some damage) }
    {
        if bytes.len() < TRIPLETS_END {
            return Err(Damage::Short);
        }
        let header = Header::read(bytes).unwrap();
        let moment = undamaged(bytes, &header)?;
        Ok(Type30 {
            bytes,
            system: header.system,
            moment,
        })
    }

    /// The fields of a record of class Usage, which is not tested again.
    #[tactic(auto, using(crate::proofs::UsageFacts::usage), unfolding(crate::specs::Class::header_damage))]
    pub fn of_usage(bytes: &'a [u8]) -> Type30<'a>
        requires { IsUsage bytes.now }
        ensures { result ≡ bytes.now }
    {
        let header = Header::read(bytes).unwrap();
        Type30 {
            bytes,
            system: header.system,
            moment: moment_in(&header).unwrap(),
        }
    }

    /// The fields of a record, its descriptor included, if its class is Usage: it is tested and
    /// read in one go.
    #[tactic(auto, using(crate::proofs::UsageFacts::testing))]
    pub fn if_usage(bytes: &'a [u8]) -> Option<Type30<'a>>
        ensures usage { IsSome result ↔ IsUsage bytes.now }
        ensures value { IfSome result (λ usage. usage ≡ bytes.now) }
    {
        let header = Header::read(bytes)?;
        if !has_usage(bytes, &header) {
            return None;
        }
        let moment = undamaged(bytes, &header).ok()?;
        Some(Type30 {
            bytes,
            system: header.system,
            moment,
        })
    }

    /// The subtype: 4 for a step, 5 for a job (SMF30STP).
    #[tactic(auto, using(crate::proofs::UsageFacts::usage), unfolding(crate::specs::Usage::subtype_of))]
    pub fn subtype(&self) -> u16
        ensures value { result ≡ spec.subtype_of self.now }
        ensures either { (result ≡ step_end) ⊎ (result ≡ job_end) }
        ensures usage { IsUsage self.now }
    {
        number2(self.bytes, SUBTYPE)
    }

    /// The identity of the work: system, job name, reader's time and date, subtype, and the step
    /// number, which is 0 for a job (SMF30SID, SMF30JBN, SMF30RST, SMF30RSD, SMF30STP, SMF30STN).
    /// Two records of one identity are taken for the same work.
    #[tactic(auto, using(crate::proofs::UsageFacts::usage))]
    pub fn identity(&self) -> [u8; 24]
        ensures value { result ≡ spec.identity_of self.now }
        ensures len { length (spec.identity_of self.now) ≡ spec.identity_length }
    {
        let mut identity = [0; 24];
        put(&mut identity, 0..4, &self.system);
        put(&mut identity, 4..12, self.job());
        put(&mut identity, 12..20, self.identified(READER_START));
        put(&mut identity, 20..22, part(self.bytes, SUBTYPE));
        put(&mut identity, 22..24, self.step());
        identity
    }

    /// The identity by the second rule: that by the first, and the time and date of the initiation
    /// (SMF30SIT, SMF30STD).
    #[tactic(auto, using(crate::proofs::UsageFacts::usage))]
    pub fn identity2(&self) -> [u8; 32]
        ensures value { result ≡ spec.identity2_of self.now }
        ensures len { length (spec.identity2_of self.now) ≡ spec.identity2_length }
    {
        let first = self.identity();
        let mut identity = [0; 32];
        put(&mut identity, 0..24, &first);
        put(&mut identity, 24..32, self.initiation());
        identity
    }

    /// The number of the step that ended (SMF30STN), None where a job ended.
    #[tactic(auto, unfolding(crate::specs::Usage::ended_step_of))]
    pub fn ended_step(&self) -> Option<u16>
        ensures { result ≡ spec.ended_step_of self.now }
    {
        if self.subtype() == JOB_END {
            return None;
        }
        Some(BigEndian::read_u16(self.step()))
    }

    /// When the work was initiated, as in the record: 4 bytes of time (SMF30SIT), in hundredths of
    /// a second since midnight, and 4 of a packed date (SMF30STD).
    #[tactic(auto, unfolding(crate::specs::Usage::initiation_of))]
    pub fn initiation(&self) -> &'a [u8]
        ensures value { result.now ≡ spec.initiation_of self.now }
        ensures len { length result.now ≡ initiation.len }
    {
        self.identified(INITIATION)
    }

    /// When the record was moved into the SMF buffer, by its header (SMF30DTE, SMF30TME).
    #[tactic(auto, using(crate::proofs::UsageFacts::usage), unfolding(crate::specs::Usage::day_of, crate::specs::Usage::time_of))]
    pub fn moment(&self) -> Moment
        ensures day { result.day ≡ spec.day_of self.now }
        ensures time { result.time ≡ spec.time_of self.now }
        ensures is_day { IsDay result.day }
        ensures is_time { result.time < hundredths_per_day }
    {
        self.moment
    }

    /// The CPU time, under TCBs and SRBs together, in hundredths of a second (SMF30CPT, SMF30CPS).
    #[tactic(auto, using(crate::proofs::UsageFacts::usage))]
    pub fn cpu(&self) -> u64
        ensures value { result ≡ spec.cpu_of self.now }
        ensures bound { result < 2 ^ 33 }
    {
        let processor = section_bytes(self.bytes, PROCESSOR);
        u64::from(number4(processor, TCB_TIME)) + u64::from(number4(processor, SRB_TIME))
    }

    /// The blocks transferred, the EXCP count (SMF30TEP): 0 without an I/O activity section.
    #[tactic(auto, using(crate::proofs::UsageFacts::usage), unfolding(crate::specs::Usage::excp_of))]
    pub fn excp(&self) -> u32
        ensures value { result ≡ spec.excp_of self.now }
    {
        if count(self.bytes, IO_ACTIVITY) == 0 {
            return 0;
        }
        number4(section_bytes(self.bytes, IO_ACTIVITY), BLOCKS)
    }

    /// The name of the job: 8 bytes of EBCDIC (SMF30JBN).
    #[tactic(auto, unfolding(crate::specs::Usage::job_of))]
    pub fn job(&self) -> &'a [u8]
        ensures value { result.now ≡ spec.job_of self.now }
        ensures len { length result.now ≡ job_name.len }
    {
        self.identified(JOB_NAME)
    }

    /// The name of the program: 8 bytes of EBCDIC (SMF30PGM).
    #[tactic(auto, unfolding(crate::specs::Usage::program_of))]
    pub fn program(&self) -> &'a [u8]
        ensures value { result.now ≡ spec.program_of self.now }
        ensures len { length result.now ≡ program_name.len }
    {
        self.identified(PROGRAM_NAME)
    }

    /// The JES job identifier: 8 bytes of EBCDIC (SMF30JNM).
    #[tactic(auto, unfolding(crate::specs::Usage::job_id_of))]
    pub fn job_id(&self) -> &'a [u8]
        ensures value { result.now ≡ spec.job_id_of self.now }
        ensures len { length result.now ≡ job_id.len }
    {
        self.identified(JOB_ID)
    }

    /// Accounting field n, the first being 1 (SMF30ACT), None where the record has fewer.
    #[tactic(auto, using(crate::proofs::UsageFacts::usage))]
    pub fn account(&self, n: u16) -> Option<&'a [u8]>
        ensures value { option_copied result ≡ spec.account_of self.now n }
        ensures field { IsAccount self.now n (option_copied result) }
    {
        accounts::account(self.bytes, n)
    }

    /// The number of accounting fields (SMF30AON).
    #[tactic(auto, using(crate::proofs::UsageFacts::usage))]
    pub fn account_count(&self) -> u16
        ensures { result ≡ count_of self.now accounting }
    {
        count(self.bytes, ACCOUNTING)
    }

    /// The record from its accounting fields on, `account_count` of them: `split_account` takes one
    /// after the other.
    #[tactic(auto, using(crate::proofs::UsageFacts::usage), unfolding(crate::specs::Accounts::accounts_of))]
    pub fn accounts(&self) -> &'a [u8]
        ensures text { result.now ≡ drop (offset_of self.now accounting) self.now }
        ensures inside { IsSome (fields_in (count_of self.now accounting) result.now) }
    {
        accounts::from_section(self.bytes, ACCOUNTING)
    }

    /// The completion code and the termination indicator (SMF30SCC, SMF30STI), 2 bytes each, None
    /// without a completion section.
    #[tactic(auto, using(crate::proofs::UsageFacts::usage), unfolding(crate::specs::Usage::completion_of))]
    pub fn completion(&self) -> Option<[u8; 4]>
        ensures value { result ≡ spec.completion_of self.now }
    {
        if count(self.bytes, COMPLETION) == 0 {
            return None;
        }
        section_bytes(self.bytes, COMPLETION).first_chunk().copied()
    }

    /// A field of the identification section.
    #[tactic(auto, using(crate::proofs::UsageFacts::usage))]
    fn identified(&self, field: Field) -> &'a [u8]
        requires { field.offset + field.len ≤ identification.least }
        ensures value { result.now ≡ part_in self.now identification field }
        ensures len { length result.now ≡ field.len }
    {
        part(section_bytes(self.bytes, IDENTIFICATION), field)
    }

    /// The step number, 0 for a job.
    fn step(&self) -> &[u8]
        ensures value { result.now ≡ spec.step_of self.now }
        ensures len { length result.now ≡ step_number.len }
    {
        if self.subtype() == JOB_END {
            return &[0, 0];
        }
        self.identified(STEP_NUMBER)
    }
}

/// Writes bytes into a part of a buffer.
fn put(buffer: &mut [u8], part: Range<usize>, bytes: &[u8])
    requires forward { part.start ≤ part.end }
    requires inside { part.end ≤ length buffer.old }
    requires all { length bytes.now ≡ part.end - part.start }
    ensures { take part.end buffer.new ≡ take part.start buffer.old ++ bytes.now }
{
    buffer[part].copy_from_slice(bytes);
}
