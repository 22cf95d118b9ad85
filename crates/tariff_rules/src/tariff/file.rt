//! Tariff files.

ghost use Rattle.std.specs.Prelude.{◌≡◌, ◌≢◌, IfErr, IfOk, Ok, Err, option_map};
ghost use Rattle.smf_text.specs.Day.{IsDay};
ghost use Rattle.toml.specs.View.{table_view};
ghost use Rattle.tariff_rules.specs.Document.{IsUnlessMemory, AreUnlessMemory};
ghost use Rattle.tariff_rules.specs.TariffFile as spec;
ghost use Rattle.tariff_rules.specs.TariffFile.{terms_in};

use super::Tariff;
use crate::document::{table_at, text_at};
use crate::fault::TariffFault;
use crate::key::Key;
use crate::rates::Rates;
use crate::rules::rules_at;
use crate::shift::{ShiftRule, has_conflict};
use smf_text::day_of_text;
use std::alloc::{AllocError, Global};
use toml::Table;

/// The most bytes of a tariff file.
pub const MAX_TEXT: usize = 1_048_576;

/// The most shifts of a tariff file.
pub const MAX_SHIFTS: usize = 64;

/// The most centres of a tariff file.
pub const MAX_CENTRES: usize = 2000;

/// What a tariff file says before its lists of rules.
#[derive(Clone, Copy)]
pub(super) struct Head {
    effective: i32,
    step: Rates,
    job: Rates,
}

/// The first day, at the key `effective`.
#[tactic(auto, unfolding(crate::specs::TariffFile::effective_at))]
fn effective_at(document: &Table) -> Result<i32, TariffFault>
    ensures value { result ≡ spec.effective_at (table_view document.now) }
    ensures day { IfOk result IsDay }
{
    let text = text_at(document, Key::Effective)?;
    day_of_text(text).ok_or(TariffFault::Range(Key::Effective))
}

/// What comes before the lists.
#[tactic(auto, unfolding(crate::specs::TariffFile::head_of))]
pub(super) fn head_of(document: &Table) -> Result<Head, TariffFault>
    ensures value { result ≡ spec.head_of (table_view document.now) }
    ensures day { IfOk result (λ head. IsDay head.effective) }
{
    let effective = effective_at(document)?;
    let rates = table_at(document, Key::Rates)?;
    let step = Rates::at(rates, Key::StepCpu, Key::StepExcp, Key::StepRecord)?;
    let job = Rates::at(rates, Key::JobCpu, Key::JobExcp, Key::JobRecord)?;
    Ok(Head {
        effective,
        step,
        job,
    })
}

/// The shifts, which agree on what each charges.
#[tactic(auto, unfolding(crate::specs::TariffFile::shifts_at))]
pub(super) fn shifts_at(alloc: Global, document: &Table) -> Result<Vec<ShiftRule>, TariffFault>
    ensures { AreUnlessMemory result (spec.shifts_at (table_view document.now)) }
{
    let rules = rules_at(alloc, document, Key::Shift, MAX_SHIFTS)?;
    if has_conflict(&rules) {
        return Err(TariffFault::ShiftConflict);
    }
    Ok(rules)
}

/// The document that the text of a tariff file is, if it is one and not too long.
pub(crate) fn document_in(alloc: Global, text: &str) -> Result<Option<Table>, AllocError>
    ensures { IfOk result (λ found.
        option_map (λ document. table_view document) found ≡ spec.document_in text.now) }
{
    if text.len() > MAX_TEXT {
        return Ok(None);
    }
    match toml::table_from_str(alloc, text) {
        Ok(document) => Ok(Some(document)),
        Err(error) if error.is_memory() => Err(AllocError),
        Err(_) => Ok(None),
    }
}

impl Tariff {
    /// The tariff of a document.
    #[tactic(auto, unfolding(crate::specs::TariffFile::terms_of))]
    pub(crate) fn of_document(alloc: Global, document: &Table) -> Result<Tariff, TariffFault>
        ensures { IsUnlessMemory result (spec.terms_of (table_view document.now)) }
    {
        let head = head_of(document)?;
        let shifts = shifts_at(alloc, document)?;
        let centres = rules_at(alloc, document, Key::Centre, MAX_CENTRES)?;
        Ok(Tariff {
            effective: head.effective,
            step: head.step,
            job: head.job,
            shifts,
            centres,
        })
    }

    /// Reads a tariff file, a TOML document. A text with several faults is answered with the first
    /// in the order of the keys; any answer may be `Memory` instead, where memory runs out.
    pub fn parse(alloc: Global, text: &str) -> Result<Tariff, TariffFault>
        ensures ok { IfOk result (λ tariff. terms_in text.now ≡ Ok tariff) }
        ensures refused { IfErr result (λ fault. fault ≢ TariffFault.Memory
            → terms_in text.now ≡ Err fault) }
    {
        if text.len() > MAX_TEXT {
            return Err(TariffFault::TooMany);
        }
        match toml::table_from_str(alloc, text) {
            Ok(document) => Tariff::of_document(alloc, &document),
            Err(error) if error.is_memory() => Err(TariffFault::Memory),
            Err(_) => Err(TariffFault::Syntax),
        }
    }
}
