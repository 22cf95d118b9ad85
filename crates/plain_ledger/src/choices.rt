//! Which records were chosen of an identity, which of them was chosen last, and which works are
//! withheld.

ghost use Rattle.std.specs.Prelude.{◌≡◌, ◌&&◌, not, [], IfOk, filter, find, map, option_copied};
ghost use Rattle.std.specs.Prelude.{reverse};
ghost use Rattle.book_model.specs.Charged as spec;
ghost use Rattle.book_model.specs.RulingAnswers as answer;
ghost use Rattle.book_model.specs.Words.{choice_named};
ghost use Rattle.plain_ledger.specs.Choices.{AreLast, DoCount, choice_of, is_of};
ghost use Rattle.plain_ledger.specs.Plain.{record_of, rulings_of};

use crate::chosen::ChosenRecord;
use crate::held::HeldRecord;
use crate::identity::Identity;
use book_core::name_of;
use book_model::{NamedChoice, Naming};
use std::alloc::{AllocError, Global};
use std::collections::BTreeMap;
use std::rc::RcSlice;

/// The last choice of an identity, by the rule in force.
fn last_of<'a>(
    choices: &'a [ChosenRecord],
    adopted: Option<u16>,
    identity: &Identity,
) -> Option<&'a ChosenRecord>
    ensures { option_copied result
        ≡ find (is_of (rulings_of [] adopted) identity.now) (reverse choices.now) }
{
    choices
        .iter()
        .rev()
        .find(|choice| *identity == choice.identity_by(adopted))
}

/// Of the choices of a record's identity the last one is the record's own.
pub(crate) fn is_chosen(choices: &[ChosenRecord], adopted: Option<u16>, held: &HeldRecord) -> bool
    ensures { result ≡ spec.is_chosen (rulings_of choices.now adopted) (record_of held.now) }
{
    match last_of(choices, adopted, &held.identity_by(adopted)) {
        Some(choice) => held.bytes.as_slice() == choice.bytes.as_slice(),
        None => false,
    }
}

/// Of the choices of a record's identity the last one says that none of its work counts.
pub(crate) fn is_withheld(choices: &[ChosenRecord], adopted: Option<u16>, held: &HeldRecord) -> bool
    ensures { result ≡ spec.is_withheld (rulings_of choices.now adopted) (record_of held.now) }
{
    match last_of(choices, adopted, &held.identity_by(adopted)) {
        Some(choice) => !choice.counts,
        None => false,
    }
}

/// Some choice says that none of a record's work counts.
pub(crate) fn was_withheld(
    choices: &[ChosenRecord],
    adopted: Option<u16>,
    held: &HeldRecord,
) -> bool
    ensures { result ≡ answer.was_withheld (rulings_of choices.now adopted) (record_of held.now) }
{
    let identity = held.identity_by(adopted);
    for choice in choices {
        if choice.withholds(adopted, &identity) {
            return true;
        }
    }
    false
}

/// Of the choices of a record's identity the last one is the record's own, and it counts.
pub(crate) fn is_current(choices: &[ChosenRecord], adopted: Option<u16>, held: &HeldRecord) -> bool
    ensures { result ≡ (spec.is_chosen (rulings_of choices.now adopted) (record_of held.now)
        && not (spec.is_withheld (rulings_of choices.now adopted) (record_of held.now))) }
{
    is_chosen(choices, adopted, held) && !is_withheld(choices, adopted, held)
}

/// Whether the last choice of each identity says that its record counts.
pub(crate) fn last_counts(
    alloc: Global,
    choices: &[ChosenRecord],
    adopted: Option<u16>,
) -> Result<BTreeMap<Identity, bool>, AllocError>
    ensures { IfOk result (λ counts. DoCount (rulings_of choices.now adopted) counts) }
{
    let mut counts = BTreeMap::new(alloc);
    for choice in choices {
        counts.insert(choice.identity_by(adopted), choice.counts)?;
    }
    Ok(counts)
}

/// The record that was chosen last of each identity.
pub(crate) fn last_chosen(
    alloc: Global,
    choices: &[ChosenRecord],
    adopted: Option<u16>,
) -> Result<BTreeMap<Identity, RcSlice<u8>>, AllocError>
    ensures { IfOk result (λ records. AreLast (rulings_of choices.now adopted) records) }
{
    let mut records = BTreeMap::new(alloc);
    for choice in choices {
        records.insert(choice.identity_by(adopted), choice.bytes.clone()?)?;
    }
    Ok(records)
}

/// The choices of records of an identity, in the order in which they came.
pub(crate) fn choices_with<N: Naming>(
    alloc: Global,
    naming: &N,
    choices: &[ChosenRecord],
    adopted: Option<u16>,
    identity: &Identity,
) -> Result<Vec<NamedChoice>, AllocError>
    ensures { IfOk result (λ named. named.items
        ≡ map (λ choice. choice_named (N.name_of naming.now) (choice_of choice))
        (filter (is_of (rulings_of [] adopted) identity.now) choices.now)) }
{
    let mut named = Vec::new(alloc);
    for choice in choices {
        if *identity == choice.identity_by(adopted) {
            named.push(NamedChoice {
                period: choice.period,
                name: name_of(naming, &choice.bytes),
                counts: choice.counts,
            })?;
        }
    }
    Ok(named)
}
