//! Which records are alone in their identity, and which are in dispute.

ghost use Rattle.std.specs.Prelude.{◌≡◌, ◌&&◌, not, ℕ, List, [], IfOk, map, filter, find, count_by};
ghost use Rattle.std.specs.Prelude.{nat_le};
ghost use Rattle.std.specs.BTreeMap.{values};
ghost use Rattle.std.specs.BTreeSet.{contains};
ghost use Rattle.std.specs.List.Sorted.{IsSorted};
ghost use Rattle.book_model.specs.Words.{by_bytes, same_bytes, dispute_shown, identity_by};
ghost use Rattle.book_model.specs.Words.{is_from};
ghost use Rattle.book_model.specs.RulingAnswers as answer;
ghost use Rattle.plain_ledger.specs.Plain as spec;
ghost use Rattle.plain_ledger.specs.Plain.{disputes_among, group_shown, entry_has_identity};
ghost use Rattle.plain_ledger.specs.Plain.{record_of, rulings_of, variant_at};

use crate::choices::was_withheld;
use crate::chosen::ChosenRecord;
use crate::held::HeldRecord;
use crate::identity::Identity;
use crate::shown::variant;
use book_model::{Dispute, Variant};
use std::alloc::{AllocError, Global};
use std::collections::{BTreeMap, BTreeSet};

/// The identity of each record, by name.
fn identities_of(
    alloc: Global,
    held: &BTreeMap<[u8; 32], HeldRecord>,
    adopted: Option<u16>,
) -> Result<Vec<Identity>, AllocError>
    ensures { IfOk result (λ identities. identities.items
        ≡ map (λ kept. identity_by (rulings_of [] adopted) (record_of kept))
        (values held.now)) }
{
    let mut identities = Vec::with_capacity(alloc, held.len())?;
    for kept in held.values() {
        identities.push(kept.identity_by(adopted))?;
    }
    Ok(identities)
}

/// The identities that are twice or more in a sorted list.
fn repeated(alloc: Global, sorted: &[Identity]) -> Result<BTreeSet<Identity>, AllocError>
    requires { IsSorted by_bytes sorted.now }
    ensures { IfOk result (λ repeated. (identity : List ℕ) → contains by_bytes repeated identity
        ≡ nat_le 2 (count_by (λ one. same_bytes one identity) sorted.now)) }
{
    let mut repeated = BTreeSet::new(alloc);
    for pair in sorted.windows(2) {
        if pair[0] == pair[1] {
            repeated.insert(pair[0])?;
        }
    }
    Ok(repeated)
}

/// The identities that two or more records have.
pub(crate) fn shared_identities(
    alloc: Global,
    held: &BTreeMap<[u8; 32], HeldRecord>,
    adopted: Option<u16>,
) -> Result<BTreeSet<Identity>, AllocError>
    ensures { IfOk result (spec.HasShared (rulings_of [] adopted) held.now.entries) }
{
    // Sorted, equal identities are neighbours: only what is shared goes into a set.
    let mut identities = identities_of(alloc, held, adopted)?;
    identities.sort_unstable();
    repeated(alloc, &identities)
}

/// One record alone has this identity.
pub(crate) fn is_lone(
    held: &BTreeMap<[u8; 32], HeldRecord>,
    adopted: Option<u16>,
    identity: &Identity,
) -> bool
    ensures { result ≡ spec.is_lone (rulings_of [] adopted) held.now.entries identity.now }
{
    held.values()
        .filter(|kept| kept.identity_by(adopted) == *identity)
        .count()
        == 1
}

/// There is nothing to choose: a record is alone in its identity, and its work was never withheld.
pub(crate) fn is_unopposed(
    held: &BTreeMap<[u8; 32], HeldRecord>,
    choices: &[ChosenRecord],
    adopted: Option<u16>,
    kept: &HeldRecord,
) -> bool
    ensures { result
        ≡ (spec.is_lone (rulings_of [] adopted) held.now.entries
        (identity_by (rulings_of [] adopted) (record_of kept.now))
        && not (answer.was_withheld (rulings_of choices.now adopted) (record_of kept.now))) }
{
    is_lone(held, adopted, &kept.identity_by(adopted)) && !was_withheld(choices, adopted, kept)
}

/// The identities that two or more records have, where none was chosen.
fn disputed_identities(
    alloc: Global,
    held: &BTreeMap<[u8; 32], HeldRecord>,
    choices: &[ChosenRecord],
    adopted: Option<u16>,
) -> Result<BTreeSet<Identity>, AllocError>
    ensures { IfOk result (spec.HasDisputed (rulings_of choices.now adopted) held.now.entries) }
{
    let mut disputed = shared_identities(alloc, held, adopted)?;
    for choice in choices {
        disputed.remove(&choice.identity_by(adopted));
    }
    Ok(disputed)
}

/// The records that are in dispute: by identity, then by name.
fn group_disputed(
    alloc: Global,
    held: &BTreeMap<[u8; 32], HeldRecord>,
    choices: &[ChosenRecord],
    adopted: Option<u16>,
) -> Result<BTreeMap<Identity, Vec<Variant>>, AllocError>
    ensures { IfOk result (λ groups. map group_shown groups.entries
        ≡ disputes_among (rulings_of choices.now adopted) held.now.entries) }
{
    let disputed = disputed_identities(alloc, held, choices, adopted)?;
    let mut groups: BTreeMap<Identity, Vec<Variant>> = BTreeMap::new(alloc);
    for (name, kept) in held {
        let identity = kept.identity_by(adopted);
        if disputed.contains(&identity) {
            groups
                .entry(identity)?
                .or_default()
                .push(variant(name, kept))?;
        }
    }
    Ok(groups)
}

/// The records of an identity, by name, as a list of disputes shows them.
pub(crate) fn members_with(
    alloc: Global,
    held: &BTreeMap<[u8; 32], HeldRecord>,
    adopted: Option<u16>,
    identity: &Identity,
) -> Result<Vec<Variant>, AllocError>
    ensures { IfOk result (λ members. members.items ≡ map variant_at
        (filter (entry_has_identity (rulings_of [] adopted) identity.now) held.now.entries)) }
{
    let mut members = Vec::new(alloc);
    for (name, kept) in held {
        if kept.identity_by(adopted) == *identity {
            members.push(variant(name, kept))?;
        }
    }
    Ok(members)
}

/// A dispute for each group.
fn list_disputes(
    alloc: Global,
    groups: BTreeMap<Identity, Vec<Variant>>,
) -> Result<Vec<Dispute>, AllocError>
    ensures { IfOk result (λ found.
        map dispute_shown found.items ≡ map group_shown groups.entries) }
{
    let mut found = Vec::new(alloc);
    for (identity, members) in groups {
        let identity = Vec::from_slice(alloc, identity.as_slice())?;
        found.push(Dispute { identity, members })?;
    }
    Ok(found)
}

/// The disputes among the records that are held: by identity, with their records by name.
pub(crate) fn disputes(
    alloc: Global,
    held: &BTreeMap<[u8; 32], HeldRecord>,
    choices: &[ChosenRecord],
    adopted: Option<u16>,
) -> Result<Vec<Dispute>, AllocError>
    ensures { IfOk result (λ found. map dispute_shown found.items
        ≡ disputes_among (rulings_of choices.now adopted) held.now.entries) }
{
    let groups = group_disputed(alloc, held, choices, adopted)?;
    list_disputes(alloc, groups)
}

/// The first of some disputes whose identity is these bytes or comes after them.
pub(crate) fn first_from(disputes: Vec<Dispute>, from: &[u8]) -> Option<Dispute>
    ensures { result ≡ find (λ dispute. is_from from.now dispute.identity.items) disputes.items }
{
    disputes
        .into_iter()
        .find(|dispute| !dispute.identity.as_slice().cmp(from).is_lt())
}
