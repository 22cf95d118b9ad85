//! The bytes of a record, and what they say.

ghost use Rattle.std.specs.Prelude.{◌≡◌, IfOk, None, OnOk, Some};
ghost use Rattle.tariff_rules.specs.Price.{IsPriced};
ghost use Rattle.book_audit.specs.Data.{SaysData, price_of};
ghost use Rattle.book_audit.specs.Rules.{identity_under};

use crate::finding::{Place, Wrong};
use crate::rulings::Rulings;
use crate::stop::{Stop, unsound};
use book_model::{Naming, ShaNames};
use smf_frames::MAX_DATA;
use smf_type30::{Class, Type30, class};
use std::alloc::{AllocError, Global};
use tariff_rules::price;
use tree_tables::{StoredRecord, record_with};

/// What is wrong with a record's identity and price, by its bytes and the tariffs.
fn wrong_by_usage(rulings: &Rulings, stored: &StoredRecord, usage: &Type30<'_>) -> Option<Wrong>
    ensures identity { result ≡ None
        → stored.now.identity.items ≡ identity_under rulings.now.rule usage.now }
    ensures price { result ≡ None
        → price_of rulings.now.tariffs.items usage.now ≡ Some stored.now.priced }
    ensures priced { result ≡ None → IsPriced stored.now.priced }
{
    if !rulings.rule.is_identity(&stored.identity, usage) {
        return Some(Wrong::Identity);
    }
    let Some(tariff) = rulings.tariff_on(usage.moment().day) else {
        return Some(Wrong::Unpriced);
    };
    if price(tariff, usage) != stored.priced {
        return Some(Wrong::Price);
    }
    None
}

/// What is wrong with a record, by its data and the tariffs.
fn wrong_by_data(
    alloc: Global,
    rulings: &Rulings,
    stored: &StoredRecord,
) -> Result<Option<Wrong>, AllocError>
    ensures says { IfOk result (λ wrong. wrong ≡ None → SaysData rulings.now stored.now) }
    ensures priced { IfOk result (λ wrong. wrong ≡ None → IsPriced stored.now.priced) }
{
    if ShaNames.name(&stored.data_bytes) != stored.name {
        return Ok(Some(Wrong::Name));
    }
    if stored.data_bytes.len() > MAX_DATA {
        return Ok(Some(Wrong::NoUsage));
    }
    let bytes = record_with(alloc, &stored.data_bytes)?;
    if class(&bytes) != Class::Usage {
        return Ok(Some(Wrong::NoUsage));
    }
    let usage = Type30::of_usage(&bytes);
    Ok(wrong_by_usage(rulings, stored, &usage))
}

/// The name, identity and price of a record are those of its data.
pub(crate) fn check_data(
    alloc: Global,
    rulings: &Rulings,
    stored: &StoredRecord,
) -> Result<(), Stop>
    ensures says { OnOk result (SaysData rulings.now stored.now) }
    ensures priced { OnOk result (IsPriced stored.now.priced) }
{
    match wrong_by_data(alloc, rulings, stored)? {
        Some(wrong) => Err(unsound(Place::Record(stored.name), wrong)),
        None => Ok(()),
    }
}
