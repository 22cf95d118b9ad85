//! The text of a tariff that another took the place of. Rulings are read one at a time.

ghost use Rattle.std.specs.Prelude.{◌≡◌, IfOk, option_map, string_bytes};
ghost use Rattle.book_model.specs.Words.{ruling_shown, same_bytes};
ghost use Rattle.book_core.specs.Calls.{IsCall};
ghost use Rattle.sha2.specs.Sha256.{sha256};
ghost use Rattle.book_reports.specs.BookTexts.{report_outcome};
ghost use Rattle.book_reports.specs.ReplacedTexts as spec;

use crate::report::Report;
use book_core::{Ledger, LedgerFault, ListedRuling};
use book_lists::{RulingCursor, Step, fold};
use sha2::{Digest, Sha256};
use std::alloc::{AllocError, Global};

/// Looks for the text that was replaced of a tariff of this day, by its SHA-256.
#[derive(Drop)]
struct ReplacedStep {
    day: i32,
    digest: [u8; 32],
}

/// The text has that SHA-256.
fn has_digest(text: &str, digest: &[u8; 32]) -> bool
    ensures { result ≡ same_bytes (sha256 text.now) digest.now }
{
    Sha256::digest(text.as_bytes()) == *digest
}

/// The text of a tariff that was replaced is that one.
fn is_that(step: &ReplacedStep, day: i32, text: &str) -> bool
    ensures { result ≡ spec.is_that step.now.day step.now.digest day text.now }
{
    day == step.day && has_digest(text, &step.digest)
}

/// A copy of the text, if it is the one.
fn text_if(alloc: Global, is_it: bool, text: &str) -> Result<Option<String>, AllocError>
    ensures { IfOk result (λ found.
        option_map (λ copy. string_bytes copy) found ≡ spec.text_if is_it text.now) }
{
    if !is_it {
        return Ok(None);
    }
    let copy = String::from_str(alloc, text)?;
    Ok(Some(copy))
}

/// A copy of the text of a ruling, if that is the one.
fn text_in(
    alloc: Global,
    step: &ReplacedStep,
    ruling: &ListedRuling,
) -> Result<Option<String>, AllocError>
    ensures { IfOk result (λ found. option_map (λ copy. string_bytes copy) found
        ≡ spec.replaced_in step.now.day step.now.digest (ruling_shown ruling.now)) }
{
    match ruling {
        ListedRuling::Replaced { day, text, .. } => {
            let is_it = is_that(step, *day, text.as_str());
            text_if(alloc, is_it, text.as_str())
        }
        _ => Ok(None),
    }
}

/// What was found, or else what a later ruling has.
fn or_later(found: Option<String>, later: Option<String>) -> Option<String>
    ensures { option_map (λ text. string_bytes text) result ≡ spec.or_later
        (option_map (λ text. string_bytes text) found)
        (option_map (λ text. string_bytes text) later) }
{
    match found {
        Some(text) => Some(text),
        None => later,
    }
}

impl Step<ListedRuling> for ReplacedStep {
    ghost use Rattle.std.specs.Prelude.{◌≡◌, map, option_map, string_bytes};
    ghost use Rattle.book_model.specs.Words.{ruling_shown};
    ghost use Rattle.book_reports.specs.ReplacedTexts.{first_replaced};

    type State = Option<String>;

    ghost Takes = { λ step ruling. Unit {0} };

    ghost Has = { λ step found rulings. option_map (λ text. string_bytes text) found
        ≡ first_replaced step.day step.digest (map ruling_shown rulings) };

    fn begin(&self, _alloc: Global) -> Result<Option<String>, AllocError> {
        Ok(None)
    }

    fn add(
        &self,
        alloc: Global,
        found: &mut Option<String>,
        ruling: &ListedRuling,
    ) -> Result<(), LedgerFault> {
        let later = text_in(alloc, self, ruling)?;
        *found = or_later(found.take(), later);
        Ok(())
    }
}

/// The text of a tariff of a day that was replaced, if there is one of that SHA-256.
fn found_text<L: Ledger>(
    alloc: Global,
    ledger: &mut L,
    day: i32,
    digest: [u8; 32],
) -> Result<Option<String>, LedgerFault>
    ensures { IsCall (λ found. option_map (λ text. string_bytes text) found)
        (L.seen ledger.old) (L.seen ledger.new) result
        (spec.replaced_outcome (L.seen ledger.old).naming day digest) }
{
    fold(alloc, ledger, &RulingCursor, &ReplacedStep { day, digest })
}

/// The text of a tariff of a day that was replaced, by its SHA-256.
pub(crate) fn replaced_text<L: Ledger>(
    alloc: Global,
    ledger: &mut L,
    day: i32,
    digest: [u8; 32],
) -> Result<Vec<u8>, LedgerFault>
    ensures { IsCall (λ text. text.items) (L.seen ledger.old) (L.seen ledger.new) result
        (report_outcome (L.seen ledger.old).naming (Report.ReplacedText day digest)) }
{
    let found = found_text(alloc, ledger, day, digest)?;
    match found {
        Some(text) => Ok(text.into_bytes()),
        None => Err(LedgerFault::NoSuchTariff),
    }
}
