//! What a tariff file says of the office, as it stands in the head of a bill.

ghost use Rattle.std.specs.Prelude.{◌≡◌, ◌≤◌, IfOk, option_map, string_bytes};
ghost use Rattle.std.specs.List.{list_all};
ghost use Rattle.toml.specs.View.{table_view};
ghost use Rattle.tariff_rules.specs.Letterhead as spec;
ghost use Rattle.tariff_rules.specs.Limits.{most_decimals};

use crate::document::member_at;
use std::alloc::{AllocError, Global};
use toml::Table;

/// The key of the office's name.
const OFFICE: &str = "office";

/// The key of the currency.
const CURRENCY: &str = "currency";

/// The key of the number of decimals.
const DECIMALS: &str = "decimals";

/// How many decimals are booked where a file does not say it.
const USUAL_DECIMALS: u8 = 2;

/// The most decimals that are booked, which are those of an amount.
const MAX_DECIMALS: i64 = 4;

/// The most characters of each text in a letterhead.
const MAX_LETTERS: usize = 40;

/// What stands in the head of a bill, where the tariff file says it: texts of 1 to 40 printable
/// characters of ASCII. Any other value is as if it were not there.
#[derive(Drop)]
pub struct Letterhead {
    /// The name of the office, at the key `office`.
    pub office: Option<String>,
    /// The currency of the amounts, at the key `currency`.
    pub currency: Option<String>,
    /// How many decimals of it are booked, at the key `decimals`: 0 to 4, and 2 where it says none.
    pub decimals: u8,
}

/// Whether a letterhead can show the character.
fn is_printable(character: u8) -> bool
    ensures { result ≡ spec.is_printable character }
{
    b' ' <= character && character <= b'~'
}

/// Whether it can show each character of the text.
fn has_printables(text: &str) -> bool
    ensures { result ≡ list_all spec.is_printable text.now }
{
    text.bytes().all(is_printable)
}

/// Whether it can show the text.
fn is_letters(text: &str) -> bool
    ensures { result ≡ spec.is_letters text.now }
{
    1 <= text.len() && text.len() <= MAX_LETTERS && has_printables(text)
}

/// The text at a key, where a letterhead can show it.
#[tactic(auto, unfolding(crate::specs::Letterhead::letters_at))]
fn letters_at(alloc: Global, document: &Table, key: &str) -> Result<Option<String>, AllocError>
    ensures { IfOk result (λ found. option_map (λ text. string_bytes text) found
        ≡ spec.letters_at (table_view document.now) key.now) }
{
    let Some(value) = member_at(document, key) else {
        return Ok(None);
    };
    match value.as_str() {
        Some(text) if is_letters(text) => Ok(Some(String::from_str(alloc, text)?)),
        _ => Ok(None),
    }
}

/// How many decimals are booked.
#[tactic(auto, unfolding(crate::specs::Letterhead::decimals_at))]
fn decimals_at(document: &Table) -> u8
    ensures value { result ≡ spec.decimals_at (table_view document.now) }
    ensures within { result ≤ most_decimals }
{
    let Some(value) = member_at(document, DECIMALS) else {
        return USUAL_DECIMALS;
    };
    match value.as_integer() {
        Some(decimals) if 0 <= decimals && decimals <= MAX_DECIMALS => decimals as u8,
        _ => USUAL_DECIMALS,
    }
}

impl Letterhead {
    /// A letterhead that says nothing.
    pub fn empty() -> Letterhead
        ensures { spec.letterhead_shown result ≡ spec.no_letterhead }
    {
        Letterhead {
            office: None,
            currency: None,
            decimals: USUAL_DECIMALS,
        }
    }

    /// The letterhead of a document.
    pub(crate) fn of_document(alloc: Global, document: &Table) -> Result<Letterhead, AllocError>
        ensures { IfOk result (λ letterhead.
            spec.letterhead_shown letterhead ≡ spec.letterhead_of (table_view document.now)) }
    {
        Ok(Letterhead {
            office: letters_at(alloc, document, OFFICE)?,
            currency: letters_at(alloc, document, CURRENCY)?,
            decimals: decimals_at(document),
        })
    }
}
