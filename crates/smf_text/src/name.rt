//! Names of centres and shifts.

ghost use Rattle.std.specs.Prelude.{◌≡◌, ◌↔◌, Some, IsSome, IfSome, nat_eq, refl, take};
ghost use Rattle.std.specs.List.{list_all};
ghost use Rattle.std.specs.Ordering.{nat_cmp};
ghost use Rattle.std.specs.Cmp.{partial_equiv_from_equiv};
ghost use Rattle.std.specs.Cmp.Lexicographic.{pointwise, slice_cmp, nat_list_eq_equiv, nat_list_cmp_total, texts_ties, texts_po};
ghost use Rattle.smf_text.specs.Names as spec;
ghost use Rattle.smf_text.specs.Names.{IsName, IsPadded, digits_value, longest_name};

use std::cmp::Ordering;
use std::marker::Model;
use std::{fmt, str};

/// The most characters that a name has.
pub const MAX_NAME: usize = 16;

/// The name of a centre or a shift: 1 to 16 characters of `A` to `Z`, `0` to `9` and `-`. A
/// contract sees it as its text.
#[derive(Clone, Copy)]
pub struct Name {
    /// The characters, followed by zeros.
    letters: [u8; MAX_NAME],
    /// How many characters there are.
    len: u8,
}

impl Model for Name {
    ghost use Rattle.std.specs.Prelude.{ℕ, List, take, length};
    ghost use Rattle.smf_text.specs.Names.{IsPadded, padded};

    ghost Value = { List ℕ };

    ghost view = { λ name. take name.len name.letters };

    ghost invariant = { λ name. IsPadded name.letters name.len };

    ghost inverse = { λ text. record { letters = padded text; len = length text } };

    ghost inverse_ok = { λ name kept i. record {
      letters = kept.zeros i;
      len = kept.lasts i;
    } };
}

/// Whether a name may have the character.
fn is_name_character(character: u8) -> bool
    ensures { result ≡ spec.is_name_character character }
{
    character.is_ascii_uppercase() || character.is_ascii_digit() || character == b'-'
}

/// Whether a name may have each character of the text.
fn has_name_characters(text: &str) -> bool
    ensures { result ≡ list_all spec.is_name_character text.now }
{
    text.bytes().all(is_name_character)
}

/// Whether the text is a name's.
fn is_name(text: &str) -> bool
    ensures { result ≡ spec.is_name text.now }
{
    1 <= text.len() && text.len() <= MAX_NAME && has_name_characters(text)
}

impl Name {
    /// The name with this text, `None` where the text is no name.
    pub fn of(text: &str) -> Option<Name>
        ensures succeeds { IsSome result ↔ IsName text.now }
        ensures value { IfSome result (λ name. name ≡ text.now) }
    {
        if !is_name(text) {
            return None;
        }
        let mut letters = [0; MAX_NAME];
        letters[..text.len()].copy_from_slice(text.as_bytes());
        Some(Name {
            letters,
            len: text.len() as u8,
        })
    }

    /// The name of these letters, so many characters and then zeros.
    pub fn of_letters(letters: [u8; MAX_NAME], len: u8) -> Name
        requires { IsPadded letters len }
        ensures { result ≡ take len letters }
    {
        Name { letters, len }
    }

    /// Its letters as a number, the first of them the highest: names are in the order of these.
    fn as_number(&self) -> u128
        ensures value { result ≡ digits_value longest_name self.now }
        ensures name { IsName self.now }
    {
        u128::from_be_bytes(self.letters)
    }

    /// The characters of its text.
    fn characters(&self) -> &[u8]
        ensures value { result.now ≡ self.now }
        ensures name { IsName result.now }
    {
        &self.letters[..self.len as usize]
    }

    /// The text, as tariff files have it and reports print it.
    pub fn text(&self) -> &str
        ensures value { result.now ≡ self.now }
        ensures name { IsName result.now }
    {
        match str::from_utf8(self.characters()) {
            Ok(text) => text,
            Err(_) => unreachable!(),
        }
    }
}

impl PartialEq for Name {
    ghost eq = { pointwise nat_eq };

    ghost laws = { partial_equiv_from_equiv nat_list_eq_equiv };

    fn eq(&self, other: &Name) -> bool {
        self.characters() == other.characters()
    }
}

impl Eq for Name {
    ghost laws = { nat_list_eq_equiv };
}

impl PartialOrd for Name {
    ghost partial_cmp = { λ a b. Some (slice_cmp nat_cmp a b) };

    ghost laws = { texts_po };

    fn partial_cmp(&self, other: &Name) -> Option<Ordering> {
        Some(self.cmp(other))
    }
}

impl Ord for Name {
    ghost cmp = { slice_cmp nat_cmp };

    ghost total = { nat_list_cmp_total };

    ghost matches_partial_cmp = { λ a b. refl };

    ghost matches_eq = { texts_ties };

    fn cmp(&self, other: &Name) -> Ordering {
        self.as_number().cmp(&other.as_number())
    }
}

impl fmt::Debug for Name {
    fn fmt<W: fmt::Write>(&self, f: &mut fmt::Formatter<W>) -> fmt::Result {
        f.write_str(self.text())
    }
}
