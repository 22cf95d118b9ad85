//! The name of a record, as a text spells it.

ghost use Rattle.std.specs.Prelude.{◌≡◌, ℕ, List, Some, length};
ghost use Rattle.hex.specs.Hex.{IsBytes, encode_lower};
ghost use Rattle.book_reports.specs.RecordNames.{name_in, name_length};

use hex::FromHex;

/// The name that a text spells: the SHA-256 of a record's data, as 64 hexadecimal digits of either
/// case.
pub fn name_of_text(text: &str) -> Option<[u8; 32]>
    ensures read { result ≡ name_in text.now }
    // A name that is copied from a list is the name in that list.
    ensures copied { (name : List ℕ) → length name ≡ name_length → IsBytes name
        → text.now ≡ encode_lower name → result ≡ Some name }
{
    <[u8; 32] as FromHex>::from_hex(text).ok()
}
