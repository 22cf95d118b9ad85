//! How the books of a row name records.

use book_core::{Naming, ShaNames};

/// Names records as the program does, or gives every record one name.
#[derive(Clone, Copy)]
pub(crate) struct Names {
    has_one: bool,
}

/// Those that the program gives.
pub(crate) const SHA_NAMES: Names = Names { has_one: false };

impl Names {
    /// Those of a row that begins with these words.
    pub(crate) fn of(words: &[&str]) -> Names {
        Names {
            has_one: words.starts_with(&["one-name"]),
        }
    }
}

impl Naming for Names {
    ghost use Rattle.std.specs.Prelude.{◌≡◌, if◌then◌else◌, length, refl, replicate, true, false};
    ghost use Rattle.sha2.proofs.Facts256.{length-sha256};
    ghost use Rattle.sha2.specs.Sha256.{sha256};

    ghost name_of = { λ names bytes. if names.has_one then replicate 32 7 else sha256 bytes };

    ghost wide = { λ names bytes.
        elim names.has_one as (λ one. length (if one then replicate 32 7 else sha256 bytes) ≡ 32)
        [ true ↦ refl | false ↦ length-sha256 bytes ] };

    fn name(&self, bytes: &[u8]) -> [u8; 32] {
        if self.has_one {
            [7; 32]
        } else {
            ShaNames.name(bytes)
        }
    }
}
