//! Identities as keys of sets and maps.

ghost use Rattle.std.specs.Prelude.{◌≡◌, Some, nat_eq, refl};
ghost use Rattle.std.specs.Ordering.{nat_cmp};
ghost use Rattle.std.specs.Cmp.{partial_equiv_from_equiv};
ghost use Rattle.std.specs.Cmp.Lexicographic.{pointwise, slice_cmp, nat_list_eq_equiv};
ghost use Rattle.std.specs.Cmp.Lexicographic.{nat_list_cmp_total, texts_ties, texts_po};

use std::cmp::Ordering;
use std::marker::Model;

/// The bytes of an identity by the first rule.
const FIRST_LENGTH: usize = 24;

/// The bytes of an identity by the second rule.
const SECOND_LENGTH: usize = 32;

/// Which work a record measures, by the rule in force. A contract sees it as its bytes.
#[derive(Clone, Copy)]
pub(crate) struct Identity {
    /// The bytes, followed by zeros.
    bytes: [u8; SECOND_LENGTH],
    /// How many bytes there are.
    len: u8,
}

impl Model for Identity {
    ghost use Rattle.std.specs.Prelude.{ℕ, List, take, length};
    ghost use Rattle.plain_ledger.specs.PaddedIdentities.{IsPaddedIdentity, padded_identity};

    ghost Value = { List ℕ };

    ghost view = { λ identity. take identity.len identity.bytes };

    ghost invariant = { λ identity. IsPaddedIdentity identity.bytes identity.len };

    ghost inverse = { λ bytes. record { bytes = padded_identity bytes; len = length bytes } };

    ghost inverse_ok = { λ identity kept i. record {
      bytes = kept.zeros i;
      len = kept.lasts i;
    } };
}

impl Identity {
    ghost use Rattle.book_core.specs.Identities.{identity_in};

    /// The identity in force, of work that has this one by the second rule. The first rule takes
    /// a prefix of it.
    pub(crate) fn in_force(adopted: Option<u16>, second: &[u8; 32]) -> Identity
        ensures { result ≡ identity_in adopted second.now }
    {
        if adopted.is_some() {
            return Identity {
                bytes: *second,
                len: SECOND_LENGTH as u8,
            };
        }
        let mut bytes = [0; SECOND_LENGTH];
        bytes[..FIRST_LENGTH].copy_from_slice(&second[..FIRST_LENGTH]);
        Identity {
            bytes,
            len: FIRST_LENGTH as u8,
        }
    }

    /// The bytes of the identity.
    pub(crate) fn as_slice(&self) -> &[u8]
        ensures { result.now ≡ self.now }
    {
        &self.bytes[..self.len as usize]
    }
}

impl PartialEq for Identity {
    ghost eq = { pointwise nat_eq };

    ghost laws = { partial_equiv_from_equiv nat_list_eq_equiv };

    fn eq(&self, other: &Identity) -> bool {
        self.as_slice() == other.as_slice()
    }
}

impl Eq for Identity {
    ghost laws = { nat_list_eq_equiv };
}

impl PartialOrd for Identity {
    ghost partial_cmp = { λ a b. Some (slice_cmp nat_cmp a b) };

    ghost laws = { texts_po };

    fn partial_cmp(&self, other: &Identity) -> Option<Ordering> {
        Some(self.cmp(other))
    }
}

impl Ord for Identity {
    ghost cmp = { slice_cmp nat_cmp };

    ghost total = { nat_list_cmp_total };

    ghost matches_partial_cmp = { λ a b. refl };

    ghost matches_eq = { texts_ties };

    fn cmp(&self, other: &Identity) -> Ordering {
        self.as_slice().cmp(other.as_slice())
    }
}
