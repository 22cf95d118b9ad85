//! Plain ledgers, as a place in memory keeps them.

use crate::kept::KeptLedger;
use book_audit::Counts;
use book_model::ShaNames;
use plain_ledger::PlainLedger;
use std::alloc::Global;

impl KeptLedger for PlainLedger<ShaNames> {
    ghost use Rattle.std.specs.Prelude.{refl};
    ghost use Rattle.sha2.specs.Sha256.{sha256};

    ghost names = { λ bytes. sha256 bytes };

    fn begun(alloc: Global) -> Option<PlainLedger<ShaNames>> {
        PlainLedger::new(alloc, ShaNames).ok()
    }

    fn copied(&self, _alloc: Global) -> Option<PlainLedger<ShaNames>> {
        None
    }

    fn counted(&self, _alloc: Global) -> Option<Counts> {
        None
    }

    ghost stays = { λ books. record {
      book = refl;
      naming = refl;
      is_open = refl;
      honest = tt;
      books = tt;
    } };
}
