ghost use Rattle.std.specs.Prelude.{◌≡◌, take};
ghost use Rattle.std.specs.Rc.{rc_slice_items};
ghost use Rattle.book_model.specs.Words.{identity_length, identity_of, identity2_of, IsUsageRecord};

use crate::held::HeldRecord;
use crate::identity::Identity;
use std::alloc::AllocError;
use std::rc::RcSlice;

/// A choice: the record that was named, which shares its bytes with the one that is held, whether
/// it counts from then on, or no record of its work does, and the period that was open then.
#[derive(Drop)]
pub(crate) struct ChosenRecord {
    pub(crate) bytes: RcSlice<u8>,
    /// Which work it measures, by the second rule. By the first rule it is a prefix of this.
    pub(crate) identity: [u8; 32],
    pub(crate) counts: bool,
    pub(crate) period: u16,
    ghost is_usage: { IsUsageRecord (rc_slice_items bytes) },
    ghost first: { take identity_length identity ≡ identity_of (rc_slice_items bytes) },
    ghost second: { identity ≡ identity2_of (rc_slice_items bytes) },
}

impl ChosenRecord {
    ghost use Rattle.std.specs.Prelude.{◌≡◌, [], IfOk};
    ghost use Rattle.book_model.specs.Words.{identity_by};
    ghost use Rattle.plain_ledger.specs.Choices as spec;
    ghost use Rattle.plain_ledger.specs.Plain.{record_of, rulings_of};

    /// The choice of a record that is held, or of none of its work, while a period is open.
    pub(crate) fn new(
        held: &HeldRecord,
        counts: bool,
        period: u16,
    ) -> Result<ChosenRecord, AllocError>
        ensures bytes { IfOk result (λ choice. rc_slice_items choice.bytes ≡ record_of held.now) }
        ensures counts { IfOk result (λ choice. choice.counts ≡ counts) }
        ensures period { IfOk result (λ choice. choice.period ≡ period) }
    {
        Ok(ChosenRecord {
            bytes: held.bytes.clone()?,
            identity: held.identity,
            counts,
            period,
        })
    }

    /// Which work the record measures, by the rule in force.
    pub(crate) fn identity_by(&self, adopted: Option<u16>) -> Identity
        ensures { result
            ≡ identity_by (rulings_of [] adopted) (rc_slice_items self.now.bytes) }
    {
        Identity::in_force(adopted, &self.identity)
    }

    /// It says that none of the identity counts.
    pub(crate) fn withholds(&self, adopted: Option<u16>, identity: &Identity) -> bool
        ensures { result ≡ spec.withholds (rulings_of [] adopted) identity.now self.now }
    {
        !self.counts && *identity == self.identity_by(adopted)
    }
}
