ghost use Rattle.std.specs.Prelude.{◌≡◌, length, take};
ghost use Rattle.std.specs.Rc.{rc_slice_items};
ghost use Rattle.book_model.specs.Words.{identity_length, identity2_length, identity_of};
ghost use Rattle.book_model.specs.Words.{identity2_of, IsPriced, IsUsageRecord};

use crate::identity::Identity;
use book_core::{AcceptedTariff, is_last_begun};
use smf_type30::Type30;
use std::alloc::{AllocError, Global};
use std::rc::RcSlice;
use tariff_rules::{Priced, Tariff, price};

/// A record that a plain ledger holds, with what its lists ask of it.
#[derive(Drop)]
pub(crate) struct HeldRecord {
    pub(crate) bytes: RcSlice<u8>,
    /// Which work it measures, by the second rule. By the first rule it is a prefix of this.
    pub(crate) identity: [u8; 32],
    pub(crate) priced: Priced,
    ghost is_usage: { IsUsageRecord (rc_slice_items bytes) },
    ghost first: { take identity_length identity ≡ identity_of (rc_slice_items bytes) },
    ghost second: { identity ≡ identity2_of (rc_slice_items bytes) },
    ghost identity_len: { length identity ≡ identity2_length },
    ghost priced_is: { IsPriced priced },
}

impl HeldRecord {
    ghost use Rattle.std.specs.Prelude.{◌≡◌, [], IfOk};
    ghost use Rattle.book_model.specs.Words as word;
    ghost use Rattle.book_model.specs.Words.{IsPriced, IsUsageRecord, identity_by};
    ghost use Rattle.plain_ledger.specs.Plain.{record_of, rulings_of};
    ghost use Rattle.plain_ledger.specs.Repricing.{price_anew, price_replaced};

    /// A copy of a record, with its price.
    pub(crate) fn new(
        alloc: Global,
        usage: &Type30<'_>,
        bytes: &[u8],
        priced: Priced,
    ) -> Result<HeldRecord, AllocError>
        requires same { usage.now ≡ bytes.now }
        requires usage { IsUsageRecord bytes.now }
        requires priced { IsPriced priced }
        ensures bytes { IfOk result (λ held. record_of held ≡ bytes.now) }
        ensures priced { IfOk result (λ held. held.priced ≡ priced) }
    {
        Ok(HeldRecord {
            bytes: RcSlice::from_slice(alloc, bytes)?,
            identity: usage.identity2(),
            priced,
        })
    }

    /// The fields of the record.
    pub(crate) fn usage(&self) -> Type30<'_>
        ensures { result ≡ record_of self.now }
    {
        Type30::of_usage(&self.bytes)
    }

    /// Which work the record measures, by the rule in force.
    pub(crate) fn identity_by(&self, adopted: Option<u16>) -> Identity
        ensures { result ≡ identity_by (rulings_of [] adopted) (record_of self.now) }
    {
        Identity::in_force(adopted, &self.identity)
    }

    /// What the record costs by a tariff, whatever its first day.
    pub(crate) fn price_by(&self, tariff: &Tariff) -> Priced
        ensures value { result ≡ word.price_by tariff.now (record_of self.now) }
        ensures bounds { IsPriced result }
    {
        price(tariff, &self.usage())
    }

    /// What the record costs under a tariff that begins later than every other one.
    pub(crate) fn price_under(&self, tariff: &Tariff) -> Priced
        ensures value { result ≡ price_anew tariff.now self.now }
        ensures bounds { IsPriced result }
    {
        if self.priced.day < tariff.effective() {
            self.priced
        } else {
            self.price_by(tariff)
        }
    }

    /// What the record costs under a tariff in the place of the one, of these, that begins on its
    /// first day.
    pub(crate) fn price_replaced(&self, tariffs: &[AcceptedTariff], tariff: &Tariff) -> Priced
        ensures value { result ≡ price_replaced tariffs.now tariff.now self.now }
        ensures bounds { IsPriced result }
    {
        if is_last_begun(tariffs, tariff, &self.usage()) {
            self.price_by(tariff)
        } else {
            self.priced
        }
    }

    /// It costs that from now on.
    pub(crate) fn replace_price(&mut self, tariffs: &[AcceptedTariff], tariff: &Tariff)
        ensures bytes { record_of self.new ≡ record_of self.old }
        ensures priced { self.new.priced ≡ price_replaced tariffs.now tariff.now self.old }
    {
        self.priced = self.price_replaced(tariffs, tariff);
    }

    /// It costs what it does under a tariff that begins later than every other one.
    pub(crate) fn reprice(&mut self, tariff: &Tariff)
        ensures bytes { record_of self.new ≡ record_of self.old }
        ensures priced { self.new.priced ≡ price_anew tariff.now self.old }
    {
        self.priced = self.price_under(tariff);
    }
}
