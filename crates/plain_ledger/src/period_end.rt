//! How the open period ends: now, or by a close.

ghost use Rattle.std.specs.Prelude.{◌≡◌, ◌||◌, not, IfOk};
ghost use Rattle.std.specs.BTreeSet.{contains};
ghost use Rattle.book_model.specs.Words.{by_bytes};
ghost use Rattle.plain_ledger.specs.Treatments as spec;
ghost use Rattle.plain_ledger.specs.Treatments.{NamesOf, TreatmentsOf};

use crate::held::HeldRecord;
use crate::identity::Identity;
use crate::treatment::{Treatment, treatment_of};
use book_core::{is_after, is_through};
use std::alloc::{AllocError, Global};
use std::collections::{BTreeMap, BTreeSet};
use std::rc::RcSlice;

/// What decides how the open period has a record.
#[derive(Drop)]
pub(crate) struct PeriodEnd {
    /// The period in which the second rule of identity was adopted, if it was.
    pub(crate) adopted: Option<u16>,
    /// The identities that two or more records have.
    pub(crate) shared: BTreeSet<Identity>,
    /// The record that was chosen last of each identity.
    pub(crate) chosen: BTreeMap<Identity, RcSlice<u8>>,
    /// Whether the last choice of each identity says that its record counts.
    pub(crate) counts: BTreeMap<Identity, bool>,
    /// The day of the close before the period, if there was one.
    pub(crate) last: Option<i32>,
    /// The day through which it is closed; none where it stays open.
    pub(crate) through: Option<i32>,
}

impl PeriodEnd {
    /// The record is the one that was chosen last of its identity.
    fn is_choice(&self, kept: &HeldRecord) -> bool
        ensures { result ≡ spec.is_choice self.now kept.now }
    {
        match self.chosen.get(&kept.identity_by(self.adopted)) {
            Some(chosen) => kept.bytes.as_slice() == chosen.as_slice(),
            None => false,
        }
    }

    /// The last choice of the record's identity says that none of its work counts.
    fn is_none(&self, kept: &HeldRecord) -> bool
        ensures { result ≡ spec.is_none self.now kept.now }
    {
        match self.counts.get(&kept.identity_by(self.adopted)) {
            Some(counts) => !*counts,
            None => false,
        }
    }

    /// No other record has its identity, or it is the one that was chosen last of that.
    fn is_preferred(&self, kept: &HeldRecord) -> bool
        ensures { result
            ≡ (not (contains by_bytes self.now.shared (spec.identity_at self.now kept.now))
            || spec.is_choice self.now kept.now) }
    {
        let identity = kept.identity_by(self.adopted);
        !self.shared.contains(&identity) || self.is_choice(kept)
    }

    /// The record is charged at the end of the period.
    fn charges(&self, kept: &HeldRecord) -> bool
        ensures { result ≡ spec.charges self.now kept.now }
    {
        let is_undisputed = !self.is_none(kept) && self.is_preferred(kept);
        is_undisputed && is_through(self.through, kept.priced.day)
    }

    /// How the period has a record, which the last close charged or not.
    pub(crate) fn treatment(&self, was_posted: bool, kept: &HeldRecord) -> Option<Treatment>
        ensures { result ≡ spec.treatment_at self.now was_posted kept.now }
    {
        let is_new = is_after(self.last, kept.priced.day);
        treatment_of(self.charges(kept), was_posted, is_new)
    }

    /// The names of the records that are charged at the end of the period.
    pub(crate) fn charged_names(
        &self,
        alloc: Global,
        held: &BTreeMap<[u8; 32], HeldRecord>,
    ) -> Result<BTreeSet<[u8; 32]>, AllocError>
        ensures { IfOk result (NamesOf (λ entry. spec.charges self.now entry.1)
            held.now.entries) }
    {
        let mut names = BTreeSet::new(alloc);
        for (name, kept) in held {
            if self.charges(kept) {
                names.insert(*name)?;
            }
        }
        Ok(names)
    }

    /// How the period has each record at its end, by name.
    pub(crate) fn treatments(
        &self,
        alloc: Global,
        held: &BTreeMap<[u8; 32], HeldRecord>,
        posted: &BTreeSet<[u8; 32]>,
    ) -> Result<BTreeMap<[u8; 32], Treatment>, AllocError>
        ensures { IfOk result (TreatmentsOf
            (λ entry. spec.treatment_at self.now (contains by_bytes posted.now entry.0) entry.1)
            held.now.entries) }
    {
        let mut treatments = BTreeMap::new(alloc);
        for (name, kept) in held {
            if let Some(treatment) = self.treatment(posted.contains(name), kept) {
                treatments.insert(*name, treatment)?;
            }
        }
        Ok(treatments)
    }
}
