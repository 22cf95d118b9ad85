//! Periods that are read: what the records cost that they count, and their lines.

ghost use Rattle.std.specs.Prelude.{◌≡◌, All, IfOk, filter, map};
ghost use Rattle.std.specs.List.{filter_map};
ghost use Rattle.book_model.specs.Words.{IsPriced, price_by};
ghost use Rattle.plain_ledger.specs.Plain.{record_of};
ghost use Rattle.plain_ledger.specs.PlainDetails.{detail_at};
ghost use Rattle.plain_ledger.specs.Treatments as spec;
ghost use Rattle.plain_ledger.specs.Treatments.{is_counted, line_at};

use crate::held::HeldRecord;
use crate::period_end::PeriodEnd;
use crate::shown::{detail, line};
use crate::treatment::{ClosedPeriod, Treatment};
use book_model::{Detail, Line};
use std::alloc::{AllocError, Global};
use std::collections::{BTreeMap, BTreeSet};
use tariff_rules::{Priced, Tariff};

/// A period that is read.
#[derive(Drop)]
pub(crate) enum Period<'a> {
    /// As it was at its close.
    Closed(&'a ClosedPeriod),
    /// As it would end now.
    Open(PeriodEnd),
}

impl Period<'_> {
    /// How the period has the record of a name, which the last close charged or not.
    fn treatment(
        &self,
        posted: &BTreeSet<[u8; 32]>,
        name: &[u8; 32],
        kept: &HeldRecord,
    ) -> Option<Treatment>
        ensures { result ≡ spec.treatment_in self.now posted.now (name.now, kept.now) }
    {
        match self {
            Period::Closed(closed) => closed.treatments.get(name).copied(),
            Period::Open(period_end) => period_end.treatment(posted.contains(name), kept),
        }
    }

    /// The period counts the record of a name.
    fn counts(&self, posted: &BTreeSet<[u8; 32]>, name: &[u8; 32], kept: &HeldRecord) -> bool
        ensures { result ≡ is_counted (spec.treatment_in self.now posted.now (name.now, kept.now)) }
    {
        matches!(self.treatment(posted, name, kept), Some(Treatment::Counted))
    }

    /// What the records cost that the period counts, by name.
    pub(crate) fn prices(
        &self,
        alloc: Global,
        held: &BTreeMap<[u8; 32], HeldRecord>,
        posted: &BTreeSet<[u8; 32]>,
    ) -> Result<Vec<Priced>, AllocError>
        ensures { IfOk result (λ prices. prices.items ≡ map (λ entry. entry.1.priced)
            (filter (λ entry. is_counted (spec.treatment_in self.now posted.now entry))
            held.now.entries)) }
    {
        let mut prices = Vec::new(alloc);
        for (name, kept) in held {
            if self.counts(posted, name, kept) {
                prices.push(kept.priced)?;
            }
        }
        Ok(prices)
    }

    /// What the records would cost by another tariff that the period counts, by name.
    pub(crate) fn prices_under(
        &self,
        alloc: Global,
        held: &BTreeMap<[u8; 32], HeldRecord>,
        posted: &BTreeSet<[u8; 32]>,
        tariff: &Tariff,
    ) -> Result<Vec<Priced>, AllocError>
        ensures prices { IfOk result (λ prices. prices.items
            ≡ map (λ entry. price_by tariff.now (record_of entry.1))
            (filter (λ entry. is_counted (spec.treatment_in self.now posted.now entry))
            held.now.entries)) }
        ensures bounds { IfOk result (λ prices. All IsPriced prices.items) }
    {
        let mut prices = Vec::new(alloc);
        for (name, kept) in held {
            if self.counts(posted, name, kept) {
                prices.push(kept.price_by(tariff))?;
            }
        }
        Ok(prices)
    }

    /// The details of the records that the period counts, by name.
    pub(crate) fn details(
        &self,
        alloc: Global,
        held: &BTreeMap<[u8; 32], HeldRecord>,
        posted: &BTreeSet<[u8; 32]>,
    ) -> Result<Vec<Detail>, AllocError>
        ensures { IfOk result (λ details. details.items ≡ map detail_at
            (filter (λ entry. is_counted (spec.treatment_in self.now posted.now entry))
            held.now.entries)) }
    {
        let mut details = Vec::new(alloc);
        for (name, kept) in held {
            if self.counts(posted, name, kept) {
                details.push(detail(name, kept))?;
            }
        }
        Ok(details)
    }

    /// The lines of the period, by name.
    pub(crate) fn lines(
        &self,
        alloc: Global,
        held: &BTreeMap<[u8; 32], HeldRecord>,
        posted: &BTreeSet<[u8; 32]>,
    ) -> Result<Vec<Line>, AllocError>
        ensures { IfOk result (λ lines. lines.items ≡ filter_map
            (λ entry. line_at (spec.treatment_in self.now posted.now entry) entry)
            held.now.entries) }
    {
        let mut lines = Vec::new(alloc);
        for (name, kept) in held {
            if let Some(line) = line(self.treatment(posted, name, kept), name, kept) {
                lines.push(line)?;
            }
        }
        Ok(lines)
    }
}
