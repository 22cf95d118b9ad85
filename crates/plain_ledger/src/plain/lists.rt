//! The lists that are read of a plain ledger.

ghost use Rattle.std.specs.Prelude.{◌≡◌};
ghost use Rattle.plain_ledger.specs.PlainDetails as spec;

use super::PlainBooks;
use crate::charge_rows::{are_too_dear, charge_rows};
use crate::choices::{last_chosen, last_counts};
use crate::identities::{disputes, first_from, shared_identities};
use crate::period::Period;
use crate::period_end::PeriodEnd;
use book_core::{comes_after, is_asked, sort_details, sort_lines};
use book_model::{ChargeRow, Detail, Dispute, LedgerFault, Line, Naming};
use smf_text::Name;
use std::alloc::AllocError;
use tariff_rules::Tariff;

/// The detail is asked for, and comes after the last one.
fn is_sought(centre: &Option<Name>, last: &Option<Detail>, detail: &Detail) -> bool
    ensures { result ≡ spec.is_sought centre.now last.now detail.now }
{
    is_asked(*centre, detail) && comes_after(*last, detail)
}

/// The first of some details that comes after the last one, of the centre that is named or of all.
fn next_of(details: &[Detail], centre: Option<Name>, last: Option<Detail>) -> Option<Detail>
    ensures { result ≡ spec.next_among centre last details.now }
{
    for detail in details {
        if is_sought(&centre, &last, detail) {
            return Some(*detail);
        }
    }
    None
}

impl<N: Naming + Drop> PlainBooks<N> {
    ghost use Rattle.std.specs.Prelude.{◌≡◌, All, IfOk, map, ok_or, option_map};
    ghost use Rattle.book_model.specs.Words.{IsDay, Answers, period_of, AreDisputes, dispute_shown};
    ghost use Rattle.book_model.specs.Words.{AreLines, adjustments_outcome, charges_outcome};
    ghost use Rattle.book_model.specs.Words.{disputes_outcome, periods_outcome, AreRows};
    ghost use Rattle.book_model.specs.Words.{ShowsDispute, dispute_outcome, what_if_outcome};
    ghost use Rattle.book_model.specs.Words.{ShowsDetail, next_detail_outcome};
    ghost use Rattle.plain_ledger.specs.Treatments.{IsPeriodEnd};
    ghost use Rattle.plain_ledger.specs.PlainBook.{book_in, naming_in, period_in};

    /// How the open period ends through a day, or, where there is none, now.
    pub(super) fn period_end(&self, through: Option<i32>) -> Result<PeriodEnd, AllocError>
        ensures { IfOk result (IsPeriodEnd self.now.held.entries (book_in self.now).rulings through) }
    {
        let adopted = self.rulings.adopted();
        Ok(PeriodEnd {
            adopted,
            shared: shared_identities(self.alloc, &self.held, adopted)?,
            chosen: last_chosen(self.alloc, &self.choices, adopted)?,
            counts: last_counts(self.alloc, &self.choices, adopted)?,
            last: self.rulings.last_close(),
            through,
        })
    }

    /// A period by its number.
    fn period(&self, number: u16) -> Result<Period<'_>, LedgerFault>
        ensures { Answers (period_in self.now) result
            (ok_or (period_of (book_in self.now) number) LedgerFault.NoSuchPeriod) }
    {
        if number == 0 || self.rulings.open_number() < number {
            return Err(LedgerFault::NoSuchPeriod);
        }
        match self.closed.get(number as usize - 1) {
            Some(closed) => Ok(Period::Closed(closed)),
            None => Ok(Period::Open(self.period_end(None)?)),
        }
    }

    /// The charge rows of a period.
    pub(crate) fn charge_rows(&self, number: u16) -> Result<Vec<ChargeRow>, LedgerFault>
        ensures rows { Answers (λ rows. rows.items) result
            (charges_outcome number (book_in self.now)).answer }
        ensures shown { IfOk result (λ rows. AreRows rows.items) }
    {
        let period = self.period(number)?;
        let prices = period.prices(self.alloc, &self.held, &self.posted)?;
        Ok(charge_rows(self.alloc, &prices)?)
    }

    /// The charge rows that a period would have by another tariff.
    pub(crate) fn charge_rows_under(
        &self,
        number: u16,
        tariff: &Tariff,
    ) -> Result<Vec<ChargeRow>, LedgerFault>
        ensures rows { Answers (λ rows. rows.items) result
            (what_if_outcome number tariff.now (book_in self.now)).answer }
        ensures shown { IfOk result (λ rows. AreRows rows.items) }
    {
        let period = self.period(number)?;
        let prices = period.prices_under(self.alloc, &self.held, &self.posted, tariff)?;
        if are_too_dear(&prices) {
            return Err(LedgerFault::Full);
        }
        Ok(charge_rows(self.alloc, &prices)?)
    }

    /// The adjustment lines of a period.
    pub(crate) fn lines(&self, number: u16) -> Result<Vec<Line>, LedgerFault>
        ensures lines { Answers (λ lines. lines.items) result (adjustments_outcome
            (N.name_of (naming_in self.now)) number (book_in self.now)).answer }
        ensures shown { IfOk result (λ lines. AreLines lines.items) }
    {
        let period = self.period(number)?;
        let mut lines = period.lines(self.alloc, &self.held, &self.posted)?;
        sort_lines(&mut lines);
        Ok(lines)
    }

    /// The first detail of a period after one. All are made for it, as the books are in memory
    /// anyway.
    pub(crate) fn detail_after(
        &self,
        number: u16,
        centre: Option<Name>,
        last: Option<Detail>,
    ) -> Result<Option<Detail>, LedgerFault>
        ensures detail { Answers (λ found. found) result (next_detail_outcome
            (N.name_of (naming_in self.now)) number centre last (book_in self.now)).answer }
        ensures shown { IfOk result ShowsDetail }
    {
        let period = self.period(number)?;
        let mut details = period.details(self.alloc, &self.held, &self.posted)?;
        sort_details(&mut details);
        Ok(next_of(&details, centre, last))
    }

    /// The identities in dispute, with their records.
    pub(crate) fn disputes_held(&self) -> Result<Vec<Dispute>, LedgerFault>
        ensures disputes { Answers (λ found. map dispute_shown found.items) result
            (disputes_outcome (N.name_of (naming_in self.now)) (book_in self.now)).answer }
        ensures shown { IfOk result (λ found. AreDisputes (map dispute_shown found.items)) }
    {
        let adopted = self.rulings.adopted();
        Ok(disputes(self.alloc, &self.held, &self.choices, adopted)?)
    }

    /// The first dispute from some bytes on. All are made for it, as the books are in memory anyway.
    pub(crate) fn dispute_held(&self, from: &[u8]) -> Result<Option<Dispute>, LedgerFault>
        ensures dispute { Answers (λ found. option_map dispute_shown found) result
            (dispute_outcome (N.name_of (naming_in self.now)) from.now (book_in self.now)).answer }
        ensures shown { IfOk result ShowsDispute }
    {
        let rule = self.rulings.adopted();
        let found = disputes(self.alloc, &self.held, &self.choices, rule)?;
        Ok(first_from(found, from))
    }

    /// The days of the closes.
    pub(crate) fn close_days(&self) -> Result<Vec<i32>, LedgerFault>
        ensures days { Answers (λ days. days.items) result
            (periods_outcome (book_in self.now)).answer }
        ensures shown { IfOk result (λ days. All IsDay days.items) }
    {
        Ok(self.rulings.closes().iter().copied().collect(self.alloc)?)
    }
}
