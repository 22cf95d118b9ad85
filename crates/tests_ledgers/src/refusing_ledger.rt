//! Books that refuse one call for lack of memory, or none.

ghost use Rattle.std.specs.Prelude.{◌≡◌, ◌<◌, All, IfOk, length, take, List, None, ℤ, Err};
ghost use Rattle.book_model.specs.Words.{IsUsageRecord, periods_outcome};
ghost use Rattle.book_core.specs.Calls.{IsCall};
ghost use Rattle.book_core.specs.Submissions.{TakesOf, records_in};
ghost use Rattle.book_core.specs.Transition.{IsTransition};

use book_core::{
    Accepted, Arrival, ChargeRow, Credit, Detail, Dispute, Ledger, LedgerFault, Line, ListedEntry,
    ListedRuling, Name, Note, Ruled, Ruling, Share, Stop, Tariff, Trail,
};
use std::alloc::Global;
use tests_scripts::is_due;

/// Passes a given number of calls on to a ledger, answers the next that memory ran out, with
/// nothing done, and passes on all after that.
#[derive(Drop)]
pub struct RefusingLedger<'a, L: Ledger> {
    inner: &'a mut L,
    /// The calls before the refused one; none is refused any more where there is no number.
    calls_left: Option<u32>,
}

impl<'a, L: Ledger> RefusingLedger<'a, L> {
    /// Books that refuse the call after a given number, or none. Rows ask those too, so that what
    /// asks books is built for one kind of them.
    pub fn new(inner: &'a mut L, calls_left: Option<u32>) -> RefusingLedger<'a, L> {
        RefusingLedger { inner, calls_left }
    }

    /// They refuse no call any more.
    pub fn has_refused(&self) -> bool {
        self.calls_left.is_none()
    }
}

/// Why a call is refused: memory ran out. A ledger that has to be opened again says so to every
/// call, so it is asked for its periods first, which changes nothing.
fn refusal<L: Ledger>(ledger: &mut L) -> LedgerFault
    ensures { IsCall (λ (days : List ℤ). days) (L.seen ledger.old) (L.seen ledger.new) (Err result)
        periods_outcome }
{
    match ledger.periods() {
        Ok(_) => return LedgerFault::Memory,
        Err(fault) => return fault,
    }
}

/// The first of some records.
fn first_alone(records: &[Vec<u8>]) -> &[Vec<u8>]
    requires { 0 < length records.now }
    ensures first { result.now ≡ take 1 records.now }
    ensures some { 0 < length result.now }
{
    &records[..1]
}

/// Submits the first of some records. Each is a call of its own, so that memory can run out between
/// any two.
fn accept_first<L: Ledger>(
    ledger: &mut L,
    records: &[Vec<u8>],
) -> Result<Vec<Accepted>, LedgerFault>
    requires some { 0 < length records.now }
    requires usage { All (λ one. IsUsageRecord one.items) records.now }
    ensures takes { IsTransition (L.seen ledger.old) (L.seen ledger.new)
        (TakesOf (L.seen ledger.old).naming None (records_in records.now) result) }
    ensures some { IfOk result (λ answers. 0 < length answers.items) }
{
    let first = first_alone(records);
    ledger.accept_many(first, &None)
}

impl<L: Ledger> Ledger for RefusingLedger<'_, L> {
    ghost seen = { λ ledger. L.seen ledger.inner.now };

    fn rule(&mut self, ruling: Ruling<'_>, note: &Option<Note>) -> Result<Ruled, LedgerFault> {
        if is_due(&mut self.calls_left) {
            return Err(refusal(&mut *self.inner));
        }
        match ruling {
            Ruling::Tariff(text) => self.inner.tariff(text, note),
            Ruling::Close { period, through } => self.inner.close(period, through, note),
            Ruling::Choose(name) => self.inner.choose(name, note),
            Ruling::Adopt(rule) => self.inner.adopt_identity(rule, note),
            Ruling::Replace(text) => self.inner.replace_tariff(text, note),
            Ruling::Withhold(name) => self.inner.withhold(name, note),
            Ruling::Credit {
                period,
                centre,
                amount,
                reason,
            } => self.inner.credit(period, centre, amount, reason, note),
        }
    }

    fn accept(&mut self, bytes: &[u8]) -> Result<Accepted, LedgerFault> {
        if is_due(&mut self.calls_left) {
            return Err(refusal(&mut *self.inner));
        }
        self.inner.accept(bytes)
    }

    fn accept_many(
        &mut self,
        records: &[Vec<u8>],
        import: &Option<Share>,
    ) -> Result<Vec<Accepted>, LedgerFault> {
        if self.calls_left.is_none() {
            return self.inner.accept_many(records, import);
        }
        if is_due(&mut self.calls_left) {
            return Err(refusal(&mut *self.inner));
        }
        // What an import says is of all its records: they are not taken apart.
        match import {
            None => accept_first(&mut *self.inner, records),
            Some(_) => self.inner.accept_many(records, import),
        }
    }

    fn end_import(&mut self, stop: Stop) -> Result<(), LedgerFault> {
        if is_due(&mut self.calls_left) {
            return Err(refusal(&mut *self.inner));
        }
        self.inner.end_import(stop)
    }

    fn charges(&mut self, period: u16) -> Result<Vec<ChargeRow>, LedgerFault> {
        if is_due(&mut self.calls_left) {
            return Err(refusal(&mut *self.inner));
        }
        self.inner.charges(period)
    }

    fn charges_under(
        &mut self,
        period: u16,
        tariff: &Tariff,
    ) -> Result<Vec<ChargeRow>, LedgerFault> {
        if is_due(&mut self.calls_left) {
            return Err(refusal(&mut *self.inner));
        }
        self.inner.charges_under(period, tariff)
    }

    fn adjustments(&mut self, period: u16) -> Result<Vec<Line>, LedgerFault> {
        if is_due(&mut self.calls_left) {
            return Err(refusal(&mut *self.inner));
        }
        self.inner.adjustments(period)
    }

    fn period_of_line(&mut self, number: u16, line: &Line) -> Result<Option<u16>, LedgerFault> {
        if is_due(&mut self.calls_left) {
            return Err(refusal(&mut *self.inner));
        }
        self.inner.period_of_line(number, line)
    }

    fn next_detail(
        &mut self,
        period: u16,
        centre: Option<Name>,
        after: Option<Detail>,
    ) -> Result<Option<Detail>, LedgerFault> {
        if is_due(&mut self.calls_left) {
            return Err(refusal(&mut *self.inner));
        }
        self.inner.next_detail(period, centre, after)
    }

    fn disputes(&mut self) -> Result<Vec<Dispute>, LedgerFault> {
        if is_due(&mut self.calls_left) {
            return Err(refusal(&mut *self.inner));
        }
        self.inner.disputes()
    }

    fn dispute_from(&mut self, from: &[u8]) -> Result<Option<Dispute>, LedgerFault> {
        if is_due(&mut self.calls_left) {
            return Err(refusal(&mut *self.inner));
        }
        self.inner.dispute_from(from)
    }

    fn periods(&mut self) -> Result<Vec<i32>, LedgerFault> {
        if is_due(&mut self.calls_left) {
            return Err(refusal(&mut *self.inner));
        }
        self.inner.periods()
    }

    fn ruling(&mut self, number: u64) -> Result<Option<ListedRuling>, LedgerFault> {
        if is_due(&mut self.calls_left) {
            return Err(refusal(&mut *self.inner));
        }
        self.inner.ruling(number)
    }

    fn credit_given(&mut self, number: u64) -> Result<Option<Credit>, LedgerFault> {
        if is_due(&mut self.calls_left) {
            return Err(refusal(&mut *self.inner));
        }
        self.inner.credit_given(number)
    }

    fn entry(&mut self, number: u64) -> Result<Option<ListedEntry>, LedgerFault> {
        if is_due(&mut self.calls_left) {
            return Err(refusal(&mut *self.inner));
        }
        self.inner.entry(number)
    }

    fn arrival_from(&mut self, from: &[u8]) -> Result<Option<Arrival>, LedgerFault> {
        if is_due(&mut self.calls_left) {
            return Err(refusal(&mut *self.inner));
        }
        self.inner.arrival_from(from)
    }

    fn record_named(&mut self, alloc: Global, name: &[u8; 32]) -> Result<Vec<u8>, LedgerFault> {
        if is_due(&mut self.calls_left) {
            return Err(refusal(&mut *self.inner));
        }
        self.inner.record_named(alloc, name)
    }

    fn trail_of(&mut self, alloc: Global, name: &[u8; 32]) -> Result<Trail, LedgerFault> {
        if is_due(&mut self.calls_left) {
            return Err(refusal(&mut *self.inner));
        }
        self.inner.trail_of(alloc, name)
    }

    ghost settled = { λ ledger. L.settled ledger.inner.now };
}
