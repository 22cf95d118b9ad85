//! The tariffs in force on the days of a period, their shifts, and the letterhead of the last of
//! them. They are read one at a time, in the order of their first days.

ghost use Rattle.std.specs.Prelude.{◌≡◌, All, IfOk};
ghost use Rattle.book_model.specs.Words.{IsDay};
ghost use Rattle.book_core.specs.Calls.{IsCall};
ghost use Rattle.book_reports.specs.BillTariffs as spec;

use crate::bill_shifts::{push_shifts, shifts_of};
use crate::period_days::{PeriodDays, period_days};
use book_core::{Ledger, LedgerFault, Tariff, is_through};
use book_lists::{ListedTariff, Step, TariffCursor, fold};
use book_model::{BilledShift, BilledTariff};
use std::alloc::{AllocError, Global};
use tariff_rules::{HeadedTariff, Letterhead};

/// The tariffs that are kept of those that were read, their shifts, and the letterhead of the last
/// of them.
#[derive(Drop)]
pub(crate) struct KeptTariffs {
    pub(crate) tariffs: Vec<BilledTariff>,
    pub(crate) shifts: Vec<BilledShift>,
    pub(crate) letterhead: Letterhead,
}

/// A tariff of this day has begun by the first day after a close, where there was one.
fn has_begun_after(before: Option<i32>, day: i32) -> bool
    ensures { result ≡ spec.has_begun_after before day }
{
    match before {
        Some(close) => !(i64::from(close) + 1 < i64::from(day)),
        None => false,
    }
}

impl KeptTariffs {
    ghost use Rattle.std.specs.Prelude.{◌≡◌, ◌++◌, ◌∷◌, [], IfErr, OnOk, option_map};
    ghost use Rattle.std.specs.List.{cons_option};
    ghost use Rattle.book_model.specs.Std.{option_map_or};
    ghost use Rattle.book_model.specs.Words.{IsDay, TariffSeen, shifts_by, tariff_by};
    ghost use Rattle.book_reports.specs.BillTariffs.{HasKept, Tariffs, kept_of, left_by};

    /// None yet.
    fn new(alloc: Global) -> KeptTariffs
        ensures { HasKept result [] }
    {
        KeptTariffs {
            tariffs: Vec::new(alloc),
            shifts: Vec::new(alloc),
            letterhead: Letterhead::empty(),
        }
    }

    /// Those that are in force on none of the days go, where a tariff of this day comes.
    fn leave(&mut self, before: Option<i32>, day: i32)
        ensures { (read : Tariffs) → HasKept self.old read
            → HasKept self.new (left_by before day read) }
    {
        if !has_begun_after(before, day) {
            return;
        }
        self.tariffs.clear();
        self.shifts.clear();
        self.letterhead = Letterhead::empty();
    }

    /// What a tariff says joins.
    fn push_terms(&mut self, alloc: Global, day: i32, tariff: &Tariff) -> Result<(), AllocError>
        ensures tariffs { OnOk result
            (self.new.tariffs.items ≡ self.old.tariffs.items ++ tariff_by day tariff.now ∷ []) }
        ensures shifts { OnOk result
            (self.new.shifts.items ≡ self.old.shifts.items ++ shifts_by day tariff.now) }
    {
        let shifts = shifts_of(alloc, tariff)?;
        push_shifts(&mut self.shifts, day, &shifts)?;
        self.tariffs.push(BilledTariff {
            day,
            step: tariff.step_rates(),
            job: tariff.job_rates(),
        })?;
        Ok(())
    }

    /// What a tariff says joins, if there is one.
    fn push_found(
        &mut self,
        alloc: Global,
        day: i32,
        found: &Option<Tariff>,
    ) -> Result<(), AllocError>
        ensures tariffs { OnOk result (self.new.tariffs.items ≡ self.old.tariffs.items
            ++ cons_option (option_map (tariff_by day) found.now) []) }
        ensures shifts { OnOk result (self.new.shifts.items
            ≡ self.old.shifts.items ++ option_map_or (shifts_by day) found.now []) }
    {
        match found {
            Some(tariff) => {
                self.push_terms(alloc, day, tariff)?;
                Ok(())
            }
            None => Ok(()),
        }
    }

    /// One more.
    fn push(&mut self, alloc: Global, day: i32, text: &str) -> Result<(), LedgerFault>
        requires { IsDay day }
        ensures pushed { OnOk result ((read : Tariffs) → HasKept self.old read
            → HasKept self.new (read ++ TariffSeen day text.now ∷ [])) }
        ensures memory { IfErr result (λ fault. fault ≡ LedgerFault.Memory) }
    {
        let headed = HeadedTariff::read(alloc, text)?;
        self.push_found(alloc, day, &headed.tariff)?;
        self.letterhead = headed.letterhead;
        Ok(())
    }

    /// One more is read, and kept if it is in force on some of the days.
    fn join(
        &mut self,
        alloc: Global,
        days: PeriodDays,
        day: i32,
        text: &str,
    ) -> Result<(), LedgerFault>
        requires { IsDay day }
        ensures joined { OnOk result ((read : Tariffs) → HasKept self.old (kept_of days read)
            → HasKept self.new (kept_of days (read ++ TariffSeen day text.now ∷ []))) }
        ensures memory { IfErr result (λ fault. fault ≡ LedgerFault.Memory) }
    {
        self.leave(days.before, day);
        if !is_through(days.through, day) {
            return Ok(());
        }
        self.push(alloc, day, text)
    }
}

/// Keeps the tariffs in force on some of the days.
#[derive(Drop)]
struct KeptStep {
    days: PeriodDays,
}

impl Step<ListedTariff> for KeptStep {
    ghost use Rattle.std.specs.Prelude.{map};
    ghost use Rattle.book_model.specs.Words.{IsDay};
    ghost use Rattle.book_lists.specs.TariffsInTurn.{tariff_shown};
    ghost use Rattle.book_reports.specs.BillTariffs.{HasKept, kept_of};

    type State = KeptTariffs;

    ghost Takes = { λ step tariff. IsDay tariff.day };

    ghost Has = { λ step kept tariffs.
        HasKept kept (kept_of step.days (map tariff_shown tariffs)) };

    fn begin(&self, alloc: Global) -> Result<KeptTariffs, AllocError> {
        Ok(KeptTariffs::new(alloc))
    }

    fn add(
        &self,
        alloc: Global,
        kept: &mut KeptTariffs,
        tariff: &ListedTariff,
    ) -> Result<(), LedgerFault> {
        kept.join(alloc, self.days, tariff.day, tariff.text.as_str())
    }
}

/// The tariffs in force on some of the days.
fn tariffs_on<L: Ledger>(
    alloc: Global,
    ledger: &mut L,
    days: PeriodDays,
) -> Result<KeptTariffs, LedgerFault>
    ensures tariffs { IsCall spec.tariffs_shown (L.seen ledger.old) (L.seen ledger.new) result
        (spec.tariffs_on_outcome days) }
    ensures days { IfOk result (λ kept. All (λ tariff. IsDay tariff.day) kept.tariffs.items) }
    ensures shift_days { IfOk result (λ kept. All (λ shift. IsDay shift.day) kept.shifts.items) }
{
    fold(alloc, ledger, &TariffCursor, &KeptStep { days })
}

/// The tariffs in force on some of the days of a period.
pub(crate) fn billed_tariffs<L: Ledger>(
    alloc: Global,
    ledger: &mut L,
    period: u16,
) -> Result<KeptTariffs, LedgerFault>
    ensures tariffs { IsCall spec.tariffs_shown (L.seen ledger.old) (L.seen ledger.new) result
        (spec.tariffs_outcome period) }
    ensures days { IfOk result (λ kept. All (λ tariff. IsDay tariff.day) kept.tariffs.items) }
    ensures shift_days { IfOk result (λ kept. All (λ shift. IsDay shift.day) kept.shifts.items) }
{
    let days = period_days(ledger, period)?;
    tariffs_on(alloc, ledger, days)
}
