//! What was worked in a period: the charge rows of the steps and those of the jobs among its
//! details, which are read one at a time.

ghost use Rattle.std.specs.Prelude.{◌≡◌, ◌++◌, ◌∷◌, [], IfErr, IfOk, IfSome, None, OnOk};
ghost use Rattle.std.specs.BTreeMap.{values};
ghost use Rattle.std.specs.Option.{ForSome};
ghost use Rattle.book_model.specs.Words.{IsDay};
ghost use Rattle.book_core.specs.Words.{IsCall, keyed_rows};
ghost use Rattle.book_reports.specs.BillWork.{AreWork};
ghost use Rattle.book_reports.specs.WorkSums.{Prices, SumsFit};
ghost use Rattle.book_model.specs.Words as words;
ghost use Rattle.book_reports.specs.BillWork as spec;
ghost use Rattle.book_reports.specs.StreamedDetails as streamed;

use crate::book_texts::closed_through;
use crate::streamed_details::{NO_SUMS, Sums, with_detail};
use book_core::{ChargeRow, Detail, Ledger, LedgerFault, RowKey, empty_row, key_of, row_with};
use book_lists::{DetailCursor, Step, fold};
use book_model::WorkRows;
use smf_text::Name;
use std::alloc::{AllocError, Global};
use std::collections::BTreeMap;
use tariff_rules::Priced;

/// The first number that 62 bits do not hold. No books hold records that cost so much: so 64 bits hold
/// what a bill charges with its lines and its credits.
const AMOUNT_END: u64 = 1 << 62;

/// What was worked in a period.
#[derive(Drop)]
pub(crate) struct PeriodWork {
    /// The day that the period was closed through, `None` if it is open.
    pub(crate) through: Option<i32>,
    pub(crate) rows: WorkRows,
}

/// The charge rows of some steps and jobs, under their keys, and what all of them come to.
#[derive(Drop)]
struct WorkSums {
    steps: BTreeMap<RowKey, ChargeRow>,
    jobs: BTreeMap<RowKey, ChargeRow>,
    all: Sums,
}

/// The detail is of a step that ended, else of a job.
fn is_step(detail: &Detail) -> bool
    ensures { result ≡ words.is_step detail.now }
{
    detail.step.is_some()
}

/// A price joins the row of its key.
fn add_price(rows: &mut BTreeMap<RowKey, ChargeRow>, priced: &Priced) -> Result<(), LedgerFault>
    ensures joined { OnOk result ((prices : Prices) → rows.old.entries ≡ keyed_rows prices
        → rows.new.entries ≡ keyed_rows (prices ++ priced.now ∷ [])) }
    ensures fault { IfErr result (λ fault. fault ≡ LedgerFault.Memory) }
{
    let key = key_of(priced);
    let row = rows.entry(key)?.or_insert(empty_row(key));
    let Some(more) = row_with(row, priced) else {
        return Err(LedgerFault::Memory);
    };
    *row = more;
    Ok(())
}

/// The sums with one more detail, if they fit. Those of sound books do.
fn fitting_sums(sums: Sums, detail: &Detail) -> Option<Sums>
    ensures more { IfSome result (λ more. more ≡ streamed.with_detail sums detail.now) }
    ensures fit { IfSome result SumsFit }
    ensures large { result ≡ None → ¬ SumsFit (streamed.with_detail sums detail.now) }
{
    let Some(more) = with_detail(sums, detail) else {
        return None;
    };
    let amount = more.amount;
    if amount >= AMOUNT_END {
        return None;
    }
    Some(more)
}

/// The rows, by day, then centre, then shift.
fn rows_in(alloc: Global, rows: BTreeMap<RowKey, ChargeRow>) -> Result<Vec<ChargeRow>, AllocError>
    ensures { IfOk result (λ found. found.items ≡ values rows) }
{
    rows.into_values().collect(alloc)
}

impl WorkSums {
    ghost use Rattle.std.specs.Prelude.{◌≡◌, ◌++◌, ◌∷◌, [], IfErr, IfOk, OnOk};
    ghost use Rattle.book_model.specs.Words.{IsDay};
    ghost use Rattle.book_reports.specs.BillWork.{IsWorkOf};
    ghost use Rattle.book_reports.specs.WorkSums.{AreSumsOf, Details};

    /// Of no details.
    fn new(alloc: Global) -> WorkSums
        ensures { AreSumsOf result [] }
    {
        let steps = BTreeMap::new(alloc);
        let jobs = BTreeMap::new(alloc);
        WorkSums {
            steps,
            jobs,
            all: NO_SUMS,
        }
    }

    /// One more detail. A job is no step: its times and blocks are those of its steps.
    fn add(&mut self, detail: &Detail) -> Result<(), LedgerFault>
        requires { IsDay detail.now.priced.day }
        ensures added { OnOk result ((details : Details) → AreSumsOf self.old details
            → AreSumsOf self.new (details ++ detail.now ∷ [])) }
        ensures fault { IfErr result (λ fault. fault ≡ LedgerFault.Memory) }
    {
        let Some(all) = fitting_sums(self.all, detail) else {
            return Err(LedgerFault::Memory);
        };
        self.all = all;
        if is_step(detail) {
            return add_price(&mut self.steps, &detail.priced);
        }
        add_price(&mut self.jobs, &detail.priced)
    }

    /// The rows of the steps and of the jobs.
    fn into_rows(self, alloc: Global) -> Result<WorkRows, AllocError>
        ensures { IfOk result (λ rows. (details : Details) → AreSumsOf self details
            → IsWorkOf details rows) }
    {
        let steps = rows_in(alloc, self.steps)?;
        let jobs = rows_in(alloc, self.jobs)?;
        Ok(WorkRows { steps, jobs })
    }
}

/// Sums up what was worked.
struct WorkStep;

impl Step<Detail> for WorkStep {
    ghost use Rattle.book_model.specs.Words.{IsDay};
    ghost use Rattle.book_reports.specs.WorkSums.{AreSumsOf};

    type State = WorkSums;

    ghost Takes = { λ step detail. IsDay detail.priced.day };

    ghost Has = { λ step sums details. AreSumsOf sums details };

    fn begin(&self, alloc: Global) -> Result<WorkSums, AllocError> {
        Ok(WorkSums::new(alloc))
    }

    fn add(&self, _alloc: Global, sums: &mut WorkSums, detail: &Detail) -> Result<(), LedgerFault> {
        sums.add(detail)
    }
}

/// What was worked in a period, for the centre that is named or for the whole office.
pub(crate) fn period_work<L: Ledger>(
    alloc: Global,
    ledger: &mut L,
    period: u16,
    centre: &Option<Name>,
) -> Result<PeriodWork, LedgerFault>
    ensures work { IsCall spec.work_shown (L.seen ledger.old) (L.seen ledger.new) result
        (spec.work_outcome (L.seen ledger.old).naming period centre.now) }
    ensures day { IfOk result (λ work. ForSome work.through IsDay) }
    ensures rows { IfOk result (λ work. AreWork work.rows.steps.items work.rows.jobs.items) }
{
    let through = closed_through(ledger, period)?;
    let details = DetailCursor {
        period,
        centre: *centre,
    };
    let sums = fold(alloc, ledger, &details, &WorkStep)?;
    let rows = sums.into_rows(alloc)?;
    Ok(PeriodWork { through, rows })
}
