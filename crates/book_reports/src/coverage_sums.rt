//! The coverage of a period: its records are counted by day and system, as they are read one at a
//! time.

ghost use Rattle.std.specs.Prelude.{◌≡◌, ◌++◌, ◌∷◌, [], ◌≤ℤ◌, IfErr, IfOk, IfSome};
ghost use Rattle.std.specs.Prelude.{OnOk, Some, flat_map, map};
ghost use Rattle.std.specs.BTreeSet.{insert_key};
ghost use Rattle.std.specs.Option.{ForSome};
ghost use Rattle.smf_text.specs.Day.{last_day};
ghost use Rattle.book_model.specs.Words.{IsDay, by_bytes};
ghost use Rattle.coverage_texts.specs.Coverage as spec;
ghost use Rattle.book_reports.specs.CoverageSums as kept;
ghost use Rattle.book_reports.specs.CoverageSums.{SystemDetails, keyed_coverage};

use book_core::LedgerFault;
use book_lists::Step;
use coverage_texts::{
    CoveragePlace, CoverageRow, SystemDetail, coverage_place, coverage_with, empty_coverage,
};
use page_texts::day_after;
use std::alloc::{AllocError, Global};
use std::collections::{BTreeMap, BTreeSet};

/// How many records there are of each day and system, which systems, and the days of the first
/// record and of the last.
#[derive(Drop)]
pub(crate) struct CoverageSums {
    rows: BTreeMap<CoveragePlace, CoverageRow>,
    systems: BTreeSet<[u8; 4]>,
    first: Option<i32>,
    last: Option<i32>,
}

/// A record joins the row of its day and system.
fn add_record(
    rows: &mut BTreeMap<CoveragePlace, CoverageRow>,
    one: &SystemDetail,
) -> Result<(), LedgerFault>
    ensures joined { OnOk result ((details : SystemDetails)
        → rows.old.entries ≡ keyed_coverage details
        → rows.new.entries ≡ keyed_coverage (details ++ one.now ∷ [])) }
    ensures fault { IfErr result (λ fault. fault ≡ LedgerFault.Memory) }
{
    let place = coverage_place(one);
    let row = rows.entry(place)?.or_insert(empty_coverage(place));
    let Some(more) = coverage_with(row, one) else {
        return Err(LedgerFault::Memory);
    };
    *row = more;
    Ok(())
}

/// A system joins the others.
fn add_system(systems: &mut BTreeSet<[u8; 4]>, one: &SystemDetail) -> Result<(), AllocError>
    ensures { OnOk result (systems.new.keys ≡ insert_key by_bytes systems.old.keys one.now.system) }
{
    systems.insert(one.system)?;
    Ok(())
}

/// The day of the first record so far, with one more.
fn first_with(first: Option<i32>, one: &SystemDetail) -> Option<i32>
    ensures { result ≡ kept.first_with first one.now }
{
    match first {
        None => Some(coverage_place(one).day),
        Some(first) => Some(first),
    }
}

/// The day of a record.
fn day_of(one: &SystemDetail) -> Option<i32>
    ensures { result ≡ Some one.now.detail.priced.day }
{
    Some(coverage_place(one).day)
}

impl CoverageSums {
    ghost use Rattle.std.specs.Prelude.{◌≡◌, ◌++◌, ◌∷◌, [], IfErr, OnOk};
    ghost use Rattle.book_reports.specs.CoverageSums.{IsCoverageOf, SystemDetails};

    /// Of no records.
    fn new(alloc: Global) -> CoverageSums
        ensures { IsCoverageOf result [] }
    {
        let rows = BTreeMap::new(alloc);
        let systems = BTreeSet::new(alloc);
        CoverageSums {
            rows,
            systems,
            first: None,
            last: None,
        }
    }

    /// One more record.
    fn add(&mut self, one: &SystemDetail) -> Result<(), LedgerFault>
        requires { IsDay one.now.detail.priced.day }
        ensures added { OnOk result ((details : SystemDetails) → IsCoverageOf self.old details
            → IsCoverageOf self.new (details ++ one.now ∷ [])) }
        ensures fault { IfErr result (λ fault. fault ≡ LedgerFault.Memory) }
    {
        add_record(&mut self.rows, one)?;
        add_system(&mut self.systems, one)?;
        self.first = first_with(self.first, one);
        self.last = day_of(one);
        Ok(())
    }
}

/// Counts records by day and system.
pub(crate) struct CoverageStep;

impl Step<SystemDetail> for CoverageStep {
    ghost use Rattle.book_model.specs.Words.{IsDay};
    ghost use Rattle.book_reports.specs.CoverageSums.{IsCoverageOf};

    type State = CoverageSums;

    ghost Takes = { λ step one. IsDay one.detail.priced.day };

    ghost Has = { λ step sums details. IsCoverageOf sums details };

    fn begin(&self, alloc: Global) -> Result<CoverageSums, AllocError> {
        Ok(CoverageSums::new(alloc))
    }

    fn add(
        &self,
        _alloc: Global,
        sums: &mut CoverageSums,
        one: &SystemDetail,
    ) -> Result<(), LedgerFault> {
        sums.add(one)
    }
}

/// The row of a place, an empty one where no record is there.
fn row_among(rows: &BTreeMap<CoveragePlace, CoverageRow>, place: CoveragePlace) -> CoverageRow
    ensures { result ≡ kept.row_among rows.now.entries place }
{
    rows.get(&place).copied().unwrap_or(empty_coverage(place))
}

/// The systems, in the order of their bytes.
fn systems_in(alloc: Global, systems: BTreeSet<[u8; 4]>) -> Result<Vec<[u8; 4]>, AllocError>
    ensures { IfOk result (λ found. found.items ≡ systems.keys) }
{
    systems.into_iter().collect(alloc)
}

/// Adds the rows of a day, one for each system.
#[tactic(auto, using(std::proofs::lemmas::List::map_more))]
fn push_day(
    made: &mut Vec<CoverageRow>,
    rows: &BTreeMap<CoveragePlace, CoverageRow>,
    systems: &[[u8; 4]],
    day: i32,
) -> Result<(), AllocError>
    ensures { OnOk result (made.new.items ≡ made.old.items
        ++ map (kept.row_on rows.now.entries day) systems.now) }
{
    for system in systems {
        let place = CoveragePlace {
            day,
            system: *system,
        };
        made.push(row_among(rows, place))?;
    }
    Ok(())
}

/// The rows of the days from the first to the last, one for each system on each day.
fn rows_between(
    alloc: Global,
    rows: &BTreeMap<CoveragePlace, CoverageRow>,
    systems: &[[u8; 4]],
    first: i32,
    last: i32,
) -> Result<Vec<CoverageRow>, AllocError>
    requires { last ≤ℤ last_day }
    ensures { IfOk result (λ made. made.items ≡ flat_map
        (kept.rows_on rows.now.entries systems.now) (spec.days_between (Some first) (Some last))) }
{
    let mut made = Vec::new(alloc);
    let mut day = first;
    while day <= last {
        push_day(&mut made, rows, systems, day)?;
        day = day_after(&day);
    }
    Ok(made)
}

/// The same, if there are both days; else there is no row.
fn rows_if(
    alloc: Global,
    rows: &BTreeMap<CoveragePlace, CoverageRow>,
    systems: &[[u8; 4]],
    first: Option<i32>,
    last: Option<i32>,
) -> Result<Vec<CoverageRow>, AllocError>
    requires { IfSome last (λ last. last ≤ℤ last_day) }
    ensures { IfOk result (λ made. made.items ≡ flat_map
        (kept.rows_on rows.now.entries systems.now) (spec.days_between first last)) }
{
    let Some(first) = first else {
        return Ok(Vec::new(alloc));
    };
    let Some(last) = last else {
        return Ok(Vec::new(alloc));
    };
    rows_between(alloc, rows, systems, first, last)
}

/// The day on which a period begins, by the close before it and the day of its first record.
fn begins_on(before: Option<i32>, first: Option<i32>) -> Option<i32>
    requires { ForSome before IsDay }
    ensures { result ≡ spec.begins_on before first }
{
    match before {
        None => first,
        Some(close) => Some(day_after(&close)),
    }
}

/// The day on which it ends, by its own close and the day of its last record.
fn ends_on(through: Option<i32>, last: Option<i32>) -> Option<i32>
    ensures { result ≡ spec.ends_on through last }
{
    match through {
        None => last,
        Some(close) => Some(close),
    }
}

/// The rows of a period, one for each system on each of its days.
pub(crate) fn coverage_rows(
    alloc: Global,
    sums: CoverageSums,
    before: Option<i32>,
    through: Option<i32>,
) -> Result<Vec<CoverageRow>, AllocError>
    requires before { ForSome before IsDay }
    requires through { ForSome through IsDay }
    requires last { ForSome sums.last IsDay }
    ensures { IfOk result (λ made. (details : SystemDetails) → kept.IsCoverageOf sums details
        → made.items ≡ spec.coverage_rows before through details) }
{
    let systems = systems_in(alloc, sums.systems)?;
    let first = begins_on(before, sums.first);
    let last = ends_on(through, sums.last);
    rows_if(alloc, &sums.rows, &systems, first, last)
}
