//! Coverage by rows: how many of a period's records have the same day and system, and when.

ghost use Rattle.std.specs.Prelude.{◌≡◌, [], IfSome};
ghost use Rattle.coverage_texts.specs.Coverage as spec;

use book_model::Detail;

/// A record that a period counts, and the system that wrote it.
#[derive(Clone, Copy)]
pub struct SystemDetail {
    pub detail: Detail,
    /// The name of the system, in code page 037, as it is in the record.
    pub system: [u8; 4],
}

/// A day, in days since 1970-01-01, and a system.
#[derive(Clone, Copy, PartialEq, Eq, PartialOrd, Ord)]
pub struct CoveragePlace {
    pub day: i32,
    pub system: [u8; 4],
}

/// How many records there are of a system on one day, and their first and last time.
#[derive(Clone, Copy)]
pub struct CoverageRow {
    /// Days since 1970-01-01.
    pub day: i32,
    /// In code page 037.
    pub system: [u8; 4],
    pub count: u64,
    /// In hundredths of a second since midnight, `None` where there is no record.
    pub first: Option<u32>,
    /// The same.
    pub last: Option<u32>,
}

/// The day of a record and its system.
pub fn coverage_place(one: &SystemDetail) -> CoveragePlace
    ensures { result ≡ spec.place_of one.now }
{
    CoveragePlace {
        day: one.detail.priced.day,
        system: one.system,
    }
}

/// The row of a place without a record.
pub fn empty_coverage(place: CoveragePlace) -> CoverageRow
    ensures { result ≡ spec.row_of place [] }
{
    let system = place.system;
    CoverageRow {
        day: place.day,
        system,
        count: 0,
        first: None,
        last: None,
    }
}

/// The earlier of the first time so far and another time.
fn earlier(first: Option<u32>, time: u32) -> Option<u32>
    ensures { result ≡ spec.earlier first time }
{
    match first {
        None => Some(time),
        Some(first) => {
            if time < first {
                Some(time)
            } else {
                Some(first)
            }
        }
    }
}

/// The later of the last time so far and another time.
fn later(last: Option<u32>, time: u32) -> Option<u32>
    ensures { result ≡ spec.later last time }
{
    match last {
        None => Some(time),
        Some(last) => { if last < time { Some(time) } else { Some(last) } }
    }
}

/// The row with one more record, if 64 bits hold their number.
pub fn coverage_with(row: &CoverageRow, one: &SystemDetail) -> Option<CoverageRow>
    ensures { IfSome result (λ more. more ≡ spec.row_with row.now one.now) }
{
    Some(CoverageRow {
        day: row.day,
        system: row.system,
        count: row.count.checked_add(1)?,
        first: earlier(row.first, one.detail.time),
        last: later(row.last, one.detail.time),
    })
}
