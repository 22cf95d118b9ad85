//! Days that are far after what books hold, by calls that change nothing: what is asked of a ledger is as
//! one call.

ghost use Rattle.std.specs.Prelude.{◌≡◌, IfErr, IfOk, false};
ghost use Rattle.book_model.specs.Std.{list_all, option_map_or};
ghost use Rattle.book_model.specs.Words.{terms_in};
ghost use Rattle.book_core.specs.Words.{IsCall};
ghost use Rattle.office.specs.Requests.{response_by};
ghost use Rattle.chargectl.specs.Far as spec;

use book_core::{ChargeRow, Ledger, LedgerFault, Ruled, Tariff};
use book_reports::{OpenPeriod, open_period, rows_of_period};
use office::{Answer, Asked, OwnedRuling};
use std::alloc::Global;
use tariff_rules::TariffFault;
use without_books::Notice;

/// A day is far after another where it is later by more than so many days.
const FAR_DAYS: i64 = 366;

/// A close is far after a record where it is later by more than so many days.
const NEAR_DAYS: i64 = 7;

/// The day of a ruling. Days are counted from 1970-01-01.
#[derive(Clone, Copy)]
pub(crate) struct RulingDay {
    day: i32,
    /// It is the last day of a period, and not the first of a tariff.
    is_close: bool,
    /// It is that, and later than today.
    is_late: bool,
}

/// A day is far after another.
fn is_far_after(day: i32, other: i32) -> bool
    ensures { result ≡ spec.is_far_after day other }
{
    i64::from(other) + FAR_DAYS < i64::from(day)
}

/// A day is more than a week after another.
fn is_week_after(day: i32, other: i32) -> bool
    ensures { result ≡ spec.is_week_after day other }
{
    i64::from(other) + NEAR_DAYS < i64::from(day)
}

/// The day of a ruling is far after that of a record.
fn is_after_record(it: RulingDay, other: i32) -> bool
    ensures { result ≡ spec.is_after_record it other }
{
    if it.is_close {
        is_week_after(it.day, other)
    } else {
        is_far_after(it.day, other)
    }
}

/// It is far after each of some charge rows.
fn is_after_all(it: RulingDay, rows: &[ChargeRow]) -> bool
    ensures { result ≡ list_all (λ row. spec.is_after_record it row.day) rows.now }
{
    rows.iter().all(|row| is_after_record(it, row.day))
}

/// A day is far after the last close, if there is one.
fn is_after_close(day: i32, last_close: Option<i32>) -> bool
    ensures { result ≡ option_map_or (spec.is_far_after day) last_close false }
{
    match last_close {
        Some(close) => is_far_after(day, close),
        None => false,
    }
}

/// The day of a ruling is far after the newest one of books: of the charge rows of their open period;
/// or, where it has none, after the last close. A close that is later than today is far from any.
fn is_far(it: RulingDay, rows: &[ChargeRow], last_close: Option<i32>) -> bool
    ensures { result ≡ spec.is_far it rows.now last_close }
{
    if it.is_late {
        return true;
    }
    if rows.is_empty() {
        is_after_close(it.day, last_close)
    } else {
        is_after_all(it, rows)
    }
}

/// The same of a day, if there is one.
fn is_any_far(day: Option<RulingDay>, rows: &[ChargeRow], last_close: Option<i32>) -> bool
    ensures { result ≡ option_map_or (λ it. spec.is_far it rows.now last_close) day false }
{
    match day {
        Some(day) => is_far(day, rows, last_close),
        None => false,
    }
}

/// A day is later than today, if that is known.
fn is_after_today(today: Option<i32>, day: i32) -> bool
    ensures { result ≡ spec.is_after_today today day }
{
    match today {
        Some(today) => today < day,
        None => false,
    }
}

/// The last day of a period that is closed.
fn closed_through(today: Option<i32>, through: i32) -> RulingDay
    ensures { result ≡ spec.closed_through today through }
{
    RulingDay {
        day: through,
        is_close: true,
        is_late: is_after_today(today, through),
    }
}

/// The day of a ruling, where it has one, as it is seen today. An error is a lack of memory.
fn day_asked(
    alloc: Global,
    today: Option<i32>,
    asked: &Asked,
) -> Result<Option<RulingDay>, LedgerFault>
    ensures day { IfOk result (λ day. day ≡ spec.day_asked today asked.now) }
    ensures memory { IfErr result (λ fault. fault ≡ LedgerFault.Memory) }
{
    match asked {
        Asked::Rule(OwnedRuling::Close { through, .. }, _) => {
            Ok(Some(closed_through(today, *through)))
        }
        Asked::Rule(OwnedRuling::Tariff(text), _) => first_day(alloc, text.as_str()),
        _ => Ok(None),
    }
}

/// The first day of a tariff. A text that is none has no day.
fn first_day(alloc: Global, text: &str) -> Result<Option<RulingDay>, LedgerFault>
    ensures day { IfOk result (λ day. day ≡ spec.first_day (terms_in text.now)) }
    ensures memory { IfErr result (λ fault. fault ≡ LedgerFault.Memory) }
{
    match Tariff::parse(alloc, text) {
        Ok(tariff) => Ok(Some(RulingDay {
            day: tariff.effective(),
            is_close: false,
            is_late: false,
        })),
        Err(TariffFault::Memory) => Err(LedgerFault::Memory),
        Err(_) => Ok(None),
    }
}

/// A day, if there is one, is far after the newest one of books whose open period this is.
fn is_far_on<L: Ledger>(
    alloc: Global,
    books: &mut L,
    period: OpenPeriod,
    day: Option<RulingDay>,
) -> Result<bool, LedgerFault>
    ensures { IsCall (λ far. far) (L.seen books.old) (L.seen books.new) result
        (spec.far_on_outcome period day) }
{
    let rows = rows_of_period(alloc, books, period.number)?;
    Ok(is_any_far(day, &rows, period.last_close))
}

/// The day of a ruling is far after the newest one of the books, or after today, before it is asked
/// for.
pub(crate) fn is_far_asked<L: Ledger>(
    alloc: Global,
    today: Option<i32>,
    books: &mut L,
    asked: &Asked,
) -> Result<bool, LedgerFault>
    ensures { IsCall (λ far. far) (L.seen books.old) (L.seen books.new) result
        (spec.far_outcome today asked.now) }
{
    // The books are asked before the tariff is read: those that are to be opened again say so.
    let period = open_period(books)?;
    let day = day_asked(alloc, today, asked)?;
    is_far_on(alloc, books, period, day)
}

/// A ruling is in force from now on.
fn is_done(told: &Result<Answer, LedgerFault>) -> bool
    ensures { result ≡ spec.is_done (response_by told.now) }
{
    match told {
        Ok(Answer::Ruled(Ruled::Done)) => true,
        _ => false,
    }
}

/// What is noticed of a ruling, by whether its day is far and by what was answered.
pub(crate) fn notice_by(is_far: bool, told: &Result<Answer, LedgerFault>) -> Option<Notice>
    ensures { result ≡ spec.notice_by is_far (response_by told.now) }
{
    if is_done(told) && is_far {
        Some(Notice::Far)
    } else {
        None
    }
}
