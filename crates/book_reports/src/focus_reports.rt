//! A period as a table of cost and usage by FOCUS 1.0, which a ledger answers by calls that change
//! nothing: it is as one call.

ghost use Rattle.std.specs.Prelude.{◌≡◌, [], All, IfOk, option_map, string_bytes, unwrap_or};
ghost use Rattle.book_model.specs.Words.{AreLines, AreRows, IsDay, letterhead_shown};
ghost use Rattle.book_core.specs.Calls.{IsCall};
ghost use Rattle.report_texts.specs.FocusTables as table;
ghost use Rattle.report_texts.specs.Midnights.{IsMidnight};
ghost use Rattle.book_reports.specs.BillTariffs.{tariffs_shown};
ghost use Rattle.book_reports.specs.FocusReports as spec;

use crate::bill_tariffs::{KeptTariffs, billed_tariffs};
use crate::focus_days::{FocusDays, focus_days};
use book_core::{ChargeRow, Ledger, LedgerFault, Line};
use report_texts::{FocusHead, focus_table};
use std::alloc::{AllocError, Global};
use tariff_rules::Letterhead;

/// A text, or an empty one where there is none.
fn text_of(text: &Option<String>) -> &str
    ensures { result.now ≡ unwrap_or (option_map (λ text. string_bytes text) text.now) [] }
{
    match text {
        Some(text) => text.as_str(),
        None => "",
    }
}

/// The table of these rows and lines, under this letterhead.
fn table_of(
    alloc: Global,
    days: FocusDays,
    letterhead: &Letterhead,
    rows: &[ChargeRow],
    lines: &[Line],
) -> Result<Vec<u8>, AllocError>
    requires begins { IsMidnight days.begins }
    requires last { IsDay days.last }
    requires rows { AreRows rows.now }
    requires lines { AreLines lines.now }
    ensures { IfOk result (λ made. made.items
        ≡ table.focus_table (spec.focus_head (letterhead_shown letterhead.now) days)
        (table.focus_rows rows.now lines.now)) }
{
    let head = FocusHead {
        office: text_of(&letterhead.office),
        currency: text_of(&letterhead.currency),
        begins: days.begins,
        last: days.last,
    };
    focus_table(alloc, &head, rows, lines)
}

/// The table of a period of this number, by the days of all closes, its tariffs, rows and lines.
fn period_table(
    alloc: Global,
    number: u16,
    closes: &[i32],
    kept: &KeptTariffs,
    rows: &[ChargeRow],
    lines: &[Line],
) -> Result<Vec<u8>, AllocError>
    requires closes { All IsDay closes.now }
    requires tariffs { All (λ tariff. IsDay tariff.day) kept.now.tariffs.items }
    requires rows { AreRows rows.now }
    requires lines { AreLines lines.now }
    ensures { IfOk result (λ made. made.items
        ≡ spec.focus_with number closes.now (tariffs_shown kept.now) rows.now lines.now) }
{
    let days = focus_days(number, closes, kept, rows);
    table_of(alloc, days, &kept.letterhead, rows, lines)
}

/// The table of a period.
pub(crate) fn focus_report<L: Ledger>(
    alloc: Global,
    ledger: &mut L,
    period: u16,
) -> Result<Vec<u8>, LedgerFault>
    ensures { IsCall (λ table. table.items) (L.seen ledger.old) (L.seen ledger.new) result
        (spec.focus_outcome (L.seen ledger.old).naming period) }
{
    let closes = ledger.periods()?;
    let kept = billed_tariffs(alloc, ledger, period)?;
    let rows = ledger.charges(period)?;
    let lines = ledger.adjustments(period)?;
    let made = period_table(alloc, period, &closes, &kept, &rows, &lines)?;
    Ok(made)
}
