//! What a period would have cost by another tariff, as a text that a ledger answers by calls that
//! change nothing: it is as one call.

ghost use Rattle.std.specs.Prelude.{◌≡◌, IfOk};
ghost use Rattle.std.specs.Option.{ForSome};
ghost use Rattle.book_model.specs.Words.{AreRows, IsDay, no_event};
ghost use Rattle.book_core.specs.Calls.{IsCall};
ghost use Rattle.book_reports.specs.WhatIfTexts as spec;

use crate::book_texts::{closed_through, made_of};
use book_core::{ChargeRow, Ledger, LedgerFault, Tariff};
use report_texts::{centre_what_if_table, centre_what_if_text, what_if_table};
use sha2::{Digest, Sha256};
use smf_text::Name;
use std::alloc::{AllocError, Global};

/// How a statement is shown.
#[derive(Clone, Copy)]
pub enum StatementForm {
    /// As a text in columns, with sums.
    Text,
    /// As a table of comma-separated values.
    Table,
}

/// What is asked of a period beside a tariff: what it would have cost by that.
#[derive(Clone, Copy)]
pub struct WhatIf {
    /// How it is shown.
    pub form: StatementForm,
    /// The number of the period.
    pub period: u16,
    /// The centre, `None` for the whole office.
    pub centre: Option<Name>,
}

/// The text of the office or of a centre, by the rows of the period under the other tariff, and
/// those that it is charged.
fn text_shown(
    alloc: Global,
    centre: Option<Name>,
    period: u16,
    digest: &[u8; 32],
    through: Option<i32>,
    rows: Vec<ChargeRow>,
    charged: Vec<ChargeRow>,
) -> Result<Vec<u8>, AllocError>
    requires through { ForSome through IsDay }
    requires rows { AreRows rows.items }
    requires charged { AreRows charged.items }
    ensures { IfOk result (λ text. text.items
        ≡ spec.text_shown centre period digest.now through rows.items charged.items) }
{
    match centre {
        None => {
            let text = report_texts::what_if_text(alloc, period, through, digest, &rows, &charged)?;
            Ok(text.into_bytes())
        }
        Some(centre) => {
            let text = centre_what_if_text(alloc, centre, period, through, digest, rows, charged)?;
            Ok(text.into_bytes())
        }
    }
}

/// The table of the office or of a centre, by the rows of the period under the other tariff.
fn table_shown(
    alloc: Global,
    centre: Option<Name>,
    period: u16,
    rows: Vec<ChargeRow>,
) -> Result<Vec<u8>, AllocError>
    requires { AreRows rows.items }
    ensures { IfOk result (λ table. table.items ≡ spec.table_shown centre period rows.items) }
{
    match centre {
        None => what_if_table(alloc, period, &rows),
        Some(centre) => centre_what_if_table(alloc, centre, period, rows),
    }
}

/// The text by a tariff, whose file has this SHA-256.
fn text_under<L: Ledger>(
    alloc: Global,
    ledger: &mut L,
    centre: Option<Name>,
    period: u16,
    digest: &[u8; 32],
    tariff: &Tariff,
    through: Option<i32>,
) -> Result<Vec<u8>, LedgerFault>
    requires { ForSome through IsDay }
    ensures { IsCall (λ text. text.items) (L.seen ledger.old) (L.seen ledger.new) result
        (λ book. no_event (spec.text_under centre period digest.now tariff.now through book)) }
{
    let rows = ledger.charges_under(period, tariff)?;
    made_of(
        ledger.charges(period),
        |charged| text_shown(alloc, centre, period, digest, through, rows, charged),
    )
}

/// The table by a tariff.
fn table_under<L: Ledger>(
    alloc: Global,
    ledger: &mut L,
    centre: Option<Name>,
    period: u16,
    tariff: &Tariff,
) -> Result<Vec<u8>, LedgerFault>
    ensures { IsCall (λ text. text.items) (L.seen ledger.old) (L.seen ledger.new) result
        (λ book. no_event (spec.table_under centre period tariff.now book)) }
{
    made_of(
        ledger.charges_under(period, tariff),
        |rows| table_shown(alloc, centre, period, rows),
    )
}

/// What a period would have cost by the tariff of a text: each of its records by that tariff,
/// whatever the tariff's first day; and what it is charged. A text that is no tariff is refused as
/// the ledger refuses it as a ruling.
pub fn what_if_text<L: Ledger>(
    alloc: Global,
    ledger: &mut L,
    asked: WhatIf,
    tariff: &str,
) -> Result<Vec<u8>, LedgerFault>
    ensures { IsCall (λ text. text.items) (L.seen ledger.old) (L.seen ledger.new) result
        (spec.what_if_report asked tariff.now) }
{
    let WhatIf {
        form,
        period,
        centre,
    } = asked;
    // The books are asked before the tariff is read: those that are to be opened again say so.
    let through = closed_through(ledger, period)?;
    let terms = Tariff::parse(alloc, tariff)?;
    match form {
        StatementForm::Text => {
            let digest = Sha256::digest(tariff.as_bytes());
            text_under(alloc, ledger, centre, period, &digest, &terms, through)
        }
        StatementForm::Table => table_under(alloc, ledger, centre, period, &terms),
    }
}
