//! The page of the bill of a period, which a ledger answers by calls that change nothing: it is as
//! one call.

ghost use Rattle.std.specs.Prelude.{◌≡◌, IfOk, None, Some, string_bytes};
ghost use Rattle.std.specs.Option.{ForSome};
ghost use Rattle.book_model.specs.Words.{IsDay, bill_shown};
ghost use Rattle.book_core.specs.Calls.{IsCall};
ghost use Rattle.report_texts.specs.Charges.{IsBill};
ghost use Rattle.bill_pages.specs.BillPages.{head_shown};
ghost use Rattle.book_reports.specs.BillPages as spec;
ghost use Rattle.book_reports.specs.Bills.{period_bill_shown};
ghost use Rattle.book_reports.specs.BookTexts.{report_outcome};

use crate::bills::{PeriodBill, gathered};
use crate::book_texts::made_of;
use crate::known_centres::known_centre;
use crate::report::Report;
use bill_pages::{PageHead, centre_bill_page, office_bill_page};
use bill_texts::{centre_parts, centre_sheet, first_day, office_sheet};
use book_core::{Ledger, LedgerFault};
use smf_text::Name;
use std::alloc::{AllocError, Global};

/// Whose bill it is, and of which days.
fn head_of<'a>(period: u16, centre: Option<Name>, found: &'a PeriodBill) -> PageHead<'a>
    requires day { ForSome found.now.through IsDay }
    requires bill { IsBill (bill_shown found.now.bill) }
    ensures head { head_shown result ≡ spec.head_of period centre (period_bill_shown found.now) }
    ensures first { ForSome result.first IsDay }
    ensures through { ForSome result.through IsDay }
{
    PageHead {
        period,
        centre,
        first: first_day(found.bill.before, &found.bill.tariffs),
        through: found.through,
        held: found.bill.held_back,
        letterhead: &found.bill.letterhead,
    }
}

/// The page of the office's bill.
fn office_page(alloc: Global, period: u16, found: &PeriodBill) -> Result<String, AllocError>
    requires day { ForSome found.now.through IsDay }
    requires bill { IsBill (bill_shown found.now.bill) }
    ensures { IfOk result (λ page. string_bytes page
        ≡ spec.bill_page_in period None (period_bill_shown found.now)) }
{
    let sheet = office_sheet(alloc, &found.bill)?;
    let head = head_of(period, None, found);
    office_bill_page(alloc, &head, &sheet)
}

/// The page of the bill of a centre.
fn centre_page(
    alloc: Global,
    period: u16,
    centre: Name,
    found: &PeriodBill,
) -> Result<String, AllocError>
    requires day { ForSome found.now.through IsDay }
    requires bill { IsBill (bill_shown found.now.bill) }
    ensures { IfOk result (λ page. string_bytes page
        ≡ spec.bill_page_in period (Some centre) (period_bill_shown found.now)) }
{
    let sheet = centre_sheet(alloc, centre, &found.bill)?;
    let parts = centre_parts(alloc, &found.bill)?;
    let head = head_of(period, Some(centre), found);
    centre_bill_page(alloc, &head, &sheet, &parts)
}

/// The one or the other.
fn shown(
    alloc: Global,
    period: u16,
    centre: &Option<Name>,
    found: &PeriodBill,
) -> Result<Vec<u8>, AllocError>
    requires day { ForSome found.now.through IsDay }
    requires bill { IsBill (bill_shown found.now.bill) }
    ensures { IfOk result (λ page. page.items
        ≡ spec.bill_page_in period centre.now (period_bill_shown found.now)) }
{
    match *centre {
        None => Ok(office_page(alloc, period, found)?.into_bytes()),
        Some(centre) => Ok(centre_page(alloc, period, centre, found)?.into_bytes()),
    }
}

/// The page of the bill of a period, of one centre, whatever it is, or of the whole office.
fn page_made<L: Ledger>(
    alloc: Global,
    ledger: &mut L,
    period: u16,
    centre: Option<Name>,
) -> Result<Vec<u8>, LedgerFault>
    ensures { IsCall (λ page. page.items) (L.seen ledger.old) (L.seen ledger.new) result
        (spec.bill_page_outcome (L.seen ledger.old).naming period centre) }
{
    made_of(
        gathered(alloc, ledger, period, &centre),
        |found| shown(alloc, period, &centre, &found),
    )
}

/// That of a centre that is there.
fn known_page<L: Ledger>(
    alloc: Global,
    ledger: &mut L,
    period: u16,
    centre: Name,
) -> Result<Vec<u8>, LedgerFault>
    ensures { IsCall (λ page. page.items) (L.seen ledger.old) (L.seen ledger.new) result
        (report_outcome (L.seen ledger.old).naming (Report.BillPage period (Some centre))) }
{
    known_centre(alloc, ledger, period, centre)?;
    page_made(alloc, ledger, period, Some(centre))
}

/// That of a centre that is there, or of the whole office.
pub(crate) fn bill_page_report<L: Ledger>(
    alloc: Global,
    ledger: &mut L,
    period: u16,
    centre: Option<Name>,
) -> Result<Vec<u8>, LedgerFault>
    ensures { IsCall (λ page. page.items) (L.seen ledger.old) (L.seen ledger.new) result
        (report_outcome (L.seen ledger.old).naming (Report.BillPage period centre)) }
{
    match centre {
        Some(centre) => known_page(alloc, ledger, period, centre),
        None => page_made(alloc, ledger, period, None),
    }
}
