//! How many bytes the text of details has, found without making it: so a text can be announced that
//! is never held whole. What is held of it is one detail.

ghost use Rattle.std.specs.Prelude.{◌≡◌, ◌+◌, IfErr, IfOk, OnOk, length};
ghost use Rattle.std.specs.Option.{ForSome};
ghost use Rattle.book_model.specs.Words.{IsDay};
ghost use Rattle.book_core.specs.Calls.{IsCall};
ghost use Rattle.book_reports.specs.StreamedDetails as spec;

use crate::known_centres::known_through;
use crate::streamed_details::{DetailReport, NO_SUMS, Sums, end_of, head_of, part_of, with_detail};
use book_core::{Detail, Ledger, LedgerFault};
use book_lists::{DetailCursor, Step, fold};
use std::alloc::{AllocError, Global};

/// How many details there are, what they come to, and how many bytes their lines have.
#[derive(Clone, Copy)]
pub(crate) struct Counted {
    sums: Sums,
    size: usize,
}

/// How many bytes stand above the details.
fn size_of_head(
    alloc: Global,
    report: &DetailReport,
    through: Option<i32>,
) -> Result<usize, AllocError>
    requires { ForSome through IsDay }
    ensures { IfOk result (λ size. size ≡ length (spec.details_head report.now through)) }
{
    let head = head_of(alloc, report, through)?;
    Ok(head.len())
}

/// Counts one more detail, and the bytes of its line.
fn count_detail(
    alloc: Global,
    report: &DetailReport,
    detail: &Detail,
    sums: &mut Sums,
    size: &mut usize,
) -> Result<(), LedgerFault>
    requires { IsDay detail.now.priced.day }
    ensures sums { OnOk result (sums.new ≡ spec.with_detail sums.old detail.now) }
    ensures size { OnOk result
        (size.new ≡ size.old + length (spec.details_part report.now detail.now)) }
    ensures fault { IfErr result (λ fault. fault ≡ LedgerFault.Memory) }
{
    let Some(more) = with_detail(*sums, detail) else {
        return Err(LedgerFault::Memory);
    };
    let part = part_of(alloc, report, detail)?;
    let Some(longer) = size.checked_add(part.len()) else {
        return Err(LedgerFault::Memory);
    };
    *sums = more;
    *size = longer;
    Ok(())
}

/// Counts details, and the bytes of their lines.
#[derive(Drop)]
struct LengthStep {
    report: DetailReport,
}

impl Step<Detail> for LengthStep {
    ghost use Rattle.book_model.specs.Words.{IsDay};
    ghost use Rattle.book_reports.specs.DetailLengths.{AreCounted};

    type State = Counted;

    ghost Takes = { λ step detail. IsDay detail.priced.day };

    ghost Has = { λ step counted details. AreCounted step.report counted details };

    fn begin(&self, _alloc: Global) -> Result<Counted, AllocError> {
        Ok(Counted {
            sums: NO_SUMS,
            size: 0,
        })
    }

    fn add(
        &self,
        alloc: Global,
        counted: &mut Counted,
        detail: &Detail,
    ) -> Result<(), LedgerFault> {
        count_detail(
            alloc,
            &self.report,
            detail,
            &mut counted.sums,
            &mut counted.size,
        )
    }
}

/// How many bytes there are with those that stand above the lines and below them.
fn size_in_all(
    alloc: Global,
    report: &DetailReport,
    above: usize,
    counted: Counted,
) -> Result<usize, LedgerFault>
    ensures whole { IfOk result (λ whole. whole
        ≡ above + counted.size + length (spec.details_end report.now counted.sums)) }
    ensures fault { IfErr result (λ fault. fault ≡ LedgerFault.Memory) }
{
    let end = end_of(alloc, report, counted.sums)?;
    let Some(lines) = above.checked_add(counted.size) else {
        return Err(LedgerFault::Memory);
    };
    match lines.checked_add(end.len()) {
        Some(whole) => Ok(whole),
        None => Err(LedgerFault::Memory),
    }
}

/// How many bytes `write_details` writes of these books, where nothing hinders it. Each detail is
/// read for it, and its line is made, one at a time.
pub fn details_length<L: Ledger>(
    alloc: Global,
    ledger: &mut L,
    report: DetailReport,
) -> Result<usize, LedgerFault>
    ensures { IsCall (λ size. size) (L.seen ledger.old) (L.seen ledger.new) result
        (spec.detail_length_outcome report (L.seen ledger.old).naming) }
{
    let through = known_through(alloc, ledger, report.period, &report.centre)?;
    let details = DetailCursor {
        period: report.period,
        centre: report.centre,
    };
    let counted = fold(alloc, ledger, &details, &LengthStep { report })?;
    let above = size_of_head(alloc, &report, through)?;
    size_in_all(alloc, &report, above, counted)
}
