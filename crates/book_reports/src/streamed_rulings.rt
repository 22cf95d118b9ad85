//! The list of rulings, written as it is read: with a million choices it has 90 MB, and is never
//! made whole. What is held of it is one ruling, and the lines that wait to be written.

ghost use Rattle.std.specs.Prelude.{◌≡◌, IfOk, false};
ghost use Rattle.streams.specs.Sinks.{has_failed, writer_of};
ghost use Rattle.book_model.specs.Words.{HasDays, ruling_shown};
ghost use Rattle.book_core.specs.Words.{Reopens, IsTransition};
ghost use Rattle.report_texts.specs.RulingLists.{ruling_line};
ghost use Rattle.book_lists.specs.Streamed.{refusal_in};
ghost use Rattle.book_lists.specs.Writing.{is_write_fault};
ghost use Rattle.book_reports.specs.StreamedRulings.{WritesRulings, WritesSomeRulings};

use book_core::{Ledger, LedgerFault, ListedRuling, Sink};
use book_lists::{Lines, ReportFault, RulingCursor, Step, write_list};
use report_texts::{push_ruling_line, ruling_list_head};
use std::alloc::{AllocError, Global};
use streams::Writer;

/// A line for each ruling.
pub(crate) struct RulingLines;

impl Step<ListedRuling> for RulingLines {
    ghost use Rattle.book_model.specs.Words.{HasDays, ruling_shown};

    type State = ();

    ghost Takes = { λ lines ruling. HasDays (ruling_shown ruling) };

    ghost Has = { λ lines state rulings. Unit {0} };

    fn begin(&self, _alloc: Global) -> Result<(), AllocError> {
        Ok(())
    }

    fn add(
        &self,
        _alloc: Global,
        _state: &mut (),
        _ruling: &ListedRuling,
    ) -> Result<(), LedgerFault> {
        Ok(())
    }
}

/// The line of a ruling.
fn line_of(alloc: Global, ruling: &ListedRuling) -> Result<Vec<u8>, AllocError>
    requires { HasDays (ruling_shown ruling.now) }
    ensures { IfOk result (λ line. line.items ≡ ruling_line (ruling_shown ruling.now)) }
{
    let mut text = String::new(alloc);
    push_ruling_line(alloc, &mut text, ruling)?;
    Ok(text.into_bytes())
}

impl Lines<ListedRuling> for RulingLines {
    ghost use Rattle.std.specs.Prelude.{[]};
    ghost use Rattle.book_model.specs.Words.{ruling_shown};
    ghost use Rattle.report_texts.specs.RulingLists.{ruling_line, ruling_list_head};
    ghost use Rattle.book_reports.specs.StreamedRulings.{some_above_rulings};

    ghost above = { λ lines. ruling_list_head };

    ghost part = { λ lines number ruling. ruling_line (ruling_shown ruling) };

    ghost below = { λ lines rulings. [] };

    fn head(&self, alloc: Global) -> Result<Vec<u8>, AllocError> {
        Ok(ruling_list_head(alloc)?.into_bytes())
    }

    fn line(
        &self,
        alloc: Global,
        _number: u64,
        ruling: &ListedRuling,
    ) -> Result<Vec<u8>, AllocError> {
        line_of(alloc, ruling)
    }

    fn end(&self, alloc: Global, _state: &()) -> Result<Vec<u8>, AllocError> {
        Ok(Vec::new(alloc))
    }

    ghost some = { λ lines. some_above_rulings };
}

/// Writes the list of rulings: the whole of it, or, before a fault, a prefix that is not the whole.
/// The ledger is asked for the first ruling before anything else, so that what it refuses comes
/// before any byte. Nothing is written after a write that failed.
pub fn write_rulings<L: Ledger, W: Writer + Drop>(
    alloc: Global,
    ledger: &mut L,
    sink: &mut Sink<W>,
) -> Result<(), ReportFault>
    ensures written { IsTransition (L.seen ledger.old) (L.seen ledger.new)
        (WritesRulings (L.seen ledger.old).naming
        (W.contents (writer_of sink.old)) (W.contents (writer_of sink.new)) result) }
    ensures reopens { Reopens (refusal_in result)
        (L.seen ledger.old).must_reopen (L.seen ledger.new).must_reopen }
    ensures some { WritesSomeRulings
        (W.contents (writer_of sink.old)) (W.contents (writer_of sink.new)) result }
    ensures failed { has_failed sink.old ≡ false → has_failed sink.new ≡ is_write_fault result }
{
    write_list(alloc, ledger, &RulingCursor, &RulingLines, sink)
}
