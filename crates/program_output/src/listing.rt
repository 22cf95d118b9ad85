//! A check list that is written as the records of its dump come.

ghost use Rattle.std.specs.Prelude.{◌≡◌, ◌+◌, ◌<◌, ◌≤◌, ◌^◌, ◌++◌, false, true, []};
ghost use Rattle.std.specs.Prelude.{length, IfErr, IfOk, OnOk};
ghost use Rattle.book_model.specs.Words.{class_of};
ghost use Rattle.streams.specs.Sinks.{writer_of, has_failed};
ghost use Rattle.book_lists.specs.Streamed.{WritesAllBut};
ghost use Rattle.book_lists.specs.Writing.{WritesPrefix, WritesUntil, is_write_fault};
ghost use Rattle.book_lists.specs.Writing.{is_write_or_memory};
ghost use Rattle.book_reports.specs.CheckLists.{last_line, record_line};
ghost use Rattle.program_output.specs.Listings.{HasRoom, checked_as, listed_count, listed_marks};
ghost use Rattle.program_output.specs.Listings.{most_written, waiting};
ghost use Rattle.program_output.specs.Marks.{marks_with, no_marks};

use crate::marks::Marks;
use book_core::Sink;
use book_import::Stop;
use book_reports::{ReportFault, push_last_line, push_record_line, write_text};
use smf_type30::class;
use std::alloc::{AllocError, Global};
use streams::Writer;

/// How many bytes are written at once, at most.
const MOST_WRITTEN: usize = 65_536;

/// No line of a list is longer.
const LONGEST_LINE: usize = 128;

/// The lines of a list that are waiting to be written, how many records have a line, and which of
/// them mark its begin and its end.
#[derive(Drop)]
pub struct Listing {
    alloc: Global,
    text: String,
    count: u64,
    marks: Marks,
}

/// What a check came to.
#[derive(Clone, Copy)]
pub struct Checked {
    /// Why there are no more records.
    pub stop: Stop,
    /// There are none, or fewer trailers than headers.
    pub is_torn: bool,
}

impl Listing {
    /// A list with no line yet. It takes the memory for the lines that are written at once.
    pub(crate) fn new(alloc: Global) -> Result<Listing, AllocError>
        ensures waits { IfOk result (λ made. waiting made ≡ []) }
        ensures count { IfOk result (λ made. listed_count made ≡ 0) }
        ensures marks { IfOk result (λ made. listed_marks made ≡ no_marks) }
    {
        Ok(Listing {
            alloc,
            text: String::with_capacity(alloc, MOST_WRITTEN)?,
            count: 0,
            marks: Marks::none(),
        })
    }

    /// Writes what waits.
    pub(crate) fn flush<W: Writer + Drop>(&mut self, sink: &mut Sink<W>) -> Result<(), ReportFault>
        requires unwritten { has_failed sink.old ≡ false }
        requires short { length (waiting self.old) ≤ most_written }
        ensures written { WritesPrefix (waiting self.old)
            (W.contents (writer_of sink.old)) (W.contents (writer_of sink.new)) result }
        ensures until { WritesUntil (waiting self.old)
            (W.contents (writer_of sink.old)) (W.contents (writer_of sink.new)) result }
        ensures waits { OnOk result (waiting self.new ≡ []) }
        ensures count { listed_count self.new ≡ listed_count self.old }
        ensures marks { listed_marks self.new ≡ listed_marks self.old }
        ensures failed { has_failed sink.new ≡ is_write_fault result }
        ensures fault { IfErr result (λ fault. is_write_or_memory fault ≡ true) }
    {
        write_text(sink, self.text.as_str())?;
        self.text.clear();
        Ok(())
    }

    /// Adds the line of the next record, with its name where names are asked for. Where there is no
    /// room for a further line, what waits is written.
    pub(crate) fn push_line<W: Writer + Drop>(
        &mut self,
        names: bool,
        bytes: &[u8],
        sink: &mut Sink<W>,
    ) -> Result<(), ReportFault>
        requires unwritten { has_failed sink.old ≡ false }
        requires few { listed_count self.old < 2 ^ 63 }
        requires room { HasRoom self.old }
        ensures written { WritesAllBut
            (waiting self.old ++ record_line names (listed_count self.old + 1) bytes.now)
            (waiting self.new) (W.contents (writer_of sink.old)) (W.contents (writer_of sink.new))
            result }
        ensures room { OnOk result (HasRoom self.new) }
        ensures count { listed_count self.new ≡ listed_count self.old + 1 }
        ensures marks { listed_marks self.new
            ≡ marks_with (class_of bytes.now) (listed_marks self.old) }
        ensures failed { has_failed sink.new ≡ is_write_fault result }
        ensures fault { IfErr result (λ fault. is_write_or_memory fault ≡ true) }
    {
        self.count += 1;
        self.marks = self.marks.after(class(bytes));
        push_record_line(self.alloc, &mut self.text, names, self.count, bytes)?;
        if self.text.len() + LONGEST_LINE > MOST_WRITTEN {
            self.flush(sink)?;
        }
        Ok(())
    }

    /// Adds the last line, and writes what waits.
    pub(crate) fn end<W: Writer + Drop>(
        &mut self,
        stop: Stop,
        sink: &mut Sink<W>,
    ) -> Result<Checked, ReportFault>
        requires unwritten { has_failed sink.old ≡ false }
        requires few { listed_count self.old < 2 ^ 63 }
        requires room { HasRoom self.old }
        ensures written { WritesUntil (waiting self.old ++ last_line (listed_count self.old) stop)
            (W.contents (writer_of sink.old)) (W.contents (writer_of sink.new)) result }
        ensures told { IfOk result (λ told.
            told ≡ checked_as stop (listed_count self.old) (listed_marks self.old)) }
        ensures failed { has_failed sink.new ≡ is_write_fault result }
        ensures fault { IfErr result (λ fault. is_write_or_memory fault ≡ true) }
    {
        let is_torn = self.marks.are_torn(self.count);
        push_last_line(&mut self.text, self.count, stop)?;
        self.flush(sink)?;
        Ok(Checked { stop, is_torn })
    }
}
