//! Checks: what each record of a dump is, and why there are no more. A dump that has to be whole is
//! checked before it is imported.

ghost use Rattle.std.specs.Prelude.{◌≡◌, true, IfErr};
ghost use Rattle.streams.specs.Failures.{HasFailed};
ghost use Rattle.streams.specs.Sinks.{has_failed, writer_of};
ghost use Rattle.book_lists.specs.Writing.{is_write_fault};
ghost use Rattle.without_books.specs.DumpEnds.{notices_torn};
ghost use Rattle.without_books.specs.Reading.{Checks, IsUnfit, Lists, check_end};

use crate::command_fault::CommandFault;
use crate::ended::Ended;
use crate::first_bytes::{LookedAt, look_at};
use crate::inputs::Inputs;
use crate::notice::Notice;
use crate::progress::{clear_line, open_watched};
use book_core::{Sink, Source};
use book_import::MAX_READS;
use book_reports::ReportFault;
use command_line::DumpFile;
use program_output::{Checked, check_list};
use smf_frames::Layout;
use std::alloc::Global;
use std::io;
use std::io::{IsTerminal, Read, Write};
use streams::Writer;

/// Says what each record of a file is. Where the list goes to a terminal, the list itself shows how
/// far it is.
pub fn check<F: Inputs, O: Writer + Drop>(
    rt: &HostRuntime,
    inputs: &F,
    dump: DumpFile<'_>,
    names: bool,
    output: O,
) -> (Ended, O)
    ensures { Checks ((F.held inputs.now).holds dump.entry.file.now) dump.entry.layout
        dump.entry.whole names (O.contents output) (O.contents result.1)
        (∥ HasFailed O.may_answer result.1 ∥₁) result.0 }
{
    let layout = dump.layout;
    let is_shown = !dump.quiet && rt.stderr().is_terminal() && !rt.stdout().is_terminal();
    match open_watched(rt, inputs, dump.file, is_shown) {
        Ok(reader) => {
            let listed = list_dump(rt.alloc(), layout, dump.whole, names, reader, output);
            clear_line(rt, is_shown);
            listed
        }
        Err(error) => (Ended::without_log(Err(CommandFault::from(error))), output),
    }
}

/// Says what each record is that a reader gives.
fn list_dump<R: Read + Drop, O: Writer + Drop>(
    alloc: Global,
    layout: Layout,
    has_to_be_whole: bool,
    names: bool,
    reader: R,
    output: O,
) -> (Ended, O)
    ensures { Lists layout has_to_be_whole names (R.remaining reader) (O.contents output)
        (O.contents result.1) (∥ HasFailed O.may_answer result.1 ∥₁) result.0 }
{
    let LookedAt { reader, is_misread } = look_at(alloc, layout, reader);
    let mut source = Source::new(reader);
    let mut sink = Sink::new(output);
    let told = check_list(alloc, &mut source, layout, names, MAX_READS, &mut sink);
    end_check(has_to_be_whole, is_misread, told, sink)
}

/// How a check ends that came to this, and the output as its list left it.
fn end_check<O: Writer + Drop>(
    has_to_be_whole: bool,
    is_misread: bool,
    told: Result<Checked, ReportFault>,
    sink: Sink<O>,
) -> (Ended, O)
    requires { has_failed sink ≡ is_write_fault told }
    ensures ended { result.0 ≡ check_end has_to_be_whole is_misread told }
    ensures writer { result.1 ≡ writer_of sink }
    ensures failed { is_write_fault told ≡ true → ∥ HasFailed O.may_answer result.1 ∥₁ }
{
    let ended = check_ended(has_to_be_whole, is_misread, told);
    (ended, sink.into_inner())
}

/// How a check ends of a dump that looks misread or not.
fn check_ended(has_to_be_whole: bool, is_misread: bool, told: Result<Checked, ReportFault>) -> Ended
    ensures { result ≡ check_end has_to_be_whole is_misread told }
{
    match told {
        Ok(Checked { stop, is_torn }) => {
            Ended::at_stop(stop, has_to_be_whole, is_misread, is_torn)
        }
        Err(fault) => Ended::without_log(Err(CommandFault::from(fault))),
    }
}

/// An output that nobody reads.
#[derive(Drop)]
struct Unread;

impl Write for Unread {
    fn write(&mut self, bytes: &[u8]) -> io::Result<usize> {
        Ok(bytes.len())
    }

    fn flush(&mut self) -> io::Result<()> {
        Ok(())
    }
}

/// Refuses a dump that has to be whole, and is torn, before it is imported. What can be read but once
/// is not read for that: its import tells.
pub fn expect_whole<F: Inputs>(
    rt: &HostRuntime,
    inputs: &F,
    dump: DumpFile<'_>,
) -> Result<(), CommandFault>
    ensures { IfErr result (IsUnfit ((F.held inputs.now).holds dump.entry.file.now)
        dump.entry.layout dump.entry.whole) }
{
    if dump.whole {
        find_whole(rt, inputs, dump)
    } else {
        Ok(())
    }
}

/// Reads a dump that has to be whole, if it can be read again, and refuses it where it is torn.
fn find_whole<F: Inputs>(
    rt: &HostRuntime,
    inputs: &F,
    dump: DumpFile<'_>,
) -> Result<(), CommandFault>
    requires { dump.whole ≡ true }
    ensures { IfErr result (IsUnfit ((F.held inputs.now).holds dump.entry.file.now)
        dump.entry.layout dump.entry.whole) }
{
    if !inputs.is_kept(dump.file) {
        return Ok(());
    }
    let is_shown = !dump.quiet && rt.stderr().is_terminal();
    let reader = open_watched(rt, inputs, dump.file, is_shown)?;
    let (ended, _) = list_dump(rt.alloc(), dump.layout, true, false, reader, Unread);
    clear_line(rt, is_shown);
    if has_torn(&ended) {
        return Err(CommandFault::Torn);
    }
    Ok(())
}

/// A check noticed that a dump is not whole that had to be.
fn has_torn(ended: &Ended) -> bool
    ensures { result ≡ notices_torn ended.now }
{
    matches!(ended.notice, Some(Notice::NotWhole))
}
