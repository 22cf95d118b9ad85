//! What a command notices beside what it was asked.

ghost use Rattle.std.specs.Prelude.{◌≡◌, ◌∷◌, []};
ghost use Rattle.program_output.specs.Messages.{AreSaid};
ghost use Rattle.without_books.specs.Faults.{notice_line};
ghost use Rattle.without_books.specs.DumpEnds as spec;

use book_import::Stop;
use program_output::{far_noticed, layout_noticed, torn_noticed};
use streams::Writer;

/// Something to look at before it costs money. It changes nothing that a command does, and its exit
/// status only where a dump had to be whole.
#[derive(Clone, Copy)]
pub enum Notice {
    /// The dump was read in one layout, and looks like one in the other.
    Layout,
    /// The day of a ruling lies long after all that the books charged, or after today.
    Far,
    /// The dump has no record, or fewer trailers than headers.
    Torn,
    /// So it is, and it had to be whole.
    NotWhole,
}

impl Notice {
    /// Says it on standard error, in one line.
    pub fn write_to<E: Writer>(self, errors: &mut E)
        ensures { AreSaid E.contents E.may_answer (notice_line self ∷ []) errors.old errors.new }
    {
        match self {
            Notice::Layout => layout_noticed(errors),
            Notice::Far => far_noticed(errors),
            Notice::Torn | Notice::NotWhole => torn_noticed(errors),
        }
    }
}

/// What is noticed of a dump that was read up to a stop. Where its reading failed, nothing is; that
/// it is torn is seen at its end alone.
pub fn dump_notice(
    has_to_be_whole: bool,
    is_misread: bool,
    is_torn: bool,
    stop: Stop,
) -> Option<Notice>
    ensures { result ≡ spec.dump_notice has_to_be_whole is_misread is_torn stop }
{
    let ends_torn = is_torn && is_end(stop);
    if has_to_be_whole && ends_torn {
        Some(Notice::NotWhole)
    } else if is_misread && !is_unread(stop) {
        Some(Notice::Layout)
    } else if ends_torn {
        Some(Notice::Torn)
    } else {
        None
    }
}

/// The dump was read to its end.
fn is_end(stop: Stop) -> bool
    ensures { result ≡ spec.is_end stop }
{
    match stop {
        Stop::End => true,
        Stop::Read | Stop::ReadLimit | Stop::Frame(_) | Stop::Ledger(_) => false,
    }
}

/// A read failed, or all that are allowed did not reach the end.
fn is_unread(stop: Stop) -> bool
    ensures { result ≡ spec.is_unread stop }
{
    match stop {
        Stop::Read | Stop::ReadLimit => true,
        Stop::End | Stop::Frame(_) | Stop::Ledger(_) => false,
    }
}
