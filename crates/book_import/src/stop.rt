ghost use Rattle.std.specs.Prelude.{◌≡◌, ℕ, List, IfSome, None, Some, false, unwrap_or};
ghost use Rattle.book_model.specs.Words.{front, HasTaken};
ghost use Rattle.book_import.specs.Dumps.{frame_stop};
ghost use Rattle.book_import.specs.ReadLimits.{cut_of};
ghost use Rattle.book_import.specs.Receipts.{is_stop_of_books};

use crate::group::Group;
use book_core::{Source, Stop};
use smf_frames::Joiner;
use streams::Reader;

/// What cut the reading of a source short, if anything did.
pub(crate) fn cut<R: Reader + Drop>(source: &Source<R>) -> Option<Stop>
    ensures cut { result ≡ cut_of source.now }
    ensures other { IfSome result (λ stop. is_stop_of_books stop ≡ false) }
{
    if source.failed() {
        Some(Stop::Read)
    } else if source.ended() {
        None
    } else {
        Some(Stop::ReadLimit)
    }
}

/// The stop after the last record, if what a joiner took is the whole dump.
pub(crate) fn dump_end(joiner: &Joiner) -> Stop
    ensures stop { (text : List ℕ) → HasTaken text joiner.now
        → result ≡ frame_stop (front joiner.now.layout text).fault }
    ensures other { is_stop_of_books result ≡ false }
{
    match joiner.finish() {
        Ok(()) => Stop::End,
        Err(fault) => Stop::Frame(fault),
    }
}

/// The stop with which the import ends after a group, if that is known: a descriptor has a fault,
/// or the group is the last.
pub(crate) fn group_end(joiner: &Joiner, group: &Group, is_last: bool) -> Option<Stop>
    ensures broken { IfSome group.now.broken (λ fault. result ≡ Some (Stop.Frame fault)) }
    ensures last { group.now.broken ≡ None → IfSome result (λ stop. (text : List ℕ)
        → HasTaken text joiner.now → stop ≡ frame_stop (front joiner.now.layout text).fault) }
    ensures unknown { is_last ≡ false → group.now.broken ≡ None → result ≡ None }
{
    match group.broken {
        Some(fault) => Some(Stop::Frame(fault)),
        None => {
            if is_last {
                Some(dump_end(joiner))
            } else {
                None
            }
        }
    }
}

/// The stop after the last record of what a joiner took from a source that is read no further. If
/// something cut the reading short, that is the stop, and not what is undone for lack of more.
pub fn reading_end<R: Reader + Drop>(source: &Source<R>, joiner: &Joiner) -> Stop
    ensures stop { (text : List ℕ) → HasTaken text joiner.now → result
        ≡ unwrap_or (cut_of source.now) (frame_stop (front joiner.now.layout text).fault) }
    ensures other { is_stop_of_books result ≡ false }
{
    cut(source).unwrap_or(dump_end(joiner))
}
