//! The head of a request, read in pieces of any size.

ghost use Rattle.std.specs.Prelude.{◌≡◌, ◌+◌, ◌≤◌, ◌^◌, false, length, take};
ghost use Rattle.httparse.specs.Grammar.{RequestHead};
ghost use Rattle.httparse.specs.Spans.{IsRequestWithin};
ghost use Rattle.streams.specs.AnswerFlags.{NothingUnread};
ghost use Rattle.streams.specs.Sources.{reader_of, reads_of, has_failed, has_ended};
ghost use Rattle.book_http.specs.Head.{HeadComes, HoldsHead, IfWhole};
ghost use Rattle.book_http.specs.Head.{is_failed_head, most_fields, most_head_bytes};
ghost use Rattle.book_http.specs.Reads.{IsDueForHead, ReadsOn};

use httparse::Status;
use httparse::spans::{HeaderSpan, RequestSpans, parse_request};
use streams::{Reader, Source};

/// The most bytes that a head may have.
pub const MAX_HEAD: usize = 16_384;

/// The most fields that a head may have.
pub const MAX_FIELDS: usize = 64;

/// A head at the beginning of a buffer.
#[derive(Clone, Copy)]
pub struct WholeHead {
    /// How many bytes of the buffer were read: the head, and what came after it.
    pub filled: usize,
    /// Where the parts of the head are.
    pub spans: RequestSpans,
}

/// The result of reading a head.
#[derive(Clone, Copy)]
pub enum HeadRead {
    /// The input ended before its first byte.
    Closed,
    /// A read failed.
    Failed,
    /// Whatever follows, there is no head at the beginning of the input.
    Refused,
    /// A head came.
    Whole(WholeHead),
}

/// Reads until a head is whole, or can't become one any more. The fields are those of the head that
/// came.
pub fn read_head<R: Reader + Drop>(
    source: &mut Source<R>,
    buffer: &mut [u8],
    fields: &mut [HeaderSpan],
) -> HeadRead
    requires room { length buffer.old ≡ most_head_bytes }
    requires field_room { length fields.old ≡ most_fields }
    requires asked { reads_of source.old ≤ 2 ^ 62 }
    requires failed { has_failed source.old ≡ false }
    requires ended { has_ended source.old ≡ false }

    // The reads that were made, each of them while no head was there yet, and what came of their
    // bytes.
    ensures reads { ReadsOn R.remaining R.may_answer IsDueForHead source.old source.new
        (HeadComes result buffer.new (has_ended source.new)) }
    ensures failed { has_failed source.new ≡ is_failed_head result }

    // The head that came, and how much of the buffer was filled for it.
    ensures filled { IfWhole result (λ whole. whole.filled ≤ length buffer.new) }
    ensures within { IfWhole result (λ whole.
        IsRequestWithin (take whole.filled buffer.new) fields.new whole.spans) }
    ensures head { IfWhole result (λ whole. (h : RequestHead)
        × HoldsHead (take whole.filled buffer.new) fields.new whole.spans h) }

    // What may be read after it.
    ensures goes_on { IfWhole result (λ whole. has_ended source.new ≡ false) }
    ensures asked { reads_of source.new ≤ reads_of source.old + most_head_bytes }
    ensures left { NothingUnread
        (has_ended source.new) (R.remaining (reader_of source.new)) }
{
    let mut filled = 0;
    'pieces: while filled < MAX_HEAD {
        let Ok(count) = source.read(&mut buffer[filled..]) else {
            return HeadRead::Failed;
        };
        if count == 0 {
            return if filled == 0 {
                HeadRead::Closed
            } else {
                HeadRead::Refused
            };
        }
        filled += count;
        match parse_request(&buffer[..filled], fields) {
            Ok(Status::Complete(spans)) => return HeadRead::Whole(WholeHead { filled, spans }),
            Ok(Status::Partial) => {}
            Err(_) => return HeadRead::Refused,
        }
    }
    HeadRead::Refused
}
