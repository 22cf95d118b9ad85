//! The body of a request, read in pieces of any size.

ghost use Rattle.std.specs.Prelude.{◌≡◌, ◌+◌, ◌≤◌, ◌^◌, ◌++◌, false, true, length, take, IsErrOf};
ghost use Rattle.streams.specs.AnswerFlags.{NothingUnread};
ghost use Rattle.streams.specs.Sources.{reader_of, reads_of, has_failed, has_ended};
ghost use Rattle.book_http.specs.Bodies.{BodyComes, Fills, is_failed_body, most_body_bytes};
ghost use Rattle.book_http.specs.Head.{most_head_bytes};
ghost use Rattle.book_http.specs.Reads.{IsDueBehind, IsDueForRest, ReadsOn};

use std::alloc::Global;
use streams::{Reader, Source};

/// The most bytes that a body may have.
pub const MAX_BODY: u64 = 16_777_216;

/// Why there is no body.
#[derive(Clone, Copy)]
pub enum BodyFault {
    /// The input ended before it.
    Short,
    /// A read failed.
    Read,
    /// There was no memory for it. Nothing was read.
    Memory,
}

/// Reads the rest of a body, this many bytes of which are there.
fn fill<R: Reader + Drop>(
    source: &mut Source<R>,
    body: &mut [u8],
    had: usize,
) -> Result<(), BodyFault>
    requires within { had ≤ length body.old }
    requires size { length body.old ≤ most_body_bytes }
    requires asked { reads_of source.old ≤ 2 ^ 62 + most_head_bytes }
    requires failed { has_failed source.old ≡ false }
    requires ended { has_ended source.old ≡ false }
    ensures kept { take had body.new ≡ take had body.old }
    ensures reads { ReadsOn R.remaining R.may_answer (IsDueForRest had (length body.old))
        source.old source.new (Fills had body.new result) }
    ensures ended { IsErrOf result BodyFault.Short → has_ended source.new ≡ true }
    ensures failed { has_failed source.new ≡ is_failed_body result }
    ensures memory { IsErrOf result BodyFault.Memory → ⊥ }
    ensures asked { reads_of source.new ≤ reads_of source.old + length body.old }
    ensures left { NothingUnread
        (has_ended source.new) (R.remaining (reader_of source.new)) }
{
    let mut filled = had;
    'pieces: while filled < body.len() {
        let Ok(count) = source.read(&mut body[filled..]) else {
            return Err(BodyFault::Read);
        };
        if count == 0 {
            return Err(BodyFault::Short);
        }
        filled += count;
    }
    Ok(())
}

/// Fills a body, the beginning of which was read after the head.
fn fill_body<R: Reader + Drop>(
    source: &mut Source<R>,
    body: &mut [u8],
    front: &[u8],
) -> Result<(), BodyFault>
    requires size { length body.old ≤ most_body_bytes }
    requires asked { reads_of source.old ≤ 2 ^ 62 + most_head_bytes }
    requires failed { has_failed source.old ≡ false }
    requires ended { has_ended source.old ≡ false }
    ensures reads { ReadsOn R.remaining R.may_answer (IsDueBehind front.now (length body.old))
        source.old source.new
        (λ came. BodyComes (λ _. body.new) (length body.old) (front.now ++ came) result) }
    ensures ended { IsErrOf result BodyFault.Short → has_ended source.new ≡ true }
    ensures failed { has_failed source.new ≡ is_failed_body result }
    ensures memory { IsErrOf result BodyFault.Memory → ⊥ }
    ensures asked { reads_of source.new ≤ reads_of source.old + length body.old }
    ensures left { NothingUnread
        (has_ended source.new) (R.remaining (reader_of source.new)) }
{
    let had = front.len().min(body.len());
    body[..had].copy_from_slice(&front[..had]);
    fill(source, body, had)
}

/// A body of this many bytes, the beginning of which was read after the head. Where more than the
/// body was read there, nothing is read here.
pub fn read_body<R: Reader + Drop>(
    alloc: Global,
    source: &mut Source<R>,
    front: &[u8],
    size: usize,
) -> Result<Vec<u8>, BodyFault>
    requires size { size ≤ most_body_bytes }
    requires asked { reads_of source.old ≤ 2 ^ 62 + most_head_bytes }
    requires failed { has_failed source.old ≡ false }
    requires ended { has_ended source.old ≡ false }

    // The reads that were made, none of them for a byte after the body: with their bytes the body
    // is whole, or too short.
    ensures reads { ReadsOn R.remaining R.may_answer (IsDueBehind front.now size)
        source.old source.new
        (λ came. BodyComes (λ body. body.items) size (front.now ++ came) result) }

    // It is called too short only at the input's end, and a read failed at no other fault.
    ensures ended { IsErrOf result BodyFault.Short → has_ended source.new ≡ true }
    ensures failed { has_failed source.new ≡ is_failed_body result }
    ensures memory { IsErrOf result BodyFault.Memory → source.new ≡ source.old }
    ensures asked { reads_of source.new ≤ reads_of source.old + size }
    ensures left { NothingUnread
        (has_ended source.new) (R.remaining (reader_of source.new)) }
{
    let Ok(mut body) = vec![in alloc; 0u8; size] else {
        return Err(BodyFault::Memory);
    };
    match fill_body(source, &mut body, front) {
        Ok(()) => Ok(body),
        Err(fault) => Err(fault),
    }
}
