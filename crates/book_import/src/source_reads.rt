ghost use Rattle.std.specs.Prelude.{◌≡◌, IfSome, ◌+◌, ◌<◌, ◌≤◌, ◌^◌, false, true};
ghost use Rattle.std.specs.Prelude.{length, take, unwrap_or, None, Result, ℕ};
ghost use Rattle.std.specs.Io.KnownBytes.{Consumes};
ghost use Rattle.std.specs.declared.io.Error.{Error};
ghost use Rattle.streams.specs.Sources.{reader_of, reads_of, has_failed, has_ended};
ghost use Rattle.streams.specs.AnswerFlags.{NothingUnread};
ghost use Rattle.book_import.specs.ReadLimits.{piece_length};

use book_core::Source;
use streams::Reader;

/// The most reads that one import may make: the office's number, as a law says.
pub const MAX_READS: u64 = 1_000_000_000;

/// How many bytes a joiner is fed at a time, and how many a read of a trial or of a check asks for:
/// the office's number, as a law says.
pub const PIECE: usize = 65_536;

/// How many bytes a read of an import asks for: the office's number, as a law says.
pub const READ: usize = 1_048_576;

/// Asks a source once for as many bytes as there is room for. Returns how many came, one or more; or
/// none if the reader failed or has come to its end, which the source shows.
pub(crate) fn read_into<R: Reader + Drop>(source: &mut Source<R>, piece: &mut [u8]) -> Option<usize>
    requires room { 0 < length piece.old }
    requires asked { reads_of source.old < 2 ^ 63 }
    requires failed { has_failed source.old ≡ false }
    requires ended { has_ended source.old ≡ false }

    // The bytes that came were taken from the reader, and are first in the piece.
    ensures taken { Consumes (R.remaining (reader_of source.old))
        (R.remaining (reader_of source.new)) (take (unwrap_or result 0) piece.new) }
    ensures came { IfSome result (λ count. (0 < count) × (count ≤ length piece.new)) }

    // There was one read, and it asked for the whole piece.
    ensures whole { (answer : Result ℕ Error) × R.may_answer
        (reader_of source.old) piece.old answer (reader_of source.new) piece.new }

    // If some came, the reader may be asked again.
    ensures failed { IfSome result (λ _. has_failed source.new ≡ false) }
    ensures ended { IfSome result (λ _. has_ended source.new ≡ false) }
    ensures none { result ≡ None → has_failed source.new ≡ false → has_ended source.new ≡ true }
    ensures asked { reads_of source.new ≡ reads_of source.old + 1 }
    ensures left { NothingUnread
        (has_ended source.new) (R.remaining (reader_of source.new)) }
{
    match source.read(piece) {
        Err(_) | Ok(0) => None,
        Ok(count) => Some(count),
    }
}

/// Asks a source once for the next piece of its bytes. Returns how many came, one or more; or none
/// if the reader failed or has come to its end, which the source shows.
pub fn read_piece<R: Reader + Drop>(source: &mut Source<R>, piece: &mut [u8]) -> Option<usize>
    requires room { length piece.old ≡ piece_length }
    requires asked { reads_of source.old < 2 ^ 63 }
    requires failed { has_failed source.old ≡ false }
    requires ended { has_ended source.old ≡ false }

    // The bytes that came were taken from the reader, and are first in the piece.
    ensures taken { Consumes (R.remaining (reader_of source.old))
        (R.remaining (reader_of source.new)) (take (unwrap_or result 0) piece.new) }
    ensures came { IfSome result (λ count. (0 < count) × (count ≤ length piece.new)) }

    // There was one read, and it asked for the whole piece.
    ensures whole { (answer : Result ℕ Error) × R.may_answer
        (reader_of source.old) piece.old answer (reader_of source.new) piece.new }

    // If some came, the reader may be asked again.
    ensures failed { IfSome result (λ _. has_failed source.new ≡ false) }
    ensures ended { IfSome result (λ _. has_ended source.new ≡ false) }
    ensures none { result ≡ None → has_failed source.new ≡ false → has_ended source.new ≡ true }
    ensures asked { reads_of source.new ≡ reads_of source.old + 1 }
    ensures left { NothingUnread
        (has_ended source.new) (R.remaining (reader_of source.new)) }
{
    read_into(source, piece)
}
