//! The names of the usage records of a dump.

ghost use Rattle.std.specs.Prelude.{◌≡◌, ◌≤◌, ◌+◌, ◌^◌, ◌++◌, ◌∷◌, [], All, IfOk, IfSome, List};
ghost use Rattle.std.specs.Prelude.{None, OnOk, false, map, ℕ};
ghost use Rattle.book_model.specs.Records.{name_of};
ghost use Rattle.book_model.specs.Words.{HasTaken, IsUsageRecord};
ghost use Rattle.streams.specs.AnswerFlags.{NothingUnread};
ghost use Rattle.streams.specs.InputOutput.{input};
ghost use Rattle.streams.specs.Sources.{reader_of, reads_of, has_failed, has_ended};
ghost use Rattle.book_import.specs.DumpNames.{AreNamed, NamesMore};
ghost use Rattle.book_import.specs.Groups.{Breaks};
ghost use Rattle.book_import.specs.Pieces.{TakesAll};
ghost use Rattle.book_import.specs.ReadLimits.{cut_of, most_reads};

use crate::gathering::gather;
use crate::source_reads::{PIECE, read_piece};
use crate::stop::reading_end;
use book_core::{Naming, Source, Stop, name_of};
use smf_frames::{FrameFault, Joiner, Layout};
use std::alloc::{AllocError, Global};
use streams::Reader;

/// The names of the usage records of a dump, in their order, and why there are no more.
#[derive(Drop)]
pub struct DumpNames {
    pub names: Vec<[u8; 32]>,
    pub stop: Stop,
}

/// The name of a record joins others.
fn push_name<N: Naming>(
    naming: &N,
    names: &mut Vec<[u8; 32]>,
    bytes: &[u8],
) -> Result<(), AllocError>
    requires { IsUsageRecord bytes.now }
    ensures { OnOk result (names.new.items
        ≡ names.old.items ++ name_of (N.name_of naming.now) bytes.now ∷ []) }
{
    names.push(name_of(naming, bytes))?;
    Ok(())
}

/// The names of records join others.
fn push_names<N: Naming>(
    naming: &N,
    names: &mut Vec<[u8; 32]>,
    usage: &[Vec<u8>],
) -> Result<(), AllocError>
    requires { All (λ one. IsUsageRecord one.items) usage.now }
    ensures { OnOk result (names.new.items ≡ names.old.items
        ++ map (λ one. name_of (N.name_of naming.now) one.items) usage.now) }
{
    for one in usage {
        push_name(naming, names, one)?;
    }
    Ok(())
}

/// The names of the usage records that a piece completes join others. Gives the fault of a
/// descriptor, where one comes.
fn name_piece<N: Naming>(
    alloc: Global,
    naming: &N,
    joiner: &mut Joiner,
    names: &mut Vec<[u8; 32]>,
    piece: &[u8],
) -> Result<Option<FrameFault>, AllocError>
    requires stands { (text : List ℕ) × HasTaken text joiner.old }
    requires none { joiner.old.ready ≡ None }
    ensures named { OnOk result ((text : List ℕ) → HasTaken text joiner.old
        → NamesMore (N.name_of naming.now) joiner.old.layout text piece.now names.old.items
        names.new.items) }
    ensures taken { IfOk result (λ found. found ≡ None → TakesAll joiner.old piece.now joiner.new) }
    ensures broken { IfOk result (λ found. IfSome found (λ fault. (text more : List ℕ)
        → HasTaken text joiner.old → Breaks joiner.old.layout (text ++ piece.now) more fault)) }
{
    let group = gather(alloc, joiner, piece)?;
    push_names(naming, names, &group.usage)?;
    Ok(group.broken)
}

/// Reads a dump to its end, in at most so many reads, and gives the names of its usage records. After a
/// fault of a descriptor nothing more is read. At most a piece, its records and the names are held.
pub fn dump_names<R: Reader + Drop, N: Naming>(
    alloc: Global,
    source: &mut Source<R>,
    layout: Layout,
    reads: u64,
    naming: &N,
) -> Result<DumpNames, AllocError>
    requires asked { reads_of source.old ≤ 2 ^ 62 }
    requires failed { has_failed source.old ≡ false }
    requires ended { has_ended source.old ≡ false }
    requires reads { reads ≤ most_reads }
    ensures named { IfOk result (AreNamed (N.name_of naming.now) layout (cut_of source.new) reads
        (input R.remaining source.old source.new)) }
    ensures left { NothingUnread
        (has_ended source.new) (R.remaining (reader_of source.new)) }
    ensures asked { reads_of source.new ≤ reads_of source.old + reads }
{
    let mut joiner = Joiner::new(alloc, layout)?;
    let mut names = Vec::new(alloc);
    let mut piece = [0u8; PIECE];
    for _ in 0..reads {
        let Some(count) = read_piece(source, &mut piece) else {
            return Ok(DumpNames {
                names,
                stop: reading_end(source, &joiner),
            });
        };
        match name_piece(alloc, naming, &mut joiner, &mut names, &piece[..count]) {
            Ok(None) => {}
            Ok(Some(fault)) => {
                return Ok(DumpNames {
                    names,
                    stop: Stop::Frame(fault),
                });
            }
            Err(none) => return Err(none),
        }
    }
    Ok(DumpNames {
        names,
        stop: reading_end(source, &joiner),
    })
}
