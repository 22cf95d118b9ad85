//! How the records of a piece are gathered.

ghost use Rattle.std.specs.Prelude.{◌≡◌, ◌≤◌, ◌++◌, List, None, IfOk, IfSome, length, ℕ};
ghost use Rattle.book_model.specs.Words.{HasTaken};
ghost use Rattle.book_import.specs.Groups.{Breaks, Gathers};
ghost use Rattle.book_import.specs.Pieces.{TakesAll};

use crate::group::Group;
use crate::parts::next_part;
use crate::source_reads::PIECE;
use smf_frames::Joiner;
use std::alloc::{AllocError, Global};

/// Gathers the records that a piece completes, if memory suffices. The joiner is fed a part of it at a
/// time.
pub(crate) fn gather(alloc: Global, joiner: &mut Joiner, piece: &[u8]) -> Result<Group, AllocError>
    requires stands { (text : List ℕ) × HasTaken text joiner.old }
    requires none { joiner.old.ready ≡ None }
    ensures gathers { IfOk result (λ group. (text : List ℕ) → HasTaken text joiner.old
        → Gathers joiner.old.layout text piece.now group) }
    ensures taken { IfOk result (λ group. group.broken ≡ None
        → TakesAll joiner.old piece.now joiner.new) }
    ensures broken { IfOk result (λ group. IfSome group.broken (λ fault. (text more : List ℕ)
        → HasTaken text joiner.old → Breaks joiner.old.layout (text ++ piece.now) more fault)) }
    ensures few { IfOk result (λ group. length group.classes.items ≤ length piece.now) }
{
    let mut group = Group::new(alloc);
    let mut rest = piece;
    loop {
        let (part, _) = next_part(rest, PIECE);
        let taken = match joiner.feed(part) {
            Err(fault) => {
                group.broken = Some(fault);
                return Ok(group);
            }
            Ok(taken) => taken,
        };
        let (_, later) = rest.split_at(taken);
        rest = later;
        if let Some(bytes) = joiner.record() {
            group.add(alloc, bytes)?;
            joiner.next();
            continue;
        }
        if rest.is_empty() {
            return Ok(group);
        }
    }
}
