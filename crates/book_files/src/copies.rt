//! A copy of the books in a file, made while nobody else has them.

ghost use Rattle.std.specs.Prelude.{◌≡◌, IfErr, IfOk, IfSome, IsOk, IsSome, MatchResult};
ghost use Rattle.sqlite_wal.specs.Files.{image_at};
ghost use Rattle.book_files.specs.Copies.{IsCopyOf, WereOnlyRead, WhyNotCopied};
ghost use Rattle.book_sessions.specs.Sessions.{AreHonest, AreOpened, TriesToMoveLog};
ghost use Rattle.book_restarts.specs.FileBooks.{file_names};

use crate::copied::{Copied, CopyFault, copy_fault};
use crate::kept_pages::copy_pages_for;
use book_sessions::{Ended, refused};
use book_trees::{copy_to, lock_at};
use named_books::Visit;
use sqlite_disk::{Disk, Start};
use synced_disk::BookFile;

/// Copies the books in the file at a path over the file at another, looks through the copy, opens
/// and visits the books in it, and closes it. `S` and `T` stand for what the two files hold. Where no
/// disk lied, the copy holds the history that was found of the books, gone on with what the visit
/// made. The books that are copied are only read.
pub fn visit_copy_at<S: Start, T: Start, V: Visit>(
    rt: &HostRuntime,
    path: &str,
    start: S,
    copy: &str,
    held: T,
    seed: u64,
    visit: &mut V,
) -> Copied<V::Answer, BookFile<S>, BookFile<T>>
    ensures visited { IfOk result.answer (λ answer.
        AreHonest ⟦<BookFile<S> as Disk>⟧ result.original → IsCopyOf ⟦<BookFile<T> as Disk>⟧
        (V.Visit.work file_names visit.old visit.new answer) (image_at S.Start) result.copy) }
    ensures moves { TriesToMoveLog result.copy }
    ensures original { IfSome result.original
        (WereOnlyRead ⟦<BookFile<S> as Disk>⟧ (image_at S.Start)) }
    ensures in_hand { IsOk result.answer → IsSome result.original }
    ensures copied { IsOk result.answer → AreOpened result.copy }
    ensures came { MatchResult result.answer (V.Visit.comes visit.old visit.new)
        (λ _. visit.new ≡ visit.old) }

    // That there are no books, or that pages are wrong, is told only of files that hold none of this
    // form, or not their row.
    ensures refused { IfErr result.answer (WhyNotCopied ⟦<BookFile<S> as Disk>⟧
        ⟦<BookFile<T> as Disk>⟧ (image_at S.Start) result.original result.copy) }
{
    let mut files = match lock_at(rt, path, start) {
        Ok(files) => files,
        Err(fault) => {
            return Copied {
                answer: Err(CopyFault::Refused(refused(fault))),
                original: None,
                copy: Ended::Refused(None),
            };
        }
    };
    let pages = copy_pages_for(visit.is_brief());
    match copy_to(rt, &mut files, copy, seed, pages, held) {
        Ok(store) => {
            let (answer, ended) = book_sessions::visit(rt.alloc(), Ok(store), visit);
            Copied {
                answer: answer.map_err(CopyFault::Refused),
                original: Some(files),
                copy: ended,
            }
        }
        Err((fault, copies)) => Copied {
            answer: Err(copy_fault(fault)),
            original: Some(files),
            copy: Ended::Refused(copies),
        },
    }
}
