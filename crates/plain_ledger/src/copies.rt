//! Copies of what is said of an import.

ghost use Rattle.std.specs.Prelude.{IfOk};
ghost use Rattle.plain_ledger.specs.Journals.{TellsAlike};

use book_core::copied_note;
use book_model::Share;
use std::alloc::{AllocError, Global};

/// What an import says, once more.
pub(crate) fn copied_share(alloc: Global, share: &Share) -> Result<Share, AllocError>
    ensures { IfOk result (λ copy. TellsAlike copy share.now) }
{
    let note = copied_note(alloc, &share.note)?;
    Ok(Share {
        note,
        begun: share.begun,
        reading: share.reading,
        ending: share.ending,
    })
}
