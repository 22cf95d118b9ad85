//! The form of books, which their file says by SQLite's user version.

ghost use Rattle.std.specs.Prelude.{◌≡◌, ◌≢◌, ◌⊎◌, ◌<◌, IsTrue, OnErr, OnOk, false};
ghost use Rattle.sqlite_store.specs.FileStore.{view};
ghost use Rattle.sqlite_trees.specs.Objects.{with_version};
ghost use Rattle.sqlite_trees.specs.View.{IsClean};
ghost use Rattle.sqlite_wal.specs.Reads.{AreClean, IsClean as IsCleanFile};
ghost use Rattle.sqlite_wal.specs.Recovery.{Image};
ghost use Rattle.tree_tables.specs.States.{Survives, state};
ghost use Rattle.tree_tables.specs.Steps.{KeepsLastCommit};
ghost use Rattle.tree_tables.specs.Holds.{HasShapes};
ghost use Rattle.book_trees.specs.Copies.{IsOnlyRead};
ghost use Rattle.tree_tables.specs.Forms.{this_form};
ghost use Rattle.book_trees.specs.Forms.{AreNewer, form_in, IsSaid, IsToldOf};
ghost use Rattle.book_trees.specs.Refusals.{MayLeave};

use crate::faults::OpenFault;
use sqlite_disk::{Disk, Files};
use sqlite_format::bytes::get_u32;
use sqlite_store::FileStore;
use sqlite_trees::error::StoreError;
use sqlite_trees::store::{Alter, Store};
use tree_tables::THIS_FORM;

/// Whether the books of a store say that they are of a newer form.
pub(crate) fn says_newer<D: Disk>(store: &FileStore<D>) -> bool
    ensures newer { IsTrue result → IsClean (view store.now) → IsTrue (view store.now).is_open
        → AreNewer (view store.now).trees }
    ensures other { result ≡ false → IsClean (view store.now) → IsTrue (view store.now).is_open
        → ¬ AreNewer (view store.now).trees }
{
    store.version() > THIS_FORM
}

/// Where a file says its form.
const FORM: usize = 60;

/// Whether a file says that its books are of a newer form. It is read alone: what a stop left in
/// its log may say more, and then no books are found.
fn is_newer<D: Disk>(db: &mut D) -> bool
    ensures newer { IsTrue result → IsCleanFile D.Disk db.new
        → this_form < form_in (D.Disk.seen db.old) }
    ensures read { IsOnlyRead D.Disk db.old db.new }
{
    if !db.may_be_used() {
        return false;
    }
    let mut said = [0u8; 4];
    match db.read_at(FORM, &mut said) {
        Ok(()) => get_u32(&said, 0) > THIS_FORM,
        Err(_error) => false,
    }
}

/// Why files whose list is not that of this form are refused: they are of a newer form where they say
/// so, and otherwise there is this fault.
pub(crate) fn told_newer<D: Disk>(otherwise: OpenFault, files: Files<D>) -> (OpenFault, Files<D>)
    requires { otherwise ≢ OpenFault.NewForm }
    ensures newer { result.0 ≡ OpenFault.NewForm → AreClean D.Disk result.1.log result.1.db
        → this_form < form_in (D.Disk.seen files.db) }
    ensures other { (result.0 ≡ OpenFault.NewForm) ⊎ (result.0 ≡ otherwise) }
    ensures clean { AreClean D.Disk result.1.log result.1.db → AreClean D.Disk files.log files.db }
    ensures crash { (left : Image) → MayLeave D.Disk result.1 left → MayLeave D.Disk files left }
{
    let mut files = files;
    if is_newer(&mut files.db) {
        (OpenFault::NewForm, files)
    } else {
        (otherwise, files)
    }
}

/// Why files were refused, as they say themselves.
pub(crate) fn told<D: Disk>(fault: OpenFault, files: Files<D>) -> (OpenFault, Files<D>)
    ensures told { IsToldOf fault files result.0 result.1 }
    ensures clean { AreClean D.Disk result.1.log result.1.db → AreClean D.Disk files.log files.db }
    ensures crash { (left : Image) → MayLeave D.Disk result.1 left → MayLeave D.Disk files left }
{
    match fault {
        OpenFault::OldForm => told_newer(OpenFault::OldForm, files),
        OpenFault::NewForm => told_newer(OpenFault::NotBooks, files),
        _ => (fault, files),
    }
}

/// What was written is committed, and with it that the books are of this form. A commit that fails
/// rolls it back.
pub fn commit_form<S: Alter>(store: &mut S) -> Result<(), StoreError>
    ensures said { OnOk result (IsClean (S.Store.view store.new)
        → IsSaid (S.Store.view store.old) (S.Store.view store.new)) }
    ensures refused { OnErr result (IsClean (S.Store.view store.new)
        → KeepsLastCommit (S.Store.view store.old) (S.Store.view store.new)) }
    ensures shaped { HasShapes (S.Store.view store.old)
        → IsClean (S.Store.view store.new) → HasShapes (S.Store.view store.new) }

    // A stop within it leaves the last commit, or this one.
    ensures survives { Survives (state S.Store store.old) (state S.Store store.new)
        (λ trees. trees ≡ with_version (S.Store.view store.old).trees this_form) }
{
    store.set_version(THIS_FORM)?;
    store.commit()
}
