//! Books of older forms are opened, to be brought to this one.

ghost use Rattle.std.specs.Prelude.{◌≡◌, ◌≢◌, IfErr, IfOk, IfSome, IsTrue, MatchOption};
ghost use Rattle.std.specs.Prelude.{OnOk};
ghost use Rattle.sqlite_store.specs.FileStore.{state, view, schema_of, IsReady};
ghost use Rattle.sqlite_store.specs.Unopened.{image, state_of, wanted_by, AreUsable, HasSomeFile};
ghost use Rattle.sqlite_store.specs.Unopened.{Opens};
ghost use Rattle.sqlite_trees.specs.View.{IsClean};
ghost use Rattle.sqlite_wal.specs.Files.{image_at};
ghost use Rattle.sqlite_wal.specs.Reads.{AreClean};
ghost use Rattle.sqlite_wal.specs.Recovery.{Image};
ghost use Rattle.book_trees.specs.OldForms.{form_listed, old_fault_for, old_opening};
ghost use Rattle.book_trees.specs.OldForms.{AreAlike, HasOldTrees, HoldsForm};
ghost use Rattle.book_trees.specs.OldForms.{HoldsOldForm, HoldsSome, IsOpenOld, IsToldOld};
ghost use Rattle.book_trees.specs.OldForms.{IsToldThis, IsUnopenedOld, OldNoNewer, ReadsForm};
ghost use Rattle.book_trees.specs.Forms.{HoldNoNewer};
ghost use Rattle.book_trees.specs.LedgerFiles.{image_of, old_trees, page_size, HoldsBooks};
ghost use Rattle.book_trees.specs.LedgerFiles.{trees_held, HoldsOldBooks, HoldsTables};
ghost use Rattle.book_trees.specs.Refusals.{AreKept, IsAsFound, IsRefusedWithout, IsToldWithout};
ghost use Rattle.book_trees.specs.Refusals.{MayLeave};
ghost use Rattle.book_trees.specs.Schema.{old_schema};
ghost use Rattle.book_trees.specs.StoreView.{IsOpenAs, ListsBooks};

use crate::catalog::{lists_books, lists_old_books, unlisted_fault};
use crate::faults::{OpenFault, fault_at, fault_of};
use crate::forms::{says_newer, told, told_newer};
use crate::schema::OlderForm;
use crate::unopened::unopened_old;
use sqlite_disk::{Disk, Files, Start};
use sqlite_pager::Options;
use sqlite_store::{FileStore, OpenError, Unopened};
use sqlite_value::row::Row;
use std::alloc::Global;
use synced_disk::{BookFile, open};

/// Why books of an older form were not opened.
#[derive(Clone, Copy, Drop)]
pub enum OldFault {
    /// They are of this form already.
    Already,
    /// They list the tables of an older form, but their pages are not those of such a file, or
    /// something else is listed too.
    Pages,
    /// They were not opened.
    Open(OpenFault),
}

/// What an error of the store stands for, while the pages are looked through.
fn old_fault(error: OpenError) -> OldFault
    ensures { result ≡ old_fault_for error }
{
    match error {
        OpenError::Refused => OldFault::Pages,
        OpenError::OutOfMemory => OldFault::Open(OpenFault::Memory),
        OpenError::Io | OpenError::Full => OldFault::Open(OpenFault::Store),
    }
}

/// The older form that rows list: the second, or else the first, whether or not they list it.
fn form_listed(rows: &[Row]) -> OlderForm
    ensures { result ≡ form_listed rows.now }
{
    if lists_old_books(rows, OlderForm::Second) {
        OlderForm::Second
    } else {
        OlderForm::First
    }
}

/// Reads which older form files list.
fn read_form<D: Disk>(files: Unopened<D>) -> (Result<OlderForm, OpenFault>, Unopened<D>)
    requires usable { AreUsable files }
    ensures read { IsTrue (state_of result.1).is_clean
        → IfOk result.0 (ReadsForm files result.1) }
    ensures usable { OnOk result.0 (AreUsable result.1) }
    ensures cause { IsTrue (state_of result.1).is_clean
        → IfErr result.0 (IsToldWithout (HasSomeFile files)) }
    ensures honest { IsTrue (state_of result.1).is_clean → IsTrue (state_of files).is_clean }
    ensures kept { IsTrue (state_of result.1).is_clean → Opens files (state_of result.1) }
{
    let mut files = files;
    match files.read_catalog() {
        Ok(listed) => (Ok(form_listed(listed.as_slice())), files),
        Err(error) => (Err(fault_of(error)), files),
    }
}

/// Which older form two files list. They recover to the same pages then as before.
fn listed_form<D: Disk>(
    alloc: Global,
    files: Files<D>,
    options: Options,
) -> (Result<OlderForm, OpenFault>, Files<D>)
    requires log { IsTrue (D.Disk.is_usable files.log) }
    requires db { IsTrue (D.Disk.is_usable files.db) }
    ensures log { OnOk result.0 (IsTrue (D.Disk.is_usable result.1.log)) }
    ensures db { OnOk result.0 (IsTrue (D.Disk.is_usable result.1.db)) }
    ensures alike { AreClean D.Disk result.1.log result.1.db
        → OnOk result.0 (AreAlike (image_of D.Disk files) (image_of D.Disk result.1)) }

    // Files that hold books of an older form list it, and no other.
    ensures form { AreClean D.Disk result.1.log result.1.db → IfOk result.0 (λ form.
        (old : HoldsOldBooks (image_of D.Disk files)) → old.form ≡ form) }
    ensures there { IfErr result.0 (λ fault.
        IsRefusedWithout D.Disk (HoldsSome (image_of D.Disk files)) fault result.1) }
    ensures honest { AreClean D.Disk result.1.log result.1.db → AreClean D.Disk files.log files.db }
    ensures kept { AreClean D.Disk result.1.log result.1.db → AreKept D.Disk files result.1 }
{
    let files = match unopened_old(alloc, files, options, OlderForm::Second) {
        Ok(files) => files,
        Err(files) => return (Err(OpenFault::Memory), files),
    };
    let (form, files) = read_form(files);
    (form, files.close())
}

/// Opens books of this older form, and looks through all of their pages: only of such a file is it
/// known that trees may be added. Whether files that are told to be of a newer form are so, they
/// have to say.
fn open_form<D: Disk>(
    files: Unopened<D>,
    form: OlderForm,
) -> Result<FileStore<D>, (OldFault, Unopened<D>)>
    requires usable { AreUsable files }
    requires schema { wanted_by files ≡ old_schema form }
    requires size { (state_of files).page_size ≡ page_size }
    ensures opened { IfOk result
        (IsOpenAs (old_schema form) (λ view. IsClean view → HasOldTrees view)) }
    ensures honest { IfOk result (λ store. IsTrue (state store).is_clean
        → IsTrue (state_of files).is_clean) }
    ensures found { IfOk result (λ store. IsTrue (state store).is_clean
        → (held : HoldsTables (old_schema form) (image files))
        → (view store).trees ≡ trees_held held) }
    ensures older { IfOk result (λ store. IsTrue (state store).is_clean
        → ¬ HoldsBooks (image files)) }
    ensures held { IfOk result (λ store. IsTrue (state store).is_clean
        → ∥ HoldsTables (old_schema form) (image files) ∥₁) }
    ensures kept { IfOk result (λ store. IsTrue (state store).is_clean → Opens files (state store)) }
    ensures there { IfErr result (λ refusal. IsTrue (state_of refusal.1).is_clean
        → IsToldWithout (HoldsForm form (image files)) (old_opening refusal.0)) }

    // Books of this form are told to be so, or nothing is told of them.
    ensures this { IfErr result (λ refusal. refusal.0 ≢ OldFault.Already
        → IsTrue (state_of refusal.1).is_clean
        → IsToldWithout (HoldsBooks (image files)) (old_opening refusal.0)) }
    ensures listed { IfErr result (λ refusal. refusal.0 ≡ OldFault.Already
        → IsTrue (state_of refusal.1).is_clean → ListsBooks (image files)) }
    ensures unharmed { IfErr result (λ refusal. IsTrue (state_of refusal.1).is_clean
        → Opens files (state_of refusal.1)) }
    ensures falls { IfErr result (λ refusal. IsTrue (state_of refusal.1).is_clean
        → IsTrue (state_of files).is_clean) }
{
    let mut files = files;
    let listed = match files.read_catalog() {
        Ok(listed) => listed,
        Err(error) => return Err((OldFault::Open(fault_of(error)), files)),
    };
    if lists_books(listed.as_slice()) {
        return Err((OldFault::Already, files));
    }
    if !lists_old_books(listed.as_slice(), form) {
        return Err((OldFault::Open(unlisted_fault(listed.as_slice())), files));
    }
    match files.open_numbered() {
        Ok(store) => Ok(store),
        Err((error, files)) => Err((old_fault(error), files)),
    }
}

/// Opens two files as books of this older form, or gives them back.
fn open_form_files<D: Disk>(
    alloc: Global,
    files: Files<D>,
    options: Options,
    form: OlderForm,
) -> Result<FileStore<D>, (OldFault, Files<D>)>
    requires log { IsTrue (D.Disk.is_usable files.log) }
    requires db { IsTrue (D.Disk.is_usable files.db) }
    ensures opened { IfOk result
        (IsOpenAs (old_schema form) (λ view. IsClean view → HasOldTrees view)) }
    ensures honest { IfOk result (λ store. IsTrue (state store).is_clean
        → AreClean D.Disk files.log files.db) }
    ensures found { IfOk result (λ store. IsTrue (state store).is_clean
        → (held : HoldsTables (old_schema form) (image_of D.Disk files))
        → (view store).trees ≡ trees_held held) }
    ensures older { IfOk result (λ store. IsTrue (state store).is_clean
        → ¬ HoldsBooks (image_of D.Disk files)) }
    ensures held { IfOk result (λ store. IsTrue (state store).is_clean
        → ∥ HoldsTables (old_schema form) (image_of D.Disk files) ∥₁) }
    ensures form { IfOk result (λ store. IsTrue (state store).is_clean
        → HoldNoNewer (old_schema form) (image_of D.Disk files)) }
    ensures there { IfErr result (λ refusal. IsRefusedWithout D.Disk
        (HoldsForm form (image_of D.Disk files)) (old_opening refusal.0) refusal.1) }
    ensures this { IfErr result (λ refusal. (¬ IsToldThis refusal.0)
        → IsRefusedWithout D.Disk (HoldsBooks (image_of D.Disk files)) (old_opening refusal.0)
        refusal.1) }
    ensures listed { IfErr result (λ refusal. refusal.0 ≡ OldFault.Already
        → AreClean D.Disk refusal.1.log refusal.1.db → ListsBooks (image_of D.Disk files)) }
    ensures unharmed { IfErr result (λ refusal. AreClean D.Disk refusal.1.log refusal.1.db
        → AreKept D.Disk files refusal.1) }
    ensures falls { IfErr result (λ refusal. AreClean D.Disk refusal.1.log refusal.1.db
        → AreClean D.Disk files.log files.db) }
{
    let files = match unopened_old(alloc, files, options, form) {
        Ok(files) => files,
        Err(files) => return Err((OldFault::Open(OpenFault::Memory), files)),
    };
    let store = match open_form(files, form) {
        Ok(store) => store,
        Err((fault, files)) => return Err(told_old(fault, files.close())),
    };
    if says_newer(&store) {
        return Err((OldFault::Open(OpenFault::NewForm), store.close()));
    }
    Ok(store)
}

/// Opens two files as books of an older form, or gives them back.
pub fn open_old_files<D: Disk>(
    alloc: Global,
    files: Files<D>,
    options: Options,
) -> Result<FileStore<D>, (OldFault, Files<D>)>
    requires log { IsTrue (D.Disk.is_usable files.log) }
    requires db { IsTrue (D.Disk.is_usable files.db) }
    ensures opened { IfOk result IsOpenOld }
    ensures honest { IfOk result (λ store. IsTrue (state store).is_clean
        → AreClean D.Disk files.log files.db) }
    ensures found { IfOk result (λ store. IsTrue (state store).is_clean
        → (held : HoldsOldBooks (image_of D.Disk files)) → (view store).trees ≡ old_trees held) }
    ensures older { IfOk result (λ store. IsTrue (state store).is_clean
        → ¬ HoldsBooks (image_of D.Disk files)) }
    ensures held { IfOk result (λ store. IsTrue (state store).is_clean
        → ∥ HoldsOldBooks (image_of D.Disk files) ∥₁) }
    ensures form { IfOk result (λ store. IsTrue (state store).is_clean
        → OldNoNewer (image_of D.Disk files)) }

    // Of files of an older form nothing else is told.
    ensures there { IfErr result (λ refusal. IsRefusedWithout D.Disk
        (HoldsOldForm (image_of D.Disk files)) (old_opening refusal.0) refusal.1) }

    // So it is with books of this form, but that they are told to be of it, or of a newer one.
    ensures this { IfErr result (λ refusal. (¬ IsToldThis refusal.0)
        → IsRefusedWithout D.Disk (HoldsBooks (image_of D.Disk files)) (old_opening refusal.0)
        refusal.1) }

    // Files are told to be of this form already only where they list the tables of books.
    ensures listed { IfErr result (λ refusal. refusal.0 ≡ OldFault.Already
        → AreClean D.Disk refusal.1.log refusal.1.db → ListsBooks (image_of D.Disk files)) }
    ensures unharmed { IfErr result (λ refusal. AreClean D.Disk refusal.1.log refusal.1.db
        → AreKept D.Disk files refusal.1) }
{
    let (form, files) = listed_form(alloc, files, options);
    match form {
        Ok(form) => open_form_files(alloc, files, options, form),
        Err(fault) => Err((OldFault::Open(fault), files)),
    }
}

/// Why files were not opened, as they say themselves.
fn told_old<D: Disk>(fault: OldFault, files: Files<D>) -> (OldFault, Files<D>)
    ensures told { IsToldOld fault files result.0 result.1 }
    ensures clean { AreClean D.Disk result.1.log result.1.db → AreClean D.Disk files.log files.db }
    ensures crash { (left : Image) → MayLeave D.Disk result.1 left → MayLeave D.Disk files left }
{
    match fault {
        OldFault::Already => told_already(files),
        OldFault::Pages => (OldFault::Pages, files),
        OldFault::Open(fault) => {
            let (fault, files) = told(fault, files);
            (OldFault::Open(fault), files)
        }
    }
}

/// Whether files that list the tables of this form are of it already, or of a newer one.
fn told_already<D: Disk>(files: Files<D>) -> (OldFault, Files<D>)
    ensures other { IsToldThis result.0 }
    ensures clean { AreClean D.Disk result.1.log result.1.db → AreClean D.Disk files.log files.db }
    ensures crash { (left : Image) → MayLeave D.Disk result.1 left → MayLeave D.Disk files left }
{
    match told_newer(OpenFault::NotBooks, files) {
        (OpenFault::NewForm, files) => (OldFault::Open(OpenFault::NewForm), files),
        (_, files) => (OldFault::Already, files),
    }
}

/// The same for the file at a path, where `S` stands for what the files hold: whatever that is.
pub fn open_old_at<S: Start>(
    rt: &HostRuntime,
    path: &str,
    seed: u64,
    start: S,
) -> Result<FileStore<BookFile<S>>, (OldFault, Option<Files<BookFile<S>>>)>
    ensures ready { IfOk result IsReady }
    ensures schema { IfOk result (λ store.
        (form : OlderForm) × (schema_of store ≡ old_schema form)) }
    ensures trees { IfOk result (λ store. IsClean (view store) → HasOldTrees (view store)) }
    ensures size { IfOk result (λ store. IsTrue (state store).is_clean
        → (state store).page_size ≡ page_size) }
    ensures found { IfOk result (λ store. IsTrue (state store).is_clean
        → (held : HoldsOldBooks (image_at S.Start)) → (view store).trees ≡ old_trees held) }

    // Files that are opened hold no books of this form, nor say that they are of a newer one.
    ensures older { IfOk result (λ store. IsTrue (state store).is_clean
        → ¬ HoldsBooks (image_at S.Start)) }
    ensures held { IfOk result (λ store. IsTrue (state store).is_clean
        → ∥ HoldsOldBooks (image_at S.Start) ∥₁) }
    ensures form { IfOk result (λ store. IsTrue (state store).is_clean
        → OldNoNewer (image_at S.Start)) }

    // What a stop leaves of files that were not opened is what they held, or stands for the same.
    ensures there { IfErr result (λ refusal. MatchOption refusal.1 (IsUnopenedOld refusal.0)
        (IsRefusedWithout ⟦<BookFile<S> as Disk>⟧ (HoldsOldForm (image_at S.Start))
        (old_opening refusal.0))) }
    ensures this { IfErr result (λ refusal. (¬ IsToldThis refusal.0) → IfSome refusal.1
        (IsRefusedWithout ⟦<BookFile<S> as Disk>⟧ (HoldsBooks (image_at S.Start))
        (old_opening refusal.0))) }
    ensures listed { IfErr result (λ refusal. refusal.0 ≡ OldFault.Already
        → IfSome refusal.1 (λ files. AreClean ⟦<BookFile<S> as Disk>⟧ files.log files.db
        → ListsBooks (image_at S.Start))) }
    ensures kept { IfErr result (λ refusal. IfSome refusal.1 (λ files. (left : Image)
        → MayLeave ⟦<BookFile<S> as Disk>⟧ files left → IsAsFound (image_at S.Start) left)) }
{
    let files = match open(rt, path, start) {
        Ok(files) => files,
        Err(error) => return Err((OldFault::Open(fault_at(error)), None)),
    };
    match open_old_files(rt.alloc(), files, Options::new(seed)) {
        Ok(store) => Ok(store),
        Err((fault, files)) => Err((fault, Some(files))),
    }
}
