//! Two files that are to hold books, before anything is known of them.

ghost use Rattle.std.specs.Prelude.{◌≡◌, IfOk, IfErr, map};
ghost use Rattle.sqlite_store.specs.Catalog.{wanted_of};
ghost use Rattle.sqlite_store.specs.Unopened.{files_of, state_of, wanted_by};
ghost use Rattle.sqlite_wal.specs.PageSize.{bytes_of};
ghost use Rattle.book_trees.specs.LedgerFiles.{page_size};
ghost use Rattle.book_trees.specs.Schema.{books_schema, old_schema};

use crate::schema::{OlderForm, books_objects, old_objects, with_old_columns};
use sqlite_disk::{Disk, Files};
use sqlite_pager::{Options, Pager};
use sqlite_store::Unopened;
use sqlite_trees::schema::Object;
use sqlite_wal::PageSize;
use std::alloc::Global;

/// The size of a page.
pub(crate) fn size_of_a_page() -> PageSize
    ensures { bytes_of result ≡ page_size }
{
    match PageSize::new(4096) {
        Some(size) => size,
        None => unreachable!(),
    }
}

/// The two with a schema. If memory runs out they are given back.
fn unopened_as<D: Disk>(
    alloc: Global,
    files: Files<D>,
    options: Options,
    objects: &[Object<'_>],
) -> Result<Unopened<D>, Files<D>>
    ensures files { IfOk result (λ it. files_of it ≡ (files.log, files.db)) }
    ensures size { IfOk result (λ it. (state_of it).page_size ≡ page_size) }
    ensures schema { IfOk result (λ it. wanted_by it ≡ map wanted_of objects.now) }
    ensures back { IfErr result (λ back. back ≡ files) }
{
    let pager = match Pager::new(alloc, files, size_of_a_page(), options) {
        Ok(pager) => pager,
        Err(failed) => return Err(failed.value),
    };
    match Unopened::new(alloc, pager, objects) {
        Ok(files) => Ok(files),
        Err(failed) => Err(failed.value.close()),
    }
}

/// The two with the schema of books.
pub(crate) fn unopened<D: Disk>(
    alloc: Global,
    files: Files<D>,
    options: Options,
) -> Result<Unopened<D>, Files<D>>
    ensures files { IfOk result (λ it. files_of it ≡ (files.log, files.db)) }
    ensures size { IfOk result (λ it. (state_of it).page_size ≡ page_size) }
    ensures schema { IfOk result (λ it. wanted_by it ≡ books_schema) }
    ensures back { IfErr result (λ back. back ≡ files) }
{
    unopened_as(alloc, files, options, &books_objects())
}

/// The two with the schema of books of an older form.
pub(crate) fn unopened_old<D: Disk>(
    alloc: Global,
    files: Files<D>,
    options: Options,
    form: OlderForm,
) -> Result<Unopened<D>, Files<D>>
    ensures files { IfOk result (λ it. files_of it ≡ (files.log, files.db)) }
    ensures size { IfOk result (λ it. (state_of it).page_size ≡ page_size) }
    ensures schema { IfOk result (λ it. wanted_by it ≡ old_schema form) }
    ensures back { IfErr result (λ back. back ≡ files) }
{
    unopened_as(
        alloc,
        files,
        options,
        old_objects(&with_old_columns(), form),
    )
}
