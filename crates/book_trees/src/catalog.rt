//! The list of tables and indexes that a file has of itself.

ghost use Rattle.std.specs.Prelude.{◌≡◌, map};
ghost use Rattle.std.specs.List.{list_all, list_any};
ghost use Rattle.sqlite_store.specs.Catalog.{wanted_of};
ghost use Rattle.book_trees.specs.Listing.{has_no_pages, lists, lists_books, lists_exactly};
ghost use Rattle.book_trees.specs.Listing.{lists_old_books, lists_older, may_be_listed};
ghost use Rattle.book_trees.specs.Listing.{unlisted_fault};
ghost use Rattle.book_trees.specs.Schema.{first_table};

use crate::faults::OpenFault;
use crate::schema::{OlderForm, book_object, books_objects, old_objects, with_old_columns};
use sqlite_trees::schema::Object;
use sqlite_value::order::compare;
use sqlite_value::row::Row;
use sqlite_value::value::ValueRef;

/// Where a row of the list has its parts.
const KIND: usize = 1;

const NAME: usize = 2;

const TABLE: usize = 3;

const ROOT: usize = 4;

const TEXT: usize = 5;

/// Whether the row lists this table or index, text by text.
fn lists(row: &Row, object: &Object<'_>) -> bool
    ensures { result ≡ lists (wanted_of object.now) row.now }
{
    let sql = match object.sql {
        Some(sql) => ValueRef::Text(sql.as_bytes()),
        None => ValueRef::Null,
    };
    let kind = compare(row.get(KIND), ValueRef::Text(object.kind.as_bytes())).is_eq();
    let name = compare(row.get(NAME), ValueRef::Text(object.name.as_bytes())).is_eq();
    let table = compare(row.get(TABLE), ValueRef::Text(object.table.as_bytes())).is_eq();
    let text = compare(row.get(TEXT), sql).is_eq();
    kind & name & table & text
}

/// Whether a row has no pages.
fn has_no_pages(row: &Row) -> bool
    ensures { result ≡ has_no_pages row.now }
{
    compare(row.get(ROOT), ValueRef::Int(0)).is_eq()
}

/// Whether one of the rows lists this table or index.
fn is_listed(rows: &[Row], object: &Object<'_>) -> bool
    ensures { result ≡ list_any (lists (wanted_of object.now)) rows.now }
{
    rows.iter().any(|row| lists(row, object))
}

/// Whether a row lists one of these tables and indexes.
fn is_one_of(row: &Row, objects: &[Object<'_>]) -> bool
    ensures { result ≡ list_any (λ object. lists (wanted_of object) row.now) objects.now }
{
    objects.iter().any(|object| lists(row, object))
}

/// Whether a row lists one of these tables and indexes, or has no pages.
fn may_be_listed(row: &Row, objects: &[Object<'_>]) -> bool
    ensures { result ≡ may_be_listed (map wanted_of objects.now) row.now }
{
    let is_one = is_one_of(row, objects);
    is_one || has_no_pages(row)
}

/// Whether each of these tables and indexes is listed.
fn are_listed(rows: &[Row], objects: &[Object<'_>]) -> bool
    ensures { result ≡ list_all (λ object. list_any (lists (wanted_of object)) rows.now)
        objects.now }
{
    objects.iter().all(|object| is_listed(rows, object))
}

/// Whether each row may be there besides these tables and indexes.
fn may_all_be_listed(rows: &[Row], objects: &[Object<'_>]) -> bool
    ensures { result ≡ list_all (may_be_listed (map wanted_of objects.now)) rows.now }
{
    rows.iter().all(|row| may_be_listed(row, objects))
}

/// Whether the rows list these tables and indexes, and nothing else that has pages: so views that
/// somebody added do no harm.
fn lists_exactly(rows: &[Row], objects: &[Object<'_>]) -> bool
    ensures { result ≡ lists_exactly (map wanted_of objects.now) rows.now }
{
    let all = are_listed(rows, objects);
    let only = may_all_be_listed(rows, objects);
    all & only
}

/// Whether the rows list the tables and indexes of books.
pub(crate) fn lists_books(rows: &[Row]) -> bool
    ensures { result ≡ lists_books rows.now }
{
    lists_exactly(rows, &books_objects())
}

/// Whether they list those of books of an older form.
pub(crate) fn lists_old_books(rows: &[Row], form: OlderForm) -> bool
    ensures { result ≡ lists_old_books form rows.now }
{
    lists_exactly(rows, old_objects(&with_old_columns(), form))
}

/// Whether they list those of books of any older form.
fn lists_older(rows: &[Row]) -> bool
    ensures { result ≡ lists_older rows.now }
{
    let first = lists_old_books(rows, OlderForm::First);
    let second = lists_old_books(rows, OlderForm::Second);
    first | second
}

/// Whether they list the table that books of every form have.
fn lists_book_table(rows: &[Row]) -> bool
    ensures { result ≡ list_any (lists first_table) rows.now }
{
    is_listed(rows, &book_object())
}

/// What rows tell that do not list books. Whether books are of a newer form the file has to say.
pub(crate) fn unlisted_fault(rows: &[Row]) -> OpenFault
    ensures { result ≡ unlisted_fault rows.now }
{
    if lists_older(rows) {
        OpenFault::OldForm
    } else if lists_book_table(rows) {
        OpenFault::NewForm
    } else {
        OpenFault::NotBooks
    }
}
