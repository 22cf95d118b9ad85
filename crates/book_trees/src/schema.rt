//! The tables of books, each a tree in the order of its key, and the indexes on them.

ghost use Rattle.std.specs.Prelude.{◌≡◌, map};
ghost use Rattle.sqlite_store.specs.Catalog.{wanted_of};
ghost use Rattle.book_trees.specs.Schema.{books_schema, charged_index, choice_name_index};
ghost use Rattle.book_trees.specs.Schema.{choice_table, closed_table, credit_table, day_sum_table};
ghost use Rattle.book_trees.specs.Schema.{detail_table, first_table, identity_index, index_object};
ghost use Rattle.book_trees.specs.Schema.{journal_table, line_table, old_choice_table, old_schema};
ghost use Rattle.book_trees.specs.Schema.{old_record_table, record_table};
ghost use Rattle.book_trees.specs.Schema.{replaced_table, table_count, table_object, tables_with};
ghost use Rattle.book_trees.specs.Schema.{tariff_table};

use sqlite_trees::schema::Object;
use sqlite_trees::store::Shape;
use sqlite_value::keys::Order;

/// A form of books before this one.
#[derive(Clone, Copy)]
pub enum OlderForm {
    /// There are no details.
    First,
    /// There are no credits, no tariffs that were replaced and no journal, and each record that was
    /// named by a choice counts.
    Second,
}

/// A table whose rows are sorted by its key.
fn table(name: &'static str, sql: &'static str) -> Object<'static>
    ensures { wanted_of result ≡ table_object name.now sql.now }
{
    Object {
        shape: Shape::Index(Order::PLAIN),
        kind: "table",
        name,
        table: name,
        reals: 0,
        sql: Some(sql),
    }
}

/// An index on a table.
fn index(name: &'static str, table: &'static str, sql: &'static str) -> Object<'static>
    ensures { wanted_of result ≡ index_object name.now table.now sql.now }
{
    Object {
        shape: Shape::Index(Order::PLAIN),
        kind: "index",
        name,
        table,
        reals: 0,
        sql: Some(sql),
    }
}

/// The table of the book, which books of every form have.
pub(crate) fn book_object() -> Object<'static>
    ensures { wanted_of result ≡ first_table }
{
    table(
        "book",
        "CREATE TABLE book (id INT NOT NULL PRIMARY KEY, rule INT NOT NULL, \
         adopted INT NOT NULL, held INT NOT NULL, amount INT NOT NULL) STRICT, \
         WITHOUT ROWID",
    )
}

/// The table of records.
pub(crate) fn record_object() -> Object<'static>
    ensures { wanted_of result ≡ record_table }
{
    table(
        "record",
        "CREATE TABLE record (name BLOB NOT NULL PRIMARY KEY, ident BLOB NOT NULL, \
         data BLOB NOT NULL, day INT NOT NULL, shift TEXT NOT NULL, centre TEXT NOT NULL, \
         cpu INT NOT NULL, blocks INT NOT NULL, amount INT NOT NULL, charged INT NOT NULL, \
         posted INT NOT NULL, came INT NOT NULL DEFAULT 0) STRICT, WITHOUT ROWID",
    )
}

/// The table of records of older forms, where no record says by which entry it came.
fn old_record_object() -> Object<'static>
    ensures { wanted_of result ≡ old_record_table }
{
    table(
        "record",
        "CREATE TABLE record (name BLOB NOT NULL PRIMARY KEY, ident BLOB NOT NULL, \
         data BLOB NOT NULL, day INT NOT NULL, shift TEXT NOT NULL, centre TEXT NOT NULL, \
         cpu INT NOT NULL, blocks INT NOT NULL, amount INT NOT NULL, charged INT NOT NULL, \
         posted INT NOT NULL) STRICT, WITHOUT ROWID",
    )
}

/// The table of charge rows.
fn day_sum_object() -> Object<'static>
    ensures { wanted_of result ≡ day_sum_table }
{
    table(
        "day_sum",
        "CREATE TABLE day_sum (period INT NOT NULL, day INT NOT NULL, \
         centre TEXT NOT NULL, shift TEXT NOT NULL, count INT NOT NULL, cpu INT NOT NULL, \
         blocks INT NOT NULL, amount INT NOT NULL, \
         PRIMARY KEY (period, day, centre, shift)) STRICT, WITHOUT ROWID",
    )
}

/// The table of choices.
pub(crate) fn choice_object() -> Object<'static>
    ensures { wanted_of result ≡ choice_table }
{
    table(
        "choice",
        "CREATE TABLE choice (number INT NOT NULL PRIMARY KEY, name BLOB NOT NULL, \
         period INT NOT NULL, counts INT NOT NULL) STRICT, WITHOUT ROWID",
    )
}

/// The table of choices of older forms, where each record that was named counts.
fn old_choice_object() -> Object<'static>
    ensures { wanted_of result ≡ old_choice_table }
{
    table(
        "choice",
        "CREATE TABLE choice (number INT NOT NULL PRIMARY KEY, name BLOB NOT NULL, \
         period INT NOT NULL) STRICT, WITHOUT ROWID",
    )
}

/// The table of credits, which books of older forms do not have.
pub(crate) fn credit_object() -> Object<'static>
    ensures { wanted_of result ≡ credit_table }
{
    table(
        "credit",
        "CREATE TABLE credit (number INT NOT NULL PRIMARY KEY, period INT NOT NULL, \
         centre TEXT NOT NULL, amount INT NOT NULL, reason TEXT NOT NULL) STRICT, \
         WITHOUT ROWID",
    )
}

/// The table of tariffs that were replaced, which books of older forms do not have.
pub(crate) fn replaced_object() -> Object<'static>
    ensures { wanted_of result ≡ replaced_table }
{
    table(
        "replaced",
        "CREATE TABLE replaced (number INT NOT NULL PRIMARY KEY, day INT NOT NULL, \
         period INT NOT NULL, body TEXT NOT NULL) STRICT, WITHOUT ROWID",
    )
}

/// The table of the journal, which books of older forms do not have.
pub(crate) fn journal_object() -> Object<'static>
    ensures { wanted_of result ≡ journal_table }
{
    table(
        "journal",
        "CREATE TABLE journal (number INT NOT NULL PRIMARY KEY, time INT NOT NULL, \
         person TEXT NOT NULL, remark TEXT NOT NULL, file TEXT NOT NULL, act TEXT NOT NULL, \
         place INT, digest BLOB, length INT, kept INT, known INT, unpriced INT, other INT, \
         headers INT, trailers INT, lost INT, continued INT, damaged INT, stop TEXT, \
         fault INT) STRICT, WITHOUT ROWID",
    )
}

/// The table of details, which books of the first form do not have.
pub(crate) fn detail_object() -> Object<'static>
    ensures { wanted_of result ≡ detail_table }
{
    table(
        "detail",
        "CREATE TABLE detail (day INT NOT NULL, centre TEXT NOT NULL, shift TEXT NOT NULL, \
         time INT NOT NULL, name BLOB NOT NULL, job BLOB NOT NULL, program BLOB NOT NULL, \
         job_id BLOB NOT NULL, step INT, cpu INT NOT NULL, blocks INT NOT NULL, \
         amount INT NOT NULL, PRIMARY KEY (day, centre, shift, time, name)) STRICT, \
         WITHOUT ROWID",
    )
}

/// The table of tariffs.
fn tariff_object() -> Object<'static>
    ensures { wanted_of result ≡ tariff_table }
{
    table(
        "tariff",
        "CREATE TABLE tariff (day INT NOT NULL PRIMARY KEY, body TEXT NOT NULL) STRICT, \
         WITHOUT ROWID",
    )
}

/// The table of closed periods.
fn closed_object() -> Object<'static>
    ensures { wanted_of result ≡ closed_table }
{
    table(
        "closed",
        "CREATE TABLE closed (period INT NOT NULL PRIMARY KEY, through INT NOT NULL) STRICT, \
         WITHOUT ROWID",
    )
}

/// The table of lines.
fn line_object() -> Object<'static>
    ensures { wanted_of result ≡ line_table }
{
    table(
        "line",
        "CREATE TABLE line (period INT NOT NULL, name BLOB NOT NULL, plus INT NOT NULL, \
         PRIMARY KEY (period, name)) STRICT, WITHOUT ROWID",
    )
}

/// The index on the identities of records.
fn identity_object() -> Object<'static>
    ensures { wanted_of result ≡ identity_index }
{
    index(
        "record_ident",
        "record",
        "CREATE INDEX record_ident ON record (ident)",
    )
}

/// The index on the marks of records.
fn charged_object() -> Object<'static>
    ensures { wanted_of result ≡ charged_index }
{
    index(
        "record_charged",
        "record",
        "CREATE INDEX record_charged ON record (charged, ident)",
    )
}

/// The index on the names of choices.
fn choice_name_object() -> Object<'static>
    ensures { wanted_of result ≡ choice_name_index }
{
    index(
        "choice_name",
        "choice",
        "CREATE INDEX choice_name ON choice (name)",
    )
}

/// What a file of books lists, with these tables of records and choices. The tables are numbered in
/// this order, from 0.
fn objects_with(records: Object<'static>, choices: Object<'static>) -> [Object<'static>; 14]
    ensures { map wanted_of result
        ≡ tables_with (wanted_of records.entry) (wanted_of choices.entry) }
{
    [
        book_object(),
        tariff_object(),
        closed_object(),
        records,
        day_sum_object(),
        line_object(),
        identity_object(),
        charged_object(),
        choices,
        choice_name_object(),
        detail_object(),
        credit_object(),
        replaced_object(),
        journal_object(),
    ]
}

/// What a file of books lists.
pub(crate) fn books_objects() -> [Object<'static>; 14]
    ensures { map wanted_of result ≡ books_schema }
{
    objects_with(record_object(), choice_object())
}

/// The same with the records and the choices of older forms.
pub(crate) fn with_old_columns() -> [Object<'static>; 14]
    ensures { map wanted_of result ≡ tables_with old_record_table old_choice_table }
{
    objects_with(old_record_object(), old_choice_object())
}

/// How many of them books of an older form have: the first ones.
fn table_count(form: OlderForm) -> usize
    ensures { result ≡ table_count form }
{
    match form {
        OlderForm::First => 10,
        OlderForm::Second => 11,
    }
}

/// What a file of books of an older form lists.
pub(crate) fn old_objects<'a>(
    objects: &'a [Object<'static>],
    form: OlderForm,
) -> &'a [Object<'static>]
    requires { map wanted_of objects.now ≡ tables_with old_record_table old_choice_table }
    ensures { map wanted_of result.now ≡ old_schema form }
{
    let count = table_count(form);
    &objects[..count]
}
