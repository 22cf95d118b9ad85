//! The rows of the trees of books, a text line a row.

use crate::tree_numbers::{
    BOOK, CHARGES, CHOICE_NAMES, CHOICES, CLOSES, CREDITS, DETAILS, IDENTITIES, JOURNAL, LINES,
    MARKS, RECORDS, REPLACED, TARIFFS,
};
use crate::trees::{Trees, WholeRow};
use sqlite_trees::store::Store;
use sqlite_value::row::Row;
use sqlite_value::value::ValueRef;
use tests_scripts::{AnswerText, Ask, LineFault, LineResult, value_of};

/// The columns of a record that an adjustment line shows: day, centre, shift, CPU, blocks, amount.
const CHARGED: [usize; 6] = [3, 5, 4, 6, 7, 8];

/// How the rows of a tree are shown.
#[derive(Clone, Copy)]
enum Showing {
    /// A space between two of their columns.
    Whole,
    /// A tariff's first day, and its text between braces.
    Tariffs,
    /// The number of one that was replaced, its first day, the period, and its text between braces.
    Replaced,
    /// A record's name, and its marks: whether it is charged, and whether it was at the last close.
    Marks,
    /// A record's name, and its identity.
    Identities,
}

/// The tables, by the verbs that show them.
const TABLES: [(&str, (u32, Showing)); 11] = [
    ("book", (BOOK, Showing::Whole)),
    ("closed", (CLOSES, Showing::Whole)),
    ("rows", (CHARGES, Showing::Whole)),
    ("tariffs", (TARIFFS, Showing::Tariffs)),
    ("marks", (RECORDS, Showing::Marks)),
    ("identities", (RECORDS, Showing::Identities)),
    ("choices", (CHOICES, Showing::Whole)),
    ("detail", (DETAILS, Showing::Whole)),
    ("credits", (CREDITS, Showing::Whole)),
    ("replaced", (REPLACED, Showing::Replaced)),
    ("entries", (JOURNAL, Showing::Whole)),
];

/// The trees that find rows of a table, by their names in the file.
const INDEXES: [(&str, u32); 3] = [
    ("record_ident", IDENTITIES),
    ("record_charged", MARKS),
    ("choice_name", CHOICE_NAMES),
];

/// Adds a value: bytes as hexadecimal digits, nothing for none.
fn push_value(out: &mut AnswerText, value: ValueRef<'_>) {
    match value {
        ValueRef::Int(number) => out.value("", number),
        ValueRef::Text(text) => out.bytes(text),
        ValueRef::Blob(bytes) => out.digits("", bytes),
        ValueRef::Null | ValueRef::Real(_) => {}
    }
}

/// Adds columns of a row, a space between two.
fn push_columns(out: &mut AnswerText, row: &Row, columns: &[usize]) {
    for (place, column) in columns.iter().enumerate() {
        if place > 0 {
            out.text(" ");
        }
        push_value(out, row.get(*column));
    }
}

/// Adds all columns of a row, a space between two.
fn push_all_columns(out: &mut AnswerText, row: &Row) {
    for column in 0..row.len() {
        if column > 0 {
            out.text(" ");
        }
        push_value(out, row.get(column));
    }
}

/// Adds columns of a row, and its text in another one between braces.
fn push_with_text(out: &mut AnswerText, row: &Row, columns: &[usize], text: usize) {
    push_columns(out, row, columns);
    out.text(" {");
    push_value(out, row.get(text));
    out.text("}");
}

/// Adds a row.
fn push_row(out: &mut AnswerText, showing: Showing, row: &Row) {
    match showing {
        Showing::Whole => push_all_columns(out, row),
        Showing::Tariffs => push_with_text(out, row, &[0], 1),
        Showing::Replaced => push_with_text(out, row, &[0, 1, 2], 3),
        Showing::Marks => push_columns(out, row, &[0, 9, 10]),
        Showing::Identities => push_columns(out, row, &[0, 1]),
    }
    out.text("\n");
}

/// Adds an adjustment line: its period, 1 for plus or 0 for minus, what its record is charged, and
/// the record's name.
fn push_line(out: &mut AnswerText, line: &Row, records: &[WholeRow]) {
    push_columns(out, line, &[0, 2]);
    let name = line.get(1);
    for record in records {
        if is_named(&record.0, name) {
            out.text(" ");
            push_columns(out, &record.0, &CHARGED);
        }
    }
    out.text(" ");
    push_value(out, name);
    out.text("\n");
}

/// Whether a record has this name.
fn is_named(record: &Row, name: ValueRef<'_>) -> bool {
    match (record.get(0), name) {
        (ValueRef::Blob(own), ValueRef::Blob(other)) => own == other,
        _ => false,
    }
}

/// Adds all rows of a tree, or says that they can't be read.
fn push_rows<S: Store + Drop>(
    trees: &mut Trees<S>,
    tree: u32,
    showing: Showing,
    out: &mut AnswerText,
) {
    let Some(rows) = trees.rows(out.alloc(), tree) else {
        out.line("NOT SHOWN");
        return;
    };
    for row in &rows {
        push_row(out, showing, &row.0);
    }
}

/// Adds the adjustment lines, each with the record that it charges or reverses, or says that they
/// can't be read.
fn push_lines<S: Store + Drop>(trees: &mut Trees<S>, out: &mut AnswerText) {
    let Some(records) = trees.rows(out.alloc(), RECORDS) else {
        out.line("NOT SHOWN");
        return;
    };
    let Some(lines) = trees.rows(out.alloc(), LINES) else {
        out.line("NOT SHOWN");
        return;
    };
    for line in &lines {
        push_line(out, &line.0, &records);
    }
}

/// Shows the table that a line asks for.
pub(crate) fn push_table<S: Store + Drop>(
    trees: &mut Trees<S>,
    ask: Ask<'_>,
    out: &mut AnswerText,
) -> LineResult {
    let (tree, showing) = match (ask.verb, ask.words) {
        ("lines", []) => {
            push_lines(trees, out);
            return Ok(());
        }
        ("index", [name]) => (value_of(&INDEXES, name)?, Showing::Whole),
        (verb, []) => value_of(&TABLES, verb)?,
        _ => return Err(LineFault::NotUnderstood),
    };
    push_rows(trees, tree, showing, out);
    Ok(())
}

/// Adds all rows of some trees, an empty line after those of each. False where one can't be read.
fn push_trees<S: Store + Drop>(
    trees: &mut Trees<S>,
    first: u32,
    last: u32,
    out: &mut AnswerText,
) -> bool {
    for tree in first..=last {
        let Some(rows) = trees.rows(out.alloc(), tree) else {
            return false;
        };
        for row in &rows {
            push_row(out, Showing::Whole, &row.0);
        }
        out.text("\n");
    }
    true
}

/// Adds all rows of all trees but those of choices. False where one can't be read.
pub(crate) fn push_all_rows<S: Store + Drop>(trees: &mut Trees<S>, out: &mut AnswerText) -> bool {
    push_trees(trees, BOOK, MARKS, out) && push_trees(trees, DETAILS, JOURNAL, out)
}

/// Adds all rows of the trees of choices. False where one can't be read.
pub(crate) fn push_all_choices<S: Store + Drop>(
    trees: &mut Trees<S>,
    out: &mut AnswerText,
) -> bool {
    push_trees(trees, CHOICES, CHOICE_NAMES, out)
}
