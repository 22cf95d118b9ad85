//! What is wrong with books, and where.

ghost use Rattle.std.specs.Prelude.{◌≡◌, ◌==◌, if◌then◌else◌, true};
ghost use Rattle.sqlite_trees.specs.View.{View};
ghost use Rattle.sqlite_value.specs.Keys.{plain};
ghost use Rattle.tree_tables.specs.Holds.{HasShapes};
ghost use Rattle.book_audit.specs.Findings.{tree_name};
ghost use Rattle.book_audit.specs.Trees.{tree_number};
ghost use Rattle.book_audit.specs.Walks.{IsWide, key_width, width};

use book_model::RowKey;
use sqlite_trees::store::Shape;
use sqlite_value::row::Row;
use tree_tables::DayKey;

/// A tree of books.
#[derive(Clone, Copy)]
pub enum Tree {
    Book,
    Tariffs,
    Closes,
    Records,
    /// The charge rows.
    Days,
    /// The adjustment lines.
    Lines,
    /// It finds records by their identities.
    Identities,
    /// It finds records by their marks.
    Marks,
    Choices,
    /// It finds choices by the records that they name.
    ChoiceNames,
    /// It shows the records that charge rows count.
    Details,
    Credits,
    /// The tariffs that were replaced.
    Replaced,
    /// The entries of the journal.
    Journal,
}

/// The longer of two numbers of columns, if so many were found, and else the other.
fn either(found: usize, longer: usize, shorter: usize) -> usize
    ensures { result ≡ (if found == longer then longer else shorter) }
{
    if found == longer { longer } else { shorter }
}

impl Tree {
    /// Its number in a store.
    pub(crate) fn number(self) -> u32
        ensures value { result ≡ tree_number self }
        ensures shape { (view : View) → HasShapes view → view.shape result ≡ Shape.Index plain }
    {
        match self {
            Tree::Book => 0,
            Tree::Tariffs => 1,
            Tree::Closes => 2,
            Tree::Records => 3,
            Tree::Days => 4,
            Tree::Lines => 5,
            Tree::Identities => 6,
            Tree::Marks => 7,
            Tree::Choices => 8,
            Tree::ChoiceNames => 9,
            Tree::Details => 10,
            Tree::Credits => 11,
            Tree::Replaced => 12,
            Tree::Journal => 13,
        }
    }

    /// Its name in the file.
    #[tactic(auto, unfolding(crate::specs::Findings::tree_name))]
    pub fn name(self) -> &'static str
        ensures { result.now ≡ tree_name self }
    {
        match self {
            Tree::Book => "book",
            Tree::Tariffs => "tariff",
            Tree::Closes => "closed",
            Tree::Records => "record",
            Tree::Days => "day_sum",
            Tree::Lines => "line",
            Tree::Identities => "record_ident",
            Tree::Marks => "record_charged",
            Tree::Choices => "choice",
            Tree::ChoiceNames => "choice_name",
            Tree::Details => "detail",
            Tree::Credits => "credit",
            Tree::Replaced => "replaced",
            Tree::Journal => "journal",
        }
    }

    /// How many of the first columns of a row are its key.
    pub(crate) fn key_columns(self) -> usize
        ensures { result ≡ key_width self }
    {
        match self {
            Tree::Book | Tree::Tariffs | Tree::Closes | Tree::Records | Tree::Choices => 1,
            Tree::Credits | Tree::Replaced | Tree::Journal => 1,
            Tree::Lines | Tree::Identities | Tree::ChoiceNames => 2,
            Tree::Marks => 3,
            Tree::Days => 4,
            Tree::Details => 5,
        }
    }

    /// How many columns each of its rows has, where so many were found: one of a record has one more
    /// if the record came by an entry, and one of the journal has few if it is of a ruling.
    fn columns(self, found: usize) -> usize
        ensures { result ≡ width self found }
    {
        match self {
            Tree::Tariffs | Tree::Closes | Tree::Identities | Tree::ChoiceNames => 2,
            Tree::Lines | Tree::Marks => 3,
            Tree::Choices | Tree::Replaced => 4,
            Tree::Book | Tree::Credits => 5,
            Tree::Days => 8,
            Tree::Records => either(found, 12, 11),
            Tree::Details => 12,
            Tree::Journal => either(found, 20, 7),
        }
    }

    /// Whether a row has as many columns as its rows.
    pub(crate) fn has_width(self, row: &Row) -> bool
        ensures { result ≡ true → IsWide self row.now }
    {
        row.len() == self.columns(row.len())
    }
}

/// Where a row of details is.
#[derive(Clone, Copy)]
pub struct DetailKey {
    /// The place of the charge row that counts the record.
    pub place: RowKey,
    /// The time of the record, in hundredths of a second since midnight.
    pub time: u32,
    /// The name of the record, the SHA-256 digest of its data.
    pub name: [u8; 32],
}

/// Where something is wrong.
#[derive(Clone, Copy)]
pub enum Place {
    /// The pages of the file.
    File,
    /// A tree.
    Tree(Tree),
    /// The tariff with this first day, in days since 1970-01-01.
    Tariff(i32),
    /// The close of the period of this number.
    Close(u16),
    /// The choice of this number, from 1.
    Choice(u32),
    /// The record of this name, the SHA-256 digest of its data.
    Record([u8; 32]),
    /// A charge row.
    Day(DayKey),
    /// The line of the period of this number for the record of this name.
    Line(u16, [u8; 32]),
    /// A row of details.
    Detail(DetailKey),
    /// The credit of this number, from 1.
    Credit(u32),
    /// The replaced tariff of this number, from 1.
    Replaced(u32),
    /// The entry of the journal of this number, from 1.
    Entry(u64),
}

/// What is wrong there.
#[derive(Clone, Copy)]
pub enum Wrong {
    /// The pages are not those of the sorted trees of books.
    Pages,
    /// A page or a row can't be read.
    Unreadable,
    /// A row has another number of columns than those of its tree.
    Columns,
    /// The rows are not in the order of their keys.
    Order,
    /// The tree has more than one row.
    MoreRows,
    /// The row of the book has another number, a rule that no books have, or a period of adoption
    /// that does not go with its rule or is still to come.
    Rule,
    /// It has another number of records.
    Held,
    /// It has another amount.
    Amount,
    /// The text is no tariff, or one of another day.
    TariffText,
    /// A period is left out, or the day is invalid or not later than that of the close before.
    CloseOrder,
    /// There are more closes than periods that can be closed.
    Closes,
    /// A number is left out: choices, as what else is numbered, have the numbers from 1 on.
    ChoiceNumber,
    /// A choice's period is 0, below that of the choice before, or above the open one.
    ChoicePeriod,
    /// A choice's record is not held.
    NotHeld,
    /// A choice's record is alone in its identity, which was never withheld, and no rule was
    /// adopted since.
    ChosenAlone,
    /// The choice is not found by the record that it names.
    NoChoiceName,
    /// There are more choices than can be made.
    Choices,
    /// The name is not the digest of the data.
    Name,
    /// The data are not those of a usage record.
    NoUsage,
    /// The identity is not that of the bytes.
    Identity,
    /// No tariff is in force on the day of the bytes.
    Unpriced,
    /// The price is not that of the tariff in force.
    Price,
    /// The record is not found by its identity.
    NoIdentity,
    /// The record is not found by its mark.
    NoMark,
    /// The record is charged and neither alone in its identity nor named last of it, or its work is
    /// withheld; or the other way round.
    Charged,
    /// The record is not posted as the last close charged it.
    Posted,
    /// A line adds a record that was charged before it, or reverses one that was not.
    Lines,
    /// There are more records than books can hold, or they cost more.
    Limits,
    /// A tree that finds the rows of a table has another number of entries.
    Entries,
    /// The record of a line or of a row of details is not held.
    NoRecord,
    /// A line's record is dated after the close before the line's period, or there is no close.
    LineDate,
    /// A charge row is not in its day's period.
    Period,
    /// A charge row counts no record.
    NoCount,
    /// A charge row is not the sum of its records.
    Sums,
    /// Records are charged at a place that has no charge row.
    NoRow,
    /// A record is counted, and has no row of details.
    NoDetail,
    /// A row of details shows something else than its record.
    OtherDetail,
    /// A row of details is that of a record which no period counts.
    NotCounted,
    /// No such credit can have been given, or not in a period that has begun.
    Credit,
    /// The period has not begun.
    Begun,
    /// There are more of these rulings than can be made.
    Rulings,
    /// The ruling that an entry is of is not there.
    NoRuling,
    /// An entry says that it kept more records than came by it.
    Kept,
    /// A record came by an entry that is not there, or that kept no more records.
    Came,
}

/// The first thing that is wrong, and its place.
#[derive(Clone, Copy)]
pub struct Finding {
    pub place: Place,
    pub wrong: Wrong,
}
