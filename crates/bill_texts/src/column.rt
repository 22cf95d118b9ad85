//! The columns of a part: which field of a row stands in each, and how.

ghost use Rattle.std.specs.Prelude.{◌≡◌};
ghost use Rattle.bill_texts.specs.Sheets as spec;

use crate::part::Layout;

/// A column: the place of its field in a row, from 0, and its width in a text.
#[derive(Clone, Copy)]
pub enum Column {
    /// Words at its left, the first of their line.
    First(usize, usize),
    /// Words at its left.
    Word(usize, usize),
    /// A number at its right that is no figure, such as that of a step.
    Number(usize, usize),
    /// A figure at its right, whose digits a page groups.
    Figure(usize, usize),
    /// Words on a line of their own below the others, if there are some.
    Below(usize),
}

/// The columns of sums.
const SUMS: [Column; 6] = [
    Column::First(0, 16),
    Column::Figure(1, 13),
    Column::Figure(2, 13),
    Column::Figure(3, 13),
    Column::Figure(4, 13),
    Column::Figure(5, 13),
];

/// The same with what is credited, before what is owed: a line of 100 characters.
const CREDITED_SUMS: [Column; 7] = [
    Column::First(0, 16),
    Column::Figure(1, 13),
    Column::Figure(2, 13),
    Column::Figure(3, 13),
    Column::Figure(6, 13),
    Column::Figure(4, 13),
    Column::Figure(5, 13),
];

/// The columns of prices: each stands where the work stands that it multiplies.
const PRICES: [Column; 5] = [
    Column::First(0, 10),
    Column::Word(1, 16),
    Column::Figure(2, 18),
    Column::Figure(3, 15),
    Column::Figure(4, 15),
];

/// The columns of percents.
const PERCENTS: [Column; 3] = [
    Column::First(0, 10),
    Column::Word(1, 16),
    Column::Figure(2, 7),
];

/// The columns of work.
const WORK: [Column; 7] = [
    Column::First(0, 10),
    Column::Word(1, 16),
    Column::Figure(2, 7),
    Column::Figure(3, 10),
    Column::Figure(4, 15),
    Column::Figure(5, 15),
    Column::Figure(6, 21),
];

/// The columns of records.
const RECORDS: [Column; 9] = [
    Column::First(0, 10),
    Column::Word(1, 16),
    Column::Word(2, 8),
    Column::Word(3, 8),
    Column::Word(4, 8),
    Column::Number(5, 5),
    Column::Number(6, 6),
    Column::Figure(7, 32),
    Column::Below(8),
];

/// The columns of credits.
const CREDITS: [Column; 2] = [Column::First(0, 78), Column::Figure(1, 21)];

/// The columns of a layout.
#[tactic(auto, unfolding(crate::specs::Sheets::columns_of))]
pub fn columns_of(layout: Layout) -> &'static [Column]
    ensures { result.now ≡ spec.columns_of layout }
{
    match layout {
        Layout::Sums => SUMS.as_slice(),
        Layout::CreditedSums => CREDITED_SUMS.as_slice(),
        Layout::Prices => PRICES.as_slice(),
        Layout::Percents => PERCENTS.as_slice(),
        Layout::Work | Layout::Counts => WORK.as_slice(),
        Layout::Records => RECORDS.as_slice(),
        Layout::Credits => CREDITS.as_slice(),
    }
}
