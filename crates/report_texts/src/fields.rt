//! Fields of rows: what each is shown as is made, and added to a row; and rows of tables.

ghost use Rattle.std.specs.Prelude.{◌≡◌, [], ◌∷◌, ◌++◌, decimal};
ghost use Rattle.hex.specs.Hex.{encode_lower};
ghost use Rattle.book_model.specs.Words.{IsDay, day_text_of, show_text};
ghost use Rattle.report_texts.specs.AdjustmentLists.{charged_amount, reversed_amount, signed_text};
ghost use Rattle.report_texts.specs.Columns.{amount_text, number_text, seconds_text};
ghost use Rattle.report_texts.specs.Tables.{fields_line, key_fields};

use crate::adjustment_lists::{charged_amount, push_difference, reversed_amount};
use crate::columns::{push_amount, push_number_or_dash, push_seconds};
use book_model::Line;
use tariff_rules::Priced;
use text_drafts::{Draft, RowDraft, TableDraft};

/// Adds a number.
pub fn add_number(row: &mut RowDraft, number: u64)
    ensures { row.new ≡ row.old ++ decimal number ∷ [] }
{
    let mut text = Draft::new(row.alloc());
    text.push_number(number);
    row.add_draft(&text);
}

/// Adds a number, or `-` where there is none.
pub fn add_number_or_dash(row: &mut RowDraft, number: Option<u16>)
    ensures { row.new ≡ row.old ++ number_text number ∷ [] }
{
    let mut text = Draft::new(row.alloc());
    push_number_or_dash(&mut text, number);
    row.add_draft(&text);
}

/// Adds hundredths of a second, in seconds.
pub fn add_seconds(row: &mut RowDraft, hundredths: u64)
    ensures { row.new ≡ row.old ++ seconds_text hundredths ∷ [] }
{
    let mut text = Draft::new(row.alloc());
    push_seconds(&mut text, hundredths);
    row.add_draft(&text);
}

/// Adds bytes as they are shown.
pub fn add_shown(row: &mut RowDraft, bytes: &[u8])
    ensures { row.new ≡ row.old ++ show_text bytes.now ∷ [] }
{
    let mut text = Draft::new(row.alloc());
    text.push_shown(bytes);
    row.add_draft(&text);
}

/// Adds a day.
pub fn add_day(row: &mut RowDraft, day: i32)
    requires { IsDay day }
    ensures { row.new ≡ row.old ++ day_text_of day ∷ [] }
{
    let mut text = Draft::new(row.alloc());
    text.push_day(day);
    row.add_draft(&text);
}

/// Adds where a record is charged: on which day, to which centre, and in which shift.
#[tactic(auto, unfolding(crate::specs::Tables::key_fields))]
pub fn add_key(row: &mut RowDraft, priced: &Priced)
    requires { IsDay priced.now.day }
    ensures { row.new ≡ row.old ++ key_fields priced.now }
{
    add_day(row, priced.day);
    row.add_str(priced.centre.text());
    row.add_str(priced.shift.text());
}

/// Adds ten-thousandths of the money unit, in units.
pub fn add_amount(row: &mut RowDraft, amount: u64)
    ensures { row.new ≡ row.old ++ amount_text amount ∷ [] }
{
    let mut text = Draft::new(row.alloc());
    push_amount(&mut text, amount);
    row.add_draft(&text);
}

/// Adds what a line charges or reverses.
pub fn add_signed(row: &mut RowDraft, line: &Line)
    ensures { row.new ≡ row.old
        ++ signed_text (charged_amount line.now) (reversed_amount line.now) ∷ [] }
{
    let mut text = Draft::new(row.alloc());
    push_difference(&mut text, charged_amount(line), reversed_amount(line));
    row.add_draft(&text);
}

/// Adds the name of a record, in hexadecimal digits of lower case.
pub fn add_name(row: &mut RowDraft, name: &[u8])
    ensures { row.new ≡ row.old ++ encode_lower name.now ∷ [] }
{
    let mut text = Draft::new(row.alloc());
    text.push_lower_hex(name);
    row.add_draft(&text);
}

/// Adds a row that was made field by field.
#[tactic(auto, unfolding(crate::specs::Tables::fields_line))]
pub fn add_row(table: &mut TableDraft, row: &RowDraft)
    ensures { table.new ≡ table.old ++ fields_line row.now }
{
    table.add_row(row);
}
