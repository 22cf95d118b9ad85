//! What is printed for an audit.

ghost use Rattle.std.specs.Prelude.{◌≡◌, ◌++◌, IfOk, IsTrue, OnOk, string_bytes};
ghost use Rattle.std.specs.Fmt.{decimal};
ghost use Rattle.hex.specs.Hex.{encode_lower};
ghost use Rattle.smf_text.specs.Day.{IsDay, is_day};
ghost use Rattle.book_audit.specs.Findings as spec;
ghost use Rattle.book_audit.specs.Texts.{IsAuditText, count_line, sound_text};

use crate::audited::{Audited, Counts};
use crate::finding::{DetailKey, Finding, Place, Wrong};
use book_model::RowKey;
use smf_text::{FIRST_DAY, LAST_DAY, day_text};
use std::alloc::{AllocError, Global};
use tree_tables::DayKey;

/// What is wrong, in words.
#[tactic(auto, unfolding(crate::specs::Findings::wrong_text))]
fn wrong_text(wrong: Wrong) -> &'static str
    ensures { result.now ≡ spec.wrong_text wrong }
{
    match wrong {
        Wrong::Pages => "its pages are not those of sorted tables",
        Wrong::Unreadable => "a page or a row of it can't be read",
        Wrong::Columns => "a row of it has more columns than its table, or fewer",
        Wrong::Order => "its rows do not stand in the order of their keys",
        Wrong::MoreRows => "it has more than one row",
        Wrong::Rule => "its row is not that of books of rule 1 or 2",
        Wrong::Held => "held is not the number of records",
        Wrong::Amount => "amount is not what the records cost together",
        Wrong::TariffText => "its text is no tariff of that day",
        Wrong::CloseOrder => "it does not follow the close before",
        Wrong::Closes => "it has more closes than there are periods",
        Wrong::ChoiceNumber => "its number is not the next one",
        Wrong::ChoicePeriod =>
            "its period is not one from that of the choice before to the open one",
        Wrong::NotHeld => "the record that it names is not held",
        Wrong::ChosenAlone => "the record that it names is alone in its identity",
        Wrong::NoChoiceName => "choice_name does not find it",
        Wrong::Choices => "it has more than 1,000,000 choices",
        Wrong::Name => "its name is not the SHA-256 of its data",
        Wrong::NoUsage => "its data are those of no usage record",
        Wrong::Identity => "its identity is not that of its bytes",
        Wrong::Unpriced => "no tariff is in force on its day",
        Wrong::Price => "its price is not that of the tariff in force",
        Wrong::NoIdentity => "record_ident does not find it",
        Wrong::NoMark => "record_charged does not find it",
        Wrong::Charged =>
            "charged does not say whether it is alone in its identity or chosen last of it",
        Wrong::Posted => "posted does not say whether the last close charged it",
        Wrong::Lines => "its lines do not add and reverse it by turns",
        Wrong::Limits => "it has more records than books can hold, or they cost more",
        Wrong::Entries => "it has not as many entries as its table has rows",
        Wrong::NoRecord => "no record of that name is held",
        Wrong::LineDate => "its record is not dated by the close before",
        Wrong::Period => "its day is in another period",
        Wrong::NoCount => "it counts no record",
        Wrong::Sums => "it is not the sum of its records",
        Wrong::NoRow => "there is no row for its records",
        Wrong::NoDetail => "there is no row of detail for it",
        Wrong::OtherDetail => "it is not that of its record",
        Wrong::NotCounted => "no period counts its record",
        Wrong::Credit => "no such credit can be given",
        Wrong::Begun => "its period has not begun",
        Wrong::Rulings => "it has more than 10,000 rows",
        Wrong::NoRuling => "its ruling is not there",
        Wrong::Kept => "kept is not the number of records that came by it",
        Wrong::Came => "came is no entry that kept it",
    }
}

/// The number is one of a day that this product knows.
fn is_day(day: i32) -> bool
    ensures value { result ≡ is_day day }
    ensures day { IsTrue result → IsDay day }
{
    FIRST_DAY <= day && day <= LAST_DAY
}

/// Adds a day, or its number if it is not a valid day.
#[tactic(auto, unfolding(crate::specs::Findings::day_shown))]
fn push_day(alloc: Global, out: &mut String, day: i32) -> Result<(), AllocError>
    ensures { OnOk result (string_bytes out.new ≡ string_bytes out.old ++ spec.day_shown day) }
{
    if !is_day(day) {
        return write!(out, "{day}");
    }
    out.push_str(day_text(alloc, day)?.as_str())
}

/// Adds where records are charged.
#[tactic(auto, unfolding(crate::specs::Findings::key_shown))]
fn push_key(alloc: Global, out: &mut String, place: &RowKey) -> Result<(), AllocError>
    ensures { OnOk result (string_bytes out.new
        ≡ string_bytes out.old ++ spec.key_shown place.now) }
{
    push_day(alloc, out, place.day)?;
    out.push_str(" ")?;
    out.push_str(place.centre.text())?;
    out.push_str(" ")?;
    out.push_str(place.shift.text())
}

/// Adds the name of a record.
fn push_name(alloc: Global, out: &mut String, name: &[u8]) -> Result<(), AllocError>
    ensures { OnOk result (string_bytes out.new
        ≡ string_bytes out.old ++ encode_lower name.now) }
{
    out.push_str(hex::encode(alloc, name)?.as_str())
}

/// Adds a word and the number after it.
fn push_number(out: &mut String, word: &str, number: u64) -> Result<(), AllocError>
    ensures { OnOk result (string_bytes out.new
        ≡ string_bytes out.old ++ word.now ++ decimal number) }
{
    write!(out, "{word}{number}")
}

/// Adds where a charge row is.
#[tactic(auto, unfolding(crate::specs::Findings::place_text))]
fn push_spot(alloc: Global, out: &mut String, spot: &DayKey) -> Result<(), AllocError>
    ensures { OnOk result (string_bytes out.new
        ≡ string_bytes out.old ++ spec.place_text (Place.Day spot.now)) }
{
    push_number(out, "day_sum ", u64::from(spot.period))?;
    out.push_str(" ")?;
    push_key(alloc, out, &spot.place)
}

/// Adds where a line is.
#[tactic(auto, unfolding(crate::specs::Findings::place_text))]
fn push_line(alloc: Global, out: &mut String, period: u16, name: &[u8]) -> Result<(), AllocError>
    ensures { OnOk result (string_bytes out.new
        ≡ string_bytes out.old ++ spec.place_text (Place.Line period name.now)) }
{
    push_number(out, "line ", u64::from(period))?;
    out.push_str(" ")?;
    push_name(alloc, out, name)
}

/// Adds a number in two digits.
#[tactic(auto, using(crate::proofs::FindingLemmas::digits_written), unfolding(crate::specs::Findings::in_two_digits))]
fn push_two_digits(out: &mut String, number: u32) -> Result<(), AllocError>
    ensures { OnOk result (string_bytes out.new
        ≡ string_bytes out.old ++ spec.in_two_digits number) }
{
    write!(out, "{number:02}")
}

/// Adds a time of day, given in hundredths of a second since midnight.
#[tactic(auto, unfolding(crate::specs::Findings::time_shown))]
fn push_time(out: &mut String, time: u32) -> Result<(), AllocError>
    ensures { OnOk result (string_bytes out.new ≡ string_bytes out.old ++ spec.time_shown time) }
{
    push_two_digits(out, time / 360_000)?;
    out.push(':')?;
    push_two_digits(out, time / 6_000 % 60)?;
    out.push(':')?;
    push_two_digits(out, time / 100 % 60)?;
    out.push('.')?;
    push_two_digits(out, time % 100)
}

/// Adds where a row of details is.
#[tactic(auto, unfolding(crate::specs::Findings::place_text))]
fn push_detail(alloc: Global, out: &mut String, spot: &DetailKey) -> Result<(), AllocError>
    ensures { OnOk result (string_bytes out.new
        ≡ string_bytes out.old ++ spec.place_text (Place.Detail spot.now)) }
{
    out.push_str("detail ")?;
    push_key(alloc, out, &spot.place)?;
    out.push_str(" ")?;
    push_time(out, spot.time)?;
    out.push_str(" ")?;
    push_name(alloc, out, &spot.name)
}

/// Adds a place.
#[tactic(auto, unfolding(crate::specs::Findings::place_text))]
fn push_place(alloc: Global, out: &mut String, place: &Place) -> Result<(), AllocError>
    ensures { OnOk result (string_bytes out.new
        ≡ string_bytes out.old ++ spec.place_text place.now) }
{
    match place {
        Place::File => out.push_str("file"),
        Place::Tree(tree) => out.push_str(tree.name()),
        Place::Tariff(day) => {
            out.push_str("tariff ")?;
            push_day(alloc, out, *day)
        }
        Place::Close(period) => push_number(out, "closed ", u64::from(*period)),
        Place::Choice(number) => push_number(out, "choice ", u64::from(*number)),
        Place::Record(name) => {
            out.push_str("record ")?;
            push_name(alloc, out, name)
        }
        Place::Day(spot) => push_spot(alloc, out, spot),
        Place::Line(period, name) => push_line(alloc, out, *period, name),
        Place::Detail(spot) => push_detail(alloc, out, spot),
        Place::Credit(number) => push_number(out, "credit ", u64::from(*number)),
        Place::Replaced(number) => push_number(out, "replaced ", u64::from(*number)),
        Place::Entry(number) => push_number(out, "journal ", *number),
    }
}

/// Adds the line of what is wrong.
#[tactic(auto, unfolding(crate::specs::Findings::unsound_text))]
fn push_finding(alloc: Global, out: &mut String, finding: &Finding) -> Result<(), AllocError>
    ensures { OnOk result (string_bytes out.new
        ≡ string_bytes out.old ++ spec.unsound_text finding.now) }
{
    out.push_str("UNSOUND ")?;
    push_place(alloc, out, &finding.place)?;
    out.push_str(": ")?;
    out.push_str(wrong_text(finding.wrong))?;
    out.push_str("\n")
}

/// Adds a line with a word and a number.
fn push_count(out: &mut String, word: &str, count: u64) -> Result<(), AllocError>
    ensures { OnOk result (string_bytes out.new ≡ string_bytes out.old ++ count_line word.now count) }
{
    writeln!(out, "{word} {count}")
}

/// Adds the lines of sound books.
fn push_counts(out: &mut String, counts: &Counts) -> Result<(), AllocError>
    ensures { OnOk result (string_bytes out.new ≡ string_bytes out.old ++ sound_text counts.now) }
{
    out.push_str("SOUND\n")?;
    push_count(out, "FORM", u64::from(counts.form))?;
    push_count(out, "RECORDS", counts.records)?;
    push_count(out, "TARIFFS", counts.tariffs)?;
    push_count(out, "CLOSES", counts.closes)?;
    push_count(out, "CHOICES", counts.choices)?;
    push_count(out, "ROWS", counts.rows)?;
    push_count(out, "LINES", counts.lines)
}

/// The text of an audit: of sound books what they count, a line for each number; of others one
/// line, with the place and what is wrong there. It fails only for want of memory.
pub fn audit_text(alloc: Global, audited: &Audited) -> Result<String, AllocError>
    ensures { IfOk result (λ text. IsAuditText audited.now (string_bytes text)) }
{
    let mut out = String::new(alloc);
    match audited {
        Audited::Sound(counts) => push_counts(&mut out, counts)?,
        Audited::Unsound(finding) => push_finding(alloc, &mut out, finding)?,
    }
    Ok(out)
}
