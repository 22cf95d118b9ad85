//! What-ifs: what a period would have cost by another tariff.

ghost use Rattle.std.specs.Prelude.{◌≡◌, ◌++◌, IfOk, string_bytes};
ghost use Rattle.std.specs.Option.{ForSome};
ghost use Rattle.book_model.specs.Words.{AreRows, IsDay};
ghost use Rattle.report_texts.specs.WhatIfs as spec;

use crate::centres::{keep_rows, push_centre_title};
use crate::periods::push_title;
use crate::statement_tables::row_table;
use crate::statements::{push_row_lines, push_sums_line};
use book_model::ChargeRow;
use smf_text::Name;
use std::alloc::{AllocError, Global};
use text_drafts::Draft;

/// Appends the line that says which tariff it is, by the SHA-256 of its file.
#[tactic(auto, unfolding(crate::specs::WhatIfs::digest_line))]
fn push_tariff(out: &mut Draft, digest: &[u8; 32])
    ensures { out.new ≡ out.old ++ spec.digest_line digest.now }
{
    out.push_str("TARIFF ");
    out.push_lower_hex(digest);
    out.push('\n');
}

/// Appends what stands below the title: the tariff, the rows by it, and the sums of what is charged.
#[tactic(auto, unfolding(crate::specs::WhatIfs::what_if_lines))]
fn push_what_if_lines(out: &mut Draft, digest: &[u8; 32], rows: &[ChargeRow], charged: &[ChargeRow])
    requires rows { AreRows rows.now }
    requires charged { AreRows charged.now }
    ensures { out.new ≡ out.old ++ spec.what_if_lines digest.now rows.now charged.now }
{
    push_tariff(out, digest);
    push_row_lines(out, rows);
    push_sums_line(out, "CHARGED", charged);
}

/// What a period would have cost by another tariff: the period by its number and the day that it
/// was closed through, if it was, the tariff by the SHA-256 of its file, the rows by it, and the
/// rows that the period is charged, each in the order in which the books give them.
pub fn what_if_text(
    alloc: Global,
    period: u16,
    through: Option<i32>,
    digest: &[u8; 32],
    rows: &[ChargeRow],
    charged: &[ChargeRow],
) -> Result<String, AllocError>
    requires through { ForSome through IsDay }
    requires rows { AreRows rows.now }
    requires charged { AreRows charged.now }
    ensures { IfOk result (λ text. string_bytes text
        ≡ spec.what_if_text period through digest.now rows.now charged.now) }
{
    let mut out = Draft::new(alloc);
    push_title(&mut out, "WHAT-IF", period, through);
    push_what_if_lines(&mut out, digest, rows, charged);
    out.finish()
}

/// The same as a table: a heading, and a row for each charge row by the other tariff.
pub fn what_if_table(alloc: Global, period: u16, rows: &[ChargeRow]) -> Result<Vec<u8>, AllocError>
    requires { AreRows rows.now }
    ensures { IfOk result (λ table. table.items ≡ spec.what_if_table period rows.now) }
{
    row_table(alloc, b"what_if", period, rows)
}

/// What a centre would have cost in a period by another tariff: by all rows of the period, those by
/// the tariff and those that the period is charged.
pub fn centre_what_if_text(
    alloc: Global,
    centre: Name,
    period: u16,
    through: Option<i32>,
    digest: &[u8; 32],
    mut rows: Vec<ChargeRow>,
    mut charged: Vec<ChargeRow>,
) -> Result<String, AllocError>
    requires through { ForSome through IsDay }
    requires rows { AreRows rows.items }
    requires charged { AreRows charged.items }
    ensures { IfOk result (λ text. string_bytes text
        ≡ spec.centre_what_if_text centre period through digest.now rows.items charged.items) }
{
    keep_rows(&mut rows, centre);
    keep_rows(&mut charged, centre);
    let mut out = Draft::new(alloc);
    push_centre_title(&mut out, "WHAT-IF", centre, period, through);
    push_what_if_lines(&mut out, digest, &rows, &charged);
    out.finish()
}

/// The same as a table: a heading, and a row for each charge row of the centre by the other tariff.
pub fn centre_what_if_table(
    alloc: Global,
    centre: Name,
    period: u16,
    mut rows: Vec<ChargeRow>,
) -> Result<Vec<u8>, AllocError>
    requires { AreRows rows.items }
    ensures { IfOk result (λ table.
        table.items ≡ spec.centre_what_if_table centre period rows.items) }
{
    keep_rows(&mut rows, centre);
    what_if_table(alloc, period, &rows)
}
