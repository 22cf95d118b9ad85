//! The lines of a check list: of which type and class a record is, its name if that is asked for,
//! and how many there are.

ghost use Rattle.std.specs.Prelude.{◌≡◌, ◌++◌, OnOk, string_bytes};
ghost use Rattle.book_model.specs.Words.{data_of};
ghost use Rattle.book_reports.specs.CheckLists as spec;

use crate::receipt_lines::stop_text;
use book_import::Stop;
use report_texts::push_number;
use sha2::{Digest, Sha256};
use smf_frames::Header;
use smf_type30::{Class, class};
use std::alloc::{AllocError, Global};

/// Appends the type of a record, if it has a whole header.
fn push_type(out: &mut String, bytes: &[u8]) -> Result<(), AllocError>
    ensures { OnOk result (string_bytes out.new
        ≡ string_bytes out.old ++ spec.type_text bytes.now) }
{
    match Header::read(bytes) {
        None => out.push('-'),
        Some(header) => push_number(out, u64::from(header.kind)),
    }
}

/// Appends a class.
fn push_class(out: &mut String, class: Class) -> Result<(), AllocError>
    ensures { OnOk result (string_bytes out.new ≡ string_bytes out.old ++ spec.class_text class) }
{
    match class {
        Class::DumpHeader => out.push_str("HEADER"),
        Class::DumpTrailer => out.push_str("TRAILER"),
        Class::DataLost => out.push_str("LOST"),
        Class::Other => out.push_str("OTHER"),
        Class::Continuation => out.push_str("CONTINUED"),
        Class::Usage => out.push_str("USAGE"),
        Class::Damaged(damage) => {
            out.push_str("DAMAGED")?;
            out.push(' ')?;
            push_number(out, u64::from(damage.number()))
        }
    }
}

/// The length of a record's descriptor, in bytes.
const DESCRIPTOR: usize = 4;

/// The data of a record, which follow its descriptor.
fn data_in(bytes: &[u8]) -> &[u8]
    ensures { result.now ≡ data_of bytes.now }
{
    let (_, data) = bytes.split_at(DESCRIPTOR.min(bytes.len()));
    data
}

/// Appends the name under which books keep a record: that of its data.
fn push_digest(alloc: Global, out: &mut String, bytes: &[u8]) -> Result<(), AllocError>
    ensures { OnOk result (string_bytes out.new
        ≡ string_bytes out.old ++ spec.digest_text bytes.now) }
{
    let name = Sha256::digest(data_in(bytes));
    let digits = hex::encode(alloc, name.as_slice())?;
    out.push(' ')?;
    out.push_str(digits.as_str())
}

/// Appends it where names are asked for.
fn push_if_asked(
    alloc: Global,
    out: &mut String,
    names: bool,
    bytes: &[u8],
) -> Result<(), AllocError>
    ensures { OnOk result (string_bytes out.new
        ≡ string_bytes out.old ++ spec.asked_text names bytes.now) }
{
    if names {
        push_digest(alloc, out, bytes)
    } else {
        Ok(())
    }
}

/// Appends the name of a record that could be kept, where names are asked for.
fn push_name(
    alloc: Global,
    out: &mut String,
    class: Class,
    names: bool,
    bytes: &[u8],
) -> Result<(), AllocError>
    ensures { OnOk result (string_bytes out.new
        ≡ string_bytes out.old ++ spec.name_text class names bytes.now) }
{
    match class {
        Class::Usage => push_if_asked(alloc, out, names, bytes),
        _ => Ok(()),
    }
}

/// Appends the line of the record with that number, and with its name where names are asked for.
#[tactic(auto, unfolding(crate::specs::CheckLists::record_line))]
pub fn push_record_line(
    alloc: Global,
    out: &mut String,
    names: bool,
    number: u64,
    bytes: &[u8],
) -> Result<(), AllocError>
    ensures { OnOk result (string_bytes out.new
        ≡ string_bytes out.old ++ spec.record_line names number bytes.now) }
{
    let found = class(bytes);
    push_number(out, number)?;
    out.push_str(" TYPE ")?;
    push_type(out, bytes)?;
    out.push(' ')?;
    push_class(out, found)?;
    push_name(alloc, out, found, names, bytes)?;
    out.push('\n')
}

/// Appends how many records there are, and why there are no more.
pub fn push_last_line(out: &mut String, count: u64, stop: Stop) -> Result<(), AllocError>
    ensures { OnOk result (string_bytes out.new
        ≡ string_bytes out.old ++ spec.last_line count stop) }
{
    out.push_str("RECORDS ")?;
    push_number(out, count)?;
    out.push_str(" STOP ")?;
    out.push_str(stop_text(stop).as_str())?;
    out.push('\n')
}
