//! Columns that are read into types of the books. A column that does not fit is an error:
//! `Corrupt`.

ghost use Rattle.std.specs.Prelude.{◌≡◌, ◌<◌, ◌+◌, ◌++◌, ◌∷◌, ◌^◌, [], IfOk, IfSome, OnOk, map};
ghost use Rattle.std.specs.Prelude.{pos};
ghost use Rattle.std.specs.Prelude.{slice_set, string_bytes};
ghost use Rattle.sqlite_value.specs.Order.{column};
ghost use Rattle.sqlite_value.specs.Value.{owned};
ghost use Rattle.sqlite_value.specs.declared.value.Value.TheVariants.{Blob, Int, Text};
ghost use Rattle.tree_tables.specs.Columns.{flag, step_value};

use smf_text::Name;
use sqlite_trees::error::StoreError;
use sqlite_value::row::Row;
use sqlite_value::value::ValueRef;
use std::alloc::Global;

/// The number in a column.
pub fn int_at(row: &Row, at: usize) -> Result<i64, StoreError>
    ensures read { IfOk result (λ n. column row.now at ≡ Int n) }
{
    match row.get(at) {
        ValueRef::Int(n) => Ok(n),
        _ => Err(StoreError::Corrupt),
    }
}

/// The number in a column, where it is not below 0.
pub fn count_at(row: &Row, at: usize) -> Result<u64, StoreError>
    ensures read { IfOk result (λ n. column row.now at ≡ Int (pos n)) }
    ensures small { IfOk result (λ n. n < 2 ^ 63) }
{
    let n = int_at(row, at)?;
    u64::try_from(n).ok().ok_or(StoreError::Corrupt)
}

/// What a charge comes from, and what it is: the processor time, the blocks, and the amount.
#[derive(Clone, Copy)]
pub(crate) struct Counts {
    pub(crate) cpu: u64,
    pub(crate) blocks: u64,
    pub(crate) amount: u64,
}

/// The counts in three columns from one on, where none is below 0.
pub(crate) fn counts_at(row: &Row, at: usize) -> Result<Counts, StoreError>
    requires { at < 2 ^ 32 }
    ensures cpu { IfOk result (λ counts. column row.now at ≡ Int (pos counts.cpu)) }
    ensures blocks { IfOk result (λ counts. column row.now (at + 1) ≡ Int (pos counts.blocks)) }
    ensures amount { IfOk result (λ counts. column row.now (at + 2) ≡ Int (pos counts.amount)) }
    ensures small { IfOk result (λ counts. (counts.cpu < 2 ^ 63) × (counts.blocks < 2 ^ 63)
        × (counts.amount < 2 ^ 63)) }
{
    Ok(Counts {
        cpu: count_at(row, at)?,
        blocks: count_at(row, at + 1)?,
        amount: count_at(row, at + 2)?,
    })
}

/// The period in a column.
pub fn period_at(row: &Row, at: usize) -> Result<u16, StoreError>
    ensures read { IfOk result (λ n. column row.now at ≡ Int (pos n)) }
{
    let n = int_at(row, at)?;
    u16::try_from(n).ok().ok_or(StoreError::Corrupt)
}

/// The number of a choice, a credit or a tariff that was replaced, in a column.
pub fn number_at(row: &Row, at: usize) -> Result<u32, StoreError>
    ensures read { IfOk result (λ n. column row.now at ≡ Int (pos n)) }
{
    let n = int_at(row, at)?;
    u32::try_from(n).ok().ok_or(StoreError::Corrupt)
}

/// The day in a column.
pub fn day_at(row: &Row, at: usize) -> Result<i32, StoreError>
    ensures read { IfOk result (λ day. column row.now at ≡ Int day) }
{
    let n = int_at(row, at)?;
    i32::try_from(n).ok().ok_or(StoreError::Corrupt)
}

/// The mark in a column, which is 1 or 0.
pub fn mark_at(row: &Row, at: usize) -> Result<bool, StoreError>
    ensures read { IfOk result (λ mark. column row.now at ≡ Int (pos (flag mark))) }
{
    match int_at(row, at)? {
        0 => Ok(false),
        1 => Ok(true),
        _ => Err(StoreError::Corrupt),
    }
}

/// The bytes in a column, left in place.
pub(crate) fn blob_at<'a>(row: &'a Row, at: usize) -> Result<&'a [u8], StoreError>
    ensures read { IfOk result (λ bytes. column row.now at ≡ Blob bytes.now) }
{
    match row.get(at) {
        ValueRef::Blob(bytes) => Ok(bytes),
        _ => Err(StoreError::Corrupt),
    }
}

/// The bytes in a column.
pub fn bytes_at(row: &Row, at: usize, alloc: Global) -> Result<Vec<u8>, StoreError>
    ensures read { IfOk result (λ bytes. column row.now at ≡ Blob bytes.items) }
{
    let bytes = blob_at(row, at)?;
    Ok(Vec::from_slice(alloc, bytes)?)
}

/// The 32 bytes in a column.
pub fn hash_at(row: &Row, at: usize) -> Result<[u8; 32], StoreError>
    ensures read { IfOk result (λ bytes. column row.now at ≡ Blob bytes) }
{
    match row.get(at) {
        ValueRef::Blob(bytes) => hash_of(bytes).ok_or(StoreError::Corrupt),
        _ => Err(StoreError::Corrupt),
    }
}

/// The 32 bytes that stand for data.
fn hash_of(bytes: &[u8]) -> Option<[u8; 32]>
    ensures value { IfSome result (λ hash. hash ≡ bytes.now) }
{
    if bytes.len() != 32 {
        return None;
    }
    bytes.first_chunk().copied()
}

/// The 8 bytes in a column.
pub fn eight_at(row: &Row, at: usize) -> Result<[u8; 8], StoreError>
    ensures read { IfOk result (λ bytes. column row.now at ≡ Blob bytes) }
{
    match row.get(at) {
        ValueRef::Blob(bytes) => eight_of(bytes).ok_or(StoreError::Corrupt),
        _ => Err(StoreError::Corrupt),
    }
}

/// The 8 bytes of a name in a record.
fn eight_of(bytes: &[u8]) -> Option<[u8; 8]>
    ensures value { IfSome result (λ eight. eight ≡ bytes.now) }
{
    if bytes.len() != 8 {
        return None;
    }
    bytes.first_chunk().copied()
}

/// The number of a step in a column, which may have none.
pub fn step_at(row: &Row, at: usize) -> Result<Option<u16>, StoreError>
    ensures read { IfOk result (λ step. column row.now at ≡ step_value step) }
{
    match row.get(at) {
        ValueRef::Null => Ok(None),
        ValueRef::Int(n) => match u16::try_from(n) {
            Ok(step) => Ok(Some(step)),
            Err(_) => Err(StoreError::Corrupt),
        },
        _ => Err(StoreError::Corrupt),
    }
}

/// The number of an entry in a column, which may have none.
pub fn entry_at(row: &Row, at: usize) -> Result<Option<u64>, StoreError>
    ensures read { IfOk result (λ number. column row.now at ≡ step_value number) }
{
    match row.get(at) {
        ValueRef::Null => Ok(None),
        ValueRef::Int(n) => match u64::try_from(n) {
            Ok(number) => Ok(Some(number)),
            Err(_) => Err(StoreError::Corrupt),
        },
        _ => Err(StoreError::Corrupt),
    }
}

/// The text in a column.
pub(crate) fn str_at<'a>(row: &'a Row, at: usize) -> Result<&'a str, StoreError>
    ensures read { IfOk result (λ text. column row.now at ≡ Text text.now) }
{
    match row.get(at) {
        ValueRef::Text(bytes) => str::from_utf8(bytes).ok().ok_or(StoreError::Corrupt),
        _ => Err(StoreError::Corrupt),
    }
}

/// The text in a column.
pub fn text_at(row: &Row, at: usize, alloc: Global) -> Result<String, StoreError>
    ensures read { IfOk result (λ text. column row.now at ≡ Text (string_bytes text)) }
{
    let text = str_at(row, at)?;
    Ok(String::from_str(alloc, text)?)
}

/// The name in a column.
pub fn name_at(row: &Row, at: usize) -> Result<Name, StoreError>
    ensures read { IfOk result (λ name. column row.now at ≡ Text name) }
{
    let text = str_at(row, at)?;
    Name::of(text).ok_or(StoreError::Corrupt)
}

/// A number joins a row, where it fits a signed number of 64 bits.
pub(crate) fn push_number(row: &mut Row, number: u64) -> Result<(), StoreError>
    ensures { OnOk result (row.new ≡ row.old ++ Int (pos number) ∷ []) }
{
    let Ok(number) = i64::try_from(number) else {
        return Err(StoreError::Unstorable);
    };
    row.push(ValueRef::Int(number))?;
    Ok(())
}

/// Values join a row.
pub(crate) fn push_all(row: &mut Row, values: &[ValueRef<'_>]) -> Result<(), StoreError>
    ensures made { OnOk result (row.new ≡ row.old ++ map owned values.now) }
{
    for value in values {
        row.push(*value)?;
    }
    Ok(())
}

/// Makes a row of values.
pub(crate) fn make_row(row: &mut Row, values: &[ValueRef<'_>]) -> Result<(), StoreError>
    ensures made { OnOk result (row.new ≡ map owned values.now) }
{
    row.clear();
    push_all(row, values)
}

/// Makes a row that is another one but for the value in one column.
pub(crate) fn with_column(
    row: &mut Row,
    other: &Row,
    at: usize,
    value: ValueRef<'_>,
) -> Result<(), StoreError>
    ensures { OnOk result (row.new ≡ slice_set other.now at (owned value.entry)) }
{
    row.clear();
    for place in 0..other.len() {
        let value = if place == at { value } else { other.get(place) };
        row.push(value)?;
    }
    Ok(())
}
