//! The bytes of records that are stored.

ghost use Rattle.std.specs.Prelude.{◌≡◌, ◌≤◌, ◌↔◌, IfOk, IsOk, OnOk, length};
ghost use Rattle.smf_frames.specs.Framed as framed;
ghost use Rattle.book_model.specs.Words.{IsUsage};

use smf_frames::MAX_DATA;
use smf_type30::Type30;
use sqlite_trees::error::StoreError;
use std::alloc::{AllocError, Global};

/// Writes the record with that data, after the descriptor that their length gives, over `bytes`.
fn put_record(bytes: &mut Vec<u8>, data_bytes: &[u8]) -> Result<(), AllocError>
    requires { length data_bytes.now ≤ framed.most_data }
    ensures { OnOk result (bytes.new.items ≡ framed.record_with data_bytes.now) }
{
    let len = 4 + data_bytes.len();
    bytes.clear();
    bytes.reserve(len)?;
    bytes.extend_from_slice(&[(len / 256) as u8, (len % 256) as u8, 0, 0])?;
    bytes.extend_from_slice(data_bytes)
}

/// The record with that data, after the descriptor that their length gives.
pub fn record_with(alloc: Global, data_bytes: &[u8]) -> Result<Vec<u8>, AllocError>
    requires { length data_bytes.now ≤ framed.most_data }
    ensures { IfOk result (λ made. made.items ≡ framed.record_with data_bytes.now) }
{
    let mut bytes = Vec::new(alloc);
    put_record(&mut bytes, data_bytes)?;
    Ok(bytes)
}

/// Writes the record with that data over `bytes`, so that a walk over many needs memory once. Data
/// that are too long for a record are an error: `Corrupt`.
pub fn put_data(bytes: &mut Vec<u8>, data_bytes: &[u8]) -> Result<(), StoreError>
    ensures bytes { OnOk result (bytes.new.items ≡ framed.record_with data_bytes.now) }
{
    if data_bytes.len() > MAX_DATA {
        return Err(StoreError::Corrupt);
    }
    put_record(bytes, data_bytes)?;
    Ok(())
}

/// The fields of a stored record. One that is no usage record is an error: `Corrupt`, which no
/// clause names.
pub fn usage_in(bytes: &[u8]) -> Result<Type30<'_>, StoreError>
    ensures value { IfOk result (λ usage. usage ≡ bytes.now) }
    ensures usage { IsOk result ↔ IsUsage bytes.now }
{
    match Type30::if_usage(bytes) {
        Some(usage) => Ok(usage),
        None => Err(StoreError::Corrupt),
    }
}

/// Writes the usage record with that data over `bytes`. Data that are those of no usage record are
/// an error: `Corrupt`.
pub(crate) fn put_usage(bytes: &mut Vec<u8>, data_bytes: &[u8]) -> Result<(), StoreError>
    ensures bytes { OnOk result (bytes.new.items ≡ framed.record_with data_bytes.now) }
    ensures usage { OnOk result (IsUsage bytes.new.items) }
{
    put_data(bytes, data_bytes)?;
    usage_in(bytes.as_slice())?;
    Ok(())
}

/// The usage record with that data. Data that are those of no usage record are an error: `Corrupt`.
pub fn usage_bytes(alloc: Global, data_bytes: &[u8]) -> Result<Vec<u8>, StoreError>
    ensures bytes { IfOk result (λ made. made.items ≡ framed.record_with data_bytes.now) }
    ensures usage { IfOk result (λ made. IsUsage made.items) }
{
    let mut bytes = Vec::new(alloc);
    put_usage(&mut bytes, data_bytes)?;
    Ok(bytes)
}
