ghost use Rattle.std.specs.Prelude.{◌≡◌, ◌+◌, ◌≤◌, IfOk, length};
ghost use Rattle.smf_frames.specs.Segment.{descriptor_len};
ghost use Rattle.smf_frames.specs.Framed as spec;

use crate::descriptor::DESCRIPTOR_LEN;
use std::alloc::{AllocError, Global};

/// The most data that a record has here, in bytes, a rule of this project: with its descriptor,
/// which names the length of both in two bytes, it has 65,535.
pub const MAX_DATA: usize = 65_531;

/// The record with that data.
pub fn record_with(alloc: Global, joined: &[u8]) -> Result<Vec<u8>, AllocError>
    requires { length joined.now ≤ spec.most_data }
    ensures { IfOk result (λ made. made.items ≡ spec.record_with joined.now) }
{
    let len = DESCRIPTOR_LEN + joined.len();
    let mut bytes = Vec::with_capacity(alloc, len)?;
    bytes.push((len / 256) as u8)?;
    bytes.push((len % 256) as u8)?;
    bytes.push(0)?;
    bytes.push(0)?;
    bytes.extend_from_slice(joined)?;
    Ok(bytes)
}

/// Writes the descriptor of a record into the bytes before its data.
pub fn describe(bytes: &mut [u8])
    requires long { descriptor_len ≤ length bytes.old }
    requires short { length bytes.old ≤ descriptor_len + spec.most_data }
    ensures { bytes.new ≡ spec.record_with (spec.data_of bytes.old) }
{
    let len = bytes.len();
    bytes[0] = (len / 256) as u8;
    bytes[1] = (len % 256) as u8;
    bytes[2] = 0;
    bytes[3] = 0;
}
