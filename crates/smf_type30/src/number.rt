ghost use Rattle.std.specs.Prelude.{◌≡◌, ◌+◌, ◌≤◌, length};
ghost use Rattle.smf_frames.specs.Number.{number, part};

use crate::layout::Field;
use byteorder::{BigEndian, ByteOrder};

/// The number in a field of two bytes, the high one first.
pub fn number2(bytes: &[u8], field: Field) -> u16
    requires len { field.len ≡ 2 }
    requires inside { field.offset + field.len ≤ length bytes.now }
    ensures { result ≡ number bytes.now field.offset field.len }
{
    BigEndian::read_u16(&bytes[field.offset..])
}

/// The number in a field of four bytes, the high one first.
pub fn number4(bytes: &[u8], field: Field) -> u32
    requires len { field.len ≡ 4 }
    requires inside { field.offset + field.len ≤ length bytes.now }
    ensures { result ≡ number bytes.now field.offset field.len }
{
    BigEndian::read_u32(&bytes[field.offset..])
}

/// The bytes of a field.
pub fn part(bytes: &[u8], field: Field) -> &[u8]
    requires inside { field.offset + field.len ≤ length bytes.now }
    ensures value { result.now ≡ part bytes.now field.offset field.len }
    ensures len { length result.now ≡ field.len }
{
    &bytes[field.offset..field.offset + field.len]
}
