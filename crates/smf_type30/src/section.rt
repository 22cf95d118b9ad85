ghost use Rattle.std.specs.Prelude.{◌≡◌, ◌≢◌, IsTrue};
ghost use Rattle.smf_type30.specs.SectionBytes.{HasFields};
ghost use Rattle.smf_type30.specs.Section.{HasTriplet};
ghost use Rattle.smf_type30.specs.Section as spec;

use crate::layout::{Field, Section};
use crate::number::{number2, number4};

/// The offset that a section's triplet gives: bytes from the start of the record's descriptor.
pub fn offset(bytes: &[u8], section: Section) -> usize
    requires { HasTriplet bytes.now section }
    ensures { result ≡ spec.offset_of bytes.now section }
{
    let field = Field {
        offset: section.triplet,
        len: 4,
    };
    number4(bytes, field) as usize
}

/// The length that a section's triplet gives, in bytes.
pub fn len(bytes: &[u8], section: Section) -> u16
    requires { HasTriplet bytes.now section }
    ensures { result ≡ spec.length_of bytes.now section }
{
    let field = Field {
        offset: section.triplet + 4,
        len: 2,
    };
    number2(bytes, field)
}

/// The number that a section's triplet gives, 0 where the section is absent.
pub fn count(bytes: &[u8], section: Section) -> u16
    requires { HasTriplet bytes.now section }
    ensures { result ≡ spec.count_of bytes.now section }
{
    let field = Field {
        offset: section.triplet + 6,
        len: 2,
    };
    number2(bytes, field)
}

/// Whether a section is absent, or long enough and inside the record.
pub fn fits(bytes: &[u8], section: Section) -> bool
    requires { HasTriplet bytes.now section }
    ensures { result ≡ spec.fits bytes.now section }
{
    let len = len(bytes, section);
    count(bytes, section) == 0
        || section.least <= len && offset(bytes, section) + len as usize <= bytes.len()
}

/// A section that is there, lent from its record.
pub fn section_bytes(bytes: &[u8], section: Section) -> &[u8]
    requires triplet { HasTriplet bytes.now section }
    requires there { spec.count_of bytes.now section ≢ 0 }
    requires fits { IsTrue (spec.fits bytes.now section) }
    ensures { HasFields bytes.now section result.now }
{
    let start = offset(bytes, section);
    let end = start + len(bytes, section) as usize;
    &bytes[start..end]
}
