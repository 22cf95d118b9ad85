//! Details: a line for each record that a period counts.

ghost use Rattle.std.specs.Prelude.{◌≡◌, length, map};
ghost use Rattle.std.specs.List.{IsDistinct};
ghost use Rattle.book_model.specs.Details as spec;
ghost use Rattle.book_model.specs.Rows as row;
ghost use Rattle.book_model.specs.Words.{by_detail, members, same_bytes, set_of};

use crate::charge_rows::key_of;
use book_model::{Detail, RowKey};
use smf_text::Name;
use smf_type30::Type30;
use tariff_rules::Priced;

/// The bytes of a name that a record lends.
pub fn copied(name: &[u8]) -> [u8; 8]
    requires { length name.now ≡ 8 }
    ensures { result ≡ name.now }
{
    let mut bytes = [0; 8];
    bytes.copy_from_slice(name);
    bytes
}

/// A record as details show it, by its name and by what it costs.
pub fn detail_with(name: &[u8; 32], usage: &Type30<'_>, priced: Priced) -> Detail
    ensures { result ≡ spec.detail_with name.now usage.now priced }
{
    Detail {
        priced,
        time: usage.moment().time,
        name: *name,
        job: copied(usage.job()),
        program: copied(usage.program()),
        job_id: copied(usage.job_id()),
        step: usage.ended_step(),
    }
}

/// The place of a detail: as charge rows stand, then by time, then by name.
fn place_of(detail: &Detail) -> (RowKey, (u32, [u8; 32]))
    ensures { result ≡ (row.key_of detail.now.priced, (detail.now.time, detail.now.name)) }
{
    (key_of(&detail.priced), (detail.time, detail.name))
}

/// Puts details of different names in the order in which they are read, by their places.
pub fn sort_details(details: &mut [Detail])
    requires { IsDistinct same_bytes (map (λ detail. detail.name) details.old) }
    ensures sorted { details.new ≡ members (set_of by_detail details.old) }
    ensures len { length details.new ≡ length details.old }
{
    details.sort_unstable_by_key(|detail| place_of(detail));
}

/// The detail is one of the centre that is named, or none is.
pub fn is_asked(centre: Option<Name>, detail: &Detail) -> bool
    ensures { result ≡ spec.is_asked centre detail.now }
{
    match centre {
        Some(centre) => detail.priced.centre == centre,
        None => true,
    }
}

/// The detail comes after the last one, or there is no last one.
pub fn comes_after(last: Option<Detail>, detail: &Detail) -> bool
    ensures { result ≡ spec.comes_after last detail.now }
{
    match last {
        Some(last) => place_of(&last).cmp(&place_of(detail)).is_lt(),
        None => true,
    }
}
