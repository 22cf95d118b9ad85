ghost use Rattle.std.specs.Prelude.{◌≡◌, ◌+◌, ◌-◌, ◌≤◌, ◌++◌, All, IfOk, IsTrue, OnOk};
ghost use Rattle.std.specs.Prelude.{is_some, length, unwrap_or};
ghost use Rattle.smf_frames.specs.Segment.{descriptor_len};
ghost use Rattle.smf_frames.specs.Framed.{most_data, IsFramed};
ghost use Rattle.smf_frames.specs.Faults.{descriptor_fault, fault_at};
ghost use Rattle.smf_frames.specs.Longest.{Front, IsFront};
ghost use Rattle.smf_frames.specs.Front as spec;
ghost use Rattle.smf_frames.specs.Texts.{texts, vector_text, front_of};

use crate::block::{left_after, left_of_block};
use crate::descriptor::{DESCRIPTOR_LEN, kind_of};
use crate::dump::{Layout, Split};
use crate::fault::{descriptor_fault, end_fault};
use crate::framed::record_with;
use crate::next::{Next, next_of};
use std::alloc::{AllocError, Global};

/// How much data a record has that is begun.
fn data_len(begun: &Option<Vec<u8>>) -> Option<usize>
    ensures { result ≡ spec.data_len (vector_text begun.now) }
{
    match begun {
        None => None,
        Some(joined) => Some(joined.len()),
    }
}

/// Joins a segment to the record that is begun, if one is; a record that is whole now joins the
/// others. Gives what is begun after the segment.
fn join(
    alloc: Global,
    records: &mut Vec<Vec<u8>>,
    begun: Option<Vec<u8>>,
    segment: &[u8],
) -> Result<Option<Vec<u8>>, AllocError>
    requires whole { descriptor_len ≤ length segment.now }
    requires short { unwrap_or (spec.data_len (vector_text begun)) 0
        + (length segment.now - descriptor_len) ≤ most_data }
    ensures records { OnOk result (texts records.new.items
        ≡ texts records.old.items ++ spec.completed (vector_text begun) segment.now) }
    ensures begun { IfOk result (λ after.
        vector_text after ≡ spec.begun_after (vector_text begun) segment.now) }
{
    let (_, data) = segment.split_at(DESCRIPTOR_LEN);
    let goes_on = kind_of(segment).goes_on();
    if begun.is_none() && !goes_on {
        // The segment is all of its record: its data are copied once.
        records.push(record_with(alloc, data)?)?;
        return Ok(None);
    }
    let mut joined = begun.unwrap_or(Vec::new(alloc));
    joined.extend_from_slice(data)?;
    if goes_on {
        return Ok(Some(joined));
    }
    records.push(record_with(alloc, &joined)?)?;
    Ok(None)
}

/// The records, and the fault before bytes that continue no record.
fn stopped(
    records: Vec<Vec<u8>>,
    layout: Layout,
    begun: Option<usize>,
    left: Option<usize>,
    rest: &[u8],
) -> Split
    requires { unwrap_or begun 0 ≤ most_data }
    ensures records { result.records ≡ records }
    ensures fault { result.fault ≡ fault_at layout begun left rest.now }
    ensures broken { result.is_broken ≡ is_some (descriptor_fault layout begun left rest.now) }
{
    let broken = descriptor_fault(layout, begun, left, rest);
    Split {
        records,
        fault: broken.or(end_fault(begun, left, rest)),
        is_broken: broken.is_some(),
    }
}

/// Cuts a dump into its records: each is the joined data of its segments, after a descriptor of
/// its own. A dump that stops being lawful gives the records before that, and says why.
pub fn split(alloc: Global, layout: Layout, bytes: &[u8]) -> Result<Split, AllocError>
    // By the public standard: the records of the longest prefix that is whole records, and why
    // there are no more.
    ensures longest { IfOk result (λ s. IsFront layout bytes.now (front_of s)) }
    ensures only { IfOk result (λ s.
        (other : Front) → IsFront layout bytes.now other → other ≡ front_of s) }
    ensures framed { IfOk result (λ s. All IsFramed (texts s.records.items)) }

    // By the definition that callers compute with.
    ensures records { IfOk result (λ s.
        texts s.records.items ≡ (spec.front layout bytes.now).records) }
    ensures fault { IfOk result (λ s. s.fault ≡ (spec.front layout bytes.now).fault) }
    ensures broken { IfOk result (λ s. s.is_broken ≡ (spec.front layout bytes.now).is_broken) }

    // A fault at a descriptor stays, whatever bytes follow.
    ensures lasting { IfOk result (λ s. IsTrue s.is_broken → spec.Lasts layout bytes.now) }
{
    let mut records = Vec::new(alloc);
    let mut begun = None;
    let mut left = None;
    let mut rest = bytes;
    loop {
        match next_of(layout, data_len(&begun), left, rest) {
            Next::Stops => return Ok(stopped(records, layout, data_len(&begun), left, rest)),
            Next::Block(len) => {
                let (_, later) = rest.split_at(DESCRIPTOR_LEN);
                left = left_of_block(len - DESCRIPTOR_LEN);
                rest = later;
            }
            Next::Segment(len) => {
                let (segment, later) = rest.split_at(len);
                begun = join(alloc, &mut records, begun, segment)?;
                left = left_after(left, len);
                rest = later;
            }
        }
    }
}
