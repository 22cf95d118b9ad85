//! The faults of a dump by their numbers, and what is said of each.

ghost use Rattle.std.specs.Prelude.{◌≡◌, Some};
ghost use Rattle.smf_frames.specs.Faults.{frame_number};
ghost use Rattle.program_output.specs.Explanations.{Explains, HasFaultNumber, texts_of};
ghost use Rattle.program_output.specs.Meanings as spec;

use crate::explanations::{Explanation, FaultKind};
use smf_frames::FrameFault;

/// The fault of a dump that has a number.
fn of_number(number: u16) -> Option<FrameFault>
    ensures { HasFaultNumber frame_number number result }
{
    match number {
        1 => Some(FrameFault::SegmentLength),
        2 => Some(FrameFault::BlockLength),
        3 => Some(FrameFault::ExtendedBlock),
        4 => Some(FrameFault::SegmentCrossesBlock),
        5 => Some(FrameFault::OrphanSegment),
        6 => Some(FrameFault::MissingLast),
        7 => Some(FrameFault::RecordTooLong),
        8 => Some(FrameFault::Truncated),
        _ => None,
    }
}

const SEGMENT_LENGTH: Explanation = Explanation {
    meaning: "A segment's descriptor gives a length below 4 bytes: what was taken for a segment is \
         not one.",
    advice: "Is it the right layout (--layout)? If so, the dump is damaged there; records before \
         it were read.",
};

const BLOCK_LENGTH: Explanation = Explanation {
    meaning: "A block's descriptor gives a length below 4 bytes: what was taken for a block is not \
         one.",
    advice: "Read the dump with --layout rdw if it has no blocks; if it has, it is damaged there.",
};

const EXTENDED_BLOCK: Explanation = Explanation {
    meaning: "A block has an extended descriptor, which is not read.",
    advice: "Copy the dump with blocks of at most 32,767 bytes, or without blocks.",
};

const SEGMENT_CROSSES_BLOCK: Explanation = Explanation {
    meaning: "A segment is longer than what is left of its block.",
    advice: "Read the dump with --layout rdw if it has no blocks; if it has, it is damaged there.",
};

const ORPHAN_SEGMENT: Explanation = Explanation {
    meaning: "A segment continues a record that no segment began.",
    advice: "The dump begins inside a record or lost a part: copy it again from its source.",
};

const MISSING_LAST: Explanation = Explanation {
    meaning: "A record was begun and not finished: another begins, or the dump ends.",
    advice: "A part of the dump is missing: copy it again; records already held are not counted \
         twice.",
};

const RECORD_TOO_LONG: Explanation = Explanation {
    meaning: "The segments of one record have more than 65,531 bytes of data.",
    advice: "No record can be that long: the dump is damaged there, or it is not a dump of SMF \
         records.",
};

const TRUNCATED: Explanation = Explanation {
    meaning: "The dump ends inside a descriptor, a segment or a block.",
    advice: "It was cut off: copy it again; records already held are not counted twice.",
};

/// What a fault of a dump means, and what to do about it.
#[tactic(auto, unfolding(crate::specs::Meanings::frame_texts))]
fn explanation_of(fault: FrameFault) -> Explanation
    ensures { texts_of (frame_number fault) spec.frame_texts
        ≡ Some (result.meaning.now, result.advice.now) }
{
    match fault {
        FrameFault::SegmentLength => SEGMENT_LENGTH,
        FrameFault::BlockLength => BLOCK_LENGTH,
        FrameFault::ExtendedBlock => EXTENDED_BLOCK,
        FrameFault::SegmentCrossesBlock => SEGMENT_CROSSES_BLOCK,
        FrameFault::OrphanSegment => ORPHAN_SEGMENT,
        FrameFault::MissingLast => MISSING_LAST,
        FrameFault::RecordTooLong => RECORD_TOO_LONG,
        FrameFault::Truncated => TRUNCATED,
    }
}

/// What the fault of a dump with a number means, and what to do about it.
pub(crate) fn explained(number: u16) -> Option<Explanation>
    ensures { Explains FaultKind.Frame number result }
{
    let fault = of_number(number)?;
    Some(explanation_of(fault))
}
