//! Laws of the definitions. Each is the contract of a function that does nothing.

ghost use Rattle.smf_frames.specs.Feeding.{FeedIsDetermined};
ghost use Rattle.smf_frames.specs.Front.{FrontIsTheStandards};

/// What splits, joiners and imports call the front of a dump, found step by step, is the one given
/// by the standard's grammar: the records of the longest prefix that is whole records, and the
/// first test that fails after it.
pub fn front_is_the_standards()
    ensures { FrontIsTheStandards }
{}

/// What a joiner promises of its answer to a piece leaves it no choice.
pub fn feed_is_determined()
    ensures { FeedIsDetermined }
{}
