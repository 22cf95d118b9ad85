//! The law of audits. It is the contract of a function that does nothing.

ghost use Rattle.book_sessions.specs.Audits.{SoundAreOurs};

/// Files of which an audit says that they are sound, whoever wrote them, hold such books as a
/// ledger leaves: what is said of each later session on those is said of these.
pub fn sound_are_ours()
    ensures { SoundAreOurs }
{}
