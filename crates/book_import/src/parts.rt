//! The parts of some bytes, one after another.

ghost use Rattle.std.specs.Prelude.{◌≡◌, drop, take};

/// The first of some bytes, at most so many, and what comes after them.
#[tactic(auto, using(std::proofs::lemmas::List::take_min, std::proofs::lemmas::List::drop_min))]
pub(crate) fn next_part(bytes: &[u8], most: usize) -> (&[u8], &[u8])
    ensures first { result.0.now ≡ take most bytes.now }
    ensures later { result.1.now ≡ drop most bytes.now }
{
    bytes.split_at(most.min(bytes.len()))
}
