ghost use Rattle.std.specs.Prelude.{◌≡◌};
ghost use Rattle.smf_frames.specs.Front as spec;

/// What is left of a block, if anything is.
pub fn left_of_block(n: usize) -> Option<usize>
    ensures { result ≡ spec.left_of_block n }
{
    if n == 0 { None } else { Some(n) }
}

/// What is left of a block after a segment of that length.
pub fn left_after(left: Option<usize>, len: usize) -> Option<usize>
    ensures { result ≡ spec.left_after left len }
{
    match left {
        None => None,
        Some(left) => left_of_block(left.saturating_sub(len)),
    }
}
