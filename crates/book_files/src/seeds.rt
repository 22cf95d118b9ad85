//! Numbers that nobody can foresee.

use crate::faults::failed;
use named_books::RepositoryFault;
use std::hash::{BuildHasher, RandomState};
use std::random::RandomSource;

/// A number that nobody can foresee, for the digests of a store.
pub(crate) fn seed_from(source: &impl RandomSource) -> Result<u64, RepositoryFault> {
    match RandomState::new(source) {
        Ok(state) => Ok(state.hash_one(&0u8)),
        Err(error) => Err(failed(&error)),
    }
}
