//! The bytes that an import has read.

ghost use Rattle.std.specs.Prelude.{◌≡◌, ◌+◌, ◌<◌, ◌≤◌, ◌^◌, ◌++◌, [], List, OnOk, length, ℕ};
ghost use Rattle.book_import.specs.EntryWork.{AreRead};

use sha2::{Digest, Sha256};
use std::alloc::AllocError;

/// The SHA-256 and the number of the bytes that an import has read.
#[derive(Drop)]
pub(crate) struct ReadBytes {
    hasher: Sha256,
    pub(crate) digest: [u8; 32],
    pub(crate) length: u64,
}

impl ReadBytes {
    /// None yet.
    pub(crate) fn new() -> ReadBytes
        ensures none { AreRead [] result }
        ensures length { result.length ≡ 0 }
    {
        ReadBytes {
            hasher: Sha256::new(),
            digest: Sha256::new().finalize(),
            length: 0,
        }
    }

    /// Some more. The digest is that of all of them, by now: those that follow go on with the
    /// hasher.
    pub(crate) fn add(&mut self, piece: &[u8]) -> Result<(), AllocError>
        requires { self.old.length + length piece.now < 2 ^ 63 }
        ensures more { OnOk result ((bytes : List ℕ) → AreRead bytes self.old
            → AreRead (bytes ++ piece.now) self.new) }
        ensures longer { self.new.length ≤ self.old.length + length piece.now }
    {
        self.hasher.update(piece);
        let copy = self.hasher.clone()?;
        self.digest = copy.finalize();
        self.length += piece.len() as u64;
        Ok(())
    }
}
