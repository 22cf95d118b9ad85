//! One record of each identity, to know a record that comes again.

use std::alloc::Global;
use std::collections::HashMap;
use std::rc::RcSlice;

/// Of each identity the record that came last. Most dumps bring records that came before: one that
/// is found here is known without its name, and so without a digest of its bytes. What is not found
/// here may have come all the same.
#[derive(Drop)]
pub(crate) struct RecordCache {
    by_identity: HashMap<[u8; 32], RcSlice<u8>>,
}

impl RecordCache {
    ghost use Rattle.std.specs.Prelude.{◌≡◌, true};
    ghost use Rattle.std.specs.Rc.{rc_slice_items};
    ghost use Rattle.plain_ledger.specs.Plain.{AllPass};

    /// No record.
    pub(crate) fn new(alloc: Global) -> RecordCache
        ensures { (test : _) → AllPass test result }
    {
        RecordCache {
            by_identity: HashMap::new(alloc),
        }
    }

    /// The record that came last of this identity has these bytes.
    pub(crate) fn has(&self, identity: &[u8; 32], bytes: &[u8]) -> bool
        ensures { result ≡ true → (test : _) → AllPass test self.now → test bytes.now ≡ true }
    {
        match self.by_identity.get(identity) {
            Some(found) => found.as_slice() == bytes,
            None => false,
        }
    }

    /// Recalls a record from now on, in place of another of its identity. Lack of memory costs time
    /// later, and nothing else: a record that is not recalled is found by its name.
    pub(crate) fn remember(&mut self, identity: [u8; 32], bytes: RcSlice<u8>)
        ensures { (test : _) → AllPass test self.old → test (rc_slice_items bytes) ≡ true
            → AllPass test self.new }
    {
        let _cache = self.by_identity.insert(identity, bytes);
    }
}
