//! The newest entry of the journal.

ghost use Rattle.std.specs.Prelude.{◌<◌, ◌^◌};

use tree_tables::StoredEntry;

/// The newest entry of the journal, if there is one, and its number, which is 0 where there is none.
#[derive(Drop)]
pub(crate) struct Newest {
    pub(crate) number: u64,
    pub(crate) entry: Option<StoredEntry>,
    ghost small: { number < 2 ^ 63 },
}
