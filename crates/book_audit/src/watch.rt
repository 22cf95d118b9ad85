//! How far an audit is.

use crate::finding::Tree;

/// Receives, over and over, how far an audit is.
pub trait Watch {
    /// This many rows of a tree were read so far. It is told before the next one is looked for,
    /// from 0 on.
    fn read(&mut self, tree: Tree, rows: u64);
}
