//! What the lines of a row have set so far.

use crate::changed_texts::ShownTexts;
use crate::connection::Connection;
use crate::dump_reading::Reading;
use crate::text_writing::Writing;
use std::alloc::Global;
use std::collections::BTreeMap;

/// How dumps are read, texts are written and requests come from here on in a row, and which texts of
/// its books were shown.
#[derive(Drop)]
pub struct BookLines {
    pub(crate) reading: Reading,
    pub(crate) writing: Writing,
    pub(crate) connection: Connection,
    pub(crate) shown_texts: ShownTexts,
}

impl BookLines {
    /// As at the beginning of a row: dumps are read whole, texts are written whole, connections are
    /// whole, and no text was shown.
    pub fn new(alloc: Global) -> BookLines {
        BookLines {
            reading: Reading::plain(),
            writing: Writing::Whole,
            connection: Connection::whole(),
            shown_texts: BTreeMap::new(alloc),
        }
    }
}
