//! How far an audit is, on one line of standard error, where that is a terminal.

use book_audit::{Tree, Watch};
use without_books::ProgressLine;

/// The rows between two looks at the clock.
const ROWS: u64 = 1_024;

/// How far an audit is.
#[derive(Drop)]
pub(crate) struct WatchedRows<'a> {
    line: Option<ProgressLine<'a>>,
}

impl<'a> WatchedRows<'a> {
    /// An audit that begins with the pages of the file; its progress is shown where that is asked
    /// for.
    pub(crate) fn new(rt: &'a HostRuntime, is_shown: bool) -> WatchedRows<'a> {
        if !is_shown {
            return WatchedRows { line: None };
        }
        let mut line = ProgressLine::started(rt);
        if let Some(line) = &mut line {
            line.show("pages");
        }
        WatchedRows { line }
    }

    /// The audit has ended.
    pub(crate) fn clear(&self) {
        if let Some(line) = &self.line {
            line.clear();
        }
    }
}

impl Watch for WatchedRows<'_> {
    fn read(&mut self, tree: Tree, rows: u64) {
        let Some(line) = &mut self.line else {
            return;
        };
        if rows % ROWS == 0 && line.is_due() {
            line.show_rows(tree.name(), rows);
        }
    }
}
