//! How many pages are kept in memory while books are open.

use book_trees::CACHE_PAGES;

/// How many are kept for a visit that looks at few: 256 KB. To fill more takes longer than most reports.
const BRIEF_PAGES: usize = 64;

/// How many are kept of a copy that such a visit changes: 1 MB.
const COPY_PAGES: usize = 256;

/// How many are kept for a visit.
pub(crate) fn pages_for(is_brief: bool) -> usize {
    if is_brief { BRIEF_PAGES } else { CACHE_PAGES }
}

/// How many of a copy are kept for a visit.
pub(crate) fn copy_pages_for(is_brief: bool) -> usize {
    if is_brief { COPY_PAGES } else { CACHE_PAGES }
}
