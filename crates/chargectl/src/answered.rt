//! What came of a request to the books.

use office::Answer;
use without_books::{CommandFault, Notice};

/// What came of a request to the books, which are closed again.
#[derive(Drop)]
pub(crate) struct Answered {
    /// What they answered, or why not.
    pub(crate) answer: Result<Answer, CommandFault>,
    /// The log beside the books holds a part of them.
    pub(crate) has_log: bool,
    /// It may have changed the books.
    pub(crate) is_change: bool,
    /// What was noticed of its dump or of its day.
    pub(crate) notice: Option<Notice>,
}
