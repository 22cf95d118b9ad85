/// What became of one request.
#[derive(Clone, Copy, PartialEq, Eq)]
pub enum Served {
    /// The input ended before its first byte.
    Closed,
    /// A read failed: nothing was answered, and nothing was done.
    ReadFault,
    /// A write failed: the writer has a prefix of the answer. What the request did stays done.
    WriteFault,
    /// The books or memory failed in the text of an answer: the writer has a prefix of it.
    Cut,
    /// The answer was written, with this status.
    Answered(u16),
}

/// Why a request is not answered.
#[derive(Clone, Copy)]
pub enum Unanswered {
    /// The input ended before its first byte.
    Closed,
    /// A read failed before the request was whole.
    Failed,
}
