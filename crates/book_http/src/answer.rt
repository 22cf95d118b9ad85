use crate::method::Method;
use crate::status::Status;
use book_import::Receipt;
use report_rows::BodyKind;

/// What a request is answered.
#[derive(Drop)]
pub enum Answer {
    /// A text that the books answered.
    Report(BodyKind, Vec<u8>),
    /// What became of an import.
    Receipt(Receipt),
    /// A refusal.
    Refusal(Status),
    /// A refusal, since the path has another method, which is this one.
    OtherMethod(Method),
    /// A refusal, since others have the books in use: the client may soon ask again.
    Busy,
}
