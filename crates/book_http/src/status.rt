//! The statuses of answers.

ghost use Rattle.std.specs.Prelude.{◌≡◌, ◌≤◌, length};
ghost use Rattle.book_http.specs.Statuses.{status_code, phrase_of};

use http::StatusCode;

/// What became of a request.
#[derive(Clone, Copy)]
pub enum Status {
    /// It was done.
    Done,
    /// It has no proper head, its body is not as long as its head says, or its tariff is refused.
    BadRequest,
    /// It is for another host, or a page in a browser sent it that submits a dump or a tariff.
    Forbidden,
    /// Nothing has that path.
    NotFound,
    /// The path takes another method.
    MethodNotAllowed,
    /// It does not say how long its body is.
    LengthRequired,
    /// Its body is too long.
    TooLarge,
    /// Its dump was imported up to a fault.
    Unprocessable,
    /// Memory, or the books, refused it.
    Unavailable,
}

impl Status {
    /// The code as `http` has it.
    pub(crate) fn in_http(self) -> StatusCode
        ensures { result ≡ status_code self }
    {
        match self {
            Status::Done => StatusCode::OK,
            Status::BadRequest => StatusCode::BAD_REQUEST,
            Status::Forbidden => StatusCode::FORBIDDEN,
            Status::NotFound => StatusCode::NOT_FOUND,
            Status::MethodNotAllowed => StatusCode::METHOD_NOT_ALLOWED,
            Status::LengthRequired => StatusCode::LENGTH_REQUIRED,
            Status::TooLarge => StatusCode::PAYLOAD_TOO_LARGE,
            Status::Unprocessable => StatusCode::UNPROCESSABLE_ENTITY,
            Status::Unavailable => StatusCode::SERVICE_UNAVAILABLE,
        }
    }

    /// The code that an answer shows.
    pub fn code(self) -> u16
        ensures { result ≡ status_code self }
    {
        self.in_http().as_u16()
    }

    /// The phrase after the code.
    #[tactic(auto, unfolding(crate::specs::Statuses::phrase_of))]
    pub(crate) fn phrase(self) -> &'static str
        ensures value { result.now ≡ phrase_of self }
        ensures bound { length result.now ≤ 20 }
    {
        self.in_http().canonical_reason().unwrap_or("")
    }
}
