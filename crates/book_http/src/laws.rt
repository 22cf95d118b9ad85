//! Laws of requests, which follow from the definition of their answers alone. Each belongs to a
//! function that does nothing.

ghost use Rattle.book_http.specs.Laws.{AnswersAreOne, RequestTwiceIsOnce, RequestsAreMended};
ghost use Rattle.book_http.specs.Laws.{RequestsMakeHistory};

/// A request has one answer, and does one thing to the books, unless memory or the books fail.
pub fn answers_are_one()
    ensures { AnswersAreOne }
{}

/// The same request twice in a row leaves the books that one leaves, where neither a lack of memory
/// nor the store hindered the first; also where its answer was lost.
pub fn request_twice_is_once()
    ensures { RequestTwiceIsOnce }
{}

/// From each of the books that a request may have left, whatever hindered it, the same request
/// again leaves the books of one that nothing hindered.
pub fn requests_are_mended()
    ensures { RequestsAreMended }
{}

/// What a request does to the books of a history that calls made is such a history again.
pub fn requests_make_history()
    ensures { RequestsMakeHistory }
{}
