//! How many connections are due: those that count, and beside them those that are turned away.

ghost use Rattle.std.specs.Prelude.{◌≡◌, ◌+◌, ◌<◌, ◌≤◌, length};
ghost use Rattle.chargectl.specs.ClientRequests.{later_of, told_of};
ghost use Rattle.chargectl.specs.Serving as spec;

use crate::client_requests::Attended;
use crate::serve::told_behind;
use book_http::{Served, Status};

/// How many connections may be turned away without being counted. A service has to end.
const MOST_BESIDE: u32 = 1_000_000_000;

/// How many connections are left that count, and how many that are turned away may come beside them.
#[derive(Clone, Copy)]
pub struct Due {
    pub left: u32,
    pub beside: u32,
}

/// A client was turned away: it asked for another host, or a page elsewhere sent it.
fn is_turned_away(served: Served) -> bool
    ensures { result ≡ spec.is_turned_away served }
{
    match served {
        Served::Answered(status) => status == Status::Forbidden.code(),
        _ => false,
    }
}

impl Due {
    /// Those of a service that is to answer so many requests.
    pub(crate) fn first(requests: u32) -> Due
        ensures { result ≡ spec.first_due requests }
    {
        Due {
            left: requests,
            beside: MOST_BESIDE,
        }
    }

    /// Those after one more connection, of which this became.
    pub(crate) fn after(self, served: Served) -> Due
        requires { 0 < self.left }
        ensures due { result ≡ spec.due_after served self }
        ensures one { (result.left + result.beside) + 1 ≡ self.left + self.beside }
        ensures left { self.left ≤ result.left + 1 }
    {
        if is_turned_away(served) && self.beside > 0 {
            Due {
                left: self.left,
                beside: self.beside.saturating_sub(1),
            }
        } else {
            Due {
                left: self.left.saturating_sub(1),
                beside: self.beside,
            }
        }
    }

    /// Those after a client and those that were answered behind it, by what is told of them.
    pub(crate) fn after_all(self, attended: &Attended) -> Due
        requires { length (later_of attended.now) < self.left }
        ensures due { result ≡ spec.due_from self (told_of attended.now) }
        ensures each { (result.left + result.beside) + length (told_of attended.now)
            ≡ self.left + self.beside }
    {
        let first = self.after(attended.served);
        let later = attended.later.as_slice();
        let mut due = first;
        for what in later {
            due = due.after(told_behind(attended.served, *what));
        }
        due
    }
}
