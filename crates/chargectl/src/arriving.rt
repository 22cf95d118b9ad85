//! The clients of a port that come while the books are open for another.

ghost use Rattle.std.specs.Prelude.{MatchOption};
ghost use Rattle.book_core.specs.Transition.{IsTransition};
ghost use Rattle.request_bursts.specs.Bursts.{AnswersOne, LooksOnly};

use crate::connection::Client;
use crate::port::Peer;
use crate::waiting::Waiting;
use book_core::Ledger;
use book_http::{Routes, Served};
use request_bursts::{Arrivals, answer_seen};
use std::net::TcpStream;

/// As many of them as are left.
#[derive(Drop)]
pub(crate) struct Arriving<'a> {
    pub(crate) left: u32,
    pub(crate) waiting: Waiting<'a>,
}

impl Arrivals for Arriving<'_> {
    ghost left = { λ arriving. arriving.left };

    /// A client whose request is not there in time comes out unread, and is the next one.
    fn next_open<L: Ledger>(&mut self, routes: &mut Routes, books: &mut L) -> Option<Served> {
        if self.left == 0 {
            return None;
        }
        let Some(seen) = self.waiting.seen_soon() else {
            return None;
        };
        let told = ask_seen(self.waiting.rt, routes, &seen.stream, seen.bytes(), books);
        self.waiting.put_by(seen, told.is_some());
        match told {
            Some(what) => {
                self.left -= 1;
                Some(what)
            }
            None => None,
        }
    }
}

/// Asks open books for a client, by what is seen of it. None: it is not answered so.
fn ask_seen<L: Ledger>(
    rt: &HostRuntime,
    routes: &mut Routes,
    stream: &TcpStream,
    seen: &[u8],
    books: &mut L,
) -> Option<Served>
    ensures { MatchOption result
        (IsTransition (L.seen books.old) (L.seen books.new) LooksOnly)
        (λ what. IsTransition (L.seen books.old) (L.seen books.new)
        (AnswersOne (L.seen books.old).naming what)) }
{
    let patience = Client::patience();
    let Ok(client) = Client::accepted(rt, stream, &patience) else {
        return None;
    };
    client.hurry();
    let (told, _) = answer_seen(routes, seen, client, books);
    told
}
