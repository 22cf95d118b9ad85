//! Clients of a script, and what goes over their connections.

ghost use Rattle.std.specs.Prelude.{◌≡◌, ◌<◌, ◌≤◌, ◌+◌, length};

use book_core::Ledger;
use book_http::{Routes, Served};
use chargectl::{Attended, Connections, Peer, answer_peer};
use named_books::Repository;
use request_bursts::{Arrivals, answer_seen};
use std::alloc::Global;
use std::cell::{Cell, RefCell};
use std::io;
use std::io::{Read, Write};
use tests_ledgers::ScriptedClient;
use tests_scripts::{AnswerText, LimitedReader, LimitedWriter};

/// How many reads are made of what a client still sends after its answer.
const DRAINING_READS: u32 = 1_000;

/// A client: what it still sends, what it took of its answer, and whether it was drained.
#[derive(Drop)]
pub(crate) struct Client<'a> {
    /// What is there while the books are open for the one before it.
    soon: &'a [u8],
    reader: RefCell<LimitedReader<'a>>,
    writer: RefCell<LimitedWriter>,
    is_drained: Cell<bool>,
}

impl<'a> Client<'a> {
    /// It has sent nothing yet.
    pub(crate) fn new(alloc: Global, scripted: &'a ScriptedClient) -> Client<'a> {
        let connection = scripted.connection;
        let request = scripted.request.as_slice();
        let soon = request.len().min(connection.soon);
        Client {
            soon: &request[..soon],
            reader: RefCell::new(connection.reader(request)),
            writer: RefCell::new(LimitedWriter::new(alloc, connection.writes)),
            is_drained: Cell::new(false),
        }
    }

    /// Adds the first line that it got, and whether it was drained.
    pub(crate) fn push(&self, out: &mut AnswerText) {
        let Ok(writer) = self.writer.try_borrow() else {
            out.line("IN USE");
            return;
        };
        let text = str::from_utf8(&writer.taken).unwrap_or("NO TEXT");
        out.text(text.lines().next().unwrap_or("NOTHING"));
        out.line(if self.is_drained.get() {
            ", DRAINED"
        } else {
            ""
        });
    }
}

/// The connection of a client.
#[derive(Clone, Copy)]
struct ScriptedPeer<'c, 'a> {
    client: &'c Client<'a>,
    is_drained: bool,
}

impl ScriptedPeer<'_, '_> {
    /// Reads what the client still sends, up to its end or a failure.
    fn read_rest(mut self) {
        let mut piece = [0u8; 64];
        for _ in 0..DRAINING_READS {
            match self.read(&mut piece) {
                Err(_) | Ok(0) => return,
                Ok(_) => (),
            }
        }
    }
}

impl Read for ScriptedPeer<'_, '_> {
    fn read(&mut self, buffer: &mut [u8]) -> io::Result<usize> {
        match self.client.reader.try_borrow_mut() {
            Ok(mut guard) => {
                let reader = &mut *guard;
                reader.read(buffer)
            }
            Err(_) => Err(io::Error::other("it is read already")),
        }
    }
}

impl Write for ScriptedPeer<'_, '_> {
    fn write(&mut self, bytes: &[u8]) -> io::Result<usize> {
        match self.client.writer.try_borrow_mut() {
            Ok(mut guard) => {
                let writer = &mut *guard;
                writer.write(bytes)
            }
            Err(_) => Err(io::Error::other("it is written already")),
        }
    }

    fn flush(&mut self) -> io::Result<()> {
        Ok(())
    }
}

impl Peer for ScriptedPeer<'_, '_> {
    ghost is_drained = { λ peer. peer.is_drained };

    fn hurry(&self) {}

    fn finish(&self) {}

    fn drain(mut self) -> Self {
        self.read_rest();
        self.client.is_drained.set(true);
        self.is_drained = true;
        self
    }
}

/// Clients that may come while the books are open for another, the next one first.
#[derive(Drop)]
struct Soon<'c, 'a> {
    left: &'c [Client<'a>],
}

impl Arrivals for Soon<'_, '_> {
    ghost left = { λ soon. length soon.left.now };

    fn next_open<L: Ledger>(&mut self, routes: &mut Routes, books: &mut L) -> Option<Served> {
        let left = self.left;
        let [client, later @ ..] = left else {
            return None;
        };
        let peer = ScriptedPeer {
            client,
            is_drained: false,
        };
        let (told, peer) = answer_seen(routes, client.soon, peer, books);
        match told {
            Some(what) => {
                self.left = later;
                peer.drain();
                Some(what)
            }
            None => None,
        }
    }
}

/// Clients that are left, the next one first.
#[derive(Drop)]
pub(crate) struct Queue<'c, 'a> {
    pub(crate) left: &'c [Client<'a>],
    pub(crate) routes: Routes,
}

impl<'c, 'a> Queue<'c, 'a> {
    /// Takes the next one.
    fn take(&mut self) -> &'c Client<'a>
        requires { 0 < length self.old.left.now }
        ensures { length self.new.left.now + 1 ≡ length self.old.left.now }
    {
        let left = self.left;
        let [client, later @ ..] = left else {
            unreachable!()
        };
        self.left = later;
        client
    }

    /// Passes over so many, who were answered behind another.
    fn pass(&mut self, count: usize)
        requires { count ≤ length self.old.left.now }
        ensures { length self.new.left.now + count ≡ length self.old.left.now }
    {
        let left = self.left;
        self.left = &left[count..];
    }
}

impl Connections for Queue<'_, '_> {
    ghost use Rattle.std.specs.Prelude.{⊤};

    ghost left = { λ queue. length queue.left.now };

    ghost most = { λ queue. length queue.left.now };

    // Of what becomes of it nothing is known.
    ghost may_come = { λ _ _ _. ⊤ };

    // Each of them comes.
    ghost may_fail = { λ _ _ _. ⊥ };

    fn is_over(&self) -> bool {
        self.left.is_empty()
    }

    fn next<S: Repository>(&mut self, repository: &mut S, book: &str) -> io::Result<Attended> {
        let client = self.take();
        let peer = ScriptedPeer {
            client,
            is_drained: false,
        };
        let soon = Soon { left: self.left };
        let (attended, _, _) = answer_peer(&mut self.routes, None, peer, soon, repository, book);
        self.pass(attended.later.len());
        Ok(attended)
    }
}
