//! Clients in memory: it is known what each sends.

use book_http::Routes;
use chargectl::{Attended, Connections, Peer, answer_peer};
use named_books::Repository;
use request_bursts::Nobody;
use std::io;
use std::io::{Read, Write};

/// One of them: what it still sends. What is written to it goes nowhere.
#[derive(Clone, Copy)]
struct MemoryClient<'a> {
    rest: &'a [u8],
    is_drained: bool,
}

impl Read for MemoryClient<'_> {
    ghost use Rattle.std.specs.Prelude.{Some};

    ghost remaining = { λ client. Some client.rest.now };

    fn read(&mut self, buffer: &mut [u8]) -> io::Result<usize> {
        self.rest.read(buffer)
    }
}

impl Write for MemoryClient<'_> {
    fn write(&mut self, bytes: &[u8]) -> io::Result<usize> {
        Ok(bytes.len())
    }

    fn flush(&mut self) -> io::Result<()> {
        Ok(())
    }
}

impl Peer for MemoryClient<'_> {
    ghost is_drained = { λ client. client.is_drained };

    fn hurry(&self) {}

    fn finish(&self) {}

    fn drain(mut self) -> Self {
        self.is_drained = true;
        self
    }
}

/// Clients that each send the same bytes, one after the other.
#[derive(Drop)]
pub struct MemoryClients<'a> {
    pub bytes: &'a [u8],
    /// How many of them are to be answered. Each is read once the books are closed that were open for
    /// the one before it.
    pub left: u32,
    /// One router for all that they ask.
    pub routes: Routes,
}

impl Connections for MemoryClients<'_> {
    ghost use Rattle.std.specs.Prelude.{◌≡◌, Some};

    ghost left = { λ clients. clients.left };

    ghost most = { λ clients. clients.left };

    ghost sent = { λ clients. Some clients.bytes.now };

    // Whatever became of it, those after it send the same.
    ghost may_come = { λ before _ after. after.bytes.now ≡ before.bytes.now };

    // Each of them comes.
    ghost may_fail = { λ _ _ _. ⊥ };

    fn is_over(&self) -> bool {
        self.left == 0
    }

    fn next<S: Repository>(&mut self, repository: &mut S, book: &str) -> io::Result<Attended> {
        self.left -= 1;
        let client = MemoryClient {
            rest: self.bytes,
            is_drained: false,
        };
        let (attended, _, _) = answer_peer(
            &mut self.routes,
            None,
            client,
            Nobody,
            repository,
            book,
        );
        Ok(attended)
    }
}
