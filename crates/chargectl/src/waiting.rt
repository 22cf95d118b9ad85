//! What is known of the clients of a port, beside their number, and how long open books wait for
//! the next one.

ghost use Rattle.std.specs.Prelude.{◌≤◌, length};

use crate::connection::Client;
use crate::port::Peer;
use std::io::Read;
use std::net::{Shutdown, TcpListener, TcpStream};
use std::os::fd::OwnedFd;
use std::time::{Duration, Instant};
use std::{io, mem, thread};

/// How long open books wait for the next client, and for what it asks, in milliseconds.
const SOON: u64 = 20;

/// How long clients that come close together may have them, in milliseconds.
const LONGEST: u64 = 250;

/// How long they are left alone then, in milliseconds: a command asks for them 20 times a second.
const LEFT_ALONE: u64 = 60;

/// How many bytes of a client are looked at, as many as a head may have.
const SEEN: usize = 16_384;

/// The clients of a port, as far as they have come.
#[derive(Drop)]
pub(crate) struct Waiting<'a> {
    pub(crate) rt: &'a HostRuntime,
    listener: &'a TcpListener,
    /// Another handle of the port, by which a wait for the next client is limited. Where there is
    /// none, open books wait for nobody.
    timer: Option<TcpStream>,
    /// The next client, which has come already.
    next: Option<TcpStream>,
    /// Since when the books were not left alone.
    busy: Option<Instant>,
    /// Those that were answered while the books were open.
    answered: Vec<TcpStream>,
}

impl<'a> Waiting<'a> {
    /// Nobody has come yet.
    pub(crate) fn at(rt: &'a HostRuntime, listener: &'a TcpListener) -> Waiting<'a> {
        let timer = match listener.try_clone() {
            Ok(other) => Some(TcpStream::from(OwnedFd::from(other))),
            Err(_) => None,
        };
        Waiting {
            rt,
            listener,
            timer,
            next: None,
            busy: None,
            answered: Vec::new(rt.alloc()),
        }
    }

    /// All that is known of them, which is to be put back.
    pub(crate) fn taken(&mut self) -> Waiting<'a> {
        let nobody = Waiting {
            rt: self.rt,
            listener: self.listener,
            timer: None,
            next: None,
            busy: None,
            answered: Vec::new(self.rt.alloc()),
        };
        mem::replace(self, nobody)
    }

    /// How long open books may still wait for the next client. None: clients had them long enough.
    fn time_left(&self) -> Option<Duration> {
        let taken = self.busy?.elapsed(self.rt).ok()?;
        let left = Duration::from_millis(LONGEST)
            .saturating_sub(taken)
            .min(Duration::from_millis(SOON));
        if left > Duration::ZERO {
            Some(left)
        } else {
            None
        }
    }

    /// The next client, if it comes in so long.
    fn come_soon(&self, most: Duration) -> Option<TcpStream> {
        let timer = self.timer.as_ref()?;
        timer.set_read_timeout(Some(most)).ok()?;
        let came = self.listener.accept();
        let _ = timer.set_read_timeout(None);
        match came {
            Ok((stream, _)) => Some(stream),
            Err(_) => None,
        }
    }

    /// The next client, if it comes soon, and as much as is seen by then of what it has sent. That
    /// is left unread.
    pub(crate) fn seen_soon(&self) -> Option<Seen> {
        let most = self.time_left()?;
        let stream = self.come_soon(most)?;
        let mut bytes = [0u8; SEEN];
        let count = look(&stream, most, &mut bytes);
        Some(Seen {
            stream,
            bytes,
            count,
        })
    }

    /// Keeps a client that was answered until the books are closed: it is shown that its answer is
    /// whole, and what was seen of it is read. One that was not answered is the next one.
    pub(crate) fn put_by(&mut self, seen: Seen, is_answered: bool) {
        let Seen {
            stream,
            mut bytes,
            count,
            ..
        } = seen;
        if !is_answered {
            self.next = Some(stream);
            return;
        }
        let _ = stream.shutdown(Shutdown::Write);
        let mut reader = &stream;
        let _ = reader.read(&mut bytes[..count]);
        let _ = self.answered.push(stream);
    }

    /// The next client, which may have come already. While it is waited for the books are left
    /// alone.
    pub(crate) fn next_client(&mut self) -> io::Result<TcpStream> {
        if let Some(stream) = self.next.take() {
            return Ok(stream);
        }
        let begun = Instant::now(self.rt)?;
        let (stream, _) = self.listener.accept()?;
        let taken = begun.elapsed(self.rt)?;
        if taken >= Duration::from_millis(LEFT_ALONE) {
            self.busy = None;
        }
        Ok(stream)
    }

    /// From now on the books are not left alone, unless they were not before.
    pub(crate) fn begin(&mut self) {
        if self.busy.is_none() {
            self.busy = Instant::now(self.rt).ok();
        }
    }

    /// Drains those that were answered while the books were open, once they are closed.
    pub(crate) fn drain_answered(&mut self) {
        let answered = mem::replace(&mut self.answered, Vec::new(self.rt.alloc()));
        for stream in answered {
            let patience = Client::patience();
            if let Ok(client) = Client::accepted(self.rt, &stream, &patience) {
                client.drain();
            }
        }
    }

    /// Leaves the books alone for a while, if clients had them long enough.
    pub(crate) fn leave_alone(&mut self) {
        if self.time_left().is_none() {
            thread::sleep(self.rt, Duration::from_millis(LEFT_ALONE));
            self.busy = None;
        }
    }
}

/// A client, and as much as is seen of what it has sent.
#[derive(Drop)]
pub(crate) struct Seen {
    pub(crate) stream: TcpStream,
    bytes: [u8; SEEN],
    count: usize,
    ghost within: { count ≤ 16384 },
}

impl Seen {
    /// What is seen of it.
    pub(crate) fn bytes(&self) -> &[u8] {
        &self.bytes[..self.count]
    }
}

/// How many bytes of a client are seen in so long.
fn look(stream: &TcpStream, most: Duration, room: &mut [u8]) -> usize
    ensures { result ≤ length room.new }
{
    if stream.set_read_timeout(Some(most)).is_err() {
        return 0;
    }
    match stream.peek(room) {
        Ok(count) => count.min(room.len()),
        Err(_) => 0,
    }
}
