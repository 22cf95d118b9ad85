//! A request and what became of it.

use crate::connection::Connection;
use book_core::{Ledger, Sink, Source};
use book_http::{Served, serve_one};
use std::alloc::Global;
use tests_scripts::{AnswerText, LimitedWriter};

/// What became of a request.
#[derive(Drop)]
pub(crate) struct Exchange {
    pub(crate) served: Served,
    /// What took the answer.
    pub(crate) writer: LimitedWriter,
}

/// Adds a byte as it is shown: a line's end and what prints as itself as they are, a carriage
/// return as `\r`, a backslash as two, every other as `\x` and two digits.
fn push_byte(out: &mut AnswerText, byte: u8) {
    match byte {
        b'\r' => out.text("\\r"),
        b'\\' => out.text("\\\\"),
        b'\n' | b' '..=b'~' => out.bytes(&[byte]),
        _ => out.digits("\\x", &[byte]),
    }
}

/// Adds bytes as they are shown. A backslash is at the end where no line's end is.
fn push_bytes(out: &mut AnswerText, bytes: &[u8]) {
    for byte in bytes {
        push_byte(out, *byte);
    }
    if !matches!(bytes.last(), None | Some(b'\n')) {
        out.line("\\");
    }
}

/// Adds what was served.
pub(crate) fn push_served(out: &mut AnswerText, served: Served) {
    match served {
        Served::Closed => out.line("CLOSED"),
        Served::ReadFault => out.line("READ"),
        Served::WriteFault => out.line("WRITE"),
        Served::Cut => out.line("CUT"),
        Served::Answered(status) => out.value_line("SERVED ", status),
    }
}

impl Exchange {
    /// Serves a request that comes over a connection.
    pub(crate) fn over<L: Ledger>(
        alloc: Global,
        connection: Connection,
        request: &[u8],
        ledger: &mut L,
    ) -> Exchange {
        let mut source = Source::new(connection.reader(request));
        let mut sink = Sink::new(LimitedWriter::new(alloc, connection.writes));
        let served = serve_one(alloc, &mut source, &mut sink, ledger, None);
        Exchange {
            served,
            writer: sink.into_inner(),
        }
    }

    /// Adds what was taken, what was served, and, where a write failed, how often it was asked.
    pub(crate) fn push(&self, out: &mut AnswerText) {
        push_bytes(out, &self.writer.taken);
        push_served(out, self.served);
        if self.served == Served::WriteFault {
            out.value_line("ASKED ", self.writer.asked);
        }
    }
}
