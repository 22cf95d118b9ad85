//! A request that a script gives: sent once, cut at each length, or broken at each read.

use crate::connection::Connection;
use crate::exchange::Exchange;
use book_core::Ledger;
use std::alloc::Global;
use tests_scripts::{AnswerText, Ask, Cases, LineFault, LineResult, Named};

/// A request that is given by a verb, the words after it and a body, and its connection.
#[derive(Clone, Copy)]
pub(crate) struct ScriptedRequest<'a> {
    pub(crate) named: &'a Named,
    pub(crate) connection: Connection,
    pub(crate) script_line: Ask<'a>,
}

/// Adds the first line of a request.
fn push_first_line(out: &mut AnswerText, method: &str, path: &str) {
    out.text(method);
    out.text(path);
    out.text(" HTTP/1.1\r\n");
}

/// Adds a request that submits bytes.
fn push_post(out: &mut AnswerText, path: &str, bytes: &[u8]) {
    push_first_line(out, "POST ", path);
    out.value("Content-Length: ", bytes.len());
    out.text("\r\n\r\n");
    out.bytes(bytes);
}

impl ScriptedRequest<'_> {
    pub(crate) fn alloc(self) -> Global {
        self.named.alloc()
    }

    /// Adds the lines of the body, each ended as HTTP ends them.
    fn push_lines(self, out: &mut AnswerText) {
        for line in self.script_line.body.lines() {
            out.text(line);
            out.text("\r\n");
        }
    }

    /// Adds the bytes of the request: `get PATH`, `post PATH PARTS..`, `post-text PATH TEXT..`,
    /// `request PARTS..` with the lines of its head, or `send PARTS..`, which has no more than the
    /// lines and the parts.
    fn push_request(self, out: &mut AnswerText) -> LineResult {
        match (self.script_line.verb, self.script_line.words) {
            ("get", [path]) => {
                push_first_line(out, "GET ", path);
                out.text("\r\n");
            }
            ("post", [path, parts @ ..]) => push_post(out, path, &self.named.read_dump(parts)?),
            ("post-text", [path, names @ ..]) => {
                let text = self.named.read_texts(names, self.script_line.body)?;
                push_post(out, path, text.as_bytes());
            }
            ("request", parts) => {
                self.push_lines(out);
                out.text("\r\n");
                out.bytes(&self.named.read_dump(parts)?);
            }
            ("send", parts) => {
                self.push_lines(out);
                out.bytes(&self.named.read_dump(parts)?);
            }
            _ => return Err(LineFault::NotUnderstood),
        }
        Ok(())
    }

    /// The bytes of the request.
    pub(crate) fn request(self) -> LineResult<Vec<u8>> {
        let mut request = AnswerText::new(self.alloc());
        self.push_request(&mut request)?;
        request.into_whole()
    }

    /// What is shown of a request that comes over a connection.
    pub(crate) fn shown<L: Ledger>(
        self,
        connection: Connection,
        request: &[u8],
        ledger: &mut L,
    ) -> AnswerText {
        let mut text = AnswerText::new(self.alloc());
        Exchange::over(self.alloc(), connection, request, ledger).push(&mut text);
        text
    }

    /// Sends the request.
    pub(crate) fn once<L: Ledger>(self, ledger: &mut L, out: &mut AnswerText) -> LineResult {
        let request = self.request()?;
        Exchange::over(self.alloc(), self.connection, &request, ledger).push(out);
        Ok(())
    }

    /// Sends each prefix of the request that is not all of it.
    pub(crate) fn each_length<L: Ledger>(self, ledger: &mut L, out: &mut AnswerText) -> LineResult {
        let request = self.request()?;
        let mut cases = Cases::new(out, "BYTES");
        for length in 0..request.len() {
            cases.take(self.shown(self.connection, &request[..length], ledger));
        }
        cases.say();
        Ok(())
    }

    /// Sends the request with reads that fail after each count of reads that does not give all of
    /// it.
    pub(crate) fn each_read<L: Ledger>(self, ledger: &mut L, out: &mut AnswerText) -> LineResult {
        let request = self.request()?;
        let mut cases = Cases::new(out, "READS");
        let mut connection = self.connection;
        for (reads, _piece) in (0u32..).zip(request.chunks(connection.reads.size.max(1))) {
            connection.reads.calls = reads;
            cases.take(self.shown(connection, &request, ledger));
        }
        cases.say();
        Ok(())
    }
}
