//! Connections that give a request in pieces or not all of it, take an answer in parts, or break.

use tests_scripts::{LimitedReader, Limits, LineFault, LineResult};

/// How the bytes of a request come, and how those of its answer are taken.
#[derive(Clone, Copy)]
pub struct Connection {
    /// How many bytes of a request come at most, before no more is sent.
    pub(crate) sends: usize,
    /// How many of them are there while the books are open for the client before it.
    pub soon: usize,
    pub(crate) reads: Limits,
    pub writes: Limits,
}

impl Connection {
    /// Everything comes in one read, everything is taken in one write, and nothing fails.
    pub(crate) fn whole() -> Connection {
        Connection {
            sends: usize::MAX,
            soon: 0,
            reads: Limits::none(),
            writes: Limits::none(),
        }
    }

    /// The connection that words describe: `sends:SIZE`, `soon:SIZE`, `pieces:SIZE`, `reads:COUNT`,
    /// `takes:SIZE`, `writes:COUNT`.
    pub(crate) fn of(words: &[&str]) -> LineResult<Connection> {
        let mut connection = Connection::whole();
        for word in words {
            let (key, value) = word.split_once(':').ok_or(LineFault::NotUnderstood)?;
            let number = value.parse::<u32>()?;
            match key {
                "sends" => connection.sends = number as usize,
                "soon" => connection.soon = number as usize,
                "pieces" => connection.reads.size = number as usize,
                "reads" => connection.reads.calls = number,
                "takes" => connection.writes.size = number as usize,
                "writes" => connection.writes.calls = number,
                _ => return Err(LineFault::NotUnderstood),
            }
        }
        Ok(connection)
    }

    /// Gives what comes of a request.
    pub fn reader(self, request: &[u8]) -> LimitedReader<'_> {
        let count = request.len().min(self.sends);
        LimitedReader::new(&request[..count], self.reads, false)
    }
}
