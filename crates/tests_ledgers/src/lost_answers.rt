//! A request whose answer is lost at each write, and that is sent again.

use crate::connection::Connection;
use crate::exchange::{Exchange, push_served};
use crate::scripted_request::ScriptedRequest;
use book_core::Ledger;
use book_http::Served;
use tests_scripts::{AnswerText, Ask, Cases, LineResult};

/// The most writes that an answer takes.
const MOST_WRITES: u32 = 10_000;

impl ScriptedRequest<'_> {
    /// The request, with the count of writes at a place in its dump, in two bytes, if a place is
    /// given: each count then has a request of its own.
    fn counted(self, place: Option<&str>, writes: u32) -> LineResult<Vec<u8>> {
        let Some(place) = place else {
            return self.request();
        };
        let part = format!(in self.alloc(); "{place}:{writes:04X}")?;
        let mut words = Vec::from_slice(self.alloc(), self.script_line.words)?;
        words.push(part.as_str())?;
        let script_line = Ask {
            words: words.as_slice(),
            ..self.script_line
        };
        ScriptedRequest {
            script_line,
            ..self
        }
        .request()
    }

    /// A write failed after this many, one more was asked for, and what was taken is a prefix of
    /// the answer: no more than these writes take, and what one fewer took, with more after it.
    fn is_prefix(self, before: &[u8], lost: &Exchange, writes: u32) -> bool {
        let taken = lost.writer.taken.as_slice();
        let most = self.connection.writes.size.saturating_mul(writes as usize);
        lost.served == Served::WriteFault
            && lost.writer.asked == writes.saturating_add(1)
            && taken.len() <= most
            && taken.starts_with(before)
            && (writes == 0 || taken.len() > before.len())
    }

    /// Adds what was taken: of a prefix of the answer, only that it is one.
    fn push_taken(self, before: &[u8], lost: &Exchange, writes: u32, out: &mut AnswerText) {
        if self.is_prefix(before, lost, writes) {
            out.line("A FRONT, AND ASKED ONCE MORE");
            push_served(out, lost.served);
            return;
        }
        lost.push(out);
        if !lost.writer.taken.starts_with(before) {
            out.line("ANOTHER ANSWER");
        }
    }

    /// Sends requests whose writes fail after each count, up to the first whose answer was written,
    /// and each of them again.
    pub(crate) fn each_write<L: Ledger>(
        self,
        place: Option<&str>,
        ledger: &mut L,
        out: &mut AnswerText,
    ) -> LineResult {
        let alloc = self.alloc();
        let mut cases = Cases::new(out, "WRITES");
        let mut before = Vec::new(alloc);
        let mut connection = self.connection;
        for writes in 0..MOST_WRITES {
            let request = self.counted(place, writes)?;
            connection.writes.calls = writes;
            let lost = Exchange::over(alloc, connection, &request, ledger);
            let mut text = AnswerText::new(alloc);
            self.push_taken(&before, &lost, writes, &mut text);
            text.line("AGAIN");
            text.add(&self.shown(Connection::whole(), &request, ledger));
            cases.take(text);
            if lost.served != Served::WriteFault {
                break;
            }
            before = lost.writer.taken;
        }
        cases.say();
        Ok(())
    }
}
