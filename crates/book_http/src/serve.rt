//! One request, from the bytes of a reader to the bytes of a writer.

ghost use Rattle.std.specs.Prelude.{◌≡◌, ◌+◌, ◌≤◌, ◌^◌, false, true};
ghost use Rattle.streams.specs.AnswerFlags.{NothingUnread};
ghost use Rattle.streams.specs.InputOutput.{output};
ghost use Rattle.streams.specs.Sinks as sinks;
ghost use Rattle.streams.specs.Sources.{reader_of, reads_of, has_failed, has_ended};
ghost use Rattle.book_core.specs.Ledgers.{books};
ghost use Rattle.book_http.specs.Bodies.{most_body_bytes};
ghost use Rattle.book_http.specs.Head.{most_head_bytes};
ghost use Rattle.book_http.specs.Reads.{ReadsRequest};
ghost use Rattle.book_http.specs.Served.{IsServed, ServesAsked};
ghost use Rattle.book_http.specs.Served.{is_read_fault, is_unanswered, is_write_fault};

use crate::asked::Asked;
use crate::office_answers::ask_office;
use crate::requested::read_request;
use crate::routes::Routes;
use crate::sending::{send, send_details};
use crate::served::{Served, Unanswered};
use book_core::{Ledger, Note, Sink, Source};
use std::alloc::Global;
use streams::{Reader, Writer};

/// Serves what a request asks that was read whole; an import has the note. Long details are sent
/// while they are read.
fn serve_asked<L: Ledger, W: Writer + Drop>(
    alloc: Global,
    ledger: &mut L,
    asked: Asked<Vec<u8>>,
    note: Option<Note>,
    sink: &mut Sink<W>,
) -> Served
    requires { sinks.has_failed sink.old ≡ false }
    ensures served { ServesAsked (books L.seen ledger.old ledger.new) asked
        (output W.contents sink.old sink.new) result }
    ensures failed { sinks.has_failed sink.new ≡ is_write_fault result }
    ensures answered { is_unanswered result ≡ false }
{
    match ask_office(alloc, ledger, asked, note) {
        Ok(answer) => send(sink, &answer),
        Err(long) => send_details(alloc, ledger, long.0, long.1, sink),
    }
}

/// Serves one request: reads it, does what it asks of the books, and writes the answer. Bytes after
/// the request are not looked at. What a request did stays done where its answer can't be written.
/// Details are read twice: to announce how many bytes their text has, and to gather or to send it.
/// An import has the note.
pub fn serve_one<R: Reader + Drop, W: Writer + Drop, L: Ledger>(
    alloc: Global,
    source: &mut Source<R>,
    sink: &mut Sink<W>,
    ledger: &mut L,
    note: Option<Note>,
) -> Served
    requires asked { reads_of source.old ≤ 2 ^ 62 }
    requires failed { has_failed source.old ≡ false }
    requires ended { has_ended source.old ≡ false }
    requires open { sinks.has_failed sink.old ≡ false }

    // The books did what the request asks, and the writer has the answer, or a prefix of it: by the
    // bytes that the reads gave, whatever may follow them; of details, which are read twice, where
    // the books' storage is honest. Each read was due: while there was no head, or for the rest of
    // the body of an import or a tariff that is served. Where the source has ended, these are all
    // the bytes of a reader whose bytes are known.
    ensures served { ReadsRequest R.remaining R.may_answer source.old source.new
        (λ ended taken. IsServed (books L.seen ledger.old ledger.new) taken ended
        (output W.contents sink.old sink.new) result) }
    ensures asked { reads_of source.new
        ≤ reads_of source.old + most_head_bytes + most_body_bytes }
    ensures left { NothingUnread
        (has_ended source.new) (R.remaining (reader_of source.new)) }

    // Where nothing is answered, nothing is done.
    ensures books { is_unanswered result ≡ true → ledger.new ≡ ledger.old }
    ensures unwritten { is_unanswered result ≡ true → sink.new ≡ sink.old }
    ensures read { has_failed source.new ≡ is_read_fault result }
    ensures written { sinks.has_failed sink.new ≡ is_write_fault result }
{
    let mut routes = Routes::new(alloc);
    match read_request(&mut routes, source) {
        Ok(request) => serve_asked(alloc, ledger, request, note, sink),
        Err(Unanswered::Closed) => Served::Closed,
        Err(Unanswered::Failed) => Served::ReadFault,
    }
}
