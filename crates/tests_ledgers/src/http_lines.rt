//! The lines of a script that ask by requests over HTTP.

use crate::connection::Connection;
use crate::scripted_request::ScriptedRequest;
use book_core::Ledger;
use tests_scripts::{AnswerText, Ask, LineFault, LineResult, Named};

/// How often a request is sent.
#[derive(Clone, Copy)]
enum Sending<'a> {
    Once,
    EachLength,
    EachRead,
    /// With the count of writes at a place, if one is given.
    EachWrite(Option<&'a str>),
}

/// How often a line sends its request, and the line that gives the request.
fn sending_of<'a>(ask: Ask<'a>) -> LineResult<(Sending<'a>, Ask<'a>)> {
    let (sending, words) = match (ask.verb, ask.words) {
        ("each-length", words) => (Sending::EachLength, words),
        ("each-read", words) => (Sending::EachRead, words),
        ("each-write", [place, words @ ..]) if place.starts_with("at:") => {
            (Sending::EachWrite(place.strip_prefix("at:")), words)
        }
        ("each-write", words) => (Sending::EachWrite(None), words),
        _ => return Ok((Sending::Once, ask)),
    };
    let (verb, words) = words.split_first().ok_or(LineFault::NotUnderstood)?;
    Ok((sending, Ask { verb, words, ..ask }))
}

/// Sets how requests come from here on in the row, or sends one as a line asks it.
pub(crate) fn answer_request<'a, L: Ledger>(
    connection: &mut Connection,
    named: &'a Named,
    ledger: &mut L,
    ask: Ask<'a>,
    out: &mut AnswerText,
) -> LineResult {
    if ask.verb == "connection" {
        *connection = Connection::of(ask.words)?;
        return Ok(());
    }
    let (sending, script_line) = sending_of(ask)?;
    let request = ScriptedRequest {
        named,
        connection: *connection,
        script_line,
    };
    match sending {
        Sending::Once => request.once(ledger, out),
        Sending::EachLength => request.each_length(ledger, out),
        Sending::EachRead => request.each_read(ledger, out),
        Sending::EachWrite(place) => request.each_write(place, ledger, out),
    }
}
