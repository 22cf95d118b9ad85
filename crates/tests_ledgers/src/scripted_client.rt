//! Clients that a script gives, a line each.

use crate::asked::ask_of;
use crate::connection::Connection;
use crate::scripted_request::ScriptedRequest;
use tests_scripts::{LineResult, Named, words_of};

/// A client: the request that it sends, and its connection.
#[derive(Drop)]
pub struct ScriptedClient {
    pub request: Vec<u8>,
    pub connection: Connection,
}

/// The bytes of the request that words give.
fn request_of(named: &Named, connection: Connection, words: &[&str]) -> LineResult<Vec<u8>> {
    let script_line = ask_of(words);
    ScriptedRequest {
        named,
        connection,
        script_line,
    }
    .request()
}

/// The clients of a body, a line each, which gives its request. A line `connection ..` between them
/// sets how those after it connect.
pub fn read_clients(named: &Named, body: &str) -> LineResult<Vec<ScriptedClient>> {
    let alloc = named.alloc();
    let mut connection = Connection::whole();
    let mut clients = Vec::new(alloc);
    for line in body.lines() {
        let words = words_of(alloc, line)?;
        if let ["connection", limits @ ..] = words.as_slice() {
            connection = Connection::of(limits)?;
        } else {
            let request = request_of(named, connection, &words)?;
            clients.push(ScriptedClient {
                request,
                connection,
            })?;
        }
    }
    Ok(clients)
}
