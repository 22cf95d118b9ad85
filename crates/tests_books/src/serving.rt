//! Books that are served to clients, one after the other, as the program does over HTTP, but that
//! they are opened once for all.

use crate::client::{Client, Queue};
use crate::open_shelf::OpenShelf;
use book_core::Ledger;
use book_http::Routes;
use chargectl::{ServedLines, serve_each};
use std::io;
use std::io::{ErrorKind, Write};
use tests_ledgers::{RefusingLedger, read_clients};
use tests_scripts::{AnswerText, Ask, LineFault, LineResult, Named};

/// Takes bytes as long as there is room, and fails then.
#[derive(Drop)]
struct Output {
    room: usize,
    taken: Vec<u8>,
}

impl Write for Output {
    fn write(&mut self, bytes: &[u8]) -> io::Result<usize> {
        if self.room == 0 {
            return Err(ErrorKind::StorageFull.into());
        }
        let count = bytes.len().min(self.room);
        self.taken.extend_from_slice(&bytes[..count])?;
        self.room -= count;
        Ok(count)
    }

    fn flush(&mut self) -> io::Result<()> {
        Ok(())
    }
}

/// Serves all books, or those that refuse the call after a given number for lack of memory; or writes
/// the lines to an output that takes so many bytes, and fails then.
pub(crate) fn serve<L: Ledger>(
    named: &Named,
    ledger: &mut L,
    ask: Ask<'_>,
    out: &mut AnswerText,
) -> LineResult {
    let (calls, room) = match *ask.words {
        [] => (None, usize::MAX),
        ["refused", calls] => (Some(calls.parse::<u32>()?), usize::MAX),
        ["room", size] => (None, size.parse::<u32>()? as usize),
        _ => return Err(LineFault::NotUnderstood),
    };
    let mut books = RefusingLedger::new(ledger, calls);
    serve_from(named, &mut books, ask.body, room, out)
}

/// Adds the line of each client of a body that is served, how many are left, and what those got that
/// were served.
fn serve_from<L: Ledger>(
    named: &Named,
    ledger: &mut L,
    body: &str,
    room: usize,
    out: &mut AnswerText,
) -> LineResult {
    let scripted = read_clients(named, body)?;
    let mut clients = Vec::new(named.alloc());
    for client in &scripted {
        clients.push(Client::new(named.alloc(), client))?;
    }
    let left = serve_clients(named, &clients, ledger, room, out)?;
    let served = clients.len().saturating_sub(left);
    for (number, client) in clients.iter().enumerate().take(served) {
        out.value("", number.saturating_add(1));
        out.text(" ");
        client.push(out);
    }
    Ok(())
}

/// Serves clients one after the other, and adds their lines, and how many are left, which it
/// answers.
fn serve_clients<L: Ledger>(
    named: &Named,
    clients: &[Client<'_>],
    ledger: &mut L,
    room: usize,
    out: &mut AnswerText,
) -> LineResult<usize> {
    let mut queue = Queue {
        left: clients,
        routes: Routes::new(named.alloc()),
    };
    let mut lines = ServedLines::new(Output {
        room,
        taken: Vec::new(named.alloc()),
    });
    let mut shelf = OpenShelf { ledger };
    let (answered, _) = serve_each(&mut queue, &mut shelf, "books", false, &mut lines);
    answered?;
    let are_lost = lines.has_failed();
    out.bytes(&lines.into_inner().taken);
    let left = queue.left.len();
    out.value("LEFT ", left);
    out.line(if are_lost { ", LINES LOST" } else { "" });
    Ok(left)
}
