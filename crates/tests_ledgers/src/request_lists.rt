//! Requests, one alone and lists of them.

ghost use Rattle.std.specs.Prelude.{All, IfOk};
ghost use Rattle.office.specs.Runs.{IsAskableWithoutReader};

use crate::answers::push_answer;
use crate::asked::{ask_of, asked_by};
use book_core::Ledger;
use office::{Asked, ask_without_reader, run};
use smf_frames::Layout;
use tests_scripts::{AnswerText, Ask, Cases, LineResult, Named, words_of};

/// The request of a line.
fn request_of(named: &Named, layout: Layout, line: &str) -> LineResult<Asked>
    ensures { IfOk result IsAskableWithoutReader }
{
    let words = words_of(named.alloc(), line)?;
    asked_by(named, layout, ask_of(&words))
}

/// Asks the request of a line of books, and adds the answer.
pub(crate) fn push_request<L: Ledger>(
    named: &Named,
    layout: Layout,
    ledger: &mut L,
    ask: Ask<'_>,
    out: &mut AnswerText,
) -> LineResult {
    let asked = asked_by(named, layout, ask)?;
    let answer = ask_without_reader(named.alloc(), ledger, &asked);
    push_answer(out, &answer);
    Ok(())
}

/// The requests of the lines of a body.
fn requests(named: &Named, layout: Layout, body: &str) -> LineResult<Vec<Asked>>
    ensures { IfOk result (λ list. All IsAskableWithoutReader list.items) }
{
    let mut list = Vec::new(named.alloc());
    for line in body.lines() {
        list.push(request_of(named, layout, line)?)?;
    }
    Ok(list)
}

/// Asks the requests of a body of books, and adds the answer to each.
pub(crate) fn push_answers<L: Ledger>(
    named: &Named,
    layout: Layout,
    ledger: &mut L,
    body: &str,
    out: &mut AnswerText,
) -> LineResult {
    let requests = requests(named, layout, body)?;
    for answer in &run(named.alloc(), ledger, &requests)? {
        push_answer(out, answer);
    }
    Ok(())
}

/// Asks the requests of a body of books, all of them that many times in one list. Adds the answers,
/// once where some that follow each other are the same.
pub(crate) fn push_repeated<L: Ledger>(
    named: &Named,
    layout: Layout,
    ledger: &mut L,
    body: &str,
    times: &str,
    out: &mut AnswerText,
) -> LineResult {
    let alloc = named.alloc();
    let mut bodies = String::new(alloc);
    for _ in 0..times.parse::<u16>()? {
        bodies.push_str(body)?;
    }
    let requests = requests(named, layout, bodies.as_str())?;
    let mut cases = Cases::new(out, "COMMANDS");
    for answer in &run(alloc, ledger, &requests)? {
        let mut text = AnswerText::new(alloc);
        push_answer(&mut text, answer);
        cases.take(text);
    }
    cases.say();
    Ok(())
}
