//! Lines asked of books that refuse their calls for lack of memory, one after another.

use crate::asked::ask_of;
use crate::books::answer_once;
use crate::changed_texts::push_changes;
use crate::lines::BookLines;
use crate::refusing_ledger::RefusingLedger;
use book_core::Ledger;
use tests_scripts::{AnswerText, Ask, Cases, LineResult, Named};

/// More calls than any line makes.
const ENOUGH: u32 = 1_000;

/// Asks a line of books that refuse the call after a given number. Answers whether a call was
/// refused.
fn ask_refused<L: Ledger>(
    lines: &mut BookLines,
    named: &Named,
    ledger: &mut L,
    ask: Ask<'_>,
    calls: u32,
    out: &mut AnswerText,
) -> LineResult<bool> {
    let mut books = RefusingLedger::new(ledger, Some(calls));
    answer_once(lines, named, &mut books, ask, out)?;
    Ok(books.has_refused())
}

/// Asks a line of books that refuse the first call of it, then the second, and so on up to the first
/// time that none is refused. Adds each answer, and the texts of the books that changed then.
pub(crate) fn answer_each_call<L: Ledger>(
    lines: &mut BookLines,
    named: &Named,
    ledger: &mut L,
    ask: Ask<'_>,
    out: &mut AnswerText,
) -> LineResult {
    let asked = Ask {
        body: ask.body,
        ..ask_of(ask.words)
    };
    let mut cases = Cases::new(out, "CALLS");
    for calls in 0..ENOUGH {
        let mut text = AnswerText::new(named.alloc());
        let has_refused = ask_refused(lines, named, ledger, asked, calls, &mut text)?;
        let mut books = RefusingLedger::new(ledger, None);
        push_changes(&mut lines.shown_texts, &mut books, &mut text);
        cases.take(text);
        if !has_refused {
            break;
        }
    }
    cases.say();
    Ok(())
}
