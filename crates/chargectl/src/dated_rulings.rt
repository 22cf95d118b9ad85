//! Rulings of a day, as one change of the books: what these answered, and whether the day is far after
//! what they held.

ghost use Rattle.std.specs.Prelude.{◌≡◌, [], Some};
ghost use Rattle.book_core.specs.Transition.{IsTransition};
ghost use Rattle.office.specs.Requests.{IsAskableRuling};
ghost use Rattle.office.proofs.AskLemmas.{ruling_once};
ghost use Rattle.chargectl.specs.Commands as spec;
ghost use Rattle.chargectl.specs.Commands.{AsksDatedBy, IsAnswered, IsDated, answer_of, answer_told};
ghost use Rattle.chargectl.specs.Commands.{dated_answered, notice_of};

use crate::answered::Answered;
use crate::book_commands::{answer_in, ask_with, may_change};
use crate::far::{is_far_asked, notice_by};
use book_core::{Ledger, LedgerFault};
use named_books::{Opened, Repository, RepositoryFault, Visit};
use office::{Answer, Asked};
use std::alloc::Global;
use std::io;
use without_books::{CommandFault, Inputs, Notice};

/// What the books answered to a ruling, and what was noticed of its day.
#[derive(Drop)]
pub(crate) struct DatedAnswer {
    pub(crate) answer: Result<Answer, LedgerFault>,
    pub(crate) notice: Option<Notice>,
}

/// A ruling of a day.
#[derive(Drop)]
struct DatedRuling {
    alloc: Global,
    today: Option<i32>,
    asked: Asked,
    ghost askable: { IsAskableRuling asked } by { Prim.hlevel ruling_once },
}

impl Visit for DatedRuling {
    /// What the books answered, and what was noticed.
    type Answer = DatedAnswer;

    ghost work = { λ naming ruling _ dated.
        AsksDatedBy naming ruling.today ruling.asked dated };

    ghost comes = { λ _ _ _. Unit {0} };

    ghost answered = { λ naming ruling _ dated.
        dated_answered naming ruling.today ruling.asked dated };

    fn visit<L: Ledger>(&mut self, books: &mut L) -> DatedAnswer {
        ask_dated(self.alloc, self.today, books, &self.asked)
    }
}

/// Asks for a ruling of a day. Without memory, or where the store fails, as the newest day is looked
/// for, the ruling is not asked for, and that is the answer.
#[tactic(auto, using(crate::proofs::FarLemmas::ruling_unread))]
fn ask_dated<L: Ledger>(
    alloc: Global,
    today: Option<i32>,
    books: &mut L,
    asked: &Asked,
) -> DatedAnswer
    requires { IsAskableRuling asked.now }
    ensures { IsTransition (L.seen books.old) (L.seen books.new)
        (spec.AsksDatedBy (L.seen books.old).naming today asked.now result) }
{
    match is_far_asked(alloc, today, books, asked) {
        Ok(is_far) => {
            let answer = ask_with(alloc, books, asked, io::empty());
            let notice = notice_by(is_far, &answer);
            DatedAnswer { answer, notice }
        }
        Err(fault) => DatedAnswer {
            answer: Err(fault),
            notice: None,
        },
    }
}

/// What came of a ruling of a day.
pub(crate) fn told_in(
    told: Result<DatedAnswer, RepositoryFault>,
) -> (Result<Answer, CommandFault>, Option<Notice>)
    ensures { result ≡ (answer_of (answer_told told), notice_of told) }
{
    match told {
        Ok(DatedAnswer { answer, notice }) => (answer_in(Ok(answer)), notice),
        Err(fault) => (answer_in(Err(fault)), None),
    }
}

/// Asks the books of a name for a ruling of a day.
pub(crate) fn rule_on_day<S: Repository, F: Inputs>(
    alloc: Global,
    repository: &mut S,
    inputs: &F,
    book: &str,
    asked: Asked,
) -> Answered
    requires { IsAskableRuling asked }
    ensures answered { IsAnswered asked (Some []) book.now
        (S.shelf repository.old) (S.shelf repository.new) result }
    ensures dated { IsDated (F.held inputs.now).today asked book.now (S.shelf repository.old)
        (S.shelf repository.new) result }
{
    let is_change = may_change(&asked);
    let today = inputs.today();
    let mut ruling = DatedRuling {
        alloc,
        today,
        asked,
    };
    let Opened { answer, has_log } = repository.open(book, &mut ruling);
    let (answer, notice) = told_in(answer);
    Answered {
        answer,
        has_log,
        is_change,
        notice,
    }
}
