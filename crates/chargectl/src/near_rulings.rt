//! Rulings that are made only where their day is near. It is looked at in the visit in which the ruling
//! is asked for, so nothing comes between the two.

ghost use Rattle.std.specs.Prelude.{◌≡◌};
ghost use Rattle.book_core.specs.Transition.{IsTransition};
ghost use Rattle.office.specs.Requests.{IsAskableRuling};
ghost use Rattle.office.proofs.AskLemmas.{ruling_once};
ghost use Rattle.chargectl.specs.NearRulings.{AsksIfNear, AsksNear, ComesNear, IsAskedNear};
ghost use Rattle.chargectl.specs.NearRulings.{near_answer_of, near_answered};

use crate::answered::Answered;
use crate::asked_rulings::asked_ruling;
use crate::book_commands::{answer_in, ask_with};
use crate::far::is_far_asked;
use book_core::{Ledger, LedgerFault, Note};
use command_line::{BookRequest, Ruling};
use named_books::{Opened, Repository, RepositoryFault, Visit};
use office::{Answer, Asked};
use std::alloc::Global;
use std::io;
use without_books::{CommandFault, Inputs};

/// What came of a ruling whose day had to be near.
#[derive(Drop)]
pub(crate) enum NearAnswer {
    /// It was asked for, and this was answered.
    Told(Result<Answer, LedgerFault>),
    /// Its day is far, and it was not asked for.
    Far,
}

/// A ruling whose day has to be near.
#[derive(Drop)]
struct NearRuling {
    alloc: Global,
    today: Option<i32>,
    asked: Asked,
    ghost askable: { IsAskableRuling asked } by { Prim.hlevel ruling_once },
}

impl Visit for NearRuling {
    /// What came of it.
    type Answer = NearAnswer;

    ghost work = { λ naming ruling _ near. AsksNear naming ruling.today ruling.asked near };

    ghost comes = { λ _ _ _. Unit {0} };

    ghost answered = { λ naming ruling _ near.
        near_answered naming ruling.today ruling.asked near };

    fn visit<L: Ledger>(&mut self, books: &mut L) -> NearAnswer {
        ask_near(self.alloc, self.today, books, &self.asked)
    }
}

/// Asks for a ruling, unless its day is far.
#[tactic(auto, using(crate::proofs::FarLemmas::ruling_unread))]
fn ask_if_near<L: Ledger>(alloc: Global, books: &mut L, asked: &Asked, is_far: bool) -> NearAnswer
    requires { IsAskableRuling asked.now }
    ensures { IsTransition (L.seen books.old) (L.seen books.new)
        (AsksIfNear (L.seen books.old).naming asked.now is_far result) }
{
    if is_far {
        return NearAnswer::Far;
    }
    NearAnswer::Told(ask_with(alloc, books, asked, io::empty()))
}

/// Looks at the day of a ruling, and asks for the ruling if the day is not far. Without memory, or
/// where the store fails, as it is looked at, that is the answer.
fn ask_near<L: Ledger>(
    alloc: Global,
    today: Option<i32>,
    books: &mut L,
    asked: &Asked,
) -> NearAnswer
    requires { IsAskableRuling asked.now }
    ensures { IsTransition (L.seen books.old) (L.seen books.new)
        (AsksNear (L.seen books.old).naming today asked.now result) }
{
    match is_far_asked(alloc, today, books, asked) {
        Ok(is_far) => ask_if_near(alloc, books, asked, is_far),
        Err(fault) => NearAnswer::Told(Err(fault)),
    }
}

/// What came of such a ruling, or why the books were not opened.
fn near_answer(told: Result<NearAnswer, RepositoryFault>) -> Result<Answer, CommandFault>
    ensures { result ≡ near_answer_of told }
{
    match told {
        Ok(NearAnswer::Told(told)) => answer_in(Ok(told)),
        Ok(NearAnswer::Far) => Err(CommandFault::Far),
        Err(fault) => Err(CommandFault::from(fault)),
    }
}

/// Makes a ruling on the books of a name, with its note, unless its day is far.
pub(crate) fn rule_near<S: Repository, F: Inputs>(
    rt: &HostRuntime,
    repository: &mut S,
    inputs: &F,
    book: &str,
    ruling: Ruling<'_>,
    note: Option<Note>,
) -> Result<Answered, CommandFault>
    ensures { ComesNear (F.held inputs.now) (BookRequest.Rule ruling.entry) book.now
        (S.shelf repository.old) (S.shelf repository.new) result }
{
    let asked = asked_ruling(rt.alloc(), &*repository, inputs, book, ruling, note)?;
    Ok(ask_books_near(rt.alloc(), repository, inputs, book, asked))
}

/// Asks the books of a name for a ruling whose day has to be near.
fn ask_books_near<S: Repository, F: Inputs>(
    alloc: Global,
    repository: &mut S,
    inputs: &F,
    book: &str,
    asked: Asked,
) -> Answered
    requires { IsAskableRuling asked }
    ensures { IsAskedNear (F.held inputs.now).today asked book.now (S.shelf repository.old)
        (S.shelf repository.new) result }
{
    let today = inputs.today();
    let mut ruling = NearRuling {
        alloc,
        today,
        asked,
    };
    let Opened { answer, has_log } = repository.open(book, &mut ruling);
    Answered {
        answer: near_answer(answer),
        has_log,
        is_change: true,
        notice: None,
    }
}
