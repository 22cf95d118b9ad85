//! What the office is asked for a ruling. Faults are found in this order: a date, a name, an amount or
//! a reason, the books, the file.

ghost use Rattle.std.specs.Prelude.{◌≡◌, IfOk};
ghost use Rattle.book_model.specs.Words.{IsCreditOf};
ghost use Rattle.without_books.specs.Inputs.{Files};
ghost use Rattle.chargectl.specs.Commands as spec;
ghost use Rattle.chargectl.specs.DryRuns.{IsAskedFor};

use crate::amounts::amount_of_text;
use book_core::{Note, is_reason};
use command_line::{BookRequest, Ruling};
use named_books::Repository;
use office::{Asked, OwnedRuling, centre_named};
use program_output::name_of_text;
use smf_text::{Name, day_of_text};
use std::alloc::Global;
use without_books::{CommandFault, Inputs, tariff_text};

/// The rule of identity that can be adopted: books begin under the other one.
const LATER_RULE: u8 = 2;

/// What is asked for a ruling on the books of a name, with its note.
pub(crate) fn asked_ruling<S: Repository, F: Inputs>(
    alloc: Global,
    repository: &S,
    inputs: &F,
    book: &str,
    ruling: Ruling<'_>,
    note: Option<Note>,
) -> Result<Asked, CommandFault>
    ensures { IsAskedFor (F.held inputs.now) (BookRequest.Rule ruling.entry)
        ((S.shelf repository.now).refuses book.now) result }
{
    match ruling {
        Ruling::Tariff { file } => asked_tariff(alloc, repository, inputs, book, file, note),
        Ruling::Close { period, date } => asked_close(repository, book, period, date, note),
        Ruling::Choose { name } => asked_choice(repository, book, name, note),
        Ruling::Adopt => asked_adoption(repository, book, note),
        Ruling::Replace { file } => asked_replacement(alloc, repository, inputs, book, file, note),
        Ruling::Withhold { name } => asked_withholding(repository, book, name, note),
        Ruling::Credit {
            period,
            centre,
            amount,
            reason,
        } => {
            asked_credit(
                alloc, repository, book, period, centre, amount, reason, note,
            )
        }
    }
}

/// What is asked for a tariff, by its file.
fn asked_tariff<S: Repository, F: Inputs>(
    alloc: Global,
    repository: &S,
    inputs: &F,
    book: &str,
    file: &str,
    note: Option<Note>,
) -> Result<Asked, CommandFault>
    ensures { IsAskedFor (F.held inputs.now) (BookRequest.Rule (Ruling.Tariff file.entry))
        ((S.shelf repository.now).refuses book.now) result }
{
    repository.expect(book)?;
    let text = tariff_text(alloc, inputs, file)?;
    Ok(Asked::Rule(OwnedRuling::Tariff(text), note))
}

/// What is asked for a tariff in the place of another, by its file.
fn asked_replacement<S: Repository, F: Inputs>(
    alloc: Global,
    repository: &S,
    inputs: &F,
    book: &str,
    file: &str,
    note: Option<Note>,
) -> Result<Asked, CommandFault>
    ensures { IsAskedFor (F.held inputs.now) (BookRequest.Rule (Ruling.Replace file.entry))
        ((S.shelf repository.now).refuses book.now) result }
{
    repository.expect(book)?;
    let replacement = tariff_text(alloc, inputs, file)?;
    Ok(Asked::Rule(OwnedRuling::Replace(replacement), note))
}

/// What is asked for a close.
fn asked_close<S: Repository>(
    repository: &S,
    book: &str,
    period: u16,
    date: &str,
    note: Option<Note>,
) -> Result<Asked, CommandFault>
    ensures { (files : Files) → IsAskedFor files (BookRequest.Rule (Ruling.Close period date.entry))
        ((S.shelf repository.now).refuses book.now) result }
{
    let through = match day_of_text(date) {
        Some(through) => through,
        None => return Err(CommandFault::Argument),
    };
    repository.expect(book)?;
    Ok(Asked::Rule(OwnedRuling::Close { period, through }, note))
}

/// What is asked for a choice.
fn asked_choice<S: Repository>(
    repository: &S,
    book: &str,
    name: &str,
    note: Option<Note>,
) -> Result<Asked, CommandFault>
    ensures { (files : Files) → IsAskedFor files (BookRequest.Rule (Ruling.Choose name.entry))
        ((S.shelf repository.now).refuses book.now) result }
{
    let chosen = match name_of_text(name) {
        Some(chosen) => chosen,
        None => return Err(CommandFault::Argument),
    };
    repository.expect(book)?;
    Ok(Asked::Rule(OwnedRuling::Choose(chosen), note))
}

/// What is asked for a choice of none.
fn asked_withholding<S: Repository>(
    repository: &S,
    book: &str,
    name: &str,
    note: Option<Note>,
) -> Result<Asked, CommandFault>
    ensures { (files : Files) → IsAskedFor files (BookRequest.Rule (Ruling.Withhold name.entry))
        ((S.shelf repository.now).refuses book.now) result }
{
    let named = match name_of_text(name) {
        Some(named) => named,
        None => return Err(CommandFault::Argument),
    };
    repository.expect(book)?;
    Ok(Asked::Rule(OwnedRuling::Withhold(named), note))
}

/// What is asked for the adoption of the later rule of identity.
fn asked_adoption<S: Repository>(
    repository: &S,
    book: &str,
    note: Option<Note>,
) -> Result<Asked, CommandFault>
    ensures { (files : Files) → IsAskedFor files (BookRequest.Rule Ruling.Adopt)
        ((S.shelf repository.now).refuses book.now) result }
{
    repository.expect(book)?;
    Ok(Asked::Rule(OwnedRuling::Adopt(LATER_RULE), note))
}

/// The centre and the amount that the words of a credit say.
fn credit_words(centre: &str, amount: &str, reason: &str) -> Result<(Name, i64), CommandFault>
    ensures said { result ≡ spec.credit_words centre.now amount.now reason.now }
    ensures limits { IfOk result (λ said. IsCreditOf said.0 said.1 reason.now) }
{
    let centre = match centre_named(centre) {
        Some(centre) => centre,
        None => return Err(CommandFault::Argument),
    };
    let amount = match amount_of_text(amount) {
        Some(amount) => amount,
        None => return Err(CommandFault::Amount),
    };
    if !is_reason(reason) {
        return Err(CommandFault::Reason);
    }
    Ok((centre, amount))
}

/// What is asked for a credit.
fn asked_credit<S: Repository>(
    alloc: Global,
    repository: &S,
    book: &str,
    period: u16,
    centre: &str,
    amount: &str,
    reason: &str,
    note: Option<Note>,
) -> Result<Asked, CommandFault>
    ensures { (files : Files) → IsAskedFor files
        (BookRequest.Rule (Ruling.Credit period centre.entry amount.entry reason.entry))
        ((S.shelf repository.now).refuses book.now) result }
{
    let said = match credit_words(centre, amount, reason) {
        Ok(said) => said,
        Err(fault) => return Err(fault),
    };
    repository.expect(book)?;
    let text = String::from_str(alloc, reason)?;
    Ok(Asked::Rule(
        OwnedRuling::Credit {
            period,
            centre: said.0,
            amount: said.1,
            reason: text,
        },
        note,
    ))
}
