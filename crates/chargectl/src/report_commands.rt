//! The commands that ask books for a report. Faults are found in the order of `book_commands`: a
//! date or a name, the books, the file of a tariff, and what the books say.

ghost use Rattle.std.specs.Prelude.{◌≡◌};
ghost use Rattle.without_books.specs.Inputs.{Files};
ghost use Rattle.chargectl.specs.Commands as spec;
ghost use Rattle.chargectl.specs.Commands.{ComesOf};

use crate::answered::Answered;
use crate::book_commands::ask_books;
use command_line::{BookRequest, PeriodWords, ReportAsked, Words};
use named_books::Repository;
use office::{Asked, Report, StatementForm, WhatIf, centre_named};
use program_output::name_of_text;
use report_rows::{About, ReportName, page_of, report_about};
use smf_text::{Name, day_of_text};
use std::io;
use without_books::{CommandFault, Inputs, tariff_text};

/// Asks the books of a name for a report.
pub(crate) fn report<S: Repository>(
    rt: &HostRuntime,
    repository: &mut S,
    book: &str,
    asked: ReportAsked<'_>,
) -> Result<Answered, CommandFault>
    ensures { (files : Files) → ComesOf files (BookRequest.Report asked.entry) book.now
        (S.shelf repository.old) (S.shelf repository.new) result }
{
    let made = match report_of(asked) {
        Some(made) => made,
        None => return Err(CommandFault::Argument),
    };
    repository.expect(book)?;
    let printed = Asked::Report(made);
    Ok(ask_books(rt, repository, book, printed, io::empty()))
}

/// The report that words ask for. `None`: one of them is not what it has to be.
fn report_of(asked: ReportAsked<'_>) -> Option<Report>
    ensures { result ≡ spec.report_of asked.entry }
{
    match about_of(asked.words) {
        Some(about) => report_about(asked_name(asked), asked.form, about),
        None => None,
    }
}

/// The report that is asked for, or its page.
fn asked_name(asked: ReportAsked<'_>) -> ReportName
    ensures { result ≡ spec.asked_name asked.entry }
{
    if asked.html {
        page_of(asked.name)
    } else {
        asked.name
    }
}

/// What the words say that a report is about. `None`: one of them is not what it has to be.
pub(crate) fn about_of(words: Words<'_>) -> Option<About>
    ensures { result ≡ spec.about_of words.entry }
{
    match words {
        Words::OfCentre(period) => {
            let centre = asked_centre(period.centre)?;
            Some(About::OfCentre {
                period: period.number,
                centre,
            })
        }
        Words::OfPeriod(period) => Some(About::OfPeriod(period)),
        Words::OfOffice => Some(About::OfOffice),
        Words::OfDay(date) => {
            let day = day_of_text(date)?;
            Some(About::OfDay(day))
        }
        Words::OfReplaced { date, digest } => {
            let day = day_of_text(date)?;
            let digest = name_of_text(digest)?;
            Some(About::OfReplaced { day, digest })
        }
        Words::OfRecord(name) => {
            let named = name_of_text(name)?;
            Some(About::OfRecord(named))
        }
    }
}

/// The centre that is asked for, or none for the whole office. `None`: the text is no name.
pub(crate) fn asked_centre(centre: Option<&str>) -> Option<Option<Name>>
    ensures { result ≡ spec.asked_centre centre.entry }
{
    match centre {
        Some(text) => Some(Some(centre_named(text)?)),
        None => Some(None),
    }
}

/// Makes a period's statement by the prices of a tariff file, of one centre or of the whole office.
/// The file is not put in force.
pub(crate) fn what_if<S: Repository, F: Inputs>(
    rt: &HostRuntime,
    repository: &mut S,
    inputs: &F,
    book: &str,
    form: StatementForm,
    period: PeriodWords<'_>,
    file: &str,
) -> Result<Answered, CommandFault>
    ensures { ComesOf (F.held inputs.now) (BookRequest.WhatIf form period.entry file.entry) book.now
        (S.shelf repository.old) (S.shelf repository.new) result }
{
    let report = match what_if_of(form, period) {
        Some(report) => report,
        None => return Err(CommandFault::Argument),
    };
    repository.expect(book)?;
    let tariff = tariff_text(rt.alloc(), inputs, file)?;
    let asked = Asked::WhatIf { report, tariff };
    Ok(ask_books(rt, repository, book, asked, io::empty()))
}

/// What the books are asked for. `None`: the text of the centre is no name.
fn what_if_of(form: StatementForm, period: PeriodWords<'_>) -> Option<WhatIf>
    ensures { result ≡ spec.what_if_of form period.entry }
{
    let centre = asked_centre(period.centre)?;
    Some(WhatIf {
        form,
        period: period.number,
        centre,
    })
}
