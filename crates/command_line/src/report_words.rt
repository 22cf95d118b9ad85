//! What the words of reports ask of books.

ghost use Rattle.std.specs.Prelude.{◌≡◌, ◌≢◌, IfSome, IsSome, codes, false, true};
ghost use Rattle.report_rows.specs.ReportRows as reports;
ghost use Rattle.command_line.specs.Given.{HasWord, HasWords};
ghost use Rattle.command_line.specs.Known as known;
ghost use Rattle.command_line.specs.Requests.{AsksReport, HasShape, IsForm, IsHtml, IsLeftOut};
ghost use Rattle.command_line.specs.Requests.{IsOfBooks, NamesPeriod, rows_in};

use crate::given_words::{flag_in, number_in, period_in, text_in};
use crate::request::{BookRequest, PeriodWords, ReportAsked, Words};
use book_reports::StatementForm;
use clap::ArgMatches;
use report_rows::{ReportName, Shape, row_of};

/// The form that is asked for.
fn asked_form(found: &ArgMatches<'_>) -> Option<StatementForm>
    ensures form { IfSome result (IsForm (rows_in found.now)) }
    ensures some { HasWord (rows_in found.now) known.csv → IsSome result }
{
    if flag_in(found, "csv")? {
        return Some(StatementForm::Table);
    }
    Some(StatementForm::Text)
}

/// What a period charged, or what it would charge by the tariff that is named.
pub(crate) fn statement_in<'a>(found: &ArgMatches<'a>) -> Option<BookRequest<'a>>
    ensures asked { IfSome result (IsOfBooks (codes "statement") (rows_in found.now)) }
    ensures some { HasWord (rows_in found.now) known.period
        → HasWord (rows_in found.now) known.csv → IsSome result }
{
    let period = period_in(found)?;
    let form = asked_form(found)?;
    match text_in(found, "tariff") {
        Some(file) => Some(BookRequest::WhatIf { form, period, file }),
        None => Some(charged(form, period)),
    }
}

fn charged<'a>(form: StatementForm, period: PeriodWords<'a>) -> BookRequest<'a>
    ensures { (rows : _) → NamesPeriod rows period.entry → IsForm rows form
        → IsLeftOut rows (codes "tariff") → IsOfBooks (codes "statement") rows result }
{
    BookRequest::Report(ReportAsked {
        name: ReportName::Statement,
        form,
        html: false,
        words: Words::OfCentre(period),
    })
}

/// The same of a report that may never be a table, and then is a text.
fn form_in(csv: bool, found: &ArgMatches<'_>) -> Option<StatementForm>
    ensures table { csv ≡ true → IfSome result (IsForm (rows_in found.now)) }
    ensures text { csv ≡ false → IfSome result (λ form. form ≡ StatementForm.Text) }
    ensures some { (csv ≡ true → HasWord (rows_in found.now) known.csv) → IsSome result }
{
    if csv {
        asked_form(found)
    } else {
        Some(StatementForm::Text)
    }
}

/// Whether a page is asked for, of a report that may be one.
fn html_in(html: bool, found: &ArgMatches<'_>) -> Option<bool>
    ensures page { html ≡ true → IfSome result (IsHtml (rows_in found.now)) }
    ensures text { html ≡ false → IfSome result (λ page. page ≡ false) }
    ensures some { (html ≡ true → HasWord (rows_in found.now) known.html) → IsSome result }
{
    if html {
        flag_in(found, "html")
    } else {
        Some(false)
    }
}

/// What the words say that a report is about.
fn words_in<'a>(shape: Shape, found: &ArgMatches<'a>) -> Option<Words<'a>>
    ensures words { IfSome result (HasShape shape (rows_in found.now)) }
    ensures some { HasWords (rows_in found.now) (known.named_by shape) → IsSome result }
{
    match shape {
        Shape::OfCentre => {
            let period = period_in(found)?;
            Some(Words::OfCentre(period))
        }
        Shape::OfPeriod => {
            let period = number_in(found, "period")?;
            Some(Words::OfPeriod(period))
        }
        Shape::OfOffice => Some(Words::OfOffice),
        Shape::OfDay => {
            let date = text_in(found, "date")?;
            match text_in(found, "replaced") {
                Some(digest) => Some(Words::OfReplaced { date, digest }),
                None => Some(Words::OfDay(date)),
            }
        }
        Shape::OfRecord => {
            let name = text_in(found, "sha256")?;
            Some(Words::OfRecord(name))
        }
    }
}

/// What is asked of books: a report, or one that is printed while it is read.
fn request_for<'a>(streamed: bool, asked: ReportAsked<'a>) -> BookRequest<'a>
    ensures { (text : _) (rows : _) → AsksReport text rows asked.entry
        → (reports.row_of asked.entry.name).streamed ≡ streamed → IsOfBooks text rows result }
{
    if streamed {
        BookRequest::List(asked)
    } else {
        BookRequest::Report(asked)
    }
}

/// What is asked by the word of a report, other than a statement.
pub(crate) fn report_in<'a>(name: ReportName, found: &ArgMatches<'a>) -> Option<BookRequest<'a>>
    ensures asked { (text : _) → text ≡ (reports.row_of name).word → text ≢ codes "statement"
        → IfSome result (IsOfBooks text (rows_in found.now)) }
    ensures some { HasWords (rows_in found.now) (known.named_by (reports.row_of name).shape)
        → ((reports.row_of name).csv ≡ true → HasWord (rows_in found.now) known.csv)
        → ((reports.row_of name).html ≡ true → HasWord (rows_in found.now) known.html)
        → IsSome result }
{
    let row = row_of(name);
    let form = form_in(row.csv, found)?;
    let html = html_in(row.html, found)?;
    let words = words_in(row.shape, found)?;
    let asked = ReportAsked {
        name,
        form,
        html,
        words,
    };
    Some(request_for(row.streamed, asked))
}
