//! What the office answers, as answers to requests: a report, what a period would have cost by the
//! tariff that a body is, or the import of a body; and how many bytes the text of details has.

ghost use Rattle.std.specs.Prelude.{◌≡◌, ◌<◌, IfErr, IfOk};
ghost use Rattle.book_core.specs.Transition.{IsTransition};
ghost use Rattle.office.specs.Requests.{response_by};
ghost use Rattle.book_http.specs.Answer as spec;
ghost use Rattle.book_http.specs.Answer.{AnswersDetails, AnswersImport, AnswersReport};
ghost use Rattle.book_http.specs.Answer.{AnswersWhatIf, most_gathered, office_reply};
ghost use Rattle.book_http.specs.Replies.{reply_of};
ghost use Rattle.book_http.specs.Served.{AsksOffice, IsGathered, IsRefused, Measures};

use crate::answer::Answer;
use crate::asked::Asked;
use crate::status::Status;
use book_core::{Ledger, LedgerFault, Note, Sink};
use book_reports::{DetailReport, ReportFault, details_length, write_details};
use office::{Report, StatementForm, WhatIf, ask_without_reader};
use report_rows::BodyKind;
use smf_frames::Layout;
use std::alloc::Global;

/// The most bytes of details that are gathered before they are sent.
const MOST_GATHERED: usize = 16_777_216;

/// The form of details, and of what a period would have cost.
pub fn form_kind(form: StatementForm) -> BodyKind
    ensures { result ≡ spec.form_kind form }
{
    match form {
        StatementForm::Text => BodyKind::Text,
        StatementForm::Table => BodyKind::Csv,
    }
}

/// What the office answered, as an answer to the request. No ruling is asked over HTTP.
fn answer_of(kind: BodyKind, told: Result<office::Answer, LedgerFault>) -> Answer
    ensures { reply_of result ≡ office_reply kind (response_by told) }
{
    match told {
        Ok(office::Answer::Text(text)) => Answer::Report(kind, text),
        Ok(office::Answer::Receipt(receipt)) => Answer::Receipt(receipt),
        Err(LedgerFault::NoSuchPeriod) => Answer::Refusal(Status::NotFound),
        Err(LedgerFault::NoSuchTariff) => Answer::Refusal(Status::NotFound),
        Err(LedgerFault::NoSuchRecord) => Answer::Refusal(Status::NotFound),
        Err(LedgerFault::NoSuchCentre) => Answer::Refusal(Status::NotFound),
        Err(LedgerFault::TariffRefused(_)) => Answer::Refusal(Status::BadRequest),
        Err(LedgerFault::Full) => Answer::Refusal(Status::BadRequest),
        Ok(office::Answer::Ruled(_)) | Err(_) => Answer::Refusal(Status::Unavailable),
    }
}

/// Answers a report, as a body of this kind.
pub fn answer_report<L: Ledger>(
    alloc: Global,
    ledger: &mut L,
    report: Report,
    kind: BodyKind,
) -> Answer
    ensures { IsTransition (L.seen ledger.old) (L.seen ledger.new)
        (AnswersReport (L.seen ledger.old).naming report kind (reply_of result)) }
{
    let asked = office::Asked::Report(report);
    answer_of(kind, ask_without_reader(alloc, ledger, &asked))
}

/// Measures the text of details. A period that is not there is refused.
fn measure_details<L: Ledger>(
    alloc: Global,
    ledger: &mut L,
    details: &DetailReport,
) -> Result<usize, Answer>
    ensures measured { Measures (L.seen ledger.old) (L.seen ledger.new) details.now result }
    ensures refused { IfErr result IsRefused }
{
    match details_length(alloc, ledger, *details) {
        Ok(size) => Ok(size),
        Err(fault) => {
            let kind = form_kind(details.form);
            Err(answer_of(kind, Err(fault)))
        }
    }
}

/// What the office answered to details that were written into memory.
fn gathered(told: Result<(), ReportFault>, text: Vec<u8>) -> Result<office::Answer, LedgerFault>
    ensures { response_by result ≡ spec.gathered told text.items }
{
    match told {
        Ok(()) => Ok(office::Answer::Text(text)),
        Err(ReportFault::Write) | Err(ReportFault::Memory) => Err(LedgerFault::Memory),
        Err(ReportFault::Ledger(fault)) => Err(fault),
    }
}

/// Answers details by their whole text.
fn gather_details<L: Ledger>(alloc: Global, ledger: &mut L, details: &DetailReport) -> Answer
    ensures { IsTransition (L.seen ledger.old) (L.seen ledger.new)
        (AnswersDetails (L.seen ledger.old).naming details.now (reply_of result)) }
{
    let mut text = Sink::new(Vec::new(alloc));
    let told = write_details(alloc, ledger, *details, &mut text);
    let kind = form_kind(details.form);
    answer_of(kind, gathered(told, text.into_inner()))
}

/// Answers details by their text, or by why there is none; a text of more bytes than are gathered is
/// only measured, and is to be sent while it is read.
fn ask_details<L: Ledger>(
    alloc: Global,
    ledger: &mut L,
    details: &DetailReport,
) -> Result<usize, Answer>
    ensures asked { Measures (L.seen ledger.old) (L.seen ledger.new) details.now result }
    ensures long { IfOk result (λ size. most_gathered < size) }

    // A longer text is not gathered.
    ensures short { IfErr result (IsGathered (L.seen ledger.old) (L.seen ledger.new) details.now) }
{
    match measure_details(alloc, ledger, details) {
        Ok(size) => {
            if size > MOST_GATHERED {
                return Ok(size);
            }
            Err(gather_details(alloc, ledger, details))
        }
        Err(answer) => Err(answer),
    }
}

/// Answers what a period would have cost by the tariff that a body is.
fn answer_what_if<L: Ledger>(alloc: Global, ledger: &mut L, report: WhatIf, body: Vec<u8>) -> Answer
    ensures { IsTransition (L.seen ledger.old) (L.seen ledger.new)
        (AnswersWhatIf report body.items (reply_of result)) }
{
    let Ok(tariff) = String::from_utf8(body) else {
        return Answer::Refusal(Status::BadRequest);
    };
    let kind = form_kind(report.form);
    let asked = office::Asked::WhatIf { report, tariff };
    answer_of(kind, ask_without_reader(alloc, ledger, &asked))
}

/// Answers the import of a body, which is a whole dump, with its note.
fn answer_import<L: Ledger>(
    alloc: Global,
    ledger: &mut L,
    layout: Layout,
    body: Vec<u8>,
    note: Option<Note>,
) -> Answer
    ensures { IsTransition (L.seen ledger.old) (L.seen ledger.new)
        (AnswersImport (L.seen ledger.old).naming layout body.items (reply_of result)) }
{
    let asked = office::Asked::ImportBytes {
        layout,
        bytes: body,
        note,
    };
    answer_of(BodyKind::Text, ask_without_reader(alloc, ledger, &asked))
}

/// Asks the office once; an import has the note. Details of more bytes than are gathered are only
/// measured, and are to be sent while they are read.
pub fn ask_office<L: Ledger>(
    alloc: Global,
    ledger: &mut L,
    asked: Asked<Vec<u8>>,
    note: Option<Note>,
) -> Result<Answer, (DetailReport, usize)>
    ensures { AsksOffice (L.seen ledger.old) (L.seen ledger.new) asked result }
{
    match asked {
        Asked::Settled(answer) => Ok(answer),
        Asked::Report(report, kind) => Ok(answer_report(alloc, ledger, report, kind)),
        Asked::Details(details) => match ask_details(alloc, ledger, &details) {
            Ok(size) => Err((details, size)),
            Err(answer) => Ok(answer),
        },
        Asked::WhatIf(what_if, body) => Ok(answer_what_if(alloc, ledger, what_if, body)),
        Asked::Import(layout, body) => Ok(answer_import(alloc, ledger, layout, body, note)),
    }
}
