//! What a request asks, by what its path leads to, its method and the length of its body.

ghost use Rattle.std.specs.Prelude.{◌≡◌, ◌≤◌, IfOk};
ghost use Rattle.book_http.specs.Asked as spec;
ghost use Rattle.book_http.specs.Asked.{IsServable};
ghost use Rattle.book_http.specs.Bodies.{most_body_bytes};

use crate::answer::Answer;
use crate::body::MAX_BODY;
use crate::endpoint::Endpoint;
use crate::framing::Framing;
use crate::method::{Method, is_method};
use crate::status::Status;
use book_reports::DetailReport;
use office::{Report, StatementForm, WhatIf};
use report_rows::{About, BodyKind, ReportName, report_about, row_of};
use smf_frames::Layout;

/// What a request asks, with the body that it brings: how many bytes that has, or they themselves.
#[derive(Drop)]
pub enum Asked<Body> {
    /// Nothing of the books: this answers it.
    Settled(Answer),
    /// A report, and what kind of body it is.
    Report(Report, BodyKind),
    /// The details of a period, whose text is sent while it is read.
    Details(DetailReport),
    /// What a period would have cost by the tariff that the body is.
    WhatIf(WhatIf, Body),
    /// The import of the body, which is a whole dump.
    Import(Layout, Body),
}

/// The size of a body, or the status of one that is not taken.
fn body_size(framing: Framing) -> Result<u64, Status>
    ensures size { result ≡ spec.body_size framing }
    ensures limit { IfOk result (λ size. size ≤ most_body_bytes) }
{
    match framing {
        Framing::Faulty => Err(Status::BadRequest),
        Framing::Unframed => Err(Status::LengthRequired),
        Framing::Framed(size) if size > MAX_BODY => Err(Status::TooLarge),
        Framing::Framed(size) => Ok(size),
    }
}

/// The size of the body that is due by a method: to read a report none is. Where the head names the
/// origin of its sender, that is a page in a browser, which may submit nothing.
fn due_size(method: Method, has_origin: bool, framing: Framing) -> Result<u64, Status>
    ensures size { result ≡ spec.due_size method has_origin framing }
    ensures limit { IfOk result (λ size. size ≤ most_body_bytes) }
{
    match method {
        Method::Get => Ok(0),
        Method::Post if has_origin => Err(Status::Forbidden),
        Method::Post => body_size(framing),
    }
}

/// The details of a period.
fn details_of(form: StatementForm, thing: About) -> Asked<u64>
    ensures asked { result ≡ spec.details_of form thing }
    ensures limit { IsServable result }
{
    match thing {
        About::OfCentre { period, centre } => Asked::Details(DetailReport {
            form,
            period,
            centre,
        }),
        _ => Asked::Settled(Answer::Refusal(Status::NotFound)),
    }
}

/// What a period would have cost, by a body of this size.
fn what_if_of(form: StatementForm, thing: About, size: u64) -> Asked<u64>
    ensures asked { result ≡ spec.what_if_of form thing size }
    ensures limit { size ≤ most_body_bytes → IsServable result }
{
    match thing {
        About::OfCentre { period, centre } => {
            let what_if = WhatIf {
                form,
                period,
                centre,
            };
            Asked::WhatIf(what_if, size)
        }
        _ => Asked::Settled(Answer::Refusal(Status::NotFound)),
    }
}

/// A report that is made whole, if there is one.
fn whole_report(kind: BodyKind, found: Option<Report>) -> Asked<u64>
    ensures asked { result ≡ spec.whole_report kind found }
    ensures limit { IsServable result }
{
    match found {
        Some(report) => Asked::Report(report, kind),
        None => Asked::Settled(Answer::Refusal(Status::NotFound)),
    }
}

/// A report. Details are written while they are read.
fn report_of(name: ReportName, form: StatementForm, thing: About) -> Asked<u64>
    ensures asked { result ≡ spec.report_of name form thing }
    ensures limit { IsServable result }
{
    match name {
        ReportName::Details => details_of(form, thing),
        _ => whole_report(row_of(name).kind_in(form), report_about(name, form, thing)),
    }
}

/// What is asked at an endpoint about this, with a body of this size.
fn asked_of(place: Endpoint, thing: About, size: u64) -> Asked<u64>
    ensures asked { result ≡ spec.asked_of place thing size }
    ensures limit { size ≤ most_body_bytes → IsServable result }
{
    match place {
        Endpoint::Report(name, form) => report_of(name, form, thing),
        Endpoint::Office => Asked::Report(Report::OfficePage, BodyKind::Page),
        Endpoint::WhatIf(form) => what_if_of(form, thing, size),
        Endpoint::Import(layout) => Asked::Import(layout, size),
    }
}

/// The method of an endpoint.
fn method_of(place: Endpoint) -> Method
    ensures { result ≡ spec.method_of place }
{
    match place {
        Endpoint::Report(_, _) => Method::Get,
        Endpoint::Office => Method::Get,
        Endpoint::WhatIf(_) => Method::Post,
        Endpoint::Import(_) => Method::Post,
    }
}

/// What is asked at an endpoint by its method.
fn asked_on(place: Endpoint, thing: About, has_origin: bool, framing: Framing) -> Asked<u64>
    ensures asked { result ≡ spec.asked_on place thing has_origin framing }
    ensures limit { IsServable result }
{
    match due_size(method_of(place), has_origin, framing) {
        Ok(size) => asked_of(place, thing, size),
        Err(status) => Asked::Settled(Answer::Refusal(status)),
    }
}

/// What is asked at an endpoint by a method.
fn asked_by(
    place: Endpoint,
    thing: About,
    method: &[u8],
    has_origin: bool,
    framing: Framing,
) -> Asked<u64>
    ensures asked { result ≡ spec.asked_by place thing method.now has_origin framing }
    ensures limit { IsServable result }
{
    let due = method_of(place);
    if is_method(method, due) {
        asked_on(place, thing, has_origin, framing)
    } else {
        Asked::Settled(Answer::OtherMethod(due))
    }
}

/// What is asked where a path leads, if it leads anywhere. A head may name another machine, or come
/// from a page elsewhere: by such a head nothing is asked for.
fn asked_here(
    is_foreign: bool,
    found: Option<(Endpoint, About)>,
    method: &[u8],
    has_origin: bool,
    framing: Framing,
) -> Asked<u64>
    ensures asked { result ≡ spec.asked_here is_foreign found method.now has_origin framing }
    ensures limit { IsServable result }
{
    if is_foreign {
        Asked::Settled(Answer::Refusal(Status::Forbidden))
    } else {
        match found {
            Some((place, thing)) => asked_by(place, thing, method, has_origin, framing),
            None => Asked::Settled(Answer::Refusal(Status::NotFound)),
        }
    }
}

/// What is asked: a faulty length is refused before anything else is looked at.
pub fn asked_framed(
    framing: Framing,
    is_foreign: bool,
    found: Option<(Endpoint, About)>,
    method: &[u8],
    has_origin: bool,
) -> Asked<u64>
    ensures asked { result ≡ spec.asked_framed framing is_foreign found method.now has_origin }
    ensures limit { IsServable result }
{
    match framing {
        Framing::Faulty => Asked::Settled(Answer::Refusal(Status::BadRequest)),
        _ => asked_here(is_foreign, found, method, has_origin, framing),
    }
}
