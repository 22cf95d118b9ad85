//! What is served, and where.

ghost use Rattle.std.specs.Prelude.{◌≡◌, option_map};
ghost use Rattle.book_http.specs.Paths as spec;

use office::StatementForm;
use report_rows::{ReportName, Shape, row_of};
use smf_frames::Layout;

/// What is served at the paths with one front.
#[derive(Clone, Copy)]
pub enum Endpoint {
    /// A report, in a form.
    Report(ReportName, StatementForm),
    /// The page of the office.
    Office,
    /// What a period would have cost by a tariff that is submitted, in a form.
    WhatIf(StatementForm),
    /// Dumps in this layout are submitted.
    Import(Layout),
}

/// The front of the paths of an endpoint, if it is served: that of a report as its row says.
pub fn front_of(place: Endpoint) -> Option<&'static str>
    ensures { option_map (λ front. front.now) result ≡ spec.front_of place }
{
    match place {
        Endpoint::Report(name, form) => row_of(name).path_in(form),
        Endpoint::Office => Some("/"),
        Endpoint::WhatIf(StatementForm::Text) => Some("/what-if/"),
        Endpoint::WhatIf(StatementForm::Table) => Some("/what-if-csv/"),
        Endpoint::Import(Layout::Rdw) => Some("/import"),
        Endpoint::Import(Layout::Bdw) => Some("/import-bdw"),
    }
}

/// What its paths name behind their front.
pub fn shape_of(place: Endpoint) -> Shape
    ensures { result ≡ spec.shape_of place }
{
    match place {
        Endpoint::Report(name, _) => row_of(name).shape,
        Endpoint::WhatIf(_) => Shape::OfCentre,
        Endpoint::Office | Endpoint::Import(_) => Shape::OfOffice,
    }
}
