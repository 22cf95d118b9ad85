//! The routes of the server.

ghost use Rattle.std.specs.Prelude.{◌≡◌, IfOk, IfSome, string_bytes};
ghost use Rattle.std.proofs.Props.{props};
ghost use Rattle.book_http.specs.Routes as spec;
ghost use Rattle.book_http.specs.Routes.{route_rows};

use crate::endpoint::{Endpoint, front_of, shape_of};
use matchit::{InsertError, Router};
use office::StatementForm;
use report_rows::{ReportName, Shape, all_reports};
use smf_frames::Layout;
use std::alloc::{AllocError, Global};

/// The endpoints that are no reports.
static OTHER_PLACES: [Endpoint; 5] = [
    Endpoint::Office,
    Endpoint::WhatIf(StatementForm::Text),
    Endpoint::WhatIf(StatementForm::Table),
    Endpoint::Import(Layout::Rdw),
    Endpoint::Import(Layout::Bdw),
];

fn other_places() -> &'static [Endpoint]
    ensures { result.now ≡ spec.other_places }
{
    OTHER_PLACES.as_slice()
}

/// The route of a front with whatever follows it.
fn open_route(alloc: Global, front: &str) -> Result<String, AllocError>
    ensures { IfOk result (λ route. string_bytes route ≡ spec.open_route front.now) }
{
    let mut route = String::new(alloc);
    route.push_str(front)?;
    route.push_str("{*rest}")?;
    Ok(route)
}

/// A router with one more route.
fn with_route(
    mut router: Router<Endpoint>,
    route: &str,
    place: Endpoint,
) -> Result<Router<Endpoint>, InsertError>
    ensures { IfOk result (λ more. more ≡ spec.with_route route.now place router) }
{
    router.insert(route, place)?;
    Ok(router)
}

/// The paths of this shape name nothing behind their front.
fn is_plain(shape: Shape) -> bool
    ensures { result ≡ spec.is_plain shape }
{
    match shape {
        Shape::OfOffice => true,
        _ => false,
    }
}

/// A router with an endpoint at this front.
fn with_front(
    alloc: Global,
    router: Router<Endpoint>,
    place: Endpoint,
    front: &str,
) -> Result<Router<Endpoint>, InsertError>
    ensures { IfOk result (λ more. more ≡ spec.with_front place (Some front.now) router) }
{
    if is_plain(shape_of(place)) {
        return with_route(router, front, place);
    }
    let Ok(route) = open_route(alloc, front) else {
        return Err(InsertError::OutOfMemory);
    };
    with_route(router, route.as_str(), place)
}

/// A router with an endpoint, if that is served.
fn with_place(
    alloc: Global,
    router: Router<Endpoint>,
    place: Endpoint,
) -> Result<Router<Endpoint>, InsertError>
    ensures { IfOk result (λ more. more ≡ spec.with_place place router) }
{
    match front_of(place) {
        Some(front) => with_front(alloc, router, place, front),
        None => Ok(router),
    }
}

/// A router of endpoints, which are put in one after the other. An error means that memory ran out.
fn router_of(alloc: Global, places: &[Endpoint]) -> Result<Router<Endpoint>, InsertError>
    ensures { IfOk result (λ router. router ≡ spec.rows_of places.now) }
{
    let mut router = Router::new(alloc);
    for place in places {
        router = with_place(alloc, router, *place)?;
    }
    Ok(router)
}

/// A router with a report, in both forms.
fn with_report(
    alloc: Global,
    router: Router<Endpoint>,
    name: ReportName,
) -> Result<Router<Endpoint>, InsertError>
    ensures { IfOk result (λ more. more ≡ spec.with_report router name) }
{
    let router = with_place(alloc, router, Endpoint::Report(name, StatementForm::Text))?;
    with_place(alloc, router, Endpoint::Report(name, StatementForm::Table))
}

/// A router of reports, and of what else is served.
fn router_with(alloc: Global, names: &[ReportName]) -> Result<Router<Endpoint>, InsertError>
    ensures { IfOk result (λ router. router ≡ spec.rows_with names.now) }
{
    let mut router = router_of(alloc, other_places())?;
    for name in names {
        router = with_report(alloc, router, *name)?;
    }
    Ok(router)
}

/// All that is served, by its paths.
fn endpoints(alloc: Global) -> Result<Router<Endpoint>, InsertError>
    ensures { IfOk result (λ router. router ≡ route_rows) }
{
    router_with(alloc, all_reports())
}

/// The endpoint of a path, if it has one.
#[tactic(auto, unfolding(crate::specs::Routes::endpoint_of))]
fn endpoint_in(router: &Router<Endpoint>, path: &str) -> Option<Endpoint>
    requires { router.now ≡ route_rows }
    ensures { result ≡ spec.endpoint_of path.now }
{
    match router.at(path) {
        Ok(found) => Some(*found.value),
        Err(_) => None,
    }
}

/// The routes of the server, in a router that is made when a path is first looked up, and kept.
#[derive(Drop)]
pub struct Routes {
    alloc: Global,
    router: Option<Router<Endpoint>>,
    ghost whole: { IfSome router (λ router. router ≡ route_rows) } by { Prim.hlevel props },
}

impl Routes {
    /// No path was looked up yet.
    pub fn new(alloc: Global) -> Routes {
        Routes {
            alloc,
            router: None,
        }
    }

    /// What their memory comes from.
    pub fn alloc(&self) -> Global {
        self.alloc
    }

    /// The endpoint of a path, if it has one. An error means that memory ran out; then the next
    /// look tries again.
    pub fn endpoint_at(&mut self, path: &str) -> Result<Option<Endpoint>, AllocError>
        ensures { IfOk result (λ found. found ≡ spec.endpoint_of path.now) }
    {
        if let Some(router) = &self.router {
            return Ok(endpoint_in(router, path));
        }
        let Ok(router) = endpoints(self.alloc) else {
            return Err(AllocError);
        };
        let found = endpoint_in(&router, path);
        self.router = Some(router);
        Ok(found)
    }
}
