//! What a path asks for.

ghost use Rattle.std.specs.Prelude.{◌≡◌, IfOk, IfSome, IsUtf8, Some, option_map};
ghost use Rattle.report_rows.specs.declared.about.About.{About};
ghost use Rattle.book_http.specs.declared.endpoint.Endpoint.{Endpoint};
ghost use Rattle.book_http.specs.Paths.{IsPathOf};
ghost use Rattle.book_http.specs.Routes as spec;

use crate::endpoint::{Endpoint, front_of, shape_of};
use crate::numbers::decimal_value;
use crate::routes::Routes;
use book_reports::name_of_text;
use office::centre_named;
use report_rows::{About, Shape};
use smf_text::{Name, day_of_text};
use std::alloc::AllocError;
use std::str;

/// The most digits of a period.
const PERIOD_DIGITS: usize = 4;

/// The period that a text names: 1 to 4 digits, the first of them no 0.
#[tactic(auto, unfolding(crate::specs::Routes::period))]
fn period(text: &[u8]) -> Option<u16>
    ensures { result ≡ spec.period text.now }
{
    if text.starts_with(b"0") {
        return None;
    }
    match decimal_value(PERIOD_DIGITS, text) {
        Some(period) => Some(period as u16),
        None => None,
    }
}

/// What a path has after its prefix.
fn path_rest<'a>(prefix: &str, path: &'a str) -> Option<&'a str>
    ensures { option_map (λ rest. rest.now) result ≡ spec.path_rest prefix.now path.now }
{
    path.strip_prefix(prefix)
}

/// A period of the whole office, if there is one.
fn period_of_all(number: Option<u16>) -> Option<(u16, Option<Name>)>
    ensures { result ≡ spec.period_of_all number }
{
    match number {
        Some(period) => Some((period, None)),
        None => None,
    }
}

/// A period of one centre, if there are both.
fn period_of_centre(number: Option<u16>, name: Option<Name>) -> Option<(u16, Option<Name>)>
    ensures { result ≡ spec.period_of_centre number name }
{
    match (number, name) {
        (Some(period), Some(centre)) => Some((period, Some(centre))),
        _ => None,
    }
}

/// The period that a text names, and the centre that it names after a slash, if there is a slash.
fn period_in(text: &str) -> Option<(u16, Option<Name>)>
    ensures { result ≡ spec.period_in text.now }
{
    match text.split_once('/') {
        None => period_of_all(period(text.as_bytes())),
        Some((number, name)) => period_of_centre(period(number.as_bytes()), centre_named(name)),
    }
}

/// What a text names in a path. The books are named by no text.
#[tactic(auto, unfolding(crate::specs::Routes::thing_in))]
fn thing_in(shape: Shape, text: &str) -> Option<About>
    ensures { result ≡ spec.thing_in shape text.now }
{
    match shape {
        Shape::OfCentre => {
            let (period, centre) = period_in(text)?;
            Some(About::OfCentre { period, centre })
        }
        Shape::OfPeriod => {
            let number = period(text.as_bytes())?;
            Some(About::OfPeriod(number))
        }
        Shape::OfOffice if text.is_empty() => Some(About::OfOffice),
        Shape::OfOffice => None,
        Shape::OfDay => {
            let day = day_of_text(text)?;
            Some(About::OfDay(day))
        }
        Shape::OfRecord => {
            let name = name_of_text(text)?;
            Some(About::OfRecord(name))
        }
    }
}

/// An endpoint with this front, and what a path names behind that.
fn asked_behind(place: Endpoint, front: &str, path: &str) -> Option<(Endpoint, About)>
    ensures { result ≡ spec.asked_behind place front.now path.now }
{
    let rest = path_rest(front, path)?;
    let thing = thing_in(shape_of(place), rest)?;
    Some((place, thing))
}

/// What a path asks for at an endpoint.
#[tactic(auto, unfolding(crate::specs::Routes::route_at))]
fn route_at(place: Endpoint, path: &str) -> Option<(Endpoint, About)>
    ensures { result ≡ spec.route_at place path.now }
{
    let front = front_of(place)?;
    asked_behind(place, front, path)
}

/// What a target asks for up to a question mark.
fn path_of(target: &str) -> &str
    ensures { result.now ≡ spec.path_of target.now }
{
    match target.split_once('?') {
        Some((path, _)) => path,
        None => target,
    }
}

/// The endpoint that the path of a target leads to, if it leads to one, and what it names there. An
/// error means that memory ran out.
pub fn find_route(
    routes: &mut Routes,
    target: &[u8],
) -> Result<Option<(Endpoint, About)>, AllocError>
    requires { IsUtf8 target.now }
    ensures value { IfOk result (λ found. found ≡ spec.route (spec.path_of target.now)) }
    // What is found is served at that path, and what is served there is found.
    ensures served { IfOk result (λ found. IfSome found (IsPathOf (spec.path_of target.now))) }
    ensures finds { IfOk result (λ found. (asked : Endpoint × About)
        → IsPathOf (spec.path_of target.now) asked → found ≡ Some asked) }
{
    let Ok(target) = str::from_utf8(target) else {
        return Ok(None);
    };
    let path = path_of(target);
    let Ok(found) = routes.endpoint_at(path) else {
        return Err(AllocError);
    };
    match found {
        Some(place) => Ok(route_at(place, path)),
        None => Ok(None),
    }
}
