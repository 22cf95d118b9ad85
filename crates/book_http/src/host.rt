//! Whom a request is for, and who sent it: this machine, by its own names, or another host or site.

ghost use Rattle.std.specs.Prelude.{◌≡◌, All, length, map};
ghost use Rattle.std.specs.Char.{is_ascii_digit};
ghost use Rattle.std.specs.List.{list_all};
ghost use Rattle.httparse.specs.Spans.{IsHeaderWithin, header_bytes};
ghost use Rattle.book_http.specs.Hosts as spec;

use crate::framing::is_field_named;
use httparse::spans::HeaderSpan;

/// The name of the field that gives the host.
const HOST: &str = "host";

/// The name of the field in which a browser says how near the page is that makes it ask, and the
/// value of one elsewhere.
const FETCH_SITE: &str = "sec-fetch-site";

const CROSS_SITE: &str = "cross-site";

/// Each byte is a digit.
fn are_digits(bytes: &[u8]) -> bool
    ensures { result ≡ list_all is_ascii_digit bytes.now }
{
    bytes.iter().all(|digit| digit.is_ascii_digit())
}

/// A port follows a name, or nothing does.
fn is_port(rest: &[u8]) -> bool
    ensures { result ≡ spec.is_port rest.now }
{
    match rest.split_first() {
        Some((colon, digits)) => *colon == b':' && are_digits(digits),
        None => true,
    }
}

/// The host is this name, in any case, with a port or without one.
fn is_host_named(host: &[u8], name: &str) -> bool
    ensures { result ≡ spec.is_host_named name.now host.now }
{
    let end = name.len();
    end <= host.len() && is_field_named(&host[..end], name) && is_port(&host[end..])
}

/// The host is this machine.
#[tactic(auto, unfolding(crate::specs::Hosts::is_local))]
fn is_local(host: &[u8]) -> bool
    ensures { result ≡ spec.is_local host.now }
{
    is_host_named(host, "127.0.0.1")
        || is_host_named(host, "localhost")
        || is_host_named(host, "[::1]")
}

/// The field gives another host.
fn is_other_host(name: &[u8], value: &[u8]) -> bool
    ensures { result ≡ spec.is_other_host (name.now, value.now) }
{
    is_field_named(name, HOST) && !is_local(value)
}

/// The field says that a page of another site makes a browser ask.
fn is_other_site(name: &[u8], value: &[u8]) -> bool
    ensures { result ≡ spec.is_other_site (name.now, value.now) }
{
    is_field_named(name, FETCH_SITE) && is_field_named(value, CROSS_SITE)
}

/// The field gives another host, or another site.
fn is_foreign_field(name: &[u8], value: &[u8]) -> bool
    ensures { result ≡ spec.is_foreign_field (name.now, value.now) }
{
    is_other_host(name, value) || is_other_site(name, value)
}

/// A head is for another host, or from another site, by one of its fields.
pub fn is_foreign(bytes: &[u8], fields: &[HeaderSpan]) -> bool
    requires { All (IsHeaderWithin (length bytes.now)) fields.now }
    ensures { result ≡ spec.has_foreign_field (map (header_bytes bytes.now) fields.now) }
{
    for field in fields {
        if is_foreign_field(field.name.of(bytes), field.value.of(bytes)) {
            return true;
        }
    }
    false
}
