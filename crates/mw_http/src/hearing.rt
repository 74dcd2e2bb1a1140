//! Hears a request: reads its head, and tells what it asks for or why it is refused.
//!
//! Used by: `exchanges`, `receiving`, mw_server_pages. Change it with `specs/Hearing` and docs/HTTP, its limits with
//! scripts/http_parts/answer_rows.py too.
ghost use Rattle.std.specs.Prelude.{◌≡◌, ◌≤◌, ℕ, List, length, map, Some, All, codes};
ghost use Rattle.httparse.specs.Grammar.{RequestHead};
ghost use Rattle.httparse.specs.Spans.{IsHeaderWithin, IsWithin, header_bytes, span_bytes};
ghost use Rattle.http1.specs.declared.framing.Framing.{Framing};
ghost use Rattle.http1.specs.Message.{AcceptsRequest};
ghost use Rattle.mw_http.specs.Hearing.{Hears, limits};
ghost use Rattle.mw_http.specs.Hearing as spec;
ghost use Rattle.std.specs.Prelude.{string_bytes};

use crate::hosts::{have_own_hosts, have_valid_hosts};
use crate::status::Status;
use crate::targets::{Route, is_target, route_at};
use crate::texts::is_text;
use http1::{Event, Limits, ReadError, Server};
use httparse::spans::{EMPTY_HEADER_SPAN, HeaderSpan, RequestSpans};

/// The most bytes of a head, with the empty line at its end.
pub const MAX_HEAD: usize = 8192;

/// The most fields of a head.
pub const MAX_FIELDS: usize = 64;

/// What a request asks for.
#[derive(Drop)]
pub struct Request {
    /// What is asked for.
    pub route: Route,
    /// Whether the answer's content is asked for, and not its head alone.
    pub content: bool,
}

/// What some bytes say.
#[derive(Drop)]
pub enum Heard {
    /// No whole head yet.
    More,
    /// A request.
    Asked(Request),
    /// What is refused with this status.
    Refused(Status),
}

/// The limits of a head. No content is read.
const LIMITS: Limits = Limits {
    max_head_len: MAX_HEAD,
    max_extensions_len: 0,
    max_trailers_len: 2,
};

/// Hears what a client has sent so far. What comes after a head isn't looked at. Clients may call the server by one of these
/// names, in any case, by an address, by `localhost`, or by no name.
///
/// The status of a refusal is
///
/// | status | if |
/// |---|---|
/// | 400 | it is no head, its field `Host` or what it says of its content is wrong, or its target is no path |
/// | 404 | nothing is at the target |
/// | 405 | something is there, and the method is another one than `GET` and `HEAD` |
/// | 421 | its field `Host` has another name |
/// | 414 | its request line has not ended after [`MAX_HEAD`] bytes |
/// | 431 | its head has not ended then, or has more than [`MAX_FIELDS`] fields |
/// | 501 | the method is unknown |
pub fn hear(bytes: &[u8], names: &[String]) -> Heard
    ensures heard { Hears (map string_bytes names.now) bytes.now result }
    // A head that http1 accepts is answered by what it says.
    ensures whole { (h : RequestHead) (framing : Framing) (rest : List ℕ) → AcceptsRequest limits bytes.now h framing rest
        → length h.fields ≤ MAX_FIELDS → spec.told result ≡ Some (spec.answer_to (map string_bytes names.now) h) }
{
    let mut fields = [EMPTY_HEADER_SPAN; MAX_FIELDS];
    let mut server = Server::new(LIMITS);
    match server.read(bytes, &mut fields) {
        Ok(read) => match read.event {
            Event::Head(head) => answer(bytes, &head, &fields[..head.headers], names),
            _ => Heard::More,
        },
        Err(fault) => Heard::Refused(refusal_of(fault)),
    }
}

/// Gives the status that refuses a head that can't be read.
fn refusal_of(fault: ReadError) -> Status
    ensures { result ≡ spec.refusal_of fault }
{
    match fault.status() {
        414 => Status::UriTooLong,
        431 => Status::FieldsTooLarge,
        _ => Status::BadRequest,
    }
}

/// Answers a head that was read.
#[tactic(auto, unfolding(crate::specs::Hearing::answer_from))]
fn answer(bytes: &[u8], head: &RequestSpans, fields: &[HeaderSpan], names: &[String]) -> Heard
    requires method { IsWithin (length bytes.now) head.now.method }
    requires target { IsWithin (length bytes.now) head.now.path }
    requires fields { All (IsHeaderWithin (length bytes.now)) fields.now }
    ensures { spec.told result ≡ Some (spec.answer_from (map string_bytes names.now) (span_bytes bytes.now head.now.method) (span_bytes bytes.now head.now.path)
        (map (header_bytes bytes.now) fields.now)) }
{
    if !have_valid_hosts(bytes, fields) {
        return Heard::Refused(Status::BadRequest);
    }
    if !have_own_hosts(bytes, fields, names) {
        return Heard::Refused(Status::Misdirected);
    }
    answer_line(head.method.of(bytes), head.path.of(bytes))
}

#[tactic(auto, unfolding(crate::specs::Hearing::answer_line))]
fn answer_line(method: &[u8], target: &[u8]) -> Heard
    ensures { spec.told result ≡ Some (spec.answer_line method.now target.now) }
{
    if is_text(method, b"GET") {
        return found(target, true);
    }
    if is_text(method, b"HEAD") {
        return found(target, false);
    }
    if !is_other_method(method) {
        return Heard::Refused(Status::NotImplemented);
    }
    match route_at(target) {
        Some(_) => Heard::Refused(Status::MethodNotAllowed),
        None => Heard::Refused(Status::NotFound),
    }
}

#[tactic(auto, unfolding(crate::specs::Hearing::found))]
fn found(target: &[u8], content: bool) -> Heard
    ensures { spec.told result ≡ Some (spec.found target.now content) }
{
    if !is_target(target) {
        return Heard::Refused(Status::BadRequest);
    }
    match route_at(target) {
        Some(route) => Heard::Asked(Request { route, content }),
        None => Heard::Refused(Status::NotFound),
    }
}

/// Tells whether this is a method of RFC 9110, or `PATCH`, other than `GET` and `HEAD`.
#[tactic(auto, unfolding(crate::specs::Hearing::is_other_method))]
fn is_other_method(method: &[u8]) -> bool
    ensures { result ≡ spec.is_other_method method.now }
{
    is_text(method, b"POST")
        || is_text(method, b"PUT")
        || is_text(method, b"DELETE")
        || is_text(method, b"PATCH")
        || is_text(method, b"OPTIONS")
        || is_text(method, b"TRACE")
        || is_text(method, b"CONNECT")
}
