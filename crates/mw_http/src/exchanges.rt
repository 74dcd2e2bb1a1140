//! One exchange with a client: its request, and the answer.
//!
//! Used by: mw_connections, which makes one with each client of the pages. `specs/Exchanges` says what it promises,
//! `specs/Calls` what it may ask of the pages: change them together.
ghost use Rattle.std.specs.Prelude.{◌≡◌, map, string_bytes};
ghost use Rattle.mw_session.specs.KnownStreams.{reads_of, writes_of};
ghost use Rattle.mw_http.specs.Targets.{place_of};
ghost use Rattle.mw_http.specs.Calls.{AreAnswered};
ghost use Rattle.mw_http.specs.Exchanges.{Answers, IsExchange, Refuses, Sends, answer_text};

use crate::heads::{Content, answer_head};
use crate::hearing::Request;
use crate::pages::{Date, Page, Pages};
use crate::receiving::{Came, receive_from};
use crate::status::Status;
use crate::writing::write_all;
use mw_session::{PeerStream, RecordedStream};
use std::sync::Wait;

/// How an exchange ended.
#[derive(Clone, Copy, PartialEq, Eq)]
pub enum Exchanged {
    /// The client was answered, and took all of the answer.
    Answered,
    /// The client sent no whole head, and nothing was written.
    Unanswered,
    /// A write failed, or took nothing, before all of the answer was taken.
    WriteFault,
}

/// Receives a request, and answers it. Clients may call the server by these names, as [`crate::hear`] says.
///
/// The answer has the status, the type and the length of the page for what is asked for, and to `GET` its body. What is no
/// request is refused with the status that says why, and one that doesn't come in time with 408. If the client sends no
/// more before a head is whole, or a read fails otherwise, there is no answer.
pub fn exchange<T: PeerStream, R: Wait, P: Pages>(
    rt: &R,
    stream: &mut RecordedStream<T>,
    pages: &mut P,
    names: &[String],
) -> Exchanged
    ensures exchange { IsExchange (map string_bytes names.now) (reads_of stream.old) (reads_of stream.new) (writes_of stream.old) (writes_of stream.new)
        (AreAnswered P.answered pages.old pages.new) result }
{
    match receive_from(rt, stream, names) {
        Came::Asked(request) => answer(rt, stream, pages, &request),
        Came::Refused(status) => refuse(rt, stream, pages, status),
        Came::Late => refuse(rt, stream, pages, Status::RequestTimeout),
        Came::Ended | Came::Failed => Exchanged::Unanswered,
    }
}

/// Answers a request by its page.
fn answer<T: PeerStream, R: Wait, P: Pages>(
    rt: &R,
    stream: &mut RecordedStream<T>,
    pages: &mut P,
    request: &Request,
) -> Exchanged
    ensures answers { Answers (place_of request.now.route) request.now.content (writes_of stream.old) (writes_of stream.new)
        (AreAnswered P.answered pages.old pages.new) result }
    ensures reads { reads_of stream.new ≡ reads_of stream.old }
{
    let page = pages.page(&request.route);
    let date = pages.date();
    send_page(rt, stream, &page, &date, request.content)
}

/// Writes an answer by this page, with its body if that is asked for.
fn send_page<T: PeerStream, R: Wait>(
    rt: &R,
    stream: &mut RecordedStream<T>,
    page: &Page,
    date: &Date,
    content: bool,
) -> Exchanged
    ensures sends { Sends (writes_of stream.old) (writes_of stream.new) (answer_text page.now content date.now.items) result }
    ensures reads { reads_of stream.new ≡ reads_of stream.old }
{
    let described = Content {
        kind: page.kind,
        length: page.body.len() as u64,
    };
    let head = answer_head(page.status, date, Some(described));
    if !write_all(rt, stream, &head) {
        return Exchanged::WriteFault;
    }
    if !content {
        return Exchanged::Answered;
    }
    send(rt, stream, &page.body)
}

/// Writes a text.
fn send<T: PeerStream, R: Wait>(rt: &R, stream: &mut RecordedStream<T>, text: &[u8]) -> Exchanged
    ensures sends { Sends (writes_of stream.old) (writes_of stream.new) text.now result }
    ensures reads { reads_of stream.new ≡ reads_of stream.old }
{
    if write_all(rt, stream, text) {
        Exchanged::Answered
    } else {
        Exchanged::WriteFault
    }
}

/// Answers what is no request by a status.
fn refuse<T: PeerStream, R: Wait, P: Pages>(
    rt: &R,
    stream: &mut RecordedStream<T>,
    pages: &mut P,
    status: Status,
) -> Exchanged
    ensures refuses { Refuses status (writes_of stream.old) (writes_of stream.new) (AreAnswered P.answered pages.old pages.new) result }
    ensures reads { reads_of stream.new ≡ reads_of stream.old }
{
    let head = answer_head(status, &pages.date(), None);
    send(rt, stream, &head)
}
