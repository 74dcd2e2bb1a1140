//! Writes the head of an answer: its status, what its content is and how long, and that the connection is closed.
//!
//! Used by: `exchanges`, `pages`, mw_server_pages. Change it with `specs/Heads`. scripts/http_parts
//! (`TYPES` of server.py, answer_rows.py) expects its lines.
ghost use Rattle.std.specs.Prelude.{◌≡◌, ◌+◌, ◌≤◌, ◌++◌, length, codes, decimal};
ghost use Rattle.mw_http.specs.Heads as spec;

use crate::status::{MAX_REASON, Status};
use arrayvec::ArrayVec;
use itoa::Buffer;

/// The most bytes of an answer's head.
pub const MAX_ANSWER_HEAD: usize = 256;

/// The most bytes of a date.
pub const MAX_DATE: usize = 29;

/// The head of an answer.
pub type AnswerHead = ArrayVec<u8, MAX_ANSWER_HEAD>;

/// What the content of an answer is.
#[derive(Clone, Copy, PartialEq, Eq)]
pub enum ContentType {
    /// A plain text.
    Text,
    /// A page.
    Html,
    /// Figures in the text format of Prometheus.
    Metrics,
    /// Bytes, as of a file.
    Bytes,
    /// How a page looks.
    Style,
    /// The script of a page.
    Script,
}

/// The content of an answer: what it is, and how many bytes it has.
#[derive(Clone, Copy)]
pub struct Content {
    pub kind: ContentType,
    pub length: u64,
}

#[tactic(auto, unfolding(crate::specs::Heads::type_text))]
impl ContentType {
    fn text(self) -> &'static [u8]
        ensures text { result.now ≡ spec.type_text self }
        ensures short { length result.now ≤ 41 }
    {
        match self {
            ContentType::Text => b"text/plain; charset=utf-8",
            ContentType::Html => b"text/html; charset=utf-8",
            ContentType::Metrics => b"text/plain; version=0.0.4; charset=utf-8",
            ContentType::Bytes => b"application/octet-stream",
            ContentType::Style => b"text/css; charset=utf-8",
            ContentType::Script => b"text/javascript; charset=utf-8",
        }
    }
}

/// Gives the head of an answer. The date is that of the answer as RFC 9110 writes it, with at most [`MAX_DATE`] bytes, or
/// empty if it isn't known. `content` is what the answer to a `GET` has, also in the answer to a `HEAD`; None: nothing. It
/// takes no memory.
#[tactic(auto, unfolding(crate::specs::Heads::head))]
pub fn answer_head(status: Status, date: &[u8], content: Option<Content>) -> AnswerHead
    requires { length date.now ≤ MAX_DATE }
    ensures { result.items ≡ spec.head status date.now content }
{
    let mut head = AnswerHead::new();
    put_status(&mut head, status);
    put_date(&mut head, date);
    put_allowed(&mut head, status);
    put_content(&mut head, content);
    put_field(&mut head, b"Connection", b"close");
    put(&mut head, b"\r\n");
    head
}

#[tactic(auto, unfolding(crate::specs::Heads::status_line), using(crate::proofs::Widths::widths))]
fn put_status(head: &mut AnswerHead, status: Status)
    requires room { length head.old.items + 46 ≤ MAX_ANSWER_HEAD }
    ensures line { head.new.items ≡ head.old.items ++ spec.status_line status }
    ensures room { length head.new.items ≤ length head.old.items + 46 }
{
    let mut buffer = Buffer::new();
    let code = buffer.format(status.code()).as_bytes();
    put(head, b"HTTP/1.1 ");
    put(head, code);
    put(head, b" ");
    put(head, status.reason());
    put(head, b"\r\n");
}

#[tactic(auto, unfolding(crate::specs::Heads::date_line))]
fn put_date(head: &mut AnswerHead, date: &[u8])
    requires date { length date.now ≤ MAX_DATE }
    requires room { length head.old.items + 37 ≤ MAX_ANSWER_HEAD }
    ensures line { head.new.items ≡ head.old.items ++ spec.date_line date.now }
    ensures room { length head.new.items ≤ length head.old.items + 37 }
{
    if !date.is_empty() {
        put_field(head, b"Date", date);
    }
}

#[tactic(auto, unfolding(crate::specs::Heads::allow_line))]
fn put_allowed(head: &mut AnswerHead, status: Status)
    requires room { length head.old.items + 18 ≤ MAX_ANSWER_HEAD }
    ensures line { head.new.items ≡ head.old.items ++ spec.allow_line status }
    ensures room { length head.new.items ≤ length head.old.items + 18 }
{
    if status.code() == 405 {
        put_field(head, b"Allow", b"GET, HEAD");
    }
}

#[tactic(auto, unfolding(crate::specs::Heads::content_lines))]
fn put_content(head: &mut AnswerHead, content: Option<Content>)
    requires room { length head.old.items + 95 ≤ MAX_ANSWER_HEAD }
    ensures lines { head.new.items ≡ head.old.items ++ spec.content_lines content }
    ensures room { length head.new.items ≤ length head.old.items + 95 }
{
    match content {
        None => put_field(head, b"Content-Length", b"0"),
        Some(content) => put_described(head, content),
    }
}

#[tactic(auto, unfolding(crate::specs::Heads::described))]
fn put_described(head: &mut AnswerHead, content: Content)
    requires room { length head.old.items + 95 ≤ MAX_ANSWER_HEAD }
    ensures lines { head.new.items ≡ head.old.items ++ spec.described content }
    ensures room { length head.new.items ≤ length head.old.items + 95 }
{
    put_field(head, b"Content-Type", content.kind.text());
    put_length(head, content.length);
}

#[tactic(auto, using(crate::proofs::Widths::widths))]
fn put_length(head: &mut AnswerHead, count: u64)
    requires room { length head.old.items + 38 ≤ MAX_ANSWER_HEAD }
    ensures line { head.new.items ≡ head.old.items ++ spec.field (codes "Content-Length") (decimal count) }
    ensures room { length head.new.items ≤ length head.old.items + 38 }
{
    let mut buffer = Buffer::new();
    put_field(head, b"Content-Length", buffer.format(count).as_bytes());
}

#[tactic(auto, unfolding(crate::specs::Heads::field))]
fn put_field(head: &mut AnswerHead, name: &[u8], value: &[u8])
    requires { length head.old.items + length name.now + length value.now + 4 ≤ MAX_ANSWER_HEAD }
    ensures line { head.new.items ≡ head.old.items ++ spec.field name.now value.now }
    ensures room { length head.new.items ≡ length head.old.items + length name.now + length value.now + 4 }
{
    put(head, name);
    put(head, b": ");
    put(head, value);
    put(head, b"\r\n");
}

fn put(head: &mut AnswerHead, bytes: &[u8])
    requires { length head.old.items + length bytes.now ≤ MAX_ANSWER_HEAD }
    ensures bytes { head.new.items ≡ head.old.items ++ bytes.now }
    ensures room { length head.new.items ≡ length head.old.items + length bytes.now }
{
    head.try_extend_from_slice(bytes).unwrap();
}
