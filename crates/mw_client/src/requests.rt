//! Writes the line that a client sends for a request.
//!
//! Used by: `administrator`, `conversation`, mwbench, mw_client_c. A new request needs a case here and in
//! `specs/Grammar` of mw_line, and a function in mw_client_c.
ghost use Rattle.std.specs.Prelude.{◌≡◌, ◌+◌, ◌*◌, ◌≤◌, ◌<◌, ◌++◌, [], All, decimal, flat_map, length};
ghost use Rattle.mw_line.specs.Grammar.{Get, spaced, spelling};
ghost use Rattle.mw_line.specs.Limits.{command_of};
ghost use Rattle.mw_client.specs.RequestLines.{HasValues, IsSendable, request_line};

use arrayvec::ArrayVec;
use itoa::Buffer;
use mw_line::Request;
use mw_words::{Entry, Job, MAX_ENTRIES, MAX_LINE};

/// The room for the line of a request with its line feed, in bytes.
pub const MAX_SENT: usize = MAX_LINE + 1;

/// The bytes of a change's command, before its entries.
const COMMAND: usize = 3;

/// The most bytes of an entry with the space before it.
const MAX_ENTRY: usize = 38;

/// A line that is sent, with its line feed.
pub type LineText = ArrayVec<u8, MAX_SENT>;

/// Gives the line of a request, with its line feed. The request must keep the limits of the protocol: its
/// name is a name, and its job is well formed for a tenant with the most words.
pub fn request_text(request: &Request) -> LineText
    requires { IsSendable request.now }
    ensures { result.items ≡ request_line request.now }
{
    let mut text = LineText::new();
    put_command(&mut text, request);
    put(&mut text, b"\n");
    text
}

#[tactic(auto, using(crate::proofs::Widths::widths))]
fn put_command(text: &mut LineText, request: &Request)
    requires sendable { IsSendable request.now }
    requires empty { text.old.items ≡ [] }
    ensures command { text.new.items ≡ spelling (command_of request.now) }
    ensures room { length text.new.items < MAX_SENT }
{
    match request {
        Request::Tenant(name) => {
            put(text, b"TENANT ");
            put(text, name);
        }
        Request::Admin => put(text, b"ADMIN"),
        Request::Job(Job::Get(addr)) => put_get(text, *addr),
        Request::Job(Job::Cas(entries)) => {
            put(text, b"CAS");
            put_entries(text, entries);
        }
        Request::Report => put(text, b"REPORT"),
        Request::Quit => put(text, b"QUIT"),
    }
}

#[tactic(auto, using(crate::proofs::Widths::widths))]
fn put_get(text: &mut LineText, addr: u16)
    requires { text.old.items ≡ [] }
    ensures command { text.new.items ≡ spelling (Get addr) }
    ensures room { length text.new.items < MAX_SENT }
{
    put(text, b"GET ");
    put_number(text, u64::from(addr));
}

fn put_entries(text: &mut LineText, entries: &[Entry])
    requires values { All HasValues entries.now }
    requires few { length entries.now ≤ MAX_ENTRIES }
    requires room { length text.old.items ≤ COMMAND }
    ensures entries { text.new.items ≡ text.old.items ++ flat_map spaced entries.now }
    ensures room { length text.new.items ≤ COMMAND + MAX_ENTRY * MAX_ENTRIES }
{
    for entry in entries {
        put_entry(text, entry);
    }
}

#[tactic(auto, using(crate::proofs::Widths::widths))]
fn put_entry(text: &mut LineText, entry: &Entry)
    requires values { HasValues entry.now }
    requires room { length text.old.items + MAX_ENTRY ≤ MAX_SENT }
    ensures entry { text.new.items ≡ text.old.items ++ spaced entry.now }
    ensures room { length text.new.items ≤ length text.old.items + MAX_ENTRY }
{
    put(text, b" ");
    put_number(text, u64::from(entry.addr));
    put(text, b":");
    put_number(text, entry.expected);
    put(text, b":");
    put_number(text, entry.new);
}

fn put_number(text: &mut LineText, number: u64)
    requires { length text.old.items + length (decimal number) ≤ MAX_SENT }
    ensures number { text.new.items ≡ text.old.items ++ decimal number }
    ensures room { length text.new.items ≡ length text.old.items + length (decimal number) }
{
    let mut buffer = Buffer::new();
    put(text, buffer.format(number).as_bytes());
}

fn put(text: &mut LineText, bytes: &[u8])
    requires { length text.old.items + length bytes.now ≤ MAX_SENT }
    ensures bytes { text.new.items ≡ text.old.items ++ bytes.now }
    ensures room { length text.new.items ≡ length text.old.items + length bytes.now }
{
    text.try_extend_from_slice(bytes).unwrap();
}
