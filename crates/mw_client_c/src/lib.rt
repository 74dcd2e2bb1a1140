//! The lines that a client sends and the replies that it reads, for programs in C: those of mw_client, as a static
//! library.
//!
//! clients/c/proved.h declares each function. A slice is a pointer, never null, and then its number of elements.
//!
//! Used by: clients/c. A new request or reply needs a function or a kind here.
#![tactic(auto)]

ghost use Rattle.std.specs.Prelude.{◌≡◌, ◌⊎◌, ◌≤◌, ◌<◌, ◌++◌, zero, codes, length, map, take, IfSome, IsTrue, None};
ghost use Rattle.mw_words.specs.declared.limits.TheConstants.{MAX_ENTRIES, MAX_WORDS};
ghost use Rattle.mw_words.specs.Change.{is_change};
ghost use Rattle.mw_words.specs.Name.{is_name};
ghost use Rattle.mw_line.specs.Grammar.{Cas, Get, Tenant};
ghost use Rattle.mw_line.specs.Limits.{command_of};
ghost use Rattle.mw_line.specs.declared.replies.Say.{Say as SayRead};
ghost use Rattle.mw_client.specs.RequestLines.{IsSendable};
ghost use Rattle.mw_client.specs.ReplyGrammar.{Says};
ghost use Rattle.mw_client_c.specs.Crossing as spec;

mod shapes;

use mw_client::{read_reply, request_text};
use mw_line::{Request, Say};
use mw_words::{Entries, Entry, Job, MAX_ENTRIES, MAX_WORDS, Name, Reply, is_name};
pub use shapes::{LineEntry, LineReply};

/// Writes the line that asks for a tenant. Gives how many bytes it has; 0 if this is no name, or there is no room.
#[unsafe(no_mangle)]
pub extern "C" fn mw_client_c_tenant(name: &[u8], line: &mut [u8]) -> usize
    ensures { spec.IsWrittenIf (is_name name.now) (Tenant name.now) line.old line.new result }
{
    if !is_name(name) {
        return 0;
    }
    let mut own = Name::new();
    own.try_extend_from_slice(name).unwrap();
    put_line(line, &Request::Tenant(own))
}

/// Writes the line that asks for a word. Gives how many bytes it has; 0 if no tenant has the address, or there is no room.
#[unsafe(no_mangle)]
pub extern "C" fn mw_client_c_get(address: u16, line: &mut [u8]) -> usize
    ensures { spec.IsWrittenIf (spec.is_address address) (Get address) line.old line.new result }
{
    if address < MAX_WORDS {
        put_line(line, &Request::Job(Job::Get(address)))
    } else {
        0
    }
}

/// Writes the line of a change. Gives how many bytes it has; 0 if the entries are no change, or there is no room.
#[unsafe(no_mangle)]
pub extern "C" fn mw_client_c_cas(entries: &[LineEntry], line: &mut [u8]) -> usize
    ensures { spec.IsWrittenIf (is_change MAX_WORDS (map spec.entry_of entries.now)) (Cas (map spec.entry_of entries.now)) line.old line.new result }
{
    if MAX_ENTRIES < entries.len() {
        return 0;
    }
    let job = Job::Cas(entries_of(entries));
    if !job.is_well_formed(MAX_WORDS as usize) {
        return 0;
    }
    put_line(line, &Request::Job(job))
}

/// Tells which reply a line is, which comes without its line feed. Its kind is 0 if it is none.
#[unsafe(no_mangle)]
pub extern "C" fn mw_client_c_reply(line: &[u8]) -> LineReply
    ensures read { (result ≡ spec.nothing) ⊎ ((said : SayRead) × Says said line.now × (result ≡ spec.shown said)) }
    ensures whole { (said : SayRead) → Says said line.now → result ≡ spec.shown said }
{
    told(read_reply(line))
}

fn put_line(line: &mut [u8], request: &Request) -> usize
    requires { IsSendable request.now }
    ensures { spec.IsWritten (command_of request.now) line.old line.new result }
{
    let text = request_text(request);
    if line.len() < text.len() {
        return 0;
    }
    line[..text.len()].copy_from_slice(&text);
    text.len()
}

fn entries_of(given: &[LineEntry]) -> Entries
    requires { length given.now ≤ MAX_ENTRIES }
    ensures { result.items ≡ map spec.entry_of given.now }
{
    let mut entries = Entries::new();
    for i in 0..given.len() {
        entries.push(Entry {
            addr: given[i].address,
            expected: given[i].expected,
            new: given[i].value,
        });
    }
    entries
}

fn told(said: Option<Say>) -> LineReply
    ensures { result ≡ spec.told said }
{
    match said {
        Some(said) => shown(said),
        None => reply_of(0, 0, 0),
    }
}

fn shown(said: Say) -> LineReply
    ensures { result ≡ spec.shown said }
{
    match said {
        Say::Ok(words) => reply_of(1, 0, u64::from(words)),
        Say::OkAdmin => reply_of(2, 0, 0),
        Say::Bye => reply_of(3, 0, 0),
        Say::Err(fault) => reply_of(4, 0, u64::from(fault.number())),
        Say::Store(reply) => shown_reply(reply),
    }
}

fn shown_reply(reply: Reply) -> LineReply
    ensures { result ≡ spec.shown_reply reply }
{
    match reply {
        Reply::Val(value) => reply_of(5, 0, value),
        Reply::Yes => reply_of(6, 0, 0),
        Reply::No(address, value) => reply_of(7, address, value),
        Reply::Busy => reply_of(8, 0, 0),
        Reply::Fault => reply_of(9, 0, 0),
        Reply::Worn => reply_of(10, 0, 0),
    }
}

fn reply_of(kind: u8, address: u16, number: u64) -> LineReply
    ensures { result ≡ spec.reply_of kind address number }
{
    LineReply {
        kind,
        address,
        number,
    }
}
