//! Reads a client's line as a request, or finds its first fault.
//!
//! Used by: many crates from mw_session on. mw_session reads lines by it, and mw_schedule the jobs of a schedule;
//! clients write a [`Request`]. Change it with `specs/Grammar`, and with `specs/Limits` and `specs/LineReader`, which
//! say which fault comes first. CONTRIBUTING lists under *A command* what a new request needs. docs/PROMISES cites
//! `read_line`.
ghost use Rattle.std.specs.Prelude.{◌≡◌, ◌↔◌, IfOk};
ghost use Rattle.mw_line.specs.Grammar.{Command, Spells};
ghost use Rattle.mw_line.specs.Limits.{first_fault, command_of, Answers, FitsLargestTenant};
ghost use Rattle.mw_line.specs.LineReader as spec;
ghost use Rattle.mw_line.specs.LineReader.{Answered, narrow};

use crate::changes::listing_of;
use crate::numbers::{address_at, behind};
use mw_words::{Job, MAX_WORDS, Name, is_name};

/// What a client asks for.
#[derive(PartialEq, Eq, Drop)]
pub enum Request {
    /// To bind the session to the tenant with this name.
    Tenant(Name),
    /// To bind the session to the administrator.
    Admin,
    /// A tenant's job.
    Job(Job),
    /// The administrator's report.
    Report,
    /// To end the session.
    Quit,
}

/// What is wrong with a line. The faults are looked for in this order, and the first is answered: no command, too
/// many entries, a value out of range, an address out of range, addresses out of order.
#[derive(Clone, Copy, PartialEq, Eq)]
pub enum LineFault {
    /// The line isn't in the grammar.
    NotACommand,
    /// An address is one that no tenant has: it is not below [`MAX_WORDS`].
    AddressRange,
    /// An address isn't above the one before it.
    AddressOrder,
    /// A change has more than [`mw_words::MAX_ENTRIES`] entries.
    TooManyEntries,
    /// An expected or a new value is above [`mw_words::MAX_VALUE`].
    ValueRange,
}

/// Reads a line, given without its line feed. A line may have any length here. It is one of these, with no other space
/// and nothing after it:
///
/// ```text
/// TENANT name          name: a to z, and then up to 15 of a to z, 0 to 9 and -
/// ADMIN
/// GET number           the address of a word
/// CAS entry entry ..   at least one; entry: address:expected:new, each of them a number
/// REPORT
/// QUIT
/// ```
///
/// A number is `0`, or a digit from 1 to 9 and then any digits.
///
/// # Errors
///
/// [`LineFault::NotACommand`] if the line is none of these. Else the first limit that the line breaks: see
/// [`LineFault`].
pub fn read_line(line: &[u8]) -> Result<Request, LineFault>
    // A request that is read is what the line says, and keeps the limits.
    ensures read { IfOk result (λ r. Spells (command_of r) line.now × (first_fault (command_of r) ≡ None)) }
    // A job that is read is well formed for a tenant with the most words.
    ensures fits { IfOk result FitsLargestTenant }
    // A line that says a command is answered by that command, or by the command's first fault.
    ensures answered { (c : Command) → Spells c line.now → Answers c result }
    // The answer is `NotACommand` exactly if the line says no command.
    ensures not_a_command { (result ≡ Err LineFault.NotACommand) ↔ ((c : Command) → ¬ Spells c line.now) }
{
    request_of(line)
}

#[tactic(auto, unfolding(crate::specs::LineReader::reading))]
fn request_of(line: &[u8]) -> Result<Request, LineFault>
    ensures { Answered (spec.reading narrow line.now) result }
{
    if let Some(name) = behind(b"TENANT ", line) {
        return tenant(name);
    }
    if let Some(addr) = behind(b"GET ", line) {
        return get(addr);
    }
    if let Some(entries) = behind(b"CAS", line) {
        return cas(entries);
    }
    one_word(line)
}

#[tactic(auto, unfolding(crate::specs::LineReader::tenant_of))]
fn tenant(name: &[u8]) -> Result<Request, LineFault>
    ensures { Answered (spec.tenant_of name.now) result }
{
    match Name::try_from(name) {
        Ok(bound) if is_name(name) => Ok(Request::Tenant(bound)),
        _ => Err(LineFault::NotACommand),
    }
}

#[tactic(auto, unfolding(crate::specs::LineReader::get_of))]
fn get(text: &[u8]) -> Result<Request, LineFault>
    ensures { Answered (spec.get_of narrow text.now) result }
{
    match address_at(text) {
        Some((addr, [])) if addr < MAX_WORDS => Ok(Request::Job(Job::Get(addr))),
        Some((_, [])) => Err(LineFault::AddressRange),
        _ => Err(LineFault::NotACommand),
    }
}

#[tactic(auto, unfolding(crate::specs::LineReader::cas_of))]
fn cas(text: &[u8]) -> Result<Request, LineFault>
    ensures { Answered (spec.cas_of narrow text.now) result }
{
    if text.is_empty() {
        return Err(LineFault::NotACommand);
    }
    let Some(listing) = listing_of(text) else {
        return Err(LineFault::NotACommand);
    };
    let entries = listing.change()?;
    Ok(Request::Job(Job::Cas(entries)))
}

#[tactic(auto, unfolding(crate::specs::LineReader::word_of))]
fn one_word(line: &[u8]) -> Result<Request, LineFault>
    ensures { Answered (spec.word_of line.now) result }
{
    match line {
        b"ADMIN" => Ok(Request::Admin),
        b"REPORT" => Ok(Request::Report),
        b"QUIT" => Ok(Request::Quit),
        _ => Err(LineFault::NotACommand),
    }
}
