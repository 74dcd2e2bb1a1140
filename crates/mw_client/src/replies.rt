//! Reads which reply of the server a line is.
//!
//! Used by: `conversation`, `report`, mw_client_c. A new reply of the server needs a case here, in
//! `specs/ReplyGrammar` and in mw_client_c.
ghost use Rattle.std.specs.Prelude.{◌≡◌, IfSome, None};
ghost use Rattle.mw_line.specs.declared.replies.Say.{Say as SayRead};
ghost use Rattle.mw_client.specs.ReplyGrammar as spec;
ghost use Rattle.mw_client.specs.ReplyGrammar.{Says};

use mw_line::{ErrCode, Say, address_at, behind, value_at};
use mw_words::{MAX_VALUE, MAX_WORDS, Reply};

/// Gives the reply that a line is. The line comes without its line feed. Gives None if it is no reply: each
/// reply has one text, with its numbers within the limits of the protocol.
pub fn read_reply(line: &[u8]) -> Option<Say>
    // The reply that is given has this line as its text.
    ensures read { IfSome result (λ say. Says say line.now) }
    // A line that is the text of a reply gives that reply.
    ensures whole { (say : SayRead) → Says say line.now → result ≡ Some say }
{
    reply_of(line)
}

#[tactic(auto, unfolding(crate::specs::ReplyGrammar::reading))]
fn reply_of(line: &[u8]) -> Option<Say>
    ensures { result ≡ spec.reading line.now }
{
    if let Some(say) = plain(line) {
        return Some(say);
    }
    if let Some(text) = behind(b"VAL ", line) {
        return value(text);
    }
    if let Some(text) = behind(b"NO ", line) {
        return miss(text);
    }
    if let Some(text) = behind(b"OK ", line) {
        return bound(text);
    }
    if let Some(text) = behind(b"ERR ", line) {
        return fault(text);
    }
    None
}

#[tactic(auto, unfolding(crate::specs::ReplyGrammar::plain_read))]
fn plain(line: &[u8]) -> Option<Say>
    ensures { result ≡ spec.plain_read line.now }
{
    if line == b"YES".as_slice() {
        Some(Say::Store(Reply::Yes))
    } else if line == b"BUSY".as_slice() {
        Some(Say::Store(Reply::Busy))
    } else if line == b"FAULT".as_slice() {
        Some(Say::Store(Reply::Fault))
    } else if line == b"WORN".as_slice() {
        Some(Say::Store(Reply::Worn))
    } else if line == b"BYE".as_slice() {
        Some(Say::Bye)
    } else {
        None
    }
}

/// Gives the number that is the whole text. A number of more than 64 bits is `u64::MAX`.
#[tactic(auto, unfolding(crate::specs::ReplyGrammar::number_of))]
pub(crate) fn number(text: &[u8]) -> Option<u64>
    ensures { result ≡ spec.number_of text.now }
{
    match value_at(text) {
        Some((number, [])) => Some(number),
        _ => None,
    }
}

#[tactic(auto, unfolding(crate::specs::ReplyGrammar::value_read))]
fn value(text: &[u8]) -> Option<Say>
    ensures { result ≡ spec.value_read text.now }
{
    match number(text) {
        Some(value) if value <= MAX_VALUE => Some(Say::Store(Reply::Val(value))),
        _ => None,
    }
}

#[tactic(auto, unfolding(crate::specs::ReplyGrammar::bound_read))]
fn bound(text: &[u8]) -> Option<Say>
    ensures { result ≡ spec.bound_read text.now }
{
    match number(text) {
        Some(words) if 1 <= words && words <= u64::from(MAX_WORDS) => Some(Say::Ok(words as u16)),
        Some(_) => None,
        None => admin(text),
    }
}

fn admin(text: &[u8]) -> Option<Say>
    ensures { result ≡ spec.bound_to None text.now }
{
    match text {
        b"ADMIN" => Some(Say::OkAdmin),
        _ => None,
    }
}

#[tactic(auto, unfolding(crate::specs::ReplyGrammar::miss_read))]
fn miss(text: &[u8]) -> Option<Say>
    ensures { result ≡ spec.miss_read text.now }
{
    let (addr, rest) = address_at(text)?;
    let value = number(behind(b" ", rest)?)?;
    if addr < MAX_WORDS && value <= MAX_VALUE {
        Some(Say::Store(Reply::No(addr, value)))
    } else {
        None
    }
}

#[tactic(auto, unfolding(crate::specs::ReplyGrammar::fault_read))]
fn fault(text: &[u8]) -> Option<Say>
    ensures { result ≡ spec.fault_read text.now }
{
    let fault = fault_numbered(number(text)?)?;
    Some(Say::Err(fault))
}

#[tactic(auto, unfolding(crate::specs::ReplyGrammar::fault_numbered))]
fn fault_numbered(number: u64) -> Option<ErrCode>
    ensures { result ≡ spec.fault_numbered number }
{
    match number {
        1 => Some(ErrCode::LineTooLong),
        2 => Some(ErrCode::NotACommand),
        3 => Some(ErrCode::NotBound),
        4 => Some(ErrCode::AlreadyBound),
        5 => Some(ErrCode::NoSuchTenant),
        6 => Some(ErrCode::AddressRange),
        7 => Some(ErrCode::AddressOrder),
        8 => Some(ErrCode::TooManyEntries),
        9 => Some(ErrCode::ValueRange),
        10 => Some(ErrCode::WrongSession),
        _ => None,
    }
}
