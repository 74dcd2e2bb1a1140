//! Writes the lines that the server says to a client: replies, and errors with their numbers.
//!
//! Used by: mw_session, mw_client, mw_client_c, mwbench, mwreplay. A new [`Say`] or [`ErrCode`] needs its text in
//! `specs/Replies`, and cases in mw_client and mw_client_c. The texts are the protocol: docs/PROTOCOL, and the clients of each
//! language. [`MAX_REPLY`] must be as long as the longest.
ghost use Rattle.std.specs.Prelude.{◌≡◌, ◌+◌, ◌≤◌, ◌<◌, ◌++◌, [], decimal, length};
ghost use Rattle.mw_line.specs.Replies as spec;
ghost use Rattle.mw_line.specs.Replies.{fault_of};

use crate::requests::LineFault;
use arrayvec::ArrayVec;
use itoa::Buffer;
use mw_words::Reply;

/// Room for the text of a [`Say`], with its line feed, in bytes.
pub const MAX_REPLY: usize = 32;

/// Why a line is refused.
#[derive(Clone, Copy, PartialEq, Eq)]
pub enum ErrCode {
    /// The line has more than [`mw_words::MAX_LINE`] bytes. The session ends.
    LineTooLong,
    /// The line isn't in the grammar.
    NotACommand,
    /// The session isn't bound yet.
    NotBound,
    /// The session is bound already.
    AlreadyBound,
    /// No tenant has this name.
    NoSuchTenant,
    /// No tenant can have this address, or this tenant has no word there.
    AddressRange,
    /// An address isn't above the one before it.
    AddressOrder,
    /// A change has too many entries.
    TooManyEntries,
    /// An expected or a new value is too large for a word.
    ValueRange,
    /// A session of this kind may not ask for this.
    WrongSession,
}

impl ErrCode {
    /// The number of the fault in the protocol, from 1 to 10.
    pub fn number(self) -> u8
        ensures { result ≡ spec.number_of self }
    {
        match self {
            ErrCode::LineTooLong => 1,
            ErrCode::NotACommand => 2,
            ErrCode::NotBound => 3,
            ErrCode::AlreadyBound => 4,
            ErrCode::NoSuchTenant => 5,
            ErrCode::AddressRange => 6,
            ErrCode::AddressOrder => 7,
            ErrCode::TooManyEntries => 8,
            ErrCode::ValueRange => 9,
            ErrCode::WrongSession => 10,
        }
    }
}

impl From<LineFault> for ErrCode {
    ghost from_gives = { λ fault answer. answer ≡ fault_of fault };

    fn from(fault: LineFault) -> ErrCode {
        match fault {
            LineFault::NotACommand => ErrCode::NotACommand,
            LineFault::AddressRange => ErrCode::AddressRange,
            LineFault::AddressOrder => ErrCode::AddressOrder,
            LineFault::TooManyEntries => ErrCode::TooManyEntries,
            LineFault::ValueRange => ErrCode::ValueRange,
        }
    }
}

/// One line of an answer.
#[derive(Clone, Copy, PartialEq, Eq)]
pub enum Say {
    /// The session is bound to a tenant from now on, which has so many words.
    Ok(u16),
    /// The session is bound to the administrator from now on.
    OkAdmin,
    /// The reply to a job.
    Store(Reply),
    /// The session ends, as the client asked.
    Bye,
    /// The line was refused.
    Err(ErrCode),
}

/// A line of an answer as bytes, with its line feed.
type Text = ArrayVec<u8, MAX_REPLY>;

impl Say {
    /// Gives the line as bytes, with its line feed.
    #[tactic(auto, using(crate::proofs::Printed::printed_long))]
    pub fn text(&self) -> ArrayVec<u8, MAX_REPLY>
        ensures { result.items ≡ spec.text_of self.now }
    {
        let mut text = Text::new();
        match self {
            Say::Ok(words) => {
                put(&mut text, b"OK ");
                put_number(&mut text, u64::from(*words));
            }
            Say::OkAdmin => put(&mut text, b"OK ADMIN"),
            Say::Store(reply) => put_reply(&mut text, *reply),
            Say::Bye => put(&mut text, b"BYE"),
            Say::Err(fault) => {
                put(&mut text, b"ERR ");
                put_number(&mut text, u64::from(fault.number()));
            }
        }
        put(&mut text, b"\n");
        text
    }
}

#[tactic(auto, using(crate::proofs::Printed::printed_long, crate::proofs::Printed::printed_short))]
fn put_reply(text: &mut Text, reply: Reply)
    requires { text.old.items ≡ [] }
    ensures words { text.new.items ≡ spec.reply_text reply }
    ensures room { length text.new.items < MAX_REPLY }
{
    match reply {
        Reply::Val(value) => {
            put(text, b"VAL ");
            put_number(text, value);
        }
        Reply::Yes => put(text, b"YES"),
        Reply::No(addr, value) => {
            put(text, b"NO ");
            put_number(text, u64::from(addr));
            put(text, b" ");
            put_number(text, value);
        }
        Reply::Busy => put(text, b"BUSY"),
        Reply::Fault => put(text, b"FAULT"),
        Reply::Worn => put(text, b"WORN"),
    }
}

fn put(text: &mut Text, bytes: &[u8])
    requires { length text.old.items + length bytes.now ≤ MAX_REPLY }
    ensures { text.new.items ≡ text.old.items ++ bytes.now }
{
    text.try_extend_from_slice(bytes).unwrap();
}

fn put_number(text: &mut Text, number: u64)
    requires { length text.old.items + length (decimal number) ≤ MAX_REPLY }
    ensures { text.new.items ≡ text.old.items ++ decimal number }
{
    let mut buffer = Buffer::new();
    put(text, buffer.format(number).as_bytes());
}
