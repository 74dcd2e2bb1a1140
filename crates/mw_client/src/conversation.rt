//! Sends one request over a connection, and reads its reply.
//!
//! Used by: `administrator`, `client`, `report`, mwbench. It may change with `specs/Exchanges`, which its contracts cite.
ghost use Rattle.std.specs.Prelude.{◌≡◌, ◌++◌, [], ◌∷◌, codes, IfSome};
ghost use Rattle.std.specs.Io.KnownBytes.{Consumes};
ghost use Rattle.mw_line.specs.Replies.{text_of};
ghost use Rattle.mw_client.specs.RequestLines.{IsSendable};
ghost use Rattle.mw_client.specs.ReplyGrammar.{IsReply};
ghost use Rattle.mw_client.specs.Exchanges.{Exchanged};

use crate::replies::read_reply;
use crate::requests::request_text;
use arrayvec::ArrayVec;
use mw_line::{MAX_REPLY, Request, Say};
use std::io::{Read, Write};

/// The byte that ends a line.
pub(crate) const LINE_FEED: u8 = b'\n';

/// Sends a request and reads its reply of one line. It is for any request but that for a report. If nothing
/// comes it waits as long as the reader does. It asks the reader for a byte at a time, so the reader should
/// have a buffer.
///
/// Gives None if the line couldn't be sent whole, no whole line came, or the line is no reply. Then it
/// isn't known what was sent and read, so the connection must not be used again.
pub fn exchange<R: Read, W: Write>(reader: &mut R, writer: &mut W, request: &Request) -> Option<Say>
    requires { IsSendable request.now }
    ensures { IfSome result (Exchanged (R.remaining reader.old) (R.remaining reader.new)
        (W.contents writer.old) (W.contents writer.new) request.now) }
{
    let text = request_text(request);
    if writer.write_all(&text).is_err() {
        return None;
    }
    next_reply(reader)
}

/// Reads the next reply. Gives None if no whole line came, or the line is no reply.
pub fn next_reply<R: Read>(reader: &mut R) -> Option<Say>
    ensures heard { IfSome result (λ said. Consumes (R.remaining reader.old) (R.remaining reader.new) (text_of said)) }
    ensures reply { IfSome result IsReply }
{
    let Some(line) = next_line(reader) else {
        return None;
    };
    read_reply(&line)
}

/// Reads the next line, and gives it without its line feed. Gives None if the reader ends or fails before,
/// or the line is longer than a reply may be.
fn next_line<R: Read>(reader: &mut R) -> Option<ArrayVec<u8, MAX_REPLY>>
    ensures { IfSome result (λ line. Consumes (R.remaining reader.old) (R.remaining reader.new) (line.items ++ codes "\n")) }
{
    let mut line = ArrayVec::new();
    for _ in 0..MAX_REPLY {
        match next_byte(reader) {
            Some(LINE_FEED) => return Some(line),
            Some(byte) => line.push(byte),
            None => return None,
        }
    }
    None
}

/// Reads the next byte. Gives None if the reader ends or fails before.
pub(crate) fn next_byte<R: Read>(reader: &mut R) -> Option<u8>
    ensures { IfSome result (λ byte. Consumes (R.remaining reader.old) (R.remaining reader.new) (byte ∷ [])) }
{
    let mut one = [0; 1];
    match reader.read_exact(&mut one) {
        Ok(()) => Some(one[0]),
        Err(_) => None,
    }
}
