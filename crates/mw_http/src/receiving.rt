//! Receives a request from a client's stream.
//!
//! `exchanges.rt` calls it. `specs/Exchanges` says what was read: change both together.
ghost use Rattle.std.specs.Prelude.{◌≡◌, ◌+◌, ◌<◌, ◌≤◌, length, map, string_bytes};
ghost use Rattle.mw_session.specs.KnownStreams.{reads_of, writes_of};
ghost use Rattle.mw_session.specs.StreamRecords.{ReadRecord, with_read};
ghost use Rattle.mw_http.specs.Hearing.{NeedMore};
ghost use Rattle.mw_http.specs.Exchanges.{ComesTo, IsReceived, TakesPiece};
ghost use Rattle.mw_http.specs.Exchanges as spec;

use crate::hearing::{Heard, MAX_HEAD, Request, hear};
use crate::status::Status;
use arrayvec::ArrayVec;
use mw_session::{NoOthers, PeerStream, RecordedStream};
use std::io;
use std::io::ErrorKind;
use std::sync::Wait;

/// How many bytes are asked of the stream at a time.
const PIECE: usize = 512;

/// The bytes of a head so far.
type Bytes = ArrayVec<u8, MAX_HEAD>;

/// What came from a client.
#[derive(Drop)]
pub(crate) enum Came {
    /// A request.
    Asked(Request),
    /// What is refused with this status.
    Refused(Status),
    /// No whole head in time.
    Late,
    /// No whole head: the client sent no more.
    Ended,
    /// No whole head: a read failed.
    Failed,
}

/// Reads until a head is whole or is refused, or no more can be read. What comes after a head may be read in part, and isn't
/// looked at. It takes no memory.
pub(crate) fn receive_from<T: PeerStream, R: Wait>(
    rt: &R,
    stream: &mut RecordedStream<T>,
    names: &[String],
) -> Came
    ensures received { IsReceived (map string_bytes names.now) (reads_of stream.old) (reads_of stream.new) result }
    ensures writes { writes_of stream.new ≡ writes_of stream.old }
{
    let mut bytes = Bytes::new();
    for _ in 0..MAX_HEAD {
        if let Some(came) = receive_more(rt, stream, &mut bytes, names) {
            return came;
        }
    }
    unreachable!()
}

/// Reads once more after these bytes, and gives what came; None: there is no whole head yet.
fn receive_more<T: PeerStream, R: Wait>(
    rt: &R,
    stream: &mut RecordedStream<T>,
    bytes: &mut Bytes,
    names: &[String],
) -> Option<Came>
    requires { length bytes.old.items < MAX_HEAD }
    ensures comes { (start : ReadRecord) → reads_of stream.old ≡ with_read start bytes.old.items → NeedMore bytes.old.items
        → ComesTo (map string_bytes names.now) start (reads_of stream.new) bytes.old.items bytes.new.items result }
    ensures writes { writes_of stream.new ≡ writes_of stream.old }
{
    match read_more(rt, stream, bytes) {
        Ok(0) => Some(Came::Ended),
        Ok(_) => came_of(hear(bytes, names)),
        Err(fault) if is_late(&fault) => Some(Came::Late),
        Err(_) => Some(Came::Failed),
    }
}

/// Gives what came, by what was heard; None: no whole head yet.
fn came_of(heard: Heard) -> Option<Came>
    ensures { result ≡ spec.came_of heard }
{
    match heard {
        Heard::More => None,
        Heard::Asked(request) => Some(Came::Asked(request)),
        Heard::Refused(status) => Some(Came::Refused(status)),
    }
}

/// Tells whether a read failed because the client took too long.
fn is_late(fault: &io::Error) -> bool {
    matches!(fault.kind(), ErrorKind::TimedOut)
}

/// Reads once, and puts what was read after the bytes so far. Gives how many bytes it was.
fn read_more<T: PeerStream, R: Wait>(
    rt: &R,
    stream: &mut RecordedStream<T>,
    bytes: &mut Bytes,
) -> io::Result<usize>
    requires { length bytes.old.items < MAX_HEAD }
    ensures takes { TakesPiece (reads_of stream.old) (reads_of stream.new) bytes.old.items bytes.new.items result }
    ensures writes { writes_of stream.new ≡ writes_of stream.old }
{
    let mut piece = [0; PIECE];
    let room = (MAX_HEAD - bytes.len()).min(PIECE);
    read_piece(rt, stream, &mut piece[..room], bytes)
}

fn read_piece<T: PeerStream, R: Wait>(
    rt: &R,
    stream: &mut RecordedStream<T>,
    piece: &mut [u8],
    bytes: &mut Bytes,
) -> io::Result<usize>
    requires some { 0 < length piece.old }
    requires room { length bytes.old.items + length piece.old ≤ MAX_HEAD }
    ensures takes { TakesPiece (reads_of stream.old) (reads_of stream.new) bytes.old.items bytes.new.items result }
    ensures writes { writes_of stream.new ≡ writes_of stream.old }
{
    match stream.read(rt, &NoOthers, piece) {
        Ok(count) => {
            bytes.try_extend_from_slice(&piece[..count]).unwrap();
            Ok(count)
        }
        Err(fault) => Err(fault),
    }
}
