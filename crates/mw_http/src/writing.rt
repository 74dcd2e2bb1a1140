//! Writes a text to a client.
//!
//! `exchanges.rt` calls it. `specs/Exchanges` says what was written: change both together.
ghost use Rattle.std.specs.Prelude.{◌≡◌};
ghost use Rattle.mw_session.specs.KnownStreams.{reads_of, writes_of};
ghost use Rattle.mw_http.specs.Exchanges.{Writes};

use mw_session::{NoOthers, PeerStream, RecordedStream};
use std::sync::Wait;

/// Writes a text, in as many pieces as the stream wants. Tells whether all of it was taken; if not, a first part was, and
/// a write failed or took nothing.
pub(crate) fn write_all<T: PeerStream, R: Wait>(
    rt: &R,
    stream: &mut RecordedStream<T>,
    text: &[u8],
) -> bool
    ensures writes { Writes (writes_of stream.old) (writes_of stream.new) text.now result }
    ensures reads { reads_of stream.new ≡ reads_of stream.old }
{
    let mut rest = text;
    while !rest.is_empty() {
        // A write that failed took nothing.
        let taken = stream.write(rt, &NoOthers, rest).unwrap_or(0);
        if taken == 0 {
            return false;
        }
        rest = &rest[taken..];
    }
    true
}
