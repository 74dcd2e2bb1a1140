//! Writes a text to the client, and counts the bytes that were written.
//!
//! Called by `session.rt` alone. A session counts bytes so that it can tell how much was written before a write
//! failed.
ghost use Rattle.std.specs.Prelude.{◌≡◌};
ghost use Rattle.mw_session.specs.KnownStreams.{IsTied, reads_of, writes_of};
ghost use Rattle.mw_session.specs.RecordedCalls.{HasMade};
ghost use Rattle.mw_session.specs.SessionParts.{Writes};

use crate::recorded_stream::RecordedStream;
use crate::session::Ended;
use crate::stream::{Others, PeerStream};
use std::sync::Wait;

/// Writes a text, in as many pieces as the stream wants, and counts the bytes that the stream took. The count stops
/// at `u64::MAX`.
///
/// # Errors
///
/// [`Ended::WriteFault`] with the count, if a write fails or takes nothing of what is left. The stream then took
/// a first part of the text, and not all of it.
pub fn write_counted<T: PeerStream, R: Wait, O: Others>(
    rt: &R,
    others: &O,
    stream: &mut RecordedStream<T>,
    text: &[u8],
    count: &mut u64,
) -> Result<(), Ended>
    ensures writes { Writes (writes_of stream.old) (writes_of stream.new) count.old count.new text.now result }
    ensures reads { reads_of stream.new ≡ reads_of stream.old }
    ensures tied { IsTied T.remaining T.contents stream.old stream.new }
    ensures made { HasMade T.called stream.old stream.new }
{
    let mut rest = text;
    while !rest.is_empty() {
        // A write that failed took nothing.
        let taken = stream.write(rt, others, rest).unwrap_or(0);
        if taken == 0 {
            return Err(Ended::WriteFault(*count));
        }
        rest = &rest[taken..];
        *count = count.saturating_add(taken as u64);
    }
    Ok(())
}
