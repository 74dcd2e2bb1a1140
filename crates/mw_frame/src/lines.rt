//! Defines a line (a text, or one that is too long), finds where the first text of some bytes ends, and copies it.
//!
//! Used by: `feed.rt`, mw_session. A new kind of line needs a case in `specs/Lines` and `specs/Stream`, and in
//! mw_session.
ghost use Rattle.std.specs.Prelude.{◌≡◌, ◌≤◌, ◌<◌, length, Some, slice_get, take};
ghost use Rattle.mw_frame.specs.Lines.{lines, text_line};
ghost use Rattle.mw_frame.specs.FeedBytes.{text_len};

use arrayvec::ArrayVec;
use mw_words::MAX_LINE;

/// The byte that ends a line.
const LINE_FEED: u8 = b'\n';

/// A line, as a feed gives it.
#[derive(PartialEq, Eq, Drop)]
pub enum Line {
    /// The bytes before a line feed, without it. There may be none.
    Text(ArrayVec<u8, MAX_LINE>),
    /// More than [`MAX_LINE`] bytes came without a line feed. Nothing follows.
    TooLong,
}

/// Tells where the text of the first line ends: how many bytes are before the first line feed, or all of them if there
/// is none. The first `searched` bytes must be known to be no line feeds. They aren't looked at.
#[tactic(auto, using(crate::proofs::Ends::ends))]
pub fn text_end(bytes: &[u8], searched: usize) -> usize
    requires { searched ≤ text_len bytes.now }
    ensures end { result ≡ text_len bytes.now }
    ensures within { result ≤ length bytes.now }
{
    searched + text_len(&bytes[searched..])
}

/// How many bytes are before the first line feed; all of them if there is none.
#[tactic(auto, unfolding(crate::specs::FeedBytes::text_len))]
fn text_len(bytes: &[u8]) -> usize
    ensures { result ≡ text_len bytes.now }
{
    bytes.iter().take_while(|byte| **byte != LINE_FEED).count()
}

/// Gives the first line of these bytes, which is a text of so many bytes. Its line feed comes after them. The bytes are
/// copied once.
#[tactic(auto, using(crate::proofs::Ends::first_text))]
pub fn first_text(bytes: &[u8], end: usize) -> Option<Line>
    requires is_end { end ≡ text_len bytes.now }
    requires line_feed { end < length bytes.now }
    requires fits { end ≤ MAX_LINE }
    ensures first { result ≡ slice_get (lines bytes.now) 0 }
    ensures text { result ≡ Some (text_line (take end bytes.now)) }
{
    let mut text = ArrayVec::new();
    text.try_extend_from_slice(&bytes[..end]).unwrap();
    Some(Line::Text(text))
}
