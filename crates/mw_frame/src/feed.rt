//! A feed: it takes a connection's bytes in pieces, and gives them back as lines.
//!
//! Used by: mw_session, which has one in each session. Callers see the stream of `specs/Stream`; the fields may
//! change with `specs/FeedBytes`.
ghost use Rattle.std.specs.Prelude.{◌≡◌, ℕ, List, [], ◌++◌, IsOk, IfOk, OnOk, OnErr, IfNone, slice_get};
ghost use Rattle.std.specs.Option.{option_to_list};
ghost use Rattle.mw_frame.specs.Stream.{Open, Ended, IsPart, behind, fed, lines_of};

use crate::lines::{Line, first_text, text_end};
use bytes::BytesMut;
use mw_words::MAX_LINE;
use std::alloc::{AllocError, Global};
use std::marker::Model;

/// The bytes of a stream that were fed and aren't given out yet.
///
/// [`feed`](Feed::feed) takes pieces and [`next`](Feed::next) gives lines, in any order. Call `next` until it gives
/// `None` to get all lines that are there. Then at most [`MAX_LINE`](mw_words::MAX_LINE) bytes are left.
///
/// Each byte is searched for a line feed once and copied out once, however small the pieces are. The room for the
/// bytes grows with the pieces, and is given back only when the feed is dropped. No contract states these costs.
#[derive(Drop)]
pub struct Feed {
    /// What was fed and isn't given out yet; nothing after a line was too long.
    bytes: BytesMut,
    /// So many bytes at the front are known to be no line feeds.
    searched: usize,
    /// A line was too long.
    ended: bool,
}

impl Model for Feed {
    ghost use Rattle.mw_frame.specs.Stream.{Stream};
    ghost use Rattle.mw_frame.specs.FeedBytes.{stream_of, IsKept};

    ghost Value = { Stream };

    ghost view = { λ f. stream_of f.ended f.bytes.items };

    ghost invariant = { λ f. IsKept f.bytes.items f.searched f.ended };
}

impl Feed {
    /// Makes a feed to which nothing was fed. It has room for a longest line with its line feed.
    ///
    /// # Errors
    ///
    /// [`AllocError`] if memory is out for that room.
    pub fn new(alloc: Global) -> Result<Feed, AllocError>
        ensures { IfOk result (λ feed. feed ≡ Open []) }
    {
        Ok(Feed {
            bytes: BytesMut::with_capacity(alloc, MAX_LINE + 1)?,
            searched: 0,
            ended: false,
        })
    }

    /// Takes the next piece of the stream, whole. After a line was too long, the piece is dropped, and no memory is
    /// needed.
    ///
    /// # Errors
    ///
    /// [`AllocError`] if memory is out for the piece. Nothing of it was taken, and the feed is as it was.
    #[tactic(auto, using(crate::proofs::Ends::searched_more))]
    pub fn feed(&mut self, piece: &[u8]) -> Result<(), AllocError>
        ensures ok { OnOk result (self.new ≡ fed self.old piece.now) }
        ensures err { OnErr result (self.new ≡ self.old) }
        ensures ended { self.old ≡ Ended → IsOk result }
    {
        if self.ended {
            return Ok(());
        }
        self.bytes.extend_from_slice(piece)
    }

    /// Gives the next line, if it is there. `None`: at most [`MAX_LINE`] bytes are left, without a line feed; or
    /// [`Line::TooLong`] was given. It takes no memory.
    pub fn next(&mut self) -> Option<Line>
        ensures first { result ≡ slice_get (lines_of self.old) 0 }
        ensures left { self.new ≡ behind result self.old }
        ensures part { IfNone result (IsPart self.new) }

        // Whatever comes later, the lines are the one that was given, and those that are left.
        ensures lines { (more : List ℕ) → lines_of (fed self.old more)
            ≡ option_to_list result ++ lines_of (fed self.new more) }
    {
        if self.ended {
            return None;
        }
        let end = text_end(self.bytes.as_slice(), self.searched);
        if end > MAX_LINE {
            self.bytes.clear();
            self.searched = 0;
            self.ended = true;
            return Some(Line::TooLong);
        }
        if end == self.bytes.len() {
            self.searched = end;
            return None;
        }
        let line = first_text(self.bytes.as_slice(), end);
        self.bytes.advance(end + 1);
        self.searched = 0;
        line
    }
}
