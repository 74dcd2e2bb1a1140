//! Cuts the bytes of a connection into lines, in whatever pieces they come.
//!
//! A [`Feed`] takes the pieces as they come and gives the lines of all the bytes that were fed, however these were
//! cut.
//!
//! A line is the bytes before a line feed, at most [`MAX_LINE`](mw_words::MAX_LINE) of them. If one byte more comes
//! without a line feed, [`Line::TooLong`] is given, once, and nothing follows it. Bytes after the last line feed stay
//! in the feed until more come.
//!
//! ```text
//! let mut feed = Feed::new(alloc)?;
//! feed.feed(b"GET 0\nGE")?;
//! feed.next();    // the text GET 0
//! feed.next();    // None
//! feed.feed(b"T 1\n")?;
//! feed.next();    // the text GET 1
//! ```
//!
//! Used by: mw_session, which sees the stream of `specs/Stream`; mw_connections, in contracts. How a feed keeps its
//! bytes may change.
#![tactic(auto)]

mod feed;
mod laws;
mod lines;

pub use feed::Feed;
pub use laws::{call_by_call, however_cut, lines_stay, texts_are_lines};
pub use lines::Line;
