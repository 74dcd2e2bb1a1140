//! Tests how the pieces that a connection brings are cut into lines.
use crate::checks::{MEMORY, holds};
use mw_frame::*;
use mw_words::MAX_LINE;
use std::process::Abort;

/// What a feed gets, or what it must give next.
#[derive(Clone, Copy)]
enum Step {
    /// A piece comes.
    Piece(&'static [u8]),
    /// The next line is this one.
    Line(&'static [u8]),
    /// The next line is too long.
    TooLong,
    /// There is no whole line.
    Nothing,
}

/// The longest line, and one byte more than that.
const LONGEST: [u8; MAX_LINE] = [b'A'; MAX_LINE];

const TOO_MANY: [u8; MAX_LINE + 1] = [b'A'; MAX_LINE + 1];

/// Pieces, and the lines between them.
static ROWS: [(&str, &[Step]); 4] = [
    (
        "several lines in a piece",
        &[
            Step::Piece(b""),
            Step::Nothing,
            Step::Piece(b"GET 0\n\nQUIT\nGE"),
            Step::Line(b"GET 0"),
            Step::Line(b""),
            Step::Line(b"QUIT"),
            Step::Nothing,
            Step::Piece(b"T 1\n"),
            Step::Line(b"GET 1"),
            Step::Nothing,
        ],
    ),
    (
        "single bytes",
        &[
            Step::Piece(b"C"),
            Step::Nothing,
            Step::Piece(b"A"),
            Step::Nothing,
            Step::Piece(b"S"),
            Step::Nothing,
            Step::Piece(b" "),
            Step::Nothing,
            Step::Piece(b"0"),
            Step::Nothing,
            Step::Piece(b":"),
            Step::Nothing,
            Step::Piece(b"0"),
            Step::Nothing,
            Step::Piece(b":"),
            Step::Nothing,
            Step::Piece(b"1"),
            Step::Nothing,
            Step::Piece(b"\n"),
            Step::Line(b"CAS 0:0:1"),
            Step::Nothing,
        ],
    ),
    (
        "the longest line",
        &[
            Step::Piece(&LONGEST),
            Step::Nothing,
            Step::Piece(b"\n"),
            Step::Line(&LONGEST),
            Step::Nothing,
        ],
    ),
    (
        "a line too long, which comes while another one waits",
        &[
            Step::Piece(b"QUIT\n"),
            Step::Piece(&TOO_MANY),
            Step::Line(b"QUIT"),
            Step::TooLong,
            Step::Piece(b"\nGET 0\n"),
            Step::Nothing,
        ],
    ),
];

/// Tells whether a feed's next line is this one.
fn is_next(feed: &mut Feed, step: Step) -> bool {
    match (feed.next(), step) {
        (Some(Line::Text(text)), Step::Line(wanted)) => text.as_slice() == wanted,
        (Some(Line::TooLong), Step::TooLong) | (None, Step::Nothing) => true,
        _ => false,
    }
}

/// A feed gets this piece, or its next line is this one.
fn take<R: Abort>(rt: &R, row: &str, at: usize, feed: &mut Feed, step: Step) {
    match step {
        Step::Piece(piece) => feed.feed(piece).expect(rt, MEMORY),
        _ => holds(rt, row, at, is_next(feed, step)),
    }
}

/// A new feed gets these pieces, and gives the lines between them.
fn are_cut<R: Abort + AllocGlobal>(rt: &R, row: &str, steps: &[Step]) {
    let mut feed = Feed::new(rt.alloc()).expect(rt, MEMORY);
    for (at, step) in steps.iter().enumerate() {
        take(rt, row, at, &mut feed, *step);
    }
}

#[test]
fn pieces_are_cut_into_lines(rt: HostRuntime) {
    for (row, steps) in &ROWS {
        are_cut(&rt, row, steps);
    }
}
