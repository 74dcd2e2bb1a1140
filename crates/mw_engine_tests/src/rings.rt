//! Lets eight workers change words at once, each its own and that of the next one, so that each meets two others.
//!
//! Used by: `plays`.
use crate::latch::{Latch, comes_to};
use crate::plays::Played;
use crate::workers::{Player, change};
use mw_words::Reply;

/// How many workers and words there are.
const RING: u8 = 8;

/// Asks for a worker's change of its own word and the next one's, from 0 to 1. The first worker's first sync lasts until
/// all others have come. Gives the reply, if there is one.
pub(crate) fn ask_own<W: Player>(worker: &mut W, latch: &Latch) -> Option<Reply> {
    let number = worker.number();
    let next = number.wrapping_add(1) % RING;
    if number > 0 {
        comes_to(&latch.has_stopped, 1);
        latch.leave();
    }
    let change = change(&[number.min(next), number.max(next)], 0, 1);
    worker.reply_to(b"t", &change, false)
}

/// Gives the reply of the worker with a number.
fn reply_of<W>(all: &[Played<W>], number: u8) -> Option<Reply> {
    match all.get(usize::from(number)) {
        Some(played) => played.reply,
        None => None,
    }
}

/// Tells whether a worker's reply is right beside those of the workers before and after it, and whether its own word is
/// then as this says: a change is made just if no neighbour's was, and a refused one tells a word that a neighbour has
/// changed.
fn is_right(
    number: u8,
    own: Option<Reply>,
    last: Option<Reply>,
    next: Option<Reply>,
    value: Option<Reply>,
) -> bool {
    let (last, next) = (last == Some(Reply::Yes), next == Some(Reply::Yes));
    let is_changed = match own {
        Some(Reply::Yes) if !last && !next => true,
        Some(Reply::No(addr, 1)) => {
            let is_own = addr == u16::from(number);
            if is_own && !last || !is_own && !next {
                return false;
            }
            last
        }
        _ => return false,
    };
    value == Some(Reply::Val(u64::from(is_changed)))
}

/// Tells whether all replies, and the words that the last worker then reads, are of one order of the changes.
pub(crate) fn are_right<W: Player>(all: &mut [Played<W>]) -> bool {
    let mut are_all = true;
    for number in 0..RING {
        let value = match all.get_mut(usize::from(RING - 1)) {
            Some(reader) => reader.player.read(b"t", u16::from(number)),
            None => None,
        };
        let own = reply_of(all, number);
        let last = reply_of(all, number.wrapping_add(RING - 1) % RING);
        let next = reply_of(all, number.wrapping_add(1) % RING);
        if !is_right(number, own, last, next, value) {
            are_all = false;
        }
    }
    are_all
}
