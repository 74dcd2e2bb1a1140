//! Lets several workers count up the same words at once.
//!
//! Used by: `cases`, `plays`, `thread_tests`.
use crate::plays::Played;
use crate::workers::{Player, change};
use mw_words::{Job, MAX_VALUE, Reply};

/// How many changes each worker makes.
const CHANGES: u64 = 100;

/// The most requests for changes that a worker makes.
const MOST_REQUESTS: u32 = 100_000;

/// A race of the workers, each in a thread of its own. Each counts up word 0 of its tenant.
#[derive(Clone, Copy)]
pub(crate) struct Race<'c> {
    /// The name of each worker's tenant.
    pub(crate) names: &'c [&'c [u8]],
    /// The last value of the words.
    pub(crate) word: u64,
}

/// Reads word 0 of a tenant, and changes it to one more. A worker with an odd number makes each step by
/// itself. Gives true if the change was made.
fn adds_one<W: Player>(worker: &mut W, name: &[u8]) -> bool {
    match worker.reply_to(name, &Job::Get(0), false) {
        Some(Reply::Val(value)) if value < MAX_VALUE => {
            let by_steps = worker.number() % 2 == 1;
            worker.reply_to(name, &change(&[0], value, value + 1), by_steps) == Some(Reply::Yes)
        }
        _ => false,
    }
}

/// Counts up word 0 of a worker's tenant. Gives true when all changes are made.
pub(crate) fn counts_up<W: Player>(worker: &mut W, race: Race<'_>) -> bool {
    let Some(name) = race.names.get(usize::from(worker.number())) else {
        return false;
    };
    let mut made = 0u64;
    for _ in 0..MOST_REQUESTS {
        if adds_one(worker, name) {
            made = made.saturating_add(1);
        }
        if made >= CHANGES {
            return true;
        }
    }
    false
}

/// Tells whether a worker that has counted reads the last value of its tenant's word.
fn agrees<W: Player>(played: &mut Played<W>, race: Race<'_>) -> bool {
    let number = played.player.number();
    match race.names.get(usize::from(number)) {
        Some(name) => {
            played.went_well && played.player.read(name, 0) == Some(Reply::Val(race.word))
        }
        None => false,
    }
}

/// Tells whether each worker has counted, and reads the last value of its tenant's word, after it has met
/// the last worker.
pub(crate) fn all_agree<W: Player>(all: &mut [Played<W>], race: Race<'_>) -> bool {
    let Some((last, others)) = all.split_last_mut() else {
        return false;
    };
    let mut do_all = true;
    for other in others {
        last.player.meet(&mut other.player);
        if !agrees(other, race) {
            do_all = false;
        }
    }
    agrees(last, race) && do_all
}
