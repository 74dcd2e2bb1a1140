//! Plays what workers do: one after the other, or each in a thread of its own.
//!
//! Used by: `cases`, `races`, `rings`.
use crate::cases::{Case, Play};
use crate::latch::{ByLatch, Latch, Place, comes_to};
use crate::races::{all_agree, counts_up};
use crate::rings::{are_right, ask_own};
use crate::sockets::are_served;
use crate::talks::Talk;
use crate::twins::answer_alike;
use crate::workers::Player;
use mw_disk::Disk;
use mw_plain::Plain;
use mw_session::Service;
use mw_words::Reply;
use std::alloc::Global;
use std::fs::File;
use std::net::{Net, TcpListener, TcpStream};
use std::rt::Files;
use std::sync::Wait;
use std::thread;
use std::thread::Threads;
use std::time::Clock;

/// A worker after it has done its part of what the workers do at once.
#[derive(Drop)]
pub(crate) struct Played<W> {
    pub(crate) player: W,
    /// Whether it could do its part, and what it was told.
    pub(crate) went_well: bool,
    pub(crate) reply: Option<Reply>,
}

/// Tells whether the workers do what the case says.
pub(crate) fn is_done<W, D, R>(
    rt: &R,
    alloc: Global,
    workers: Vec<W>,
    case: &Case<'_>,
    hold: ByLatch<'_>,
    plain: &mut Option<Plain<D>>,
) -> bool
where
    W: Player + Service + Send + Drop,
    D: Disk + Drop,
    R: Files<File = File>
        + Net<Listener = TcpListener, Stream = TcpStream>
        + Threads
        + Wait
        + Clock
        + Sync,
{
    match case.play {
        Play::Talks(_) | Play::Beside(_) => are_done_in_turn(alloc, workers, case, plain),
        Play::Sockets => are_served(rt, alloc, workers, hold.latch),
        Play::Story(_) | Play::Race(_) | Play::Ring => {
            are_done_at_once(rt, alloc, workers, case, hold)
        }
    }
}

/// Tells whether the workers, one after the other, do what the case says.
fn are_done_in_turn<W: Player + Service + Drop, D: Disk>(
    alloc: Global,
    workers: Vec<W>,
    case: &Case<'_>,
    plain: &mut Option<Plain<D>>,
) -> bool {
    let mut workers = workers;
    match (case.play, plain) {
        (Play::Talks(talks), _) => are_told(alloc, &mut workers, talks),
        (Play::Beside(first), Some(plain)) => answer_alike(&mut workers, plain, first),
        _ => false,
    }
}

/// Tells whether a session of each worker, one after the other, is told what it must be told: that of the talk of its
/// number, if there is one.
fn are_told<W: Player>(alloc: Global, workers: &mut [W], talks: &[Talk<'_>]) -> bool {
    let mut are_all = true;
    for worker in workers {
        if !worker.is_told(alloc, talks) {
            are_all = false;
        }
    }
    are_all
}

/// Tells whether the workers, each in a thread of its own, do what the case says.
fn are_done_at_once<W: Player + Send + Drop, R: Threads + Sync>(
    rt: &R,
    alloc: Global,
    workers: Vec<W>,
    case: &Case<'_>,
    hold: ByLatch<'_>,
) -> bool {
    hold.latch.set(workers.len() as u64);
    match thread::map_vec(rt, workers, &|worker| done_by(alloc, worker, case, hold)) {
        Ok(all) => {
            let mut all = all;
            have_done(&mut all, case, hold)
        }
        Err(_) => false,
    }
}

/// Tells whether the workers, after they have done their parts at once, have done what the case says.
fn have_done<W: Player>(all: &mut [Played<W>], case: &Case<'_>, hold: ByLatch<'_>) -> bool {
    match case.play {
        Play::Race(race) => all_agree(all, race),
        Play::Ring => are_right(all) && hold.latch.has_held(),
        _ => all_went_well(all) && have_held(hold),
    }
}

/// Gives a worker after it has done its part, in its own thread.
fn done_by<W: Player>(alloc: Global, worker: W, case: &Case<'_>, hold: ByLatch<'_>) -> Played<W> {
    let mut played = Played {
        player: worker,
        went_well: false,
        reply: None,
    };
    match case.play {
        Play::Story(talks) => {
            played.went_well = plays(alloc, &mut played.player, talks, hold);
        }
        Play::Race(race) => played.went_well = counts_up(&mut played.player, race),
        _ => played.reply = ask_own(&mut played.player, hold.latch),
    }
    played
}

/// Tells whether a worker of a story is told what it must be told. The workers that are not held wait until the others
/// are.
fn plays<W: Player>(alloc: Global, worker: &mut W, talks: &[Talk<'_>], hold: ByLatch<'_>) -> bool {
    let latch = hold.latch;
    let number = u64::from(worker.number());
    if number == 0 || matches!(latch.stop.place, Place::AllButOne(_)) && number != 1 {
        // Whoever comes later begins when those before it are stopped.
        let is_next = comes_to(&latch.came, number.saturating_sub(1));
        return is_next && worker.is_told(alloc, talks);
    }
    let has_stopped = comes_to(&latch.has_stopped, 1);
    let is_next = !latch.stop.gathers || number != 3 || begins_sync(hold.second);
    let told = worker.is_told(alloc, talks);
    latch.leave();
    has_stopped && is_next && told
}

/// Waits until two workers have gathered. Then the next sync is held.
fn begins_sync(second: &Latch) -> bool {
    let have_gathered = comes_to(&second.gathered, 2);
    second.set(3);
    have_gathered
}

/// Tells whether those that were to be held were, until the others had left.
fn have_held(hold: ByLatch<'_>) -> bool {
    hold.latch.has_held() && (!hold.latch.stop.gathers || hold.second.has_held())
}

/// Tells whether each worker could do its part.
fn all_went_well<W>(all: &[Played<W>]) -> bool {
    let mut did_all = true;
    for played in all {
        if !played.went_well {
            did_all = false;
        }
    }
    did_all
}
